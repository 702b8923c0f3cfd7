//! What cells do for several threads, and how threads wait for them.
#![tactic(auto)]

#[cfg(test)]
mod cells;
#[cfg(test)]
mod doubles;
#[cfg(test)]
mod waits;
