//! Tests of what cells do on one thread, by their public calls alone.
#![tactic(auto)]

#[cfg(test)]
mod doubles;
#[cfg(test)]
mod lazy;
#[cfg(test)]
mod once;
#[cfg(test)]
mod paths;
#[cfg(test)]
mod pending;
