//! A run is found that has what is seen of a cell from outside (`seen`): of a replay at random (`watched`), and by
//! three threads (`threads`).
#![tactic(auto)]

#[cfg(test)]
mod same;
#[cfg(test)]
mod seen;
#[cfg(test)]
mod threads;
#[cfg(test)]
mod watched;
