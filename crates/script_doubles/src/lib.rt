//! What the tests of scripts, of the judge and of what is shown share: numbers at random, and records of replays at
//! random.
#![tactic(auto)]

pub mod chance;
pub mod records;
