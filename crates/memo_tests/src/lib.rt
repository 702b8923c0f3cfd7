//! Tests of `memo_table`, in what its contracts do not say, and callers of it that need no more than they say.
#![tactic(auto)]

pub mod callers;
#[cfg(test)]
mod tests;
