//! Whole calls over cells beside a replay of the machine, on one thread.
#![tactic(auto)]

#[cfg(test)]
mod calls;
