//! Uses of `pagebook`, each with two threads: what they are told stands in clauses.
//!
//! - `first`: two come to a line, and not both are told that they came first. The smallest whole program.
//! - `hall`: visitors come and go, and an addition counts them. The page of the desk lies under a lock.
//! - `shelf`: a value that is put once, and read by tokens.
//! - `memo`: a value of which something is promised beforehand, and read without tokens.
//! - `turns`: two words, which two players change in turn.
//! - `tickets`: numbers that threads draw, no number twice. The pages are lists of a specification.
#![tactic(auto)]

pub mod first;
pub mod hall;
pub mod memo;
pub mod shelf;
pub mod tickets;
pub mod turns;
