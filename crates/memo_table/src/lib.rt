//! A table whose values are fetched once, and two threads that ask it. The program `memo` is its [`run`](program::run).
//!
//! It is a model of a small program over the cells. `table` has a cell for each key, which may promise its value, and
//! `fetch` the init of a cell. `ask` has the threads, and `fault` why a run gives up. `program` has a whole run. What
//! contracts do not say is in `memo_tests`.
#![tactic(auto)]

pub mod ask;
pub mod fault;
pub mod fetch;
pub mod program;
pub mod table;
