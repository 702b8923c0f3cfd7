//! The machine under test, in what no clause says of it: memory, wakers, sizes, locks, and what is printed.
//!
//! `book_uses` runs the uses of `pagebook`. `fills` and `room` have what the list of those that wait takes of memory.
//! `parts` has the parts of a cell alone, by hand; `scenes` has tasks over them step by step, and `calls` by whole
//! calls. Both are texts that `scene` plays, of tasks whose sides (`side`) poll inits (`poller`) and have wakers
//! (`bell`) of their own.
#![tactic(auto)]

#[cfg(test)]
mod bell;
#[cfg(test)]
mod book_uses;
#[cfg(test)]
mod calls;
#[cfg(test)]
mod drains;
#[cfg(test)]
mod fills;
#[cfg(test)]
mod parts;
#[cfg(test)]
mod poller;
#[cfg(test)]
mod room;
#[cfg(test)]
mod same;
#[cfg(test)]
mod scene;
#[cfg(test)]
mod scenes;
#[cfg(test)]
mod side;
