//! What a Rust programmer writes with `async`, as it is written here. `docs/FROM_RUST.md` quotes each
//! file beside its Rust.

mod graph;
mod lazy;
mod lent;
mod own_error;
mod own_init;
mod sizes;
mod token;

use crate::{fault, print, print_value};
pub use own_error::Fault;
use std::alloc::AllocGlobal;
use std::random::RandomSource;
use std::sync::Wait;
use std::thread::Threads;

/// Prints what each of the programs gives, and how many bytes things have.
pub fn show<R>(rt: &R) -> Result<(), fault::Fault>
where
    R: Print + Threads + Wait + RandomSource + AllocGlobal + Sync,
{
    print(rt, "lent to two threads", lent::ask_twice(rt))?;
    print(rt, "an init of one's own", own_init::ask_twice(rt))?;
    print_value(rt, "an error of one's own", own_error::ask_thrice(rt))?;
    print(rt, "a lazy cell", lazy::ask_twice(rt))?;
    print(rt, "a lazy cell over another", graph::ask(rt))?;
    print(rt, "a token", token::ask_twice(rt))?;
    sizes::print(rt)?;
    Ok(())
}
