//! What such cells are for: what a Rust programmer writes with `async`, the examples of doc comments, settings that
//! are read once, a connection, a pool of tasks, a setting that threads load anew, a cell that threads own together,
//! many threads, tasks that give up, and a value whose type has a fact. Besides, what a caller can say of order, which
//! value a poll answered, whose error it is told, what the owner of a cell gets, also of a lazy one, what a cell
//! promises of its value, and what is left by a call. At last, how a program has judged what it sees of a cell, and how
//! one replays, judges and draws what stands in texts.
//!
//! Ten contracts that a caller may want, each of a function that needs no proof file:
//!
//! - two callers are told the same without a token: `told_one_value` of `values`
//! - a retry that tells an error tells one of its own: `own_error_by_second_try` of `errors`
//! - a lazy cell over another has the value that its future gives: `told` of `layers`
//! - a poll after a look that found the value answers a value: `polled_after_look` of `order`
//! - an owner takes what a wait was told: `takes_what_it_waited_for` of `owner`
//! - two futures of a cell in one task of an executor are two tasks of the cell: `two_tasks` of `told`
//! - nobody is told a value before it is set: `looked` and `polled` of `refusals`
//! - what a cell promises of its value is known on any thread: `asked_and_looked` of `promised`
//! - while my init runs no other does: `one_runs` of `refusals`
//! - what a refused poll leaves, and what its error says: `refusal_of` of `refusals`, `is_down` of `connection`
#![tactic(auto)]

mod by_type;
mod connection;
mod errors;
mod examples;
mod fault;
mod from_rust;
mod giving_up;
mod judged;
mod layers;
mod lazy;
mod leaves;
mod many_threads;
mod order;
mod owned_together;
mod owner;
mod pool;
mod promised;
mod refusals;
mod reload;
mod settings;
mod slow;
mod stored;
mod told;
mod values;

use fault::Fault;
use std::alloc::AllocGlobal;
use std::fmt::Debug;
use std::fs::Files;
use std::process::ExitCode;
use std::random::RandomSource;
use std::sync::Wait;
use std::thread::Threads;

/// Prints a value.
fn print_value<R, T>(rt: &R, name: &str, value: T) -> Result<(), Fault>
where
    R: Print,
    T: Debug + Drop,
{
    println!(rt; "{name}: {value:?}")?;
    Ok(())
}

/// Prints what an example gives.
fn print<R, T, E>(rt: &R, name: &str, given: Result<T, E>) -> Result<(), Fault>
where
    R: Print,
    T: Debug + Drop,
    E: Drop,
    Fault: From<E>,
{
    print_value(rt, name, given?)
}

/// Prints what such cells do for programs.
fn show_programs<R>(rt: &R) -> Result<(), Fault>
where
    R: Print + Threads + Wait + RandomSource + AllocGlobal + Copy + Send + Sync + 'static,
{
    print_value(rt, "three connections", connection::connect_thrice(rt))?;
    print(rt, "four tasks of a pool", pool::ask(rt))?;
    print_value(rt, "loaded, and loaded anew", reload::load_twice(rt))?;
    print(rt, "two owners", owned_together::ask_twice(*rt))?;
    print(rt, "eight threads", many_threads::ask(rt))?;
    print(rt, "two of three gave up", giving_up::ask_thrice(rt))?;
    print_value(rt, "ten times the key", by_type::ask_twice(rt))?;
    print_value(rt, "three threads saw a run", judged::ask_thrice(rt))
}

/// Prints what callers are told whose functions have contracts.
fn show_contracts<R>(rt: &R) -> Result<(), Fault>
where
    R: Print + Threads + Wait + RandomSource + AllocGlobal + Sync,
{
    print(rt, "two tasks, and one later", order::ask_late(rt))?;
    print(rt, "polled without a token", values::ask(rt))?;
    print(rt, "inits that fail", errors::fail_twice(rt))?;
    print(rt, "what an owner was told and has", owner::ask_twice(rt))?;
    print(rt, "the same of a lazy cell", lazy::ask(rt))?;
    print(rt, "even", promised::ask(rt))?;
    print(rt, "a lazy value of a key", promised::ask_by_key(rt))?;
    print(rt, "told once another left", leaves::ask(rt))?;
    print(rt, "a lazy cell over another, by type", layers::ask(rt))?;
    print(rt, "told no value", refusals::ask(rt))
}

fn run<R>(rt: &R) -> Result<(), Fault>
where
    R: Print + Files + Threads + Wait + RandomSource + AllocGlobal,
    R: Copy + Send + Sync + 'static,
{
    from_rust::show(rt)?;
    examples::show(rt)?;
    settings::show(rt)?;
    show_programs(rt)?;
    show_contracts(rt)?;
    stored::show(rt)
}

fn main(rt: HostRuntime) -> ExitCode {
    match run(&rt) {
        Ok(()) => ExitCode::SUCCESS,
        Err(fault) => {
            let _ = eprintln!(rt; "{fault}");
            ExitCode::FAILURE
        }
    }
}
