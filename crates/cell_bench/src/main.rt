//! Makes operations of the cells, each as often as it is told to.
//!
//! Each line of standard input names an operation of `rounds` and says how often it is made, as `get 1000`. For each
//! line one is printed: the same words, and the sum of the values and errors that the polls and looks answered, each of
//! which is 1; for `lost_wake` it is how many waiters were lost.
#![tactic(auto)]

mod failures;
mod lost_wake;
mod rounds;
mod switch;
mod threads;
mod waits;

use futures::task::{Context, Doorbell, Solo};
use rounds::perform;
use std::alloc::AllocGlobal;
use std::io;
use std::random::RandomSource;
use std::sync::Wait;
use std::thread::Threads;

// All polls are of one task.
fn main(rt: HostRuntime) -> io::Result<()> {
    let task = Solo::new(&rt, Doorbell::parking())?;
    let mut cx = task.begin();
    let done = answer_each(&rt, &mut cx);
    cx.cancel();
    done
}

fn answer_each<R>(rt: &R, cx: &mut Context<'_>) -> io::Result<()>
where
    R: Input + Print + AllocGlobal + Wait + RandomSource + Threads + Sync,
{
    for line in rt.lines(rt.alloc()) {
        answer(rt, line?.as_str(), cx)?;
    }
    Ok(())
}

fn answer<R>(rt: &R, line: &str, cx: &mut Context<'_>) -> io::Result<()>
where
    R: Print + AllocGlobal + Wait + RandomSource + Threads + Sync,
{
    let sum = sum_of(rt, line, cx)?;
    println!(rt; "{line} {sum}")
}

/// Makes what a line says, and gives the sum.
fn sum_of<R>(rt: &R, line: &str, cx: &mut Context<'_>) -> io::Result<u64>
where
    R: AllocGlobal + Wait + RandomSource + Threads + Sync,
{
    let (name, count) = line.split_once(' ').unwrap_or((line, ""));
    match count.parse::<u64>() {
        Ok(count) => perform(rt, name, count, cx),
        Err(_) => Err(io::Error::other("a line is an operation and a count")),
    }
}
