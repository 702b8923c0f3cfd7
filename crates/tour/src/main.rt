//! A memo of one value, and a value that two threads ask for.
#![tactic(auto)]

use async_once_cell::{Lazy, OnceCell};
use futures::future::{Ready, ready};
use std::alloc::AllocGlobal;
use std::random::RandomSource;
use std::sync::Wait;
use std::{io, thread};

fn forced<R>(rt: &R, lazy: &Lazy<u64, Ready<u64>>) -> io::Result<u64>
where
    R: Wait + RandomSource + AllocGlobal,
{
    Ok(*lazy.get(rt).wait()??)
}

fn main(rt: HostRuntime) -> io::Result<()> {
    let cell = OnceCell::new();
    println!(rt; "{}", cell.get_or_init(&rt, ready(4)).wait()??)?; // 4
    println!(rt; "{}", cell.get_or_init(&rt, ready(5)).wait()??)?; // 4: this init is not polled

    let lazy = Lazy::new(ready(3));
    let (here, there) = thread::join(&rt, || forced(&rt, &lazy), || forced(&rt, &lazy));
    println!(rt; "{} {}", here?, there?) // 3 3
}
