//! How many bytes things have.

use async_once_cell::{InitFuture, Known, Lazy, LazyFuturePin, OnceCell, TryInitFuture};
use futures::future::Ready;
use std::alloc::AllocGlobal;
use std::io;
use std::mem::size_of;
use std::sync::Wait;

type Init = Ready<u64>;

type TryInit = Ready<Result<u64, u64>>;

/// The size of each type, at a value of eight bytes and an init that is ready.
fn sizes<R: Wait + AllocGlobal>() -> [(&'static str, usize); 6] {
    [
        ("OnceCell", size_of::<OnceCell<u64>>()),
        ("Lazy", size_of::<Lazy<u64, Init>>()),
        ("InitFuture", size_of::<InitFuture<'_, u64, Init, R>>()),
        (
            "TryInitFuture",
            size_of::<TryInitFuture<'_, u64, u64, TryInit, R>>(),
        ),
        (
            "LazyFuturePin",
            size_of::<LazyFuturePin<'_, u64, Init, R>>(),
        ),
        ("Known", size_of::<Known<'_, u64>>()),
    ]
}

/// Prints the size of each type.
pub fn print<R>(rt: &R) -> io::Result<()>
where
    R: Print + Wait + AllocGlobal,
{
    println!(rt;
        "a value {}, an init {}",
        size_of::<u64>(),
        size_of::<Init>()
    )?;
    for (name, size) in sizes::<R>() {
        println!(rt; "{name} {size}")?;
    }
    Ok(())
}
