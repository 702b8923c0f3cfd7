//! A value whose type has a fact, so that each reader of the cell knows it.
ghost use Rattle.std.specs.Prelude.{◌≡◌, ◌*◌, ◌^◌, ◌<◌, IfOk, IfSome};

use crate::fault::Fault;
use async_once_cell::OnceCell;
use futures::future::ready;
use std::alloc::AllocGlobal;
use std::random::RandomSource;
use std::sync::Wait;

/// What was fetched for a key: ten times the key. A `Fetched` with any other value is not proved.
#[derive(Drop)]
struct Fetched {
    key: u64,
    value: u64,
    ghost ten_times: { value ≡ key * 10 },
}

/// A key and its value, if the cell is filled. Whatever filled it, the value is ten times the key.
fn look(cell: &OnceCell<Fetched>) -> Option<(u64, u64)>
    ensures { IfSome result (λ seen. seen.1 ≡ seen.0 * 10) }
{
    let fetched = cell.get()?;
    Some((fetched.key, fetched.value))
}

/// A key and its value: those that are there, or those of this key.
fn told<R>(rt: &R, cell: &OnceCell<Fetched>, key: u64) -> Result<(u64, u64), Fault>
where
    R: Wait + RandomSource + AllocGlobal,
    requires { key * 10 < 2 ^ 64 }
    ensures { IfOk result (λ told. told.1 ≡ told.0 * 10) }
{
    let value = key * 10;
    let fetched = cell.get_or_init(rt, ready(Fetched { key, value })).wait()??;
    Ok((fetched.key, fetched.value))
}

/// What two calls are told of a cell, and what a look finds then.
pub fn ask_twice<R>(rt: &R) -> ([Result<(u64, u64), Fault>; 2], Option<(u64, u64)>)
where
    R: Wait + RandomSource + AllocGlobal,
{
    let cell = OnceCell::new();
    let told = [told(rt, &cell, 7), told(rt, &cell, 8)];
    (told, look(&cell))
}
