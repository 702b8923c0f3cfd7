//! A setting that threads load, and load anew.
ghost use Rattle.std.specs.Prelude.{◌≡◌, Some, IfOk};

use crate::fault::Fault;
use crate::told::told_alone;
use async_once_cell::OnceCell;
use async_once_cell::once::Known;
use futures::Future;
use futures::task::{Context, Poll};
use std::alloc::AllocGlobal;
use std::random::RandomSource;
use std::sync::Wait;
use std::sync::atomic::{AtomicU64, Ordering};
use std::thread::{self, Threads};

/// The init: it loads a setting, and counts that.
#[derive(Drop)]
pub struct Load<'a> {
    /// What it finds.
    pub found: Result<u64, u64>,
    /// Where it is counted.
    pub loads: &'a AtomicU64,
}

impl Future for Load<'_> {
    type Output = Result<u64, u64>;

    fn poll(&mut self, _cx: &mut Context<'_>) -> Poll<Result<u64, u64>> {
        self.loads.fetch_add(1, Ordering::SeqCst);
        Poll::Ready(self.found)
    }
}

/// What a caller is told of a setting: what was loaded before, or what its own load finds. The token knows it then.
pub fn loaded<'a, R>(
    rt: &'a R,
    cell: &'a OnceCell<u64>,
    load: Load<'a>,
    token: &mut Known<'a, u64>,
) -> Result<u64, Fault>
where
    R: Wait + RandomSource + AllocGlobal,
    requires token_of_this_cell { token.old.cell ≡ cell.now }
    ensures cell { token.new.cell ≡ token.old.cell }
    ensures value { IfOk result (λ value. token.new.value ≡ Some value) }
{
    match cell.get_or_try_init(rt, load).wait_as(token)? {
        Ok(value) => Ok(*value),
        Err(error) => match error.own() {
            Ok(own) => Err(Fault::NotLoaded(own)),
            Err(refused) => Err(Fault::Refused(refused)),
        },
    }
}

/// What a thread is told, and its token.
fn told<'a, R>(
    rt: &'a R,
    cell: &'a OnceCell<u64>,
    found: u64,
    loads: &'a AtomicU64,
) -> Result<(u64, Known<'a, u64>), Fault>
where
    R: Wait + RandomSource + AllocGlobal,
    ensures { IfOk result (λ told. (told.1.cell ≡ cell.now) × (told.1.value ≡ Some told.0)) }
{
    let mut token = cell.token();
    let found = Ok(found);
    let value = loaded(rt, cell, Load { found, loads }, &mut token)?;
    Ok((value, token))
}

/// What two threads are told of a setting that both load at once: one value. Each brings a load of its own, and one of
/// the two loads.
fn told_both<'a, R>(
    rt: &'a R,
    cell: &'a OnceCell<u64>,
    found: u64,
    loads: &'a AtomicU64,
) -> Result<(u64, u64), Fault>
where
    R: Threads + Wait + RandomSource + AllocGlobal + Sync,
    ensures { IfOk result (λ told. told.0 ≡ told.1) }
{
    let one = move || -> Result<(u64, Known<'_, u64>), Fault>
        ensures { IfOk result (λ told. (told.1.cell ≡ cell.entry.now) × (told.1.value ≡ Some told.0)) }
    { told(rt, cell, found, loads) };
    let other = move || -> Result<(u64, Known<'_, u64>), Fault>
        ensures { IfOk result (λ told. (told.1.cell ≡ cell.entry.now) × (told.1.value ≡ Some told.0)) }
    { told(rt, cell, found, loads) };
    let (one, other) = thread::join(rt, one, other);
    let (first, known) = one?;
    let (second, as_known) = other?;
    Known::compare(&known, &as_known);
    Ok((first, second))
}

/// What a load that finds nothing is told: its own error, and by the record nobody else was told that.
fn failed<R>(rt: &R, cell: &OnceCell<u64>, loads: &AtomicU64) -> Result<u64, Fault>
where
    R: Wait + RandomSource + AllocGlobal,
{
    let (mut token, found) = (cell.token(), Err(404));
    let told = loaded(rt, cell, Load { found, loads }, &mut token);
    told_alone(&token);
    told
}

/// What a load is told that fails, what two threads are told then, and two more once the setting was given back, so
/// that it is loaded anew. At last, how many loads there were.
pub fn load_twice<R>(rt: &R) -> (Result<u64, Fault>, [Result<(u64, u64), Fault>; 2], u64)
where
    R: Threads + Wait + RandomSource + AllocGlobal + Sync,
{
    let (mut cell, loads) = (OnceCell::new(), AtomicU64::new(0));
    let error = failed(rt, &cell, &loads);
    let first = told_both(rt, &cell, 80, &loads);
    cell.take();
    let second = told_both(rt, &cell, 8080, &loads);
    (error, [first, second], loads.load(Ordering::SeqCst))
}
