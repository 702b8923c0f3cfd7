//! Tasks of a pool that share one cell.

use crate::fault::Fault;
use crate::slow::Slow;
use crate::told::one_is_called;
use async_once_cell::OnceCell;
use async_once_cell::once::InitFuture;
use futures::Future;
use futures::executor::LocalPool;
use futures::task::{Context, Poll};
use std::alloc::{AllocError, AllocGlobal};
use std::cell::Cell;
use std::random::RandomSource;
use std::sync::Wait;

/// A task: it asks the cell, and keeps what it is told.
#[derive(Drop)]
struct Asking<'a, R: Wait + AllocGlobal> {
    future: InitFuture<'a, u64, Slow, R>,
    told: &'a Cell<Option<u64>>,
}

impl<R: Wait + AllocGlobal> Future for Asking<'_, R> {
    type Output = ();

    fn poll(&mut self, cx: &mut Context<'_>) -> Poll<()> {
        match Future::poll(&mut self.future, cx) {
            Poll::Pending => Poll::Pending,
            Poll::Ready(answer) => {
                self.told.set(answer.ok().copied());
                Poll::Ready(())
            }
        }
    }
}

/// Runs one task for each of these places, until all were told. The init of a task lets the others run once, and then
/// gives the task's number.
fn run_tasks<'a, R>(
    rt: &'a R,
    cell: &'a OnceCell<u64>,
    places: &'a [Cell<Option<u64>>],
) -> Result<(), Fault>
where
    R: Wait + RandomSource + AllocGlobal,
{
    let mut pool = LocalPool::new(rt)?;
    let spawner = pool.spawner()?;
    for (number, told) in places.iter().enumerate() {
        let future = cell.get_or_init(rt, Slow::new(1, number as u64));
        if spawner.spawn(Asking { future, told }).is_err() {
            return Err(Fault::Memory(AllocError));
        }
    }
    pool.run(rt);
    Ok(())
}

/// What four tasks of a pool were told of a new cell. At no moment of the record that the token has seen did all of
/// them sleep while the cell was free and one of them waited: some task was woken then.
pub fn ask<R>(rt: &R) -> Result<[Option<u64>; 4], Fault>
where
    R: Wait + RandomSource + AllocGlobal,
{
    let cell = OnceCell::new();
    let told = [
        Cell::new(None),
        Cell::new(None),
        Cell::new(None),
        Cell::new(None),
    ];
    run_tasks(rt, &cell, &told)?;
    let mut token = cell.token();
    cell.get_as(&mut token);
    one_is_called(&token);
    let [one, two, three, four] = told;
    Ok([one.get(), two.get(), three.get(), four.get()])
}
