//! What a cell that is set shows while the init of a future is dropped that waits and leaves.
ghost use Rattle.std.specs.Prelude.{◌≡◌, IfSome, false};

use crate::doubles::expected::cell_shows;
use crate::doubles::other::{Meddling, Other};
use crate::doubles::poll::heard;
use crate::doubles::same;
use crate::doubles::stub::Stub;
use async_once_cell::OnceCell;
use async_once_cell::once::InitFuture;
use async_once_cell::record::Reply;
use futures::Future;
use futures::task::Context;
use futures::test::MockTask;
use std::alloc::AllocGlobal;
use std::sync::Wait;
use std::test::Fail;

// The value is set, and the future that leaves is counted still.
const COUNTED: &str = "v2 1 queue";

// An init that looks at its cell when it is dropped, and else does as its stub says.
type Looking<'o, 'a, R> = Meddling<'o, 'a, u64, R>;

// A future that waits, while another sets the value of the cell to 2. None if it does not wait.
fn waiter<'s, 'o, 'a, R: Wait + AllocGlobal>(
    rt: &'s R,
    cell: &'s OnceCell<u64>,
    looking: Looking<'o, 'a, R>,
    cx: &mut Context<'_>,
) -> Option<InitFuture<'s, u64, Looking<'o, 'a, R>, R>>
    ensures { IfSome result (λ f. (f.cell ≡ cell.now) × (f.finished ≡ false)) }
{
    let stub = Stub::new();
    let mut holder = cell.get_or_init(rt, stub.init());
    let mut waiter = cell.get_or_init(rt, looking);
    let (first, second) = (holder.poll(cx), waiter.poll(cx));
    if first.is_ready() || second.is_ready() {
        return None;
    }
    stub.answer.set(Some(2));
    let _ = holder.poll(cx);
    Some(waiter)
}

// What a poll with a token that knows the value answers to a future that waits, whose init then looks for this.
fn left_by_a_poll<'o, R: Wait + AllocGlobal>(
    rt: &R,
    (cell, text): (&OnceCell<u64>, &'o str),
    (other, stub): (&'o Other<'_, R>, &'o Stub<u64>),
    cx: &mut Context<'_>,
) -> Option<Reply> {
    let mut waiter = waiter(rt, cell, Meddling::new(other, stub, ("", text)), cx)?;
    let mut token = cell.token();
    let _ = cell.get_as(&mut token);
    Some(heard(waiter.poll_as(cx, &mut token)))
}

// The same, and whether the init found it.
fn found<'s, R: Wait + AllocGlobal>(
    rt: &'s R,
    cell: &'s OnceCell<u64>,
    task: &'s MockTask,
    stub: &Stub<u64>,
) -> (Option<Reply>, Option<bool>) {
    let other = Other::new(cell, rt, Some(task));
    let told = task.enter(|cx| left_by_a_poll(rt, (cell, COUNTED), (&other, stub), cx));
    (told, other.found.get())
}

/// A future that waits leaves its cell when it is polled with a token that knows the value. Its init is not polled
/// again, and is dropped before it leaves.
#[test]
fn init_dropped_before_a_knowing_poll_leaves(rt: HostRuntime) -> Result<(), Fail> {
    let (task, cell, stub) = (MockTask::new(&rt)?, OnceCell::new(), Stub::new());
    let found = found(&rt, &cell, &task, &stub);
    same(
        &rt,
        "told and found",
        found,
        (Some(Reply::Value(2)), Some(true)),
    );
    same(
        &rt,
        "left",
        (cell_shows(&cell, "v2"), stub.counts()),
        (true, (0, 1)),
    );
    Ok(())
}
