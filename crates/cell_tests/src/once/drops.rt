//! When values are dropped.

use crate::doubles::value::{Makes, Value};
use crate::doubles::{same, three_tasks};
use async_once_cell::{Lazy, OnceCell};
use futures::future::pending;
use futures::test::MockTask;
use std::alloc::AllocGlobal;
use std::cell::Cell;
use std::sync::Wait;
use std::test::Fail;
use test_doubles::memory::{Rations, hoard_most};

// A cell that its owner, or else a future, gave a value, which counts here when it is dropped.
fn filled<'d, R: Wait + AllocGlobal>(
    rt: &R,
    task: &MockTask,
    act: &str,
    drops: &'d Cell<u64>,
) -> OnceCell<Value<'d>> {
    if act == "made with it" {
        return OnceCell::new_with(Value { drops });
    }
    let cell = OnceCell::new();
    let _ = task.poll(&mut cell.get_or_init(rt, Makes { drops }));
    cell
}

// Whether this call of the owner answers the value.
fn is_answered(cell: &mut OnceCell<Value<'_>>, act: &str) -> bool {
    match act {
        "taken" => cell.take().is_some(),
        "lent for writing" => cell.get_mut().is_some() && cell.get_mut().is_some(),
        _ => cell.get().is_some(),
    }
}

// The same, and how often the value was dropped before the call, before the cell was dropped, and after.
fn ended<R: Wait + AllocGlobal>(rt: &R, task: &MockTask, act: &str) -> (bool, [u64; 3]) {
    let drops = Cell::new(0);
    let mut cell = filled(rt, task, act, &drops);
    let before = drops.get();
    let is_answered = is_answered(&mut cell, act);
    let between = drops.get();
    drop(cell);
    (is_answered, [before, between, drops.get()])
}

// The same of a lazy cell whose value is lent.
fn ended_lazily<R: Wait + AllocGlobal>(rt: &R, task: &MockTask) -> (bool, [u64; 3]) {
    let drops = Cell::new(0);
    let lazy = Lazy::new(Makes { drops: &drops });
    let before = drops.get();
    let is_ready = task.poll(&mut lazy.get(rt)).is_ready();
    let between = drops.get();
    drop(lazy);
    (is_ready, [before, between, drops.get()])
}

/// A value lives until its owner takes it. One that nobody takes lives as long as its cell, also if its owner may write
/// it.
#[test]
fn values_dropped_once(rt: HostRuntime) -> Result<(), Fail> {
    let task = MockTask::new(&rt)?;
    let rows = [
        ("taken", [0, 1, 1]),
        ("made with it", [0, 0, 1]),
        ("lent", [0, 0, 1]),
        ("lent for writing", [0, 0, 1]),
    ];
    for (act, wanted) in rows {
        same(&rt, act, ended(&rt, &task, act), (true, wanted));
    }
    same(
        &rt,
        "lent by a lazy cell",
        ended_lazily(&rt, &task),
        (true, [0, 0, 1]),
    );
    Ok(())
}

// A future waits while another holds, with this ration of memory. The other is dropped, and the one that waits,
// or a third, makes a value. Whether it did.
fn is_made_after<'d, R: Wait + AllocGlobal>(
    rt: &R,
    cell: &OnceCell<Value<'d>>,
    drops: &'d Cell<u64>,
    tasks: &[MockTask; 3],
    rations: &mut Rations,
) -> bool {
    let mut holder = cell.get_or_init(rt, pending());
    let is_held = tasks[0].poll(&mut holder).is_pending();
    let mut waiter = cell.get_or_init(rt, Makes { drops });
    let Ok(held) = rations.begin() else {
        return false;
    };
    let _ = tasks[1].poll(&mut waiter);
    let is_rationed = rations.end(held).is_ok();
    drop(holder);
    if !waiter.is_finished() {
        let _ = tasks[1].poll(&mut waiter);
    }
    let mut third = cell.get_or_init(rt, Makes { drops });
    is_held & is_rationed & tasks[2].poll(&mut third).is_ready()
}

// Whether it did, and the value was dropped with the cell, and not before.
fn is_dropped_once<R: Wait + AllocGlobal>(
    rt: &R,
    tasks: &[MockTask; 3],
    rations: &mut Rations,
) -> bool {
    let drops = Cell::new(0);
    let cell = OnceCell::new();
    let is_made = is_made_after(rt, &cell, &drops, tasks, rations);
    let before = drops.get();
    drop(cell);
    is_made && [before, drops.get()] == [0, 1]
}

/// A value is dropped once, whichever request for memory is refused to a waiter.
#[test]
fn value_dropped_once_where_memory_is_refused(rt: HostRuntime) -> Result<(), Fail> {
    let tasks = three_tasks(&rt)?;
    let held = hoard_most(rt.alloc())?;
    let mut rations = Rations::noting(rt.alloc());
    let mut are_so = is_dropped_once(&rt, &tasks, &mut rations);
    for request in rations.requests() {
        are_so &= is_dropped_once(&rt, &tasks, &mut Rations::refusing(rt.alloc(), *request));
    }
    drop(held);
    let found = (are_so, rations.requests().len() >= 4);
    same(
        &rt,
        "dropped once each time, of four times",
        found,
        (true, true),
    );
    Ok(())
}
