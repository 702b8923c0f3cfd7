//! The parts of a cell by hand, one call after the other, and what they take of memory.

use crate::bell::{Bell, Cell};
use crate::same::same;
use crate::side::TestSide;
use async_once_cell::inner::{Inner, Mark, Shared, Task};
use once_machine::parts::{Counted, Parts};
use once_machine::step::{Polled, Step};
use once_machine::waiters::{Answer, Op};
use once_machine::word::QINIT_BIT;
use std::mem::size_of;
use std::test::Fail;

// Examples of doc comments stand here as they stand there.
#[test]
fn one_task_fills_a_cell(rt: HostRuntime) -> Result<(), Fail> {
    let cell = Inner::<u64, Bell>::new();
    assert_eq!(rt; cell.has_queue(), Some(false));
    let mut record = cell.record();
    assert!(rt; cell.look(&mut record).is_none());
    let mut task = cell.task(&rt);
    let mut side = TestSide::new(&rt, 7, task.mark(), Polled::Value)?;
    task.begin();
    let word = task.load();
    assert_eq!(rt; word, 0);
    let won = task.quick();
    assert!(rt; won);
    let polled = task.run(&mut side);
    assert_eq!(rt; polled, Polled::Value);
    task.put(7);
    let released = task.fast(true);
    assert!(rt; released);
    task.door_take();
    let (value, _) = task.value();
    let looked = cell.look(&mut record).is_some();
    same(
        &rt,
        "the value, and whether it is found",
        (*value, looked),
        (7, true),
    );
    Ok(())
}

// What a call answers says what the next may do, so each answer is asserted before that.
#[test]
fn who_finds_a_holder_waits(rt: HostRuntime) {
    let cell = Cell::new();
    let (mut holder, mut waiter) = (cell.task(&rt), cell.task(&rt));
    holder.begin();
    let word = holder.load();
    assert_eq!(rt; word, 0);
    let won = holder.quick();
    assert!(rt; won);

    waiter.begin();
    let word = waiter.load();
    assert_eq!(rt; word, QINIT_BIT);
    let there = waiter.door_get();
    assert!(rt; there.is_none());
    let put = waiter.door_put();
    assert!(rt; put.is_some());
    let counted = waiter.count_in();
    assert_eq!(rt; counted, Counted::In(QINIT_BIT));
    let word = waiter.load();
    assert_eq!(rt; word, QINIT_BIT + 1);
    let mut op = Op::Look(None);
    let answer = waiter.section(&(), &mut op);
    assert!(rt; matches!(answer, Answer::Held));
}

// A task has two references, to the cell and to the runtime, and where the next call begins. A step has more, since it
// may have a waker. The book has no bytes.
#[test]
fn what_is_ghost_has_no_bytes(rt: HostRuntime) {
    let idle = size_of::<(u64, u64)>();
    let sizes = [
        size_of::<Mark>(),
        size_of::<Shared<u64, Bell, HostRuntime>>(),
        size_of::<(&Cell, &HostRuntime)>(),
        size_of::<Task<u64, Bell, HostRuntime>>(),
        size_of::<Step<Bell, ()>>(),
    ];
    let wanted = [0, 32, 16, 16 + idle, 40];
    same(
        &rt,
        "a mark, parts, two references, a task, a step",
        sizes,
        wanted,
    );
}
