//! Memory that was refused, by types. [`NoMemory`] and [`NoCopy`] have private fields, so no code outside of this file
//! can make one. The cells hand one over to write into their record that memory was refused. Parts as plain data, which
//! are told when to refuse, need none.
//!
//! Each of the four functions below makes one only if its `Box::new`, `reserve`, `reserve_exact` or `copy` was refused.
//! Types allow to keep one for another call, to ask for too much, and a side that refuses each copy.
ghost use Rattle.std.specs.Prelude.{◌≡◌, ◌+◌, ◌≤◌, max, IfOk, IsOk, OnOk, OnErr, vec_len, vec_capacity};
ghost use Rattle.std.specs.Result.{result_ok};

use crate::step::Side;
use std::alloc::{AllocError, Global};

/// Memory for a box, or for a list to grow, was refused.
#[derive(Drop)]
pub struct NoMemory(());

impl From<NoMemory> for AllocError {
    fn from(_refused: NoMemory) -> AllocError {
        AllocError
    }
}

/// A side refused the copy of its waker.
#[derive(Drop)]
pub struct NoCopy(());

/// A box of this.
#[inline(always)]
pub fn boxed<T: Drop>(alloc: Global, value: T) -> Result<Box<T>, NoMemory>
    ensures { IfOk result (λ b. b.value ≡ value) }
{
    match Box::new(alloc, value) {
        Ok(boxed) => Ok(boxed),
        Err(_) => Err(NoMemory(())),
    }
}

/// Makes room for so many more. If that is refused, the items and their room are as they were.
#[inline(always)]
pub fn reserve<T>(items: &mut Vec<T>, more: usize) -> Result<(), NoMemory>
    ensures items { items.new.items ≡ items.old.items }
    ensures len { vec_len items.new ≡ vec_len items.old }
    ensures room { OnOk result (vec_len items.new + more ≤ vec_capacity items.new) }
    ensures least { vec_capacity items.old ≤ vec_capacity items.new }
    ensures succeeds { vec_len items.old + more ≤ vec_capacity items.old → IsOk result }
    ensures refused { OnErr result (vec_capacity items.new ≡ vec_capacity items.old) }
{
    match items.reserve(more) {
        Ok(()) => Ok(()),
        Err(_) => Err(NoMemory(())),
    }
}

/// As [`reserve`], and the memory is for no more than that.
#[inline(always)]
pub fn reserve_exact<T>(items: &mut Vec<T>, more: usize) -> Result<(), NoMemory>
    ensures items { items.new.items ≡ items.old.items }
    ensures len { vec_len items.new ≡ vec_len items.old }
    ensures room { OnOk result (vec_len items.new + more ≤ vec_capacity items.new) }
    ensures least { vec_capacity items.old ≤ vec_capacity items.new }
    ensures succeeds { vec_len items.old + more ≤ vec_capacity items.old → IsOk result }
    ensures exact { OnOk result (vec_capacity items.new ≡ max (vec_capacity items.old) (vec_len items.old + more)) }
    ensures refused { OnErr result (vec_capacity items.new ≡ vec_capacity items.old) }
{
    match items.reserve_exact(more) {
        Ok(()) => Ok(()),
        Err(_) => Err(NoMemory(())),
    }
}

/// The copy that a side makes of its waker.
#[inline(always)]
pub fn copied<W, S: Side<W>>(side: &mut S) -> Result<W, NoCopy>
    ensures did { S.did.copy side.old (result_ok result) side.new }
    ensures stays { S.stays side.old side.new }
{
    match side.copy() {
        Some(waker) => Ok(waker),
        None => Err(NoCopy(())),
    }
}
