//! A fill asks for no memory, also if the list could not note where a listing was put.

use crate::same::same;
use once_machine::step::Out;
use once_machine::waiters::{Answer, Lists};
use once_machine::word::NEW;
use std::alloc::{AllocError, Global};
use std::test::Fail;
use test_doubles::memory::hoard;

// How many bytes the list would ask for to note a fifth place.
const NOTES: usize = 64;

// Lists a waker by this ticket, and says whether it is listed then.
fn list(lists: &mut Lists<u64>, mut ticket: Option<u64>, waker: u64) -> bool {
    lists.list(&mut ticket, &mut Some(waker), NEW).0 == Answer::Listed
}

// One task that holds, and four that wait. The first of these listed itself anew, and so the list has room for
// eight, and for four notes.
fn crowd(alloc: Global) -> Lists<u64> {
    let mut lists = Lists::new(alloc);
    for (waker, ticket) in [None, None, None, None, None, Some(0)]
        .into_iter()
        .enumerate()
    {
        list(&mut lists, ticket, waker as u64);
    }
    lists
}

// Whether these are woken, in this order.
fn calls(out: &Out<u64>, wakers: [u64; 5]) -> bool {
    match out {
        Out::All(listings) => listings
            .iter()
            .map(|listing| listing.waker)
            .eq(wakers.map(Some)),
        Out::One(_) => false,
    }
}

// A fifth is listed while all memory is taken. Then the value is set, while no memory is left or just
// as much as a note would take. Whether the fifth is listed, whether all five are woken, and whether
// the memory that was left is left still.
fn filled(alloc: Global, leaves: bool) -> Result<[bool; 3], AllocError> {
    let mut lists = crowd(alloc);
    let mut spare = Some(Vec::<u8>::with_capacity(alloc, NOTES)?);
    let held = hoard(alloc)?;
    let is_listed = list(&mut lists, None, 6);
    if leaves {
        spare = None;
    }
    let out = lists.release(true);
    let is_left = Vec::<u8>::with_capacity(alloc, NOTES).is_ok();
    drop(held);
    drop(spare);
    Ok([is_listed, calls(&out, [2, 3, 4, 5, 6]), is_left])
}

#[test]
fn a_fill_asks_for_no_memory(rt: HostRuntime) -> Result<(), Fail> {
    let seen = [filled(rt.alloc(), false)?, filled(rt.alloc(), true)?];
    let wanted = [[true, true, false], [true, true, true]];
    same(
        &rt,
        "without memory, and with as much as a note takes",
        seen,
        wanted,
    );
    Ok(())
}
