//! Two futures that find no queue at the door. One puts its queue there while the other asks for memory for its own.

use crate::doubles::expected::cell_shows;
use crate::doubles::other::{LATER, Other};
use crate::doubles::poll::polled;
use crate::doubles::{same, three_tasks};
use async_once_cell::OnceCell;
use async_once_cell::record::Reply;
use futures::test::MockTask;
use std::alloc::{Alloc, AllocGlobal, Global};
use std::sync::Wait;
use std::test::Fail;
use test_doubles::memory::{hoard_most, hoard_rest};

// A handle by which another future is polled before it gives memory for the first time.
#[derive(Drop)]
struct Delayed<'o, 'a, R: Wait + AllocGlobal> {
    alloc: Global,
    other: &'o Other<'a, R>,
}

impl<R: Wait + AllocGlobal> Wait for Delayed<'_, '_, R> {}

impl<R: Wait + AllocGlobal> Alloc for Delayed<'_, '_, R> {
    type A = Global;

    fn alloc(&self) -> Global {
        if self.other.heard.get().is_none() {
            self.other.poll();
        }
        self.alloc
    }
}

// What three futures of a cell answer twice: the holder, one whose queue comes second, and the one whose queue it
// finds. And whether nothing is left at the cell.
fn met_at_the_door<'s, R: Wait + AllocGlobal>(
    rt: &'s R,
    [one, two, three]: [&'s MockTask; 3],
) -> ([Option<Reply>; 6], bool) {
    let cell = OnceCell::new();
    let mut holder = cell.get_or_init(rt, LATER);
    let other = Other::new(&cell, rt, Some(three));
    let delayed = Delayed {
        alloc: rt.alloc(),
        other: &other,
    };
    let mut second = cell.get_or_init(&delayed, LATER);
    let replies = [
        Some(polled(one, &mut holder)),
        Some(polled(two, &mut second)),
        other.heard.get(),
        Some(polled(one, &mut holder)),
        Some(polled(two, &mut second)),
        other.poll(),
    ];
    (replies, cell_shows(&cell, "v4"))
}

const PENDING: Option<Reply> = Some(Reply::Pending);

const VALUE: Option<Reply> = Some(Reply::Value(4));

const MET: [Option<Reply>; 6] = [PENDING, PENDING, PENDING, VALUE, VALUE, VALUE];

// How often they meet, in how many bytes: if a queue were kept each time, that would be more.
const TIMES: u64 = 4_100;

const BYTES: usize = 131_072;

/// The queue that comes second is not kept. Both wait in the first, and are told the value.
#[test]
fn second_queue_is_let_go(rt: HostRuntime) -> Result<(), Fail> {
    let tasks = three_tasks(&rt)?;
    let (most, rest) = (hoard_most(rt.alloc())?, hoard_rest(rt.alloc(), BYTES)?);
    let mut is_always = true;
    for _ in 0..TIMES {
        is_always &= met_at_the_door(&rt, [&tasks[0], &tasks[1], &tasks[2]]) == (MET, true);
    }
    drop(rest);
    drop(most);
    same(&rt, "met each time", is_always, true);
    Ok(())
}
