//! Threads that look at a cell that others use.

use crate::doubles::work::{Host, Hosts, Meeting, Work, by_threads, same};
use async_once_cell::record::Reply;
use async_once_cell::{OnceCell, Parker};
use cell_doubles::poll::polled;
use futures::future::{pending, ready};
use futures::test::MockTask;
use std::io;
use std::test::Fail;
use test_doubles::left::has_text;

const LOOKS: u64 = 300_000;

const VISITS: u64 = 10_000;

// A cell that one thread uses while another looks at it. The first comes once for each use, and the second comes once
// it has seen enough.
#[derive(Drop)]
struct Beside {
    cell: OnceCell<u64>,
    uses: Meeting,
    stop: Meeting,
}

impl Beside {
    // Begins to wait and leaves, or, if the cell is set, shows it, again and again.
    fn use_on<R: Host>(&self, rt: &R, task: &MockTask) {
        for _ in rt.forever() {
            if self.cell.get().is_some() {
                has_text(rt, &self.cell, "");
            } else {
                polled(task, &mut self.cell.get_or_init(rt, pending()));
            }
            self.uses.come();
            if self.stop.came() > 0 {
                break;
            }
        }
    }

    // Whether each look at a set cell finds the value.
    fn is_always_set(&self) -> bool {
        let mut is_always = true;
        for _ in 0..LOOKS {
            is_always = is_always && self.cell.get().is_some();
        }
        is_always
    }

    // Shows the cell until that tells that its queue is in use, or until the other thread has used it once more,
    // however long it has to wait for a processor. Whether the cell told so.
    fn is_seen_busy<R: Host>(&self, rt: &R) -> bool {
        let (before, mut is_seen) = (self.uses.came(), false);
        for _ in rt.forever() {
            is_seen = has_text(rt, &self.cell, "queue: busy");
            if is_seen || self.uses.came() != before {
                break;
            }
        }
        is_seen
    }

    // Whether the cell showed that its queue is in use while the other thread used it so often.
    fn is_busy_once<R: Host>(&self, rt: &R) -> bool {
        for _ in 0..VISITS {
            if self.is_seen_busy(rt) {
                return true;
            }
        }
        false
    }
}

impl Work for Beside {
    fn goes<R: Host>(&self, rt: &R, task: &MockTask, _parker: &mut Parker, thread: u64) -> u64 {
        if thread == 0 {
            self.use_on(rt, task);
            return 1;
        }
        let is_set = self.cell.get().is_some();
        let is_well = if is_set {
            self.is_always_set()
        } else {
            self.is_busy_once(rt)
        };
        self.stop.come();
        u64::from(is_well)
    }
}

// What a poll of a cell answered whose init is ready or Pending, and how many of two threads saw what they had to then.
// The future of the poll is alive meanwhile.
fn seen<R: Hosts>(rt: &R, task: &MockTask, is_set: bool) -> io::Result<(Reply, u64)> {
    let (cell, uses, stop) = (OnceCell::new(), Meeting::new(), Meeting::new());
    let beside = Beside { cell, uses, stop };
    let (mut filler, mut holder) = (
        beside.cell.get_or_init(rt, ready(5)),
        beside.cell.get_or_init(rt, pending()),
    );
    let reply = if is_set {
        polled(task, &mut filler)
    } else {
        polled(task, &mut holder)
    };
    Ok((reply, by_threads(rt, 2, &beside)?))
}

/// While one thread uses the queue of a cell, another that shows the cell waits for nobody, and is told so in the end.
/// A set cell lends its value while another thread shows it.
#[test]
fn a_busy_queue_is_shown(rt: HostRuntime) -> Result<(), Fail> {
    let task = MockTask::new(&rt)?;
    for (name, is_set, reply) in [
        ("busy", false, Reply::Pending),
        ("set", true, Reply::Value(5)),
    ] {
        same(&rt, name, seen(&rt, &task, is_set)?, (reply, 2));
    }
    Ok(())
}
