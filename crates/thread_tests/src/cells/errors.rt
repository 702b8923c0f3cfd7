//! Inits that fail while another waits, which then fills the cell at once.

use crate::doubles::asked::told;
use crate::doubles::work::{Gate, Host, Hosts, Meeting, Work, by_threads, same};
use async_once_cell::once::TryInitFuture;
use async_once_cell::record::Reply;
use async_once_cell::{OnceCell, Parker};
use cell_doubles::poll::{heard, polled};
use futures::Future;
use futures::future::ready;
use futures::test::MockTask;
use std::alloc::AllocError;
use std::io;
use std::test::Fail;
use test_doubles::left::is_filled;

const CELLS: u64 = 300;

// How often two threads are started anew: if they share a processor they do not meet.
const REPEATS: u64 = 6;

// A cell, and where its two threads meet while the init that fails is being polled.
#[derive(Drop)]
struct Met {
    cell: OnceCell<u64>,
    meeting: Meeting,
}

// What a future that fails answers a task.
fn polled_once<R: Host>(
    task: &MockTask,
    mut future: TryInitFuture<'_, u64, u64, Gate<'_>, R>,
) -> Reply {
    task.enter(|cx| heard(Future::poll(&mut future, cx)))
}

impl Met {
    // Brings an init that fails, and asks in a way that depends on the number: what it is told.
    fn fails<R: Host>(
        &self,
        rt: &R,
        task: &MockTask,
        parker: &mut Parker,
        number: u64,
    ) -> Option<Reply> {
        let (meeting, answer) = (&self.meeting, Err(9));
        let future = self.cell.get_or_try_init(rt, Gate { meeting, answer });
        match number % 3 {
            0 => Some(polled_once(task, future)),
            1 => told(future.wait()),
            _ => told(future.wait_on(parker)),
        }
    }

    // Waits while the init of the other is polled, and then fills the cell as soon as it may: what it is told.
    fn fills<R: Host>(&self, rt: &R, task: &MockTask) -> Reply {
        let mut future = self.cell.get_or_init(rt, ready(4));
        if !self.meeting.has(1) {
            return Reply::Pending;
        }
        let mut reply = polled(task, &mut future);
        self.meeting.come();
        for _ in rt.forever() {
            if reply != Reply::Pending {
                break;
            }
            reply = polled(task, &mut future);
        }
        reply
    }
}

// Cells that one thread fails to fill, and another fills.
#[derive(Drop)]
struct Errors(Vec<Met>);

impl Work for Errors {
    fn goes<R: Host>(&self, rt: &R, task: &MockTask, parker: &mut Parker, thread: u64) -> u64 {
        let mut well = 0u64;
        for (number, met) in (0u64..).zip(&self.0) {
            let is_told = if thread == 0 {
                met.fails(rt, task, parker, number) == Some(Reply::Error(9))
            } else {
                met.fills(rt, task) == Reply::Value(4)
            };
            well = well.wrapping_add(u64::from(is_told));
        }
        well
    }
}

fn all_cells<R: Host>(rt: &R) -> Result<Errors, AllocError> {
    let mut cells = Vec::new(rt.alloc());
    for _ in 0..CELLS {
        let (cell, meeting) = (OnceCell::new(), Meeting::new());
        cells.push(Met { cell, meeting })?;
    }
    Ok(Errors(cells))
}

// How often each was told what it has to be, and how many cells are filled.
fn seen<R: Hosts>(rt: &R) -> io::Result<[u64; 2]> {
    let errors = all_cells(rt)?;
    let (went, mut filled) = (by_threads(rt, 2, &errors)?, 0u64);
    for met in &errors.0 {
        filled = filled.wrapping_add(u64::from(is_filled(rt, &met.cell)));
    }
    Ok([went, filled])
}

/// A caller whose init failed is told its error in whatever way it asks, also if another fills the cell meanwhile.
#[test]
fn own_error_beside_a_value(rt: HostRuntime) -> Result<(), Fail> {
    for _ in 0..REPEATS {
        same(&rt, "own error", seen(&rt)?, [CELLS * 2, CELLS]);
    }
    Ok(())
}
