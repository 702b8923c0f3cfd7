//! Threads that visit cells, each in the order of the cells: what comes of it does not depend on which was first.

use crate::doubles::asked::Way::{Block, Drive, Leave, Wait, WaitAs, WaitAsOn, WaitOn};
use crate::doubles::asked::{Asked, Cell, Way};
use crate::doubles::counted::{Init, Tally, empty, tallies};
use crate::doubles::work::{Host, Hosts, Meeting, Work, by_threads, same};
use async_once_cell::record::Reply;
use async_once_cell::{Lazy, OnceCell, Parker};
use futures::test::MockTask;
use std::alloc::{AllocError, Global};
use std::io;
use std::process::Abort;
use std::test::Fail;

// A future that a thread makes at a cell. Their numbers and that of the turn add up to a sum.
//
// It is made if the sum, divided by the first of three numbers, leaves the second at least and less than the third. Its
// init is Pending as often as the first of two numbers says, and more often by what the sum leaves, divided by the
// second. The init gives a value, or it is made to fail (true). One of the ways is taken, by the sum.
#[derive(Clone, Copy)]
struct Step((u64, u64, u64), (u64, u64), bool, &'static [Way]);

const ALL: (u64, u64, u64) = (1, 0, 1);

const THIRD: (u64, u64, u64) = (3, 0, 1);

const READY: (u64, u64) = (0, 0);

const WAITS: &[Way] = &[Wait, WaitOn, WaitAs, WaitAsOn];

// The inits that cells get.
#[derive(Clone, Copy)]
enum Kind {
    // Those that may not fail, and those that may.
    Once,
    Try,
    // One of their own, which is Pending as often as two numbers say of a step.
    Lazy(u64, u64),
}

// What threads do at cells, and what is wanted of it.
#[derive(Clone, Copy)]
struct Row {
    name: &'static str,
    kind: Kind,
    // It is done so often, each time with new threads: if two of them share a processor they do not meet.
    repeats: u64,
    // How many threads there are, at least and at most.
    threads: (u64, u64),
    cells: u64,
    // All threads meet before each cell whose number is a multiple of this.
    meets: u64,
    // A thread makes its steps at a cell until the last of them is told a value, but so often at most.
    turns: u64,
    steps: &'static [Step],
    // How often an init looks whether another is polled beside it.
    looks: u64,
    // How many inits fail first that would give a value: none at a cell, one at the next, and so on, below this number.
    failures: u64,
    // How many others fail at a cell, at most.
    failed: u64,
    // Whether each thread is told a value at each cell, and whether each cell has one in the end.
    tells: bool,
    fills: bool,
}

// What is added to the value that an init would give if it is made to fail.
const FAILURE: u64 = 7000;

const USUAL: Row = Row {
    name: "threads wait",
    kind: Kind::Try,
    repeats: 1,
    threads: (4, 4),
    cells: 200,
    meets: 0,
    turns: 1,
    steps: &[Step(ALL, (0, 4), false, WAITS)],
    looks: 0,
    failures: 0,
    failed: 0,
    tells: true,
    fills: true,
};

// All are told one value, of one init.
const TOLD: [Row; 7] = [
    USUAL,
    Row {
        name: "threads block, and some inits fail",
        threads: (2, 4),
        steps: &[
            Step(THIRD, (0, 2), true, &[Block]),
            Step(ALL, (0, 4), false, &[Block]),
        ],
        failed: 2,
        ..USUAL
    },
    Row {
        name: "threads block, and drive one init",
        kind: Kind::Lazy(0, 5),
        threads: (2, 4),
        steps: &[Step(ALL, READY, false, &[Block])],
        ..USUAL
    },
    Row {
        name: "up to three futures that drive one init are dropped midway",
        kind: Kind::Lazy(0, 10),
        steps: &[
            Step((4, 1, 4), READY, false, &[Leave(3)]),
            Step((4, 2, 4), READY, false, &[Leave(3)]),
            Step((4, 3, 4), READY, false, &[Leave(3)]),
            Step(ALL, READY, false, &[Drive]),
        ],
        ..USUAL
    },
    Row {
        name: "some futures are dropped after a poll, and some inits fail",
        steps: &[
            Step(THIRD, (0, 4), false, &[Leave(0)]),
            Step((5, 0, 1), (0, 4), true, &[Drive]),
            Step(ALL, (0, 4), false, &[Drive]),
        ],
        failed: 1,
        ..USUAL
    },
    Row {
        name: "up to eleven inits fail, and some futures are dropped midway",
        turns: 20,
        steps: &[
            Step(THIRD, (1, 0), false, &[Leave(3)]),
            Step(ALL, (1, 0), false, &[Drive]),
        ],
        failures: 12,
        ..USUAL
    },
    Row {
        name: "ten keys, each thread with a parker",
        kind: Kind::Once,
        threads: (2, 2),
        cells: 10,
        steps: &[Step(ALL, (40, 0), false, &[WaitOn])],
        ..USUAL
    },
];

const ALONE: Row = Row {
    name: "the cell owns its init",
    kind: Kind::Lazy(40, 0),
    threads: (1, 1),
    cells: 4,
    steps: &[
        Step(ALL, READY, false, WAITS),
        Step(ALL, READY, false, WAITS),
    ],
    ..USUAL
};

// A thread waits alone, in each way: it is told the value or the error of its own init, and a set cell tells its value.
const WAITED: [Row; 4] = [
    ALONE,
    Row {
        name: "an init is Pending forty times, and a ready one comes late",
        kind: Kind::Once,
        steps: &[
            Step(ALL, (40, 0), false, WAITS),
            Step(ALL, READY, false, WAITS),
        ],
        ..ALONE
    },
    Row {
        name: "an init is ready, and one that is Pending once comes late",
        kind: Kind::Once,
        steps: &[
            Step(ALL, READY, false, WAITS),
            Step(ALL, (1, 0), false, WAITS),
        ],
        ..ALONE
    },
    Row {
        name: "an init fails, one gives a value, and one would fail",
        kind: Kind::Try,
        steps: &[
            Step(ALL, (1, 0), true, WAITS),
            Step(ALL, (1, 0), false, WAITS),
            Step(ALL, (1, 0), true, WAITS),
        ],
        failed: 1,
        ..ALONE
    },
];

const FILL: Row = Row {
    name: "threads fill",
    kind: Kind::Once,
    repeats: 6,
    threads: (2, 4),
    cells: 500,
    meets: 50,
    turns: 4,
    steps: &[Step(ALL, READY, false, &[Leave(0)])],
    tells: false,
    ..USUAL
};

// Each cell is filled once, and no queue is left. The last init of each thread is ready.
const FILLS: [Row; 2] = [
    FILL,
    Row {
        name: "threads hold or wait, and leave",
        turns: 2,
        steps: &[
            Step(ALL, (1, 0), false, &[Leave(0)]),
            Step(ALL, READY, false, &[Leave(0)]),
        ],
        ..FILL
    },
];

const HOLD: Row = Row {
    name: "two threads hold in turn",
    threads: (2, 2),
    cells: 1,
    turns: 100_000,
    steps: &[Step(ALL, READY, true, &[Leave(0)])],
    failed: u64::MAX,
    tells: false,
    fills: false,
    ..USUAL
};

// One task holds at a time, and in the end nobody holds, is counted or is listed.
const HELD: [Row; 2] = [
    HOLD,
    Row {
        name: "three threads hold in turn, for a while",
        threads: (3, 3),
        turns: 50_000,
        looks: 100,
        ..HOLD
    },
];

// The sum of the first number and of what this leaves, divided by the second.
fn more((least, parts): (u64, u64), number: u64) -> u64 {
    least.wrapping_add(number.checked_rem(parts).unwrap_or(0))
}

impl Step {
    fn is_at(&self, sum: u64) -> bool {
        let (parts, least, end) = self.0;
        (least..end).contains(&more((0, parts), sum))
    }

    fn way(&self, sum: u64) -> Way {
        let place = more((0, self.3.len() as u64), sum);
        self.3.get(place as usize).copied().unwrap_or(Wait)
    }

    // An init that gives this value, or fails.
    fn init<'c>(&self, tally: &'c Tally, looks: u64, (sum, value): (u64, u64)) -> Init<'c> {
        let failure = value.wrapping_add(FAILURE);
        tally.init(
            more(self.1, sum),
            looks,
            if self.2 { Err(failure) } else { Ok(value) },
        )
    }

    // Whether a future that would give this value may answer so, at a cell that has one.
    fn allows(&self, reply: Option<Reply>, value: u64, has: Option<u64>) -> bool {
        match reply {
            Some(Reply::Pending) => matches!(self.3, [Leave(_)]),
            Some(Reply::Value(number)) => has == Some(number),
            Some(Reply::Error(error)) => self.2 == (error == value.wrapping_add(FAILURE)),
            _ => false,
        }
    }
}

impl Row {
    // A new cell of this number.
    fn cell<'c>(&self, number: u64, tally: &'c Tally) -> Asked<'c> {
        let cell = match self.kind {
            Kind::Once => Cell::Once(OnceCell::new()),
            Kind::Try => Cell::Try(OnceCell::new()),
            Kind::Lazy(least, parts) => {
                let init = tally.init(more((least, parts), number), 0, Ok(number));
                Cell::Lazy(Lazy::new(init))
            }
        };
        Asked { cell, tally }
    }

    // Makes the steps at a cell in a turn: whether all is as it may be, and whether the last was told a value.
    fn made<'c, R: Host>(
        &self,
        rt: &R,
        task: &MockTask,
        parker: &mut Parker,
        asked: &Asked<'c>,
        (sum, value): (u64, u64),
    ) -> (bool, bool) {
        let (mut is_well, mut is_told) = (true, false);
        for step in self.steps {
            if step.is_at(sum) {
                let init = step.init(asked.tally, self.looks, (sum, value));
                let reply = asked.asked(rt, task, parker, init, step.way(sum));
                is_well &= step.allows(reply, value, asked.has());
                is_told = self.tells && matches!(reply, Some(Reply::Value(_)));
            }
        }
        (is_well, is_told)
    }

    // Visits a cell: whether all is as it may be, and the thread was told a value if it has to be.
    fn is_visited<R: Host>(
        &self,
        rt: &R,
        task: &MockTask,
        parker: &mut Parker,
        asked: &Asked<'_>,
        (thread, number): (u64, u64),
    ) -> bool {
        let value = thread.wrapping_mul(1000).wrapping_add(number);
        let (mut are_well, mut is_told) = (true, false);
        for turn in 0..self.turns {
            let sum = thread.wrapping_add(number).wrapping_add(turn);
            let (is_well, told) = self.made(rt, task, parker, asked, (sum, value));
            are_well &= is_well;
            is_told = told;
            if told {
                break;
            }
        }
        are_well && is_told == self.tells
    }

    // Whether the cell of this number is as it has to be in the end. Its value is one that a thread brought for it.
    fn is_sound<R: Host>(&self, rt: &R, number: u64, asked: &Asked<'_>) -> bool {
        let failures = more((0, self.failures), number);
        let failed = asked.tally.failed().wrapping_sub(failures);
        let (made, is_brought) = match asked.has() {
            Some(value) => (1, value % 1000 == number && value < 4000),
            None => (0, true),
        };
        let is_counted = asked.tally.has(made, made) && made == u64::from(self.fills);
        is_brought && is_counted && failed <= self.failed && asked.is_left(rt, self.fills)
    }
}

// Cells that threads visit.
#[derive(Drop)]
struct Visits<'c> {
    row: Row,
    threads: u64,
    cells: Vec<Asked<'c>>,
    meeting: Meeting,
}

impl Work for Visits<'_> {
    fn goes<R: Host>(&self, rt: &R, task: &MockTask, parker: &mut Parker, thread: u64) -> u64 {
        let mut well = 0u64;
        for (number, asked) in (0u64..).zip(&self.cells) {
            let (is_met, at) = (self.is_met(number), (thread, number));
            let is_visited = self.row.is_visited(rt, task, parker, asked, at);
            well = well.wrapping_add(u64::from(is_met && is_visited));
        }
        well
    }
}

impl<'c> Visits<'c> {
    // New cells, which so many threads visit.
    fn new(alloc: Global, row: Row, threads: u64, of: &'c [Tally]) -> Result<Self, AllocError> {
        let (mut cells, meeting) = (Vec::new(alloc), Meeting::new());
        for (number, tally) in (0..).zip(of) {
            cells.push(row.cell(number, tally))?;
        }
        Ok(Visits {
            row,
            threads,
            cells,
            meeting,
        })
    }

    // Waits until all threads are at this cell, if they meet before it: whether they came.
    fn is_met(&self, number: u64) -> bool {
        if number.checked_rem(self.row.meets) != Some(0) {
            return true;
        }
        self.meeting.come();
        let meeting = number
            .checked_div(self.row.meets)
            .unwrap_or(0)
            .wrapping_add(1);
        self.meeting.has(meeting.wrapping_mul(self.threads))
    }

    // How many cells are as they have to be.
    fn sound<R: Host>(&self, rt: &R) -> u64 {
        let mut sound = 0u64;
        for (number, asked) in (0..).zip(&self.cells) {
            sound = sound.wrapping_add(u64::from(self.row.is_sound(rt, number, asked)));
        }
        sound
    }
}

// How often all went as it may for so many threads, and how many cells are as they have to be. They are dropped then.
fn visited<R: Hosts>(rt: &R, row: Row, threads: u64, tallies: &[Tally]) -> io::Result<[u64; 2]> {
    let visits = Visits::new(rt.alloc(), row, threads, tallies)?;
    let went = by_threads(rt, threads, &visits)?;
    Ok([went, visits.sound(rt)])
}

// The same for new cells, and how many of them were dropped with all that they had.
fn seen<R: Hosts>(rt: &R, row: Row, threads: u64) -> io::Result<([u64; 2], u64)> {
    let tallies = tallies(rt.alloc(), row.cells, row.failures)?;
    let visited = visited(rt, row, threads, tallies.as_slice())?;
    Ok((visited, empty(&tallies)))
}

fn look<R: Hosts + Abort>(rt: &R, rows: &[Row]) -> io::Result<()> {
    for row in rows {
        for threads in row.threads.0..=row.threads.1 {
            for _ in 0..row.repeats {
                let (found, cells) = (seen(rt, *row, threads)?, row.cells);
                let wanted = ([threads.wrapping_mul(cells), cells], cells);
                same(rt, row.name, (threads, found), (threads, wanted));
            }
        }
    }
    Ok(())
}

/// All threads are told the value of one init.
#[test]
fn threads_are_told_one_value(rt: HostRuntime) -> Result<(), Fail> {
    Ok(look(&rt, &TOLD)?)
}

/// A thread that waits is told the value or the error of its own init, or what the cell has.
#[test]
fn value_of_each_kind(rt: HostRuntime) -> Result<(), Fail> {
    Ok(look(&rt, &WAITED)?)
}

/// Of threads that fill a cell at once one does, and once.
#[test]
fn threads_fill_once(rt: HostRuntime) -> Result<(), Fail> {
    Ok(look(&rt, &FILLS)?)
}

/// One task holds at a time.
#[test]
fn threads_hold_in_turn(rt: HostRuntime) -> Result<(), Fail> {
    Ok(look(&rt, &HELD)?)
}
