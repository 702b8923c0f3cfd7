//! What is kept of a task, and of the cell.
ghost use Rattle.std.specs.Prelude.{◌≡◌, ◌⊎◌};
ghost use Rattle.std.specs.Bool.{Decides};
ghost use Rattle.once_machine.specs.Tasks.{Unmade, Gone, Waiting as WaitingStatus};
ghost use Rattle.once_machine.specs.Shown.{entry_of};
ghost use Rattle.once_machine.specs.Record.{End, handed_by as wakers_of};
ghost use Rattle.once_machine.specs.Cell.{is_set as set_of};
ghost use Rattle.once_machine.specs.Tasks.{is_under_way as under_way_of, pending_status as pending_of, begins};
ghost use Rattle.once_machine.specs.Wakers.{is_held_by_other as held_by_other};
ghost use Rattle.once_machine.specs.Refusals.{is_about as about_of};
ghost use Rattle.once_judge.specs.Seen.{task_of as whose, changed as changed_to, moved as moved_to, opens_with};
ghost use Rattle.once_judge.specs.Values.{status_of, cell_of};
ghost use Rattle.once_judge.specs.TaskShown.{task_in};

use once_machine::record::{Entry, Ran, Reply};

/// What a task is at.
#[derive(Clone, Copy, Debug, PartialEq, Eq)]
pub enum Status {
    /// It was not made.
    Unmade,
    /// It was made, and no call of it began.
    Fresh,
    /// A poll of it is under way.
    Polling,
    /// A drop of it is under way.
    Dropping,
    /// Its last poll ended Pending while another task held.
    Waiting,
    /// Its last poll ended Pending while it held itself.
    Holding,
    /// A poll of it ended otherwise, or it was dropped.
    Gone,
}

/// What a cell is.
#[derive(Clone, Copy, Debug, PartialEq, Eq)]
pub enum Cell {
    /// It has no value, and no task has the right.
    Empty,
    /// This task has the right.
    Held(u64),
    /// It is set to this value.
    SetTo(u64),
}

/// One task, with its last call.
#[derive(Clone, Copy)]
pub struct Task {
    /// What it is at.
    pub status: Status,
    /// The waker of its last poll.
    pub waker: u64,
    /// The waker of its last poll that ended Pending.
    pub listed: u64,
    /// What it was as its last call began.
    pub began: Status,
    /// Whether the cell was set then.
    pub set_then: bool,
    /// Whether it claimed since then.
    pub claimed: bool,
    /// Whether it freed the cell since then.
    pub freed: bool,
    /// Whether it passed its turn on since then.
    pub passed: bool,
    /// What the init answered since then, if it was polled.
    pub ran: Option<Ran>,
    /// The number of the entry that began its last poll.
    pub begun: u64,
    /// The number of the entry that ended its last poll.
    pub ended: u64,
}

impl Task {
    ghost use Rattle.once_judge.specs.Seen.{unmade_task};

    /// A task that made no call.
    pub fn new(status: Status) -> Task
        ensures { task_in result ≡ record unmade_task { status = status_of status } }
    {
        Task {
            status,
            waker: 0,
            listed: 0,
            began: Status::Unmade,
            set_then: false,
            claimed: false,
            freed: false,
            passed: false,
            ran: None,
            begun: 0,
            ended: 0,
        }
    }
}

/// Whether a task of this status was not made, or is gone.
pub fn is_over(status: Status) -> bool
    ensures { Decides result ((status_of status ≡ Unmade) ⊎ (status_of status ≡ Gone)) }
{
    matches!(status, Status::Unmade | Status::Gone)
}

/// Whether a call is under way.
pub fn is_under_way(status: Status) -> bool
    ensures { result ≡ under_way_of (status_of status) }
{
    matches!(status, Status::Polling | Status::Dropping)
}

/// Whether the task is in a call, waits or holds.
pub fn is_about(status: Status) -> bool
    ensures { result ≡ about_of (status_of status) }
{
    matches!(
        status,
        Status::Polling | Status::Dropping | Status::Waiting | Status::Holding
    )
}

/// Whether the task waits.
pub fn is_waiting(status: Status) -> bool
    ensures { Decides result (status_of status ≡ WaitingStatus) }
{
    matches!(status, Status::Waiting)
}

/// Whether a value is set.
pub fn is_set(cell: Cell) -> bool
    ensures { result ≡ set_of (cell_of cell) }
{
    matches!(cell, Cell::SetTo(_))
}

// Whether another task than this one holds.
fn is_held_by_other(t: u64, cell: Cell) -> bool
    ensures { result ≡ held_by_other t (cell_of cell) }
{
    match cell {
        Cell::Held(u) => u != t,
        _ => false,
    }
}

/// The task of an entry.
pub fn task_of(entry: &Entry) -> Option<u64>
    ensures { result ≡ whose (entry_of entry.now) }
{
    match entry {
        Entry::Made(t)
        | Entry::Begin(t, _)
        | Entry::Claim(t)
        | Entry::Ran(t, _)
        | Entry::Free(t, _)
        | Entry::Fill(t, _, _)
        | Entry::Pass(t, _)
        | Entry::End(t, _)
        | Entry::DropBegin(t)
        | Entry::DropEnd(t) => Some(*t),
        Entry::Look(_) | Entry::Own(_, _) => None,
    }
}

/// The wakers that an entry hands out.
pub fn handed_by<'a>(entry: &'a Entry) -> &'a [u64]
    ensures { result.now ≡ wakers_of (entry_of entry.now) }
{
    match entry {
        Entry::Free(_, wakers) | Entry::Fill(_, _, wakers) | Entry::Pass(_, wakers) => wakers,
        _ => &[],
    }
}

/// A task after an entry of it, which has this number, if the cell was this before.
pub fn moved(entry: &Entry, cell: Cell, number: u64, task: Task) -> Task
    ensures { task_in result ≡ moved_to (entry_of entry.now) (cell_of cell) number (task_in task) }
{
    let new = changed(entry, cell, number, task);
    match new.status {
        Status::Gone => Task::new(Status::Gone),
        _ => new,
    }
}

// The same, with all that was known of one that is gone.
fn changed(entry: &Entry, cell: Cell, number: u64, task: Task) -> Task
    ensures { task_in result ≡ changed_to (entry_of entry.now) (cell_of cell) number (task_in task) }
{
    match entry {
        Entry::Made(_) => Task {
            status: Status::Fresh,
            ..task
        },
        Entry::Begin(_, waker) => Task {
            status: Status::Polling,
            begun: number,
            ..begun(*waker, cell, task)
        },
        Entry::Claim(_) => Task {
            claimed: true,
            ..task
        },
        Entry::Ran(_, answer) => Task {
            ran: Some(*answer),
            ..task
        },
        Entry::Free(_, _) => Task {
            freed: true,
            ..task
        },
        Entry::Pass(_, _) => Task {
            passed: true,
            ..task
        },
        Entry::End(t, reply) => ended(*t, *reply, cell, number, task),
        Entry::DropBegin(_) => Task {
            status: Status::Dropping,
            ..begun(task.waker, cell, task)
        },
        Entry::DropEnd(_) => Task {
            status: Status::Gone,
            ..task
        },
        _ => task,
    }
}

// A task whose call begins with this waker.
fn begun(waker: u64, cell: Cell, task: Task) -> Task
    ensures { task_in result ≡ record (task_in task) {
      call = begins waker (cell_of cell) (status_of task.status) (task_in task).call;
    } }
{
    Task {
        waker,
        began: task.status,
        set_then: is_set(cell),
        claimed: false,
        freed: false,
        passed: false,
        ran: None,
        ..task
    }
}

// A task whose poll ended.
fn ended(t: u64, reply: Reply, cell: Cell, number: u64, task: Task) -> Task
    ensures { task_in result ≡ changed_to (End t reply) (cell_of cell) number (task_in task) }
{
    match reply {
        Reply::Pending => Task {
            status: pending_status(t, cell),
            listed: task.waker,
            ended: number,
            ..task
        },
        _ => Task {
            status: Status::Gone,
            ended: number,
            ..task
        },
    }
}

// What a task is at after a poll that ended Pending.
fn pending_status(t: u64, cell: Cell) -> Status
    ensures { status_of result ≡ pending_of t (cell_of cell) }
{
    match cell {
        Cell::Held(u) => {
            if u == t {
                Status::Holding
            } else {
                Status::Waiting
            }
        }
        _ => Status::Gone,
    }
}

/// Whether an entry of the task ends a poll Pending while another task holds.
pub fn opens(entry: &Entry, t: u64, cell: Cell) -> bool
    ensures { result ≡ opens_with (entry_of entry.now) t (cell_of cell) }
{
    match entry {
        Entry::End(_, Reply::Pending) => is_held_by_other(t, cell),
        _ => false,
    }
}
