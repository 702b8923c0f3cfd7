//! What a replay is told, and what it tells.

pub use crate::log::QueueLine;

/// The kinds of cell. A lazy cell owns one init, whose answers are listed: `None` is one Pending, and `Some(v)` is the
/// value `v`. If none is left each further answer is Pending.
#[derive(Debug, Drop, PartialEq, Eq)]
pub enum Kind {
    /// An empty cell, to which each call brings its own init.
    Once,
    /// The same, made with a value.
    OnceWith(u64),
    /// A cell that owns one init, with these answers.
    Lazy(Vec<Option<u64>>),
    /// The same, made with a value.
    LazyWith(u64),
}

/// What one poll of an init answers.
#[derive(Clone, Copy, Debug, PartialEq, Eq)]
pub enum Ran {
    /// There is no answer yet.
    Pending,
    /// The init gives this value.
    Value(u64),
    /// The init fails with this error.
    Error(u64),
}

/// What a poll of a task answers.
#[derive(Clone, Copy, Debug, PartialEq, Eq)]
pub enum Reply {
    /// The poll is Pending.
    Pending,
    /// The value that is set.
    Value(u64),
    /// The error that the task's own init gave.
    Error(u64),
    /// Memory was refused.
    Memory,
    /// As many tasks are counted in as may be.
    Full,
}

/// A call of the cell's owner.
#[derive(Clone, Debug, Drop, PartialEq, Eq)]
pub enum Call {
    /// Takes the value out of a once cell.
    Take,
    /// Writes another value, if one is set.
    Write(u64),
    /// Takes a lazy cell apart.
    Parts,
    /// Replaces a lazy cell by one with this value.
    ReplaceValue(u64),
    /// Replaces a lazy cell by one whose init has these answers.
    ReplaceAnswers(Vec<Option<u64>>),
}

/// What an owner's call is given.
#[derive(Debug, Drop, PartialEq, Eq)]
pub enum Got {
    /// Nothing: no value was set.
    None,
    /// The value that was set before the call.
    Value(u64),
    /// The answers that the init of a lazy cell has left.
    Answers(Vec<Option<u64>>),
}

/// One input of a replay. One that does not fit is passed over.
#[derive(Debug, Drop, PartialEq, Eq)]
pub enum Input {
    /// Makes this task.
    Make(u64),
    /// The task's next poll begins, with this waker.
    Poll(u64, u64),
    /// The task's drop begins.
    Drop(u64),
    /// The task makes one step of its call. An init that it polls answers so, and the step is given memory or not.
    Go(u64, Ran, bool),
    /// Looks for the value.
    Look,
    /// The owner makes this call, when every task that was made is gone.
    Own(Call),
}

/// One entry of a record.
#[derive(Debug, Drop, PartialEq, Eq)]
pub enum Entry {
    /// The task was made.
    Made(u64),
    /// A poll of the task began, with this waker.
    Begin(u64, u64),
    /// The task got the right.
    Claim(u64),
    /// The task polled the init, which answered so.
    Ran(u64, Ran),
    /// The task gave the right back, and handed these wakers out.
    Free(u64, Vec<u64>),
    /// The task set the value, and handed these wakers out.
    Fill(u64, u64, Vec<u64>),
    /// The task, which was woken and leaves, passed its turn on, and handed these wakers out.
    Pass(u64, Vec<u64>),
    /// The task's poll ended.
    End(u64, Reply),
    /// A drop of the task began.
    DropBegin(u64),
    /// The task's drop ended.
    DropEnd(u64),
    /// A look found this value.
    Look(Option<u64>),
    /// The owner made this call, and was given this.
    Own(Call, Got),
}

/// What a replay tells, the oldest entry and the oldest line first.
#[derive(Debug, Drop, PartialEq, Eq)]
pub struct Record {
    /// What the tasks and the owner did, and what they were told.
    pub entries: Vec<Entry>,
    /// The queue log: when a queue was put to the door, entered, and taken out.
    pub queues: Vec<QueueLine>,
    /// The number of the queue that stands at the door at the end.
    pub queue: Option<u64>,
}
