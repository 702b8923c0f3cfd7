//! What a schedule is about: the tasks, the inits and the cells, and what they show.

use crate::doubles::made::Made;
use crate::doubles::other::{Meddling, Other};
use crate::doubles::poll::{calm, heard, tasks};
use crate::doubles::stub::{Init, Stub, Tried};
use async_once_cell::record::Reply;
use async_once_cell::{Lazy, OnceCell};
use futures::test::MockTask;
use std::alloc::{AllocError, AllocGlobal};
use std::random::RandomSource;
use std::sync::Wait;
use std::{fmt, io};
use test_doubles::text::text_of;

/// What a line led to: what a poll answered, and whether the future is done.
#[derive(Clone, Copy)]
pub enum Outcome {
    Obeyed,
    Unreadable,
    Polled(Reply, bool),
}

impl fmt::Display for Outcome {
    fn fmt<W: fmt::Write>(&self, f: &mut fmt::Formatter<W>) -> fmt::Result {
        match *self {
            Outcome::Obeyed => f.write_str("so"),
            Outcome::Unreadable => f.write_str("unreadable"),
            Outcome::Polled(reply, is_done) => {
                let done = if is_done { ", done" } else { "" };
                let (word, number) = match reply {
                    Reply::Pending => ("pending", None),
                    Reply::Value(value) => ("v", Some(value)),
                    Reply::Error(error) => ("e", Some(error)),
                    Reply::Memory => ("memory", None),
                    Reply::Full => ("full", None),
                };
                match number {
                    Some(number) => write!(f, "{word}{number}{done}"),
                    None => write!(f, "{word}{done}"),
                }
            }
        }
    }
}

/// The tasks of a schedule.
#[derive(Drop)]
pub struct Tasks {
    pub tasks: Vec<MockTask>,
}

impl Tasks {
    pub fn new<R: AllocGlobal + RandomSource>(rt: &R, most: usize) -> io::Result<Self> {
        let tasks = Tasks {
            tasks: tasks(rt, most)?,
        };
        // A new task counts as woken.
        tasks.calm();
        Ok(tasks)
    }

    fn is_woken(&self, number: usize) -> bool {
        match self.tasks.get(number) {
            Some(task) => task.is_woken(),
            None => false,
        }
    }

    pub fn calm(&self) {
        for task in &self.tasks {
            calm(task);
        }
    }
}

/// The tasks that were woken. If several in a row were, the first and the last stand for them.
impl fmt::Display for Tasks {
    fn fmt<W: fmt::Write>(&self, f: &mut fmt::Formatter<W>) -> fmt::Result {
        let mut before = false;
        for number in 0..self.tasks.len() {
            let is_woken = self.is_woken(number);
            if is_woken && !before {
                write!(f, ", wakes {number}")?;
            }
            if is_woken && before && !self.is_woken(number.wrapping_add(1)) {
                write!(f, " to {number}")?;
            }
            before = is_woken;
        }
        Ok(())
    }
}

/// What the inits of a schedule answer, and what they went through.
#[derive(Drop)]
pub struct Inits {
    pub sure: Stub<u64>,
    tried: Stub<Tried>,
}

impl Inits {
    pub fn new() -> Self {
        Inits {
            sure: Stub::new(),
            tried: Stub::new(),
        }
    }

    /// Has inits answer as a line says, which has `s` for Pending too, where they ask for nothing.
    pub fn tell(&self, text: &str) {
        self.tried.is_silent.set(text == "s");
        self.sure.is_silent.set(text == "s");
        self.set(answer_in(text));
    }

    pub fn set(&self, answer: Option<Tried>) {
        self.tried.answer.set(answer);
        self.sure.answer.set(answer.and_then(Result::ok));
    }

    pub fn made(&self) -> u64 {
        self.sure.made.get().wrapping_add(self.tried.made.get())
    }

    fn polls(&self) -> u64 {
        self.sure.polls.get().wrapping_add(self.tried.polls.get())
    }

    pub fn drops(&self) -> u64 {
        self.sure.drops.get().wrapping_add(self.tried.drops.get())
    }
}

/// How often inits were polled, and how many were dropped.
impl fmt::Display for Inits {
    fn fmt<W: fmt::Write>(&self, f: &mut fmt::Formatter<W>) -> fmt::Result {
        let (polls, drops) = (self.polls(), self.drops());
        write!(f, "{polls} polls, {drops} drops")
    }
}

// `v` with a value, or `e` with an error. None stands for Pending.
fn answer_in(text: &str) -> Option<Tried> {
    if let Some(value) = text.strip_prefix('v') {
        return Some(Ok(value.parse().ok()?));
    }
    Some(Err(text.strip_prefix('e')?.parse().ok()?))
}

/// What the futures of a schedule are made of.
#[derive(Drop)]
pub struct Scene<'o, 'a, 'i, R: Wait + AllocGlobal> {
    pub rt: &'o R,
    pub cell: &'o OnceCell<u64>,
    pub lazy: &'o Lazy<u64, Init<'i, u64>>,
    pub other: &'o Other<'a, R>,
    pub inits: &'i Inits,
    pub tasks: &'o Tasks,
}

impl<'o, 'a: 'o, 'i: 'o, R: Wait + AllocGlobal> Scene<'o, 'a, 'i, R> {
    /// A future of this kind. None stands for every other word.
    pub fn made(&self, word: &str, rest: &'o str) -> Option<Made<'o, 'a, 'i, R>> {
        let (rt, cell, other) = (self.rt, self.cell, self.other);
        let plan = match word {
            "looks" => ("", rest),
            "uses" => rest.split_once("/ ").unwrap_or((rest, "")),
            _ => ("", ""),
        };
        match word {
            "init" | "looks" => {
                let init = Meddling::new(other, &self.inits.sure, plan);
                Some(Made::Sure(cell.get_or_init(rt, init)))
            }
            "try" | "uses" => {
                let init = Meddling::new(other, &self.inits.tried, plan);
                Some(Made::Trying(cell.get_or_try_init(rt, init)))
            }
            "get" => Some(Made::Lazily(self.lazy.get(rt))),
            "unpin" => Some(Made::Lazily(self.lazy.get_unpin(rt))),
            "into" => Some(Made::Lazily(self.lazy.into_future(rt))),
            _ => None,
        }
    }

    pub fn shown(&self) -> Result<String, AllocError> {
        text_of(self.rt.alloc(), self.cell)
    }

    pub fn shown_lazy(&self) -> Result<String, AllocError> {
        text_of(self.rt.alloc(), self.lazy)
    }

    pub fn counted(&self) -> Result<String, AllocError> {
        format!(in self.rt.alloc(); "{}", self.inits)
    }

    /// What an init found that looked at its cell, or what the other future answered at last.
    pub fn found(&self) -> Result<String, AllocError> {
        let alloc = self.rt.alloc();
        match self.other.heard.get() {
            Some(reply) => text_of(alloc, &reply),
            None => text_of(alloc, &self.other.found.get()),
        }
    }

    /// What the cell lends, what a new token knows, and what it answers to a look and knows then.
    pub fn looked(&self) -> Result<String, AllocError> {
        let (fresh, mut token) = (self.cell.token(), self.cell.token());
        let found = [
            self.cell.get().copied(),
            self.cell.get_as(&mut token).copied(),
        ];
        text_of(self.rt.alloc(), &(found, fresh, token))
    }

    /// What a new future answers to one poll by the first task with a new token, which looked at the cell before if it
    /// `knows`. Its init answers as the text says. Then what the token knows, and how many inits were dropped by then.
    pub fn asked(&self, knows: bool, answer: &str) -> Result<String, AllocError> {
        let (cell, tasks) = (self.cell, self.tasks);
        self.inits.tell(answer);
        let mut token = cell.token();
        if knows {
            let _ = cell.get_as(&mut token);
        }
        let mut future = cell.get_or_init(self.rt, self.inits.sure.init());
        let reply = match tasks.tasks.first() {
            Some(task) => task.enter(|cx| heard(future.poll_as(cx, &mut token))),
            None => Reply::Full,
        };
        let outcome = Outcome::Polled(reply, future.is_finished());
        let drops = self.inits.drops();
        let text = format!(in self.rt.alloc(); "{outcome}{tasks}, {token:?}, {drops} drops");
        tasks.calm();
        text
    }

    /// What a line led to, with the tasks that were woken since the line before.
    pub fn written(&self, outcome: Outcome) -> Result<String, AllocError> {
        let tasks = self.tasks;
        let text = format!(in self.rt.alloc(); "{outcome}{tasks}");
        tasks.calm();
        text
    }
}
