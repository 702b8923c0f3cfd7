//! The side of a task, which notes what is asked of it.
ghost use Rattle.std.specs.Prelude.{◌≡◌, [], IfOk, refl, true, ⊤};
ghost use Rattle.async_once_cell.specs.Inner.Sides.{IsReady};
ghost use Rattle.std.proofs.Common.{rules};

use crate::bell::{Bell, named, task_of};
use crate::poller::{Poller, Scripted, init_that_answers};
use async_once_cell::inner::{Hand, Mark, Pollable, TaskSide};
use once_machine::step::{Out, Polled, Side};
use once_machine::waiters::Renews;
use pagebook::Written;
use std::alloc::AllocGlobal;
use std::marker::Model;
use std::random::RandomSource;
use std::snapshot::Snapshot;
use std::{io, mem};

/// One call of a side, with what it was answered or given. A waker stands in it by the name of its task.
#[derive(Debug, Drop)]
pub enum Note {
    Ran(Polled),
    Closed,
    Put,
    Copied(Option<u64>),
    WokeOne(Option<u64>),
    // Each listing, with its ticket.
    WokeAll(Vec<(u64, Option<u64>)>),
}

/// What a side does to another task.
#[derive(Clone, Copy)]
pub enum Act {
    Nothing,
    Poll,
    Leave,
}

/// Another task of the cell, which a side uses in the middle of a step of its own.
pub trait Other: Drop {
    /// Does this, if the task is not finished.
    fn obey(&mut self, act: Act);
}

/// No other task.
#[derive(Drop)]
pub struct Nobody;

impl Other for Nobody {
    fn obey(&mut self, _act: Act) {}
}

/// The side of a task, which notes its calls but for `keep` and `renew`, and may use another task meanwhile. The value
/// that it gives is the name of its task. A clause sees what is told of it.
#[derive(Drop)]
pub struct TestSide<O: Other = Nobody> {
    mark: Mark,
    /// The name of its task, which its waker has too.
    pub name: u64,
    poller: Poller,
    init: Option<Pollable<Scripted>>,
    // Whether memory for a copy of the waker is given.
    is_granted: bool,
    notes: Vec<Note>,
    // A note was lost, since the memory for it was refused.
    is_short: bool,
    // What the init gave.
    has_value: bool,
    has_error: bool,
    // Whether it was shown its value.
    has_shown: bool,
    // Whom the call under way woke.
    woke: Snapshot<Out<Bell>>,
    /// The other task.
    pub other: O,
    // What it does when its init is polled and when it wakes others, and what when its waker is copied.
    at_run: Act,
    at_copy: Act,
}

impl<O: Other> Model for TestSide<O> {
    ghost use Rattle.std.specs.Option.{is_some};
    ghost use Rattle.async_once_cell.specs.Inner.Named.{named_out};
    ghost use Rattle.async_once_cell.specs.Inner.Sides.{Sided};

    ghost Value = { Sided };

    ghost view = { λ s. record {
      number = s.mark;
      has_init = is_some s.init;
      has_value = s.has_value;
      has_error = s.has_error;
      has_shown = s.has_shown;
      woke = named_out (λ b. b.mark.value) s.woke.value;
    } };
}

impl TestSide {
    /// The side of the task of this name, which has this mark, and whose init answers so.
    pub fn new<R>(rt: &R, name: u64, mark: Mark, answer: Polled) -> io::Result<Self>
    where
        R: AllocGlobal + RandomSource,
        ensures { IfOk result (λ s. (s.number ≡ mark) × IsReady s) }
    {
        TestSide::over(rt, name, mark, answer, Nobody)
    }
}

impl<O: Other> TestSide<O> {
    /// The same over another task, which it leaves alone at first.
    pub fn over<R>(rt: &R, name: u64, mark: Mark, answer: Polled, other: O) -> io::Result<Self>
    where
        R: AllocGlobal + RandomSource,
        ensures { IfOk result (λ s. (s.number ≡ mark) × IsReady s) }
    {
        Ok(TestSide {
            mark,
            name,
            poller: Poller::new(rt)?,
            init: Some(init_that_answers(answer)),
            is_granted: true,
            notes: Vec::with_capacity(rt.alloc(), 4)?,
            is_short: false,
            has_value: false,
            has_error: false,
            has_shown: false,
            woke: Snapshot::of(&Out::One(None)),
            other,
            at_run: Act::Nothing,
            at_copy: Act::Nothing,
        })
    }

    /// Another call is to begin, in which nobody was woken yet.
    pub fn begin(&mut self)
        ensures { self.new ≡ record self.old { woke = [] } }
    {
        self.woke = Snapshot::of(&Out::One(None));
    }

    /// The init is one that answers this, from now on, if it was not dropped. Memory for a copy of the waker is given
    /// or not.
    pub fn answers(&mut self, answer: Polled, is_granted: bool)
        ensures { self.new ≡ self.old }
    {
        if self.init.is_some() {
            self.init = Some(init_that_answers(answer));
        }
        self.is_granted = is_granted;
    }

    /// From now on it does the first to the other task when its init is polled and when it wakes others, and the second
    /// when its waker is copied.
    pub fn meddles(&mut self, at_run: Act, at_copy: Act)
        ensures { self.new ≡ self.old }
    {
        self.at_run = at_run;
        self.at_copy = at_copy;
    }

    /// What was noted since this was last asked; `None` says that a note was lost.
    pub fn take(&mut self) -> Option<Vec<Note>>
        ensures { self.new ≡ self.old }
    {
        let rest = Vec::new(*self.notes.allocator());
        let notes = mem::replace(&mut self.notes, rest);
        if self.is_short { None } else { Some(notes) }
    }

    fn note(&mut self, note: Note)
        ensures { self.new ≡ self.old }
    {
        self.is_short |= self.notes.push(note).is_err();
    }
}

impl<O: Other> Side<Bell> for TestSide<O> {
    ghost use Rattle.std.specs.Prelude.{true};
    ghost use Rattle.async_once_cell.specs.Inner.Sides.{HasWoken, sided_tells};

    type Value = u64;

    type Right = Hand;

    ghost did = { sided_tells (λ b. b.mark.value) (λ s. s) };

    ghost can_run = { λ s. s.has_init ≡ true };

    ghost stays = { λ s t. t.number ≡ s.number };

    ghost stays_same = { λ a. refl };

    ghost stays_on = { λ a b c p q. Prim.search rules };

    fn run(&mut self, right: &mut Hand) -> Polled {
        self.other.obey(self.at_run);
        let polled = self.poller.poll(&mut self.init, right);
        self.note(Note::Ran(polled));
        match polled {
            Polled::Pending => {}
            Polled::Value => self.has_value = true,
            Polled::Error => self.has_error = true,
        }
        polled
    }

    fn close(&mut self) {
        self.init = None;
        self.note(Note::Closed);
    }

    fn put(&mut self) -> u64 {
        self.has_value = false;
        self.note(Note::Put);
        self.name
    }

    fn copy(&mut self) -> Option<Bell> {
        self.other.obey(self.at_copy);
        if !self.is_granted {
            self.note(Note::Copied(None));
            return None;
        }
        self.note(Note::Copied(Some(self.name)));
        Some(Bell::new(self.name, &self.mark))
    }

    fn wake(&mut self, out: Out<Bell>)
        ensures did { HasWoken (λ b. b.mark.value) self.old out self.new }
        ensures stays { self.new.number ≡ self.old.number }
    {
        self.woke = Snapshot::of(&out);
        match &out {
            Out::One(bell) => self.note(Note::WokeOne(task_of(bell))),
            Out::All(listings) => match named(*self.notes.allocator(), listings) {
                Ok(tasks) => self.note(Note::WokeAll(tasks)),
                Err(_) => self.is_short = true,
            },
        }
        self.other.obey(self.at_run);
    }
}

impl<O: Other> Renews<Bell> for TestSide<O> {
    ghost renewed = { λ s v t w. (t ≡ s) × (w ≡ v) };

    // A task has one bell, which stays.
    fn renew(&mut self, listed: &mut Bell) {
        let _ = listed;
    }
}

impl<O: Other> TaskSide<Bell> for TestSide<O> {
    ghost use Rattle.std.proofs.Common.{ap};
    ghost use Rattle.async_once_cell.proofs.Sides.{sided_told};

    ghost state = { λ s. s };

    ghost has_slot = { λ _ _. ⊤ };

    fn copies_under_lock() -> bool {
        false
    }

    fn keep(&mut self, _written: Written<u64>)
        ensures shown { self.new ≡ record self.old { has_shown = true } }
        ensures stays { self.new.number ≡ self.old.number }
    {
        self.has_shown = true;
    }

    ghost tells = { sided_told (λ b. b.mark.value) (λ s. s) };

    ghost runs = { λ s h. h };

    ghost puts = { λ s h. tt };

    ghost owner = { λ s v t w r. ap (λ b. b.mark.value) r.1 };

    ghost renews = { λ s v t w r. (r.0, ap (λ x. x.number) r.0) };

    ghost hands_on = { λ s t k v h. h };

    ghost slot_on = { λ s t k n h. h };
}
