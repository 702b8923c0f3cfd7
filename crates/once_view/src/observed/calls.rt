//! The calls of what was seen: what each did, and between which events.

use super::text::Event;
use once_machine::record::{Entry, Ran};
use std::alloc::{AllocError, AllocFailed, Global};
use std::collections::{BTreeMap, BTreeSet};
use std::mem;

/// One thing that a call did.
#[derive(Clone, Copy)]
pub enum Deed {
    /// What this event tells.
    Told(usize),
    /// It got the right.
    Claim,
    /// It gave the right back.
    Free,
    /// It set this value.
    Fill(u64),
    /// It passed its turn on.
    Pass,
}

/// Something that a call did, at a moment which is not seen: after the event `from` or at it, and before the event `to`
/// or at it.
#[derive(Clone, Copy)]
pub struct Effect {
    pub deed: Deed,
    pub from: usize,
    pub to: usize,
    /// Whether it was done. Else it may have been.
    pub is_sure: bool,
}

/// A call of a task with all that it did, in the order in which it did it. Something else that was seen stands as a
/// call of its own.
#[derive(Drop)]
pub struct Call {
    pub task: u64,
    /// The event with which it begins.
    pub from: usize,
    pub effects: Vec<Effect>,
    /// The wakers that it woke, if wakes were seen.
    pub wakers: Vec<u64>,
}

/// Why there are no calls.
#[derive(Clone, Copy, Debug, Drop, PartialEq, Eq)]
pub enum BadEvents {
    /// This event does not fit those before it: a call ends that did not begin, say.
    At(usize),
    /// Memory was refused.
    Memory,
}

impl From<AllocError> for BadEvents {
    fn from(_error: AllocError) -> BadEvents {
        BadEvents::Memory
    }
}

impl<T: Drop> From<AllocFailed<T>> for BadEvents {
    fn from(_error: AllocFailed<T>) -> BadEvents {
        BadEvents::Memory
    }
}

// A call that has not ended yet.
#[derive(Drop)]
struct Open {
    call: Call,
    // What it does with the right, after or at the event beside it.
    release: Option<(Deed, usize)>,
    // Whether it is a drop.
    is_drop: bool,
    // Whether its init was polled in it.
    has_run: bool,
    // The first event of a wake that it made.
    woke_at: Option<usize>,
}

/// Makes calls of events.
///
/// ```
/// let calls = Gathered::calls_of(alloc, &observed.events, observed.are_wakes_seen)?;
/// ```
#[derive(Drop)]
pub struct Gathered {
    alloc: Global,
    are_wakes_seen: bool,
    ended: Vec<Call>,
    open: BTreeMap<u64, Open>,
    holders: BTreeSet<u64>,
}

impl Gathered {
    /// All calls of these events, in the order of their beginnings.
    pub fn calls_of(
        alloc: Global,
        events: &[Event],
        are_wakes_seen: bool,
    ) -> Result<Vec<Call>, BadEvents> {
        let mut gathered = Gathered {
            alloc,
            are_wakes_seen,
            ended: Vec::new(alloc),
            open: BTreeMap::new(alloc),
            holders: BTreeSet::new(alloc),
        };
        for (at, event) in events.iter().enumerate() {
            gathered.take(event, at)?;
        }
        gathered.end_all(events.len().saturating_sub(1))?;
        gathered.ended.sort_by_key(|call| call.from)?;
        Ok(gathered.ended)
    }

    fn take(&mut self, event: &Event, at: usize) -> Result<(), BadEvents> {
        match event {
            Event::Entry(Entry::Begin(task, _)) => self.begin(*task, at, false),
            Event::Entry(Entry::DropBegin(task)) => self.begin(*task, at, true),
            Event::Entry(Entry::Ran(task, answer)) => self.ran(*task, *answer, at),
            Event::Entry(Entry::End(task, _) | Entry::DropEnd(task)) => self.end(*task, at),
            Event::Woke(task, waker) => self.woke(*task, *waker, at),
            Event::Woken(task) => self.alone(*task, at),
            Event::Entry(Entry::Made(task)) => self.alone(*task, at),
            Event::Entry(_) => self.alone(0, at),
        }
    }

    // Something that is no call of a task.
    fn alone(&mut self, task: u64, at: usize) -> Result<(), BadEvents> {
        let call = self.new_call(task, at)?;
        self.ended.push(call)?;
        Ok(())
    }

    fn new_call(&self, task: u64, at: usize) -> Result<Call, AllocError> {
        let mut effects = Vec::new(self.alloc);
        effects.push(Effect::told(at, at))?;
        Ok(Call {
            task,
            from: at,
            effects,
            wakers: Vec::new(self.alloc),
        })
    }

    fn begin(&mut self, task: u64, at: usize, is_drop: bool) -> Result<(), BadEvents> {
        if self.open.contains_key(&task) {
            return Err(BadEvents::At(at));
        }
        let release = if is_drop && self.holders.remove(&task) {
            Some((Deed::Free, at))
        } else {
            None
        };
        let open = Open {
            call: self.new_call(task, at)?,
            release,
            is_drop,
            has_run: false,
            woke_at: None,
        };
        self.open.insert(task, open)?;
        Ok(())
    }

    fn ran(&mut self, task: u64, answer: Ran, at: usize) -> Result<(), BadEvents> {
        let open = self.open.get_mut(&task).ok_or(BadEvents::At(at))?;
        open.run(self.holders.contains(&task), answer, at)?;
        if open.release.is_some() {
            self.holders.remove(&task);
        } else {
            self.holders.insert(task)?;
        }
        Ok(())
    }

    fn woke(&mut self, task: u64, waker: u64, at: usize) -> Result<(), BadEvents> {
        let open = self.open.get_mut(&task).ok_or(BadEvents::At(at))?;
        open.call.wakers.push(waker)?;
        open.woke_at = open.woke_at.or(Some(at));
        Ok(())
    }

    // A call ends with this event.
    fn end(&mut self, task: u64, at: usize) -> Result<(), BadEvents> {
        let open = self.open.remove(&task).ok_or(BadEvents::At(at))?;
        let from = open.call.from;
        let mut call = self.released(open, at, true)?;
        call.effects.push(Effect::told(from, at))?;
        self.ended.push(call)?;
        Ok(())
    }

    // The calls that do not end: what they did after the last event, and whether they did it, is not seen.
    fn end_all(&mut self, last: usize) -> Result<(), BadEvents> {
        let none = BTreeMap::new(self.alloc);
        for (task, open) in mem::replace(&mut self.open, none) {
            self.end_open(task, open, last)?;
        }
        Ok(())
    }

    // A call that does not end. Its task may have got the right in it.
    fn end_open(&mut self, task: u64, mut open: Open, last: usize) -> Result<(), AllocError> {
        if !open.has_run && !open.is_drop && !self.holders.contains(&task) {
            let claim = Effect::claim(open.call.from, last, false);
            open.call.effects.push(claim)?;
        }
        let call = self.released(open, last, false)?;
        self.ended.push(call)?;
        Ok(())
    }

    // A call with what it did with the right or its turn, up to this event.
    fn released(&self, open: Open, last: usize, is_over: bool) -> Result<Call, AllocError> {
        let Open {
            mut call,
            release,
            has_run,
            woke_at,
            ..
        } = open;
        let has_woken = !call.wakers.is_empty();
        let (deed, from) = match release {
            Some(release) => release,
            None if has_run || (self.are_wakes_seen && !has_woken) => return Ok(call),
            None => (Deed::Pass, call.from),
        };
        call.effects.push(Effect {
            deed,
            from,
            to: woke_at.unwrap_or(last),
            is_sure: has_woken || (is_over && release.is_some()),
        })?;
        Ok(call)
    }
}

impl Open {
    // Its init was polled, and answered so. If the task did not hold the right before, it got it in this call.
    fn run(&mut self, has_held: bool, answer: Ran, at: usize) -> Result<(), AllocError> {
        if !has_held {
            let claim = Effect::claim(self.call.from, at, true);
            self.call.effects.push(claim)?;
        }
        self.call.effects.push(Effect::told(at, at))?;
        self.has_run = true;
        self.release = match answer {
            Ran::Pending => None,
            Ran::Value(value) => Some((Deed::Fill(value), at)),
            Ran::Error(_) => Some((Deed::Free, at)),
        };
        Ok(())
    }
}

impl Effect {
    // What an event tells, at a moment between these two events.
    fn told(from: usize, event: usize) -> Effect {
        Effect {
            deed: Deed::Told(event),
            from,
            to: event,
            is_sure: true,
        }
    }

    // That it got the right, at a moment between these two events.
    fn claim(from: usize, to: usize, is_sure: bool) -> Effect {
        Effect {
            deed: Deed::Claim,
            from,
            to,
            is_sure,
        }
    }
}
