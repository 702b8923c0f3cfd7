//! What a replay shows of the calls that it makes.
ghost use Rattle.std.specs.Prelude.{OnOk};
ghost use Rattle.once_script.specs.Reached.{IsReached};

use super::wakers::TASKS;
use super::whole::{Row, Whole};
use async_once_cell::queue::MAX_WAITERS;
use once_judge::task_of;
use once_script::parse::RUN_STEPS;
use once_script::world::{Entry, Input, Kind, Ran, Reply, World};
use std::alloc::{AllocError, Global};
use std::collections::BTreeMap;
use test_doubles::text::text_of;

/// What is seen of a call.
#[derive(Debug, Drop, PartialEq)]
pub struct Seen {
    /// What it answers, as text.
    pub told: String,
    /// The tasks that it wakes, in their order.
    pub woken: Vec<u64>,
    /// The Debug text of the cell after it.
    pub shown: String,
}

/// What a replay shows of a call.
#[derive(Drop)]
pub struct Wanted {
    pub seen: Seen,
    /// Those of the tasks that are woken though no waker of theirs is handed out: a waiter that leaves the list, comes
    /// with another waker, or is refused a listing lets its own go, and an init that is Pending asks for another poll.
    /// The machine does not say at which moment of the call.
    pub own: Vec<u64>,
}

// The names are those of the cells, so that the Debug text is the same.
#[derive(Clone, Copy, Debug)]
struct Inner {
    ready: bool,
    quick_init: bool,
    refcount: u64,
    queue: bool,
}

#[derive(Clone, Copy, Debug)]
struct OnceCell {
    value: Option<u64>,
    inner: Inner,
}

#[derive(Clone, Copy, Debug)]
struct Lazy {
    value: Option<u64>,
    inner: Inner,
}

/// Tasks in their order, but those of `own` at the end. Each stands there once.
pub fn ordered(alloc: Global, tasks: &[u64], own: &[u64]) -> Result<Vec<u64>, AllocError> {
    let mut ordered = Vec::new(alloc);
    for task in tasks {
        if !own.contains(task) && !ordered.contains(task) {
            ordered.push(*task)?;
        }
    }
    for task in 0..TASKS {
        if own.contains(&task) && tasks.contains(&task) {
            ordered.push(task)?;
        }
    }
    Ok(ordered)
}

fn add(tasks: &mut Vec<u64>, task: Option<u64>) -> Result<(), AllocError> {
    if let Some(task) = task {
        tasks.push(task)?;
    }
    Ok(())
}

// The tasks whose wakers are listed.
fn listed(alloc: Global, world: &World) -> Result<Vec<u64>, AllocError> {
    let mut listed = Vec::new(alloc);
    for listing in &world.core().lists.listings(alloc)? {
        if let Some(task) = listing.waker {
            listed.push(task)?;
        }
    }
    Ok(listed)
}

// Has a call begin, by the waker that has the number of its task.
fn take(world: &mut World, whole: &Whole) -> Result<(), AllocError>
    requires reached { IsReached world.old }
    ensures reached { OnOk result (IsReached world.new) }
{
    match &whole.input {
        Input::Poll(task, _) => world.take(&Input::Poll(*task, *task)),
        input => world.take(input),
    }
}

// What the entries of a call tell: its answer, and whose wakers it hands out.
#[derive(Drop)]
struct Notes {
    alloc: Global,
    told: String,
    handed: Vec<u64>,
    // Whether a queue stands at the door after it. Then memory was refused for a listing, and else for a queue.
    has_queue: bool,
    // An init was Pending, or a listing was refused.
    wakes_own: bool,
}

impl Notes {
    fn note(&mut self, entry: &Entry) -> Result<(), AllocError> {
        match entry {
            Entry::End(_, reply) => {
                self.told = text_of(self.alloc, reply)?;
                self.wakes_own |= self.has_queue && matches!(reply, Reply::Memory);
            }
            Entry::DropEnd(_) => self.told = text_of(self.alloc, &"dropped")?,
            Entry::Look(value) => self.told = text_of(self.alloc, value)?,
            Entry::Own(_, got) => self.told = text_of(self.alloc, got)?,
            Entry::Free(_, tasks) | Entry::Fill(_, _, tasks) | Entry::Pass(_, tasks) => {
                self.handed.extend_from_slice(tasks)?;
            }
            Entry::Ran(_, Ran::Pending) => self.wakes_own = true,
            _ => {}
        }
        Ok(())
    }
}

// What stood before a call: the number of entries, the tasks whose wakers were listed, and the waker of the last poll
// of the one that makes it.
#[derive(Drop)]
struct Before {
    entries: usize,
    listed: Vec<u64>,
    waker: Option<u64>,
}

/// Has a replay make calls, and tells what it shows of them. There the waker of a task has its number, and by which
/// waker the task was polled last stands here. So a waiter that comes with another one keeps its place, as in a cell.
#[derive(Drop)]
pub struct Teller {
    alloc: Global,
    is_lazy: bool,
    world: World,
    wakers: BTreeMap<u64, u64>,
}

impl Teller {
    /// For a cell of this kind that nobody used.
    pub fn new(alloc: Global, kind: Kind) -> Self
        ensures reached { IsReached result.world }
    {
        Teller {
            alloc,
            is_lazy: matches!(kind, Kind::Lazy(_) | Kind::LazyWith(_)),
            world: World::new(alloc, kind, MAX_WAITERS),
            wakers: BTreeMap::new(alloc),
        }
    }

    /// What a replay shows of a call, after those in its middle.
    pub fn tell(&mut self, row: &Row) -> Result<Vec<Wanted>, AllocError>
        requires reached { IsReached self.old.world }
        ensures reached { OnOk result (IsReached self.new.world) }
    {
        let mut all = Vec::new(self.alloc);
        let before = self.begin(&row.whole)?;
        self.world
            .run(row.whole.task(), Ran::Pending, true, row.steps)?;
        for whole in &row.meanwhile {
            all.push(self.tell_one(whole)?)?;
        }
        all.push(self.end(&row.whole, before)?)?;
        Ok(all)
    }

    /// What a replay shows of a call.
    pub fn tell_one(&mut self, whole: &Whole) -> Result<Wanted, AllocError>
        requires reached { IsReached self.old.world }
        ensures reached { OnOk result (IsReached self.new.world) }
    {
        let before = self.begin(whole)?;
        self.end(whole, before)
    }

    fn begin(&mut self, whole: &Whole) -> Result<Before, AllocError>
        requires reached { IsReached self.old.world }
        ensures reached { OnOk result (IsReached self.new.world) }
    {
        let before = Before {
            entries: self.world.entries().len(),
            listed: listed(self.alloc, &self.world)?,
            waker: self.wakers.get(&whole.task()).copied(),
        };
        if let Input::Poll(task, waker) = &whole.input {
            self.wakers.insert(*task, *waker)?;
        }
        take(&mut self.world, whole)?;
        Ok(before)
    }

    fn end(&mut self, whole: &Whole, before: Before) -> Result<Wanted, AllocError>
        requires reached { IsReached self.old.world }
        ensures reached { OnOk result (IsReached self.new.world) }
    {
        self.world
            .run(whole.task(), whole.answer, whole.is_granted, RUN_STEPS)?;
        let Notes {
            alloc,
            told,
            handed,
            has_queue: _,
            wakes_own,
        } = self.notes(whole, before.entries)?;
        let after = listed(alloc, &self.world)?;
        let own = self.own(whole.task(), before, after, wakes_own)?;
        let seen = Seen {
            told,
            woken: self.woken(&handed, &own)?,
            shown: self.shown()?,
        };
        Ok(Wanted { seen, own })
    }

    // What the entries of a call tell, which come after so many.
    fn notes(&self, whole: &Whole, before: usize) -> Result<Notes, AllocError> {
        let mut notes = Notes {
            alloc: self.alloc,
            told: String::new(self.alloc),
            handed: Vec::new(self.alloc),
            has_queue: self.world.core().door.is_some(),
            wakes_own: false,
        };
        for entry in self.world.entries().get(before..).unwrap_or(&[]) {
            if task_of(entry).unwrap_or(0) == whole.task() {
                notes.note(entry)?;
            }
        }
        Ok(notes)
    }

    // The tasks that are woken by a call though it hands no waker of theirs out.
    fn own(
        &self,
        task: u64,
        before: Before,
        after: Vec<u64>,
        wakes_own: bool,
    ) -> Result<Vec<u64>, AllocError> {
        let mut own = Vec::new(self.alloc);
        let waker = self.wakers.get(&task).copied();
        if before.listed.contains(&task) && (!after.contains(&task) || waker != before.waker) {
            add(&mut own, before.waker)?;
        }
        if wakes_own {
            add(&mut own, waker)?;
        }
        Ok(own)
    }

    // All that are woken: those of whom it hands a waker out, and these.
    fn woken(&self, handed: &[u64], own: &[u64]) -> Result<Vec<u64>, AllocError> {
        let mut woken = Vec::from_slice(self.alloc, own)?;
        for task in handed {
            add(&mut woken, self.wakers.get(task).copied())?;
        }
        ordered(self.alloc, &woken, own)
    }

    // The Debug text of a cell that stands as the replay does.
    fn shown(&mut self) -> Result<String, AllocError>
        requires reached { IsReached self.old.world }
        ensures reached { OnOk result (IsReached self.new.world) }
    {
        self.world.take(&Input::Look)?;
        let value = match self.world.entries().last() {
            Some(Entry::Look(value)) => *value,
            _ => None,
        };
        let core = self.world.core();
        let inner = Inner {
            ready: core.word.is_ready(),
            quick_init: core.word.is_quick(),
            refcount: core.word.count(),
            queue: core.door.is_some(),
        };
        if self.is_lazy {
            text_of(self.alloc, &Lazy { value, inner })
        } else {
            text_of(self.alloc, &OnceCell { value, inner })
        }
    }
}
