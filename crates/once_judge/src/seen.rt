//! What is kept of the entries so far. A moment is told by the number of the entry after which it comes.
ghost use Rattle.std.specs.Prelude.{◌≡◌, ◌<◌, ◌≤◌, ◌+◌, ◌-◌, ◌^◌, ◌==◌, ℕ, if◌then◌else◌, suc, Some, None, true, false};
ghost use Rattle.std.specs.Prelude.{OnOk, IfOk, MatchOption, nat_lt};
ghost use Rattle.std.specs.Bool.{Decides};
ghost use Rattle.once_machine.specs.Numbers.{member, times_in, bit};
ghost use Rattle.once_machine.specs.Shown.{entry_of};
ghost use Rattle.once_judge.specs.Seen.{counted as count_of, task_of as whose};
ghost use Rattle.once_judge.specs.Legal.{HasWaited};
ghost use Rattle.once_judge.specs.Values.{status_of};
ghost use Rattle.once_judge.specs.TaskShown.{task_in};

use crate::calls::Calls;
use crate::living::Living;
use crate::task::{
    Cell, Status, Task, handed_by, is_about, is_under_way, is_waiting, moved, opens, task_of,
};
use once_machine::record::{Call, Entry, Kind};
use std::alloc::{AllocError, Global};
use std::collections::{BTreeMap, BTreeSet};

/// By which rules a record is judged.
#[derive(Clone, Copy)]
pub struct Rules {
    /// Whom a release without a value wakes.
    pub calls: Calls,
    /// Whether the kind is lazy.
    pub lazy: bool,
    /// How many tasks may be counted in.
    pub limit: u64,
}

/// What is kept of the entries so far: all that decides which entry may come next.
#[derive(Drop)]
pub struct Seen {
    /// What gives the memory.
    pub alloc: Global,
    /// By which rules they are judged.
    pub rules: Rules,
    /// How many entries there were.
    pub entries: u64,
    /// What the cell is.
    pub cell: Cell,
    /// The answers of a lazy init.
    pub answers: Vec<Option<u64>>,
    /// How many of them it gave.
    pub used: usize,
    /// The tasks that were made and are not gone, and when each waker was handed out last.
    pub tasks: Living,
    /// Those that are gone.
    pub gone: BTreeSet<u64>,
    /// How often each waker may still be handed out.
    pub times: BTreeMap<u64, u64>,
    /// Which task was listed with each waker last.
    pub listed: BTreeMap<u64, u64>,
    /// The one of them whose waker was handed out last.
    pub called: u64,
    /// How many tasks are about.
    pub about: u64,
    /// How many are in a call.
    pub acting: u64,
    /// When more tasks than the limit were about last.
    pub crowded_at: u64,
    /// When two tasks were in a call last.
    pub acting_at: u64,
    /// The task that held last.
    pub holder: u64,
    /// When that one held last.
    pub held_at: u64,
    /// When another than that one held last.
    pub other_held_at: u64,
}

impl Seen {
    ghost use Rattle.std.specs.BTreeMap.{get};
    ghost use Rattle.std.specs.BTreeSet.{contains};
    ghost use Rattle.std.specs.Ordering.{nat_cmp};
    ghost use Rattle.once_machine.specs.Record.{Got, Own};
    ghost use Rattle.once_machine.specs.Shown.{call_of, kind_of};
    ghost use Rattle.once_machine.specs.Tasks.{Waiting as WaitingStatus, is_gone};
    ghost use Rattle.once_judge.specs.Seen.{nothing_seen, gone_task, after, other_held};
    ghost use Rattle.once_judge.specs.Legal.{SomebodyCalledIn, IsCalledIn, WasCalled, IsForgottenIn};
    ghost use Rattle.once_judge.specs.Shown.{found, tasked_by, seen_of, task_at, count_at, tasked, celled};
    ghost use Rattle.once_judge.specs.Shown.{noted, rules_of, Within};

    /// Nothing was seen of a cell of this kind.
    pub fn new(alloc: Global, kind: &Kind, limit: u64, calls: Calls) -> Result<Seen, AllocError>
        ensures seen { IfOk result (λ k. seen_of k ≡ nothing_seen (kind_of kind.now)) }
        ensures rules { IfOk result (λ k. k.rules ≡ rules_of calls (kind_of kind.now) limit) }
    {
        let (lazy, cell, answers) = match kind {
            Kind::Once => (false, Cell::Empty, Vec::new(alloc)),
            Kind::OnceWith(v) => (false, Cell::SetTo(*v), Vec::new(alloc)),
            Kind::Lazy(answers) => (true, Cell::Empty, Vec::from_slice(alloc, answers)?),
            Kind::LazyWith(v) => (true, Cell::SetTo(*v), Vec::new(alloc)),
        };
        Ok(Seen {
            alloc,
            rules: Rules { calls, lazy, limit },
            entries: 0,
            cell,
            answers,
            used: 0,
            tasks: Living::new(alloc),
            gone: BTreeSet::new(alloc),
            times: BTreeMap::new(alloc),
            listed: BTreeMap::new(alloc),
            called: 0,
            about: 0,
            acting: 0,
            crowded_at: 0,
            acting_at: 0,
            holder: 0,
            held_at: 0,
            other_held_at: 0,
        })
    }

    /// What is known of a task.
    pub fn task(&self, t: u64) -> Task
        ensures { task_in result ≡ (seen_of self.now).task t }
    {
        match self.tasks.all.get(&t) {
            Some(task) => *task,
            None => self.gone_task(t),
        }
    }

    // What is known of a task that does not live.
    fn gone_task(&self, t: u64) -> Task
        ensures { task_in result ≡ found None (contains nat_cmp self.now.gone t) }
    {
        if self.gone.contains(&t) {
            Task::new(Status::Gone)
        } else {
            Task::new(Status::Unmade)
        }
    }

    /// Takes an entry that may come next.
    pub fn take(&mut self, entry: &Entry) -> Result<(), AllocError>
        requires within { Within (seen_of self.old) }
        requires small { self.old.entries < 2 ^ 63 }
        ensures seen { OnOk result (seen_of self.new
            ≡ after self.old.rules.limit (entry_of entry.now) (seen_of self.old)) }
        ensures rules { OnOk result (self.new.rules ≡ self.old.rules) }
    {
        let number = self.entries + 1;
        self.take_its_task(entry, number)?;
        self.hand_out(handed_by(entry), number)?;
        self.take_cell(entry)?;
        self.note(number);
        self.settle(entry)?;
        Ok(())
    }

    // What an entry changes of its task, if it has one.
    fn take_its_task(&mut self, entry: &Entry, number: u64) -> Result<(), AllocError>
        requires within { Within (seen_of self.old) }
        requires small { self.old.entries < 2 ^ 63 }
        requires next { number ≡ suc self.old.entries }
        ensures seen { OnOk result (seen_of self.new
            ≡ tasked_by (whose (entry_of entry.now)) (entry_of entry.now) (seen_of self.old)) }
        ensures rules { OnOk result (self.new.rules ≡ self.old.rules) }
    {
        match task_of(entry) {
            Some(t) => self.take_task(entry, t, number),
            None => Ok(()),
        }
    }

    // What an entry changes of its task.
    fn take_task(&mut self, entry: &Entry, t: u64, number: u64) -> Result<(), AllocError>
        requires within { Within (seen_of self.old) }
        requires small { self.old.entries < 2 ^ 63 }
        requires next { number ≡ suc self.old.entries }
        requires its { whose (entry_of entry.now) ≡ Some t }
        ensures seen { OnOk result (seen_of self.new ≡ tasked (entry_of entry.now) t (seen_of self.old)) }
        ensures rules { OnOk result (self.new.rules ≡ self.old.rules) }
    {
        let old = self.task(t);
        let new = moved(entry, self.cell, number, old);
        self.about = counted(self.about, is_about(old.status), is_about(new.status));
        self.acting = counted(
            self.acting,
            is_under_way(old.status),
            is_under_way(new.status),
        );
        let opens = opens(entry, t, self.cell);
        self.open(opens, old.waker, t)?;
        self.put(t, new)
    }

    // A poll of the task with this waker may have ended Pending, so that the waker may be handed out once more.
    fn open(&mut self, opens: bool, waker: u64, t: u64) -> Result<(), AllocError>
        requires { count_at self.old.times waker < 2 ^ 63 }
        ensures times { OnOk result ((w : ℕ) → count_at self.new.times w
            ≡ count_at self.old.times w + bit (if waker == w then opens else false)) }
        ensures rest { self.new ≡ record self.old { times = self.new.times; listed = self.new.listed } }
    {
        if opens {
            let times = self.times.get(&waker).copied().unwrap_or(0);
            self.times.insert(waker, times + 1)?;
            self.listed.insert(waker, t)?;
        }
        Ok(())
    }

    // Keeps a task.
    fn put(&mut self, t: u64, task: Task) -> Result<(), AllocError>
        requires settled { is_gone (status_of task.status) ≡ true → task_in task ≡ gone_task }
        ensures task { OnOk result ((u : ℕ) → task_at self.new.tasks.all self.new.gone u
            ≡ (if t == u then task_in task else task_at self.old.tasks.all self.old.gone u)) }
        ensures handed { self.new.tasks.handed ≡ self.old.tasks.handed }
        ensures rest { self.new ≡ record self.old { tasks = self.new.tasks; gone = self.new.gone } }
    {
        if matches!(task.status, Status::Gone) {
            self.tasks.remove(t);
            self.gone.insert(t)?;
        } else {
            self.tasks.insert(t, task)?;
        }
        Ok(())
    }

    // Wakers that the entry of this number hands out.
    fn hand_out(&mut self, wakers: &[u64], number: u64) -> Result<(), AllocError>
        requires later { (w : ℕ) → count_at self.old.tasks.handed w ≤ number }
        ensures times { OnOk result ((w : ℕ) → count_at self.new.times w
            ≡ count_at self.old.times w - times_in w wakers.now) }
        ensures handed { OnOk result ((w : ℕ) → count_at self.new.tasks.handed w
            ≡ (if member w wakers.now then number else count_at self.old.tasks.handed w)) }
        ensures all { self.new.tasks.all ≡ self.old.tasks.all }
        ensures rest { self.new
            ≡ record self.old { times = self.new.times; tasks = self.new.tasks; called = self.new.called } }
    {
        for waker in wakers {
            let times = self.times.get(waker).copied().unwrap_or(0);
            self.times.insert(*waker, times.saturating_sub(1))?;
            self.tasks.hand(*waker, number)?;
            self.called = self.listed.get(waker).copied().unwrap_or(self.called);
        }
        Ok(())
    }

    // What an entry changes of the cell.
    fn take_cell(&mut self, entry: &Entry) -> Result<(), AllocError>
        ensures seen { OnOk result (seen_of self.new ≡ celled (entry_of entry.now) (seen_of self.old)) }
        ensures rules { self.new.rules ≡ self.old.rules }
    {
        match entry {
            Entry::Claim(t) => self.cell = Cell::Held(*t),
            Entry::Free(_, _) => self.cell = Cell::Empty,
            Entry::Fill(_, v, _) => self.cell = Cell::SetTo(*v),
            Entry::Ran(_, _) => {
                if self.used < self.answers.len() {
                    self.used += 1;
                }
            }
            Entry::Own(call, _) => return self.own(call),
            _ => {}
        }
        Ok(())
    }

    // What a call of the owner changes.
    fn own(&mut self, call: &Call) -> Result<(), AllocError>
        ensures seen { (g : Got) → OnOk result (seen_of self.new
            ≡ celled (Own (call_of call.now) g) (seen_of self.old)) }
        ensures rules { self.new.rules ≡ self.old.rules }
    {
        match call {
            Call::Take => self.replace(Cell::Empty),
            Call::Write(v) => {
                if let Cell::SetTo(_) = self.cell {
                    self.cell = Cell::SetTo(*v);
                }
            }
            Call::Parts => {
                self.replace(Cell::Empty);
                self.answers = Vec::new(self.alloc);
                self.used = 0;
            }
            Call::ReplaceValue(v) => {
                self.replace(Cell::SetTo(*v));
                self.answers = Vec::new(self.alloc);
                self.used = 0;
            }
            Call::ReplaceAnswers(answers) => {
                self.replace(Cell::Empty);
                self.answers = Vec::from_slice(self.alloc, answers)?;
                self.used = 0;
            }
        }
        Ok(())
    }

    // Another cell.
    fn replace(&mut self, cell: Cell)
        ensures times { (w : ℕ) → count_at self.new.times w ≡ 0 }
        ensures rest { self.new ≡ record self.old { cell = cell; times = self.new.times } }
    {
        self.cell = cell;
        self.times = BTreeMap::new(self.alloc);
    }

    // What holds after the entry of this number.
    fn note(&mut self, number: u64)
        ensures seen { seen_of self.new ≡ noted self.old.rules.limit number (seen_of self.old) }
        ensures rules { self.new.rules ≡ self.old.rules }
    {
        self.entries = number;
        if self.about > self.rules.limit {
            self.crowded_at = number;
        }
        if self.acting > 1 {
            self.acting_at = number;
        }
        if let Cell::Held(t) = self.cell {
            if t != self.holder {
                self.other_held_at = self.held_at;
                self.holder = t;
            }
            self.held_at = number;
        }
    }

    // After a release that looked at all that ask, those that were woken ask no more.
    fn settle(&mut self, entry: &Entry) -> Result<(), AllocError>
        ensures seen { seen_of self.new ≡ seen_of self.old }
        ensures rules { self.new.rules ≡ self.old.rules }
    {
        let looks = match (entry, self.rules.calls) {
            (Entry::Free(_, wakers), Calls::One) => wakers.is_empty(),
            (Entry::Free(_, _), Calls::All) | (Entry::Fill(_, _, _), _) => true,
            _ => false,
        };
        if looks {
            self.tasks.settle(self.alloc)?;
        }
        Ok(())
    }

    /// When another task than this one held last.
    pub fn other_held_at(&self, t: u64) -> u64
        ensures { result ≡ other_held t (seen_of self.now) }
    {
        if t == self.holder {
            self.other_held_at
        } else {
            self.held_at
        }
    }

    /// Whether a waker was handed out since the task's last poll ended.
    pub fn was_handed(&self, waker: u64, task: Task) -> bool
        ensures { result ≡ nat_lt (task_in task).ended ((seen_of self.now).handed waker) }
    {
        task.ended < self.tasks.handed.get(&waker).copied().unwrap_or(0)
    }

    // Whether the task was woken.
    fn is_called(&self, task: Task) -> bool
        ensures { Decides result (WasCalled (task_in task) (seen_of self.now)) }
    {
        stands(task) && self.was_handed(task.listed, task)
    }

    // Whether this task was woken.
    fn was_called(&self, t: u64) -> bool
        ensures { Decides result (IsCalledIn t (seen_of self.now)) }
    {
        self.is_called(self.task(t))
    }

    // Whether some task was woken: most often this one, which waits, or the one that is noted.
    fn some_called(&self, likely: u64) -> bool
        ensures { Decides result ((t : ℕ) × IsCalledIn t (seen_of self.now)) }
    {
        if self.was_called(likely) {
            return true;
        }
        if self.was_called(self.called) {
            return true;
        }
        self.any_called()
    }

    // The same, by a look at all that live.
    fn any_called(&self) -> bool
        ensures { Decides result ((t : ℕ) × IsCalledIn t (seen_of self.now)) }
    {
        for (_, task) in &self.tasks.all {
            if self.is_called(*task) {
                return true;
            }
        }
        false
    }

    // A task that waits.
    fn some_waits(&self) -> Option<u64>
        ensures { MatchOption result ((t : ℕ) → ((seen_of self.now).task t).status ≡ WaitingStatus → ⊥)
            (λ t. ((seen_of self.now).task t).status ≡ WaitingStatus) }
    {
        for t in &self.tasks.waiting {
            if is_waiting(self.task(*t).status) {
                return Some(*t);
            }
        }
        None
    }

    /// A task that waits for an empty cell while nobody was woken.
    pub fn forgotten(&self) -> Option<u64>
        ensures { MatchOption result (SomebodyCalledIn (seen_of self.now)) (λ t. IsForgottenIn t (seen_of self.now)) }
    {
        if !matches!(self.cell, Cell::Empty) {
            return None;
        }
        let waits = self.some_waits()?;
        if self.some_called(waits) {
            None
        } else {
            Some(waits)
        }
    }
}

// Whether the task waits, or is in a call that it began while waiting, and in which it neither claimed
// nor passed its turn on.
fn stands(task: Task) -> bool
    ensures { Decides result (HasWaited (task_in task)) }
{
    match task.status {
        Status::Waiting => true,
        Status::Polling | Status::Dropping => {
            matches!(task.began, Status::Waiting) && !task.claimed && !task.passed
        }
        _ => false,
    }
}

// How many are counted, if one was counted before or not, and is now or not.
fn counted(count: u64, was: bool, is: bool) -> u64
    requires { count < 2 ^ 63 }
    ensures { result ≡ count_of count was is }
{
    let more = if is { count + 1 } else { count };
    if was { more.saturating_sub(1) } else { more }
}
