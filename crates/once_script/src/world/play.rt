//! A replay under way, one input at a time.
ghost use Rattle.std.specs.Prelude.{◌≡◌, ◌<◌, ◌≤◌, ◌+◌, ◌-◌, ◌^◌, ◌==◌, ℕ, true};
ghost use Rattle.std.specs.Prelude.{List, [], ◌++◌, ◌∷◌, Some, OnOk, IfOk, length, replicate};
ghost use Rattle.std.specs.Option.{option_copied, option_map};
ghost use Rattle.once_machine.specs.Machine.{unfinished_after, error_in as error_of};
ghost use Rattle.once_machine.specs.Machine.{release_entry as release_of, end_entry as end_of};
ghost use Rattle.once_machine.specs.Shown.{call_of, entry_of, history_in};
ghost use Rattle.once_script.specs.WorldShown.{wakers_in};
ghost use Rattle.once_script.specs.WorldShown.{claim_entries, ran_entries, out_entries, step_entries};

use super::cell::{ReplayCell, StepSeen};
use super::{Call, Entry, Input, Kind, Ran, Record, Reply};
use crate::plain::Core;
use once_machine::step::{Ending, Out, Progress, Step};
use once_machine::task::Task;
use std::alloc::{AllocError, Global};
use std::collections::BTreeMap;

/// A cell and its tasks under replay, which take one input at a time. `replay` is the loop over it. Between two inputs
/// it shows its record so far, what all tasks share, and where each task stands:
///
/// ```
/// let mut world = World::new(alloc, Kind::Once, 8);
/// world.take(&Input::Make(1))?;
/// world.take(&Input::Poll(1, 5))?;
/// let begun = world.entries(); // Made(1), Begin(1, 5)
/// let next = world.step_of(1); // under way, at its start
/// ```
#[derive(Drop)]
pub struct World {
    shared: ReplayCell,
    tasks: BTreeMap<u64, Task>,
    unfinished: u64,
    entries: Vec<Entry>,
}

impl World {
    ghost use Rattle.once_machine.specs.Record.{Kind as RecordedKind, is_lazy, has_call as owner_has};
    ghost use Rattle.once_machine.specs.Machine.{world_after, word_of, IsIdle};
    ghost use Rattle.once_machine.specs.Machine.{make_world, poll_world, drop_world, go_world, own_world_by};
    ghost use Rattle.once_machine.specs.Can.{MayTake, TaskCan};
    ghost use Rattle.once_machine.specs.Run.{IsRun};
    ghost use Rattle.once_machine.specs.Shown.{kind_of, call_of, input_of};
    ghost use Rattle.once_machine.specs.Shown.{record_entries, record_lines};
    ghost use Rattle.once_script.specs.WorldShown.{shared_of, world_in};
    ghost use Rattle.once_script.specs.Reached.{IsAfter, IsReached};
    ghost use Rattle.once_machine.specs.Inputs.{Input as Taken, Go};
    ghost use Rattle.once_script.specs.Core.{state_of};
    ghost use Rattle.once_machine.specs.Room.{listings_of};

    /// A cell of this kind that nobody used, in which at most `limit` tasks may be counted in. It takes no memory.
    pub fn new(alloc: Global, kind: Kind, limit: u64) -> Self
        requires some { 0 < limit }
        requires within { limit ≤ 2 ^ 62 - 2 }
        ensures after { IsAfter (kind_of kind) limit [] result }
        ensures reached { IsReached result }
    {
        World {
            shared: ReplayCell::new(alloc, kind, limit),
            tasks: BTreeMap::new(alloc),
            unfinished: 0,
            entries: Vec::new(alloc),
        }
    }

    /// Takes one input. One that does not fit is passed over, and changes nothing. `AllocError` says that the record or
    /// the world could not grow. Then the input may have been taken in part.
    pub fn take(&mut self, input: &Input) -> Result<(), AllocError>
        requires reached { IsReached self.old }
        ensures reached { OnOk result (IsReached self.new) }
        ensures after { (kind : RecordedKind) (limit : ℕ) (inputs : List Taken)
            → IsAfter kind limit inputs self.old
            → OnOk result (IsAfter kind limit (input_of input.now ∷ inputs) self.new) }
    {
        self.apply(input)
    }

    /// Takes so many `Go` inputs of a task, with this answer, and with memory or not. Once no call of the task is under
    /// way it passes the rest over. `AllocError` is as in [`take`](Self::take).
    pub fn run(
        &mut self,
        task: u64,
        answer: Ran,
        granted: bool,
        steps: u64,
    ) -> Result<(), AllocError>
        requires reached { IsReached self.old }
        ensures reached { OnOk result (IsReached self.new) }
        ensures after { (kind : RecordedKind) (limit : ℕ) (inputs : List Taken)
            → IsAfter kind limit inputs self.old
            → OnOk result (IsAfter kind limit (replicate steps (Go task answer granted) ++ inputs) self.new) }
    {
        for _ in 0..steps {
            if self.is_idle(task) {
                return Ok(());
            }
            self.take(&Input::Go(task, answer, granted))?;
        }
        Ok(())
    }

    fn is_idle(&self, task: u64) -> bool
        ensures { result ≡ true → IsIdle ((world_in self.now).tasks task) }
    {
        !matches!(self.step_of(task), Some(Step::UnderWay(_)))
    }

    /// The record so far, the oldest entry first.
    pub fn entries(&self) -> &[Entry]
        ensures entries { history_in result.now ≡ (world_in self.now).history }
        ensures run { (kind : RecordedKind) (limit : ℕ) (inputs : List Taken)
            → IsAfter kind limit inputs self.now → IsRun kind limit (history_in result.now) }
    {
        &self.entries
    }

    /// What all tasks share: the word, the queue at the door, its flag, and its listings.
    pub fn core(&self) -> &Core<u64>
        ensures word { (state_of result.now).word ≡ word_of (world_in self.now).shared }
        ensures door { result.now.door ≡ (world_in self.now).shared.door }
        ensures flag { result.now.lists.head ≡ (world_in self.now).shared.head }
        ensures listings { listings_of result.now.lists ≡ (world_in self.now).shared.listings }
    {
        &self.shared.core
    }

    /// Where a task stands, or None if it was not made.
    pub fn step_of(&self, task: u64) -> Option<&Step<u64, u64>>
        ensures { option_copied result ≡ option_map (λ x. x.step) ((world_in self.now).tasks task) }
    {
        Some(&self.tasks.get(&task)?.step)
    }

    fn apply(&mut self, input: &Input) -> Result<(), AllocError>
        requires may { MayTake self.old.shared.core.limit (world_in self.old) (input_of input.now) }
        ensures world { (kind : RecordedKind) → is_lazy kind ≡ self.old.shared.side.lazy
            → OnOk result (world_in self.new
            ≡ world_after kind self.old.shared.core.limit (world_in self.old) (input_of input.now)) }
        ensures lazy { self.new.shared.side.lazy ≡ self.old.shared.side.lazy }
        ensures limit { self.new.shared.core.limit ≡ self.old.shared.core.limit }
    {
        match input {
            Input::Make(t) => self.make(*t),
            Input::Poll(t, waker) => self.poll(*t, *waker),
            Input::Drop(t) => self.begin_drop(*t),
            Input::Go(t, answer, granted) => self.go(*t, *answer, *granted),
            Input::Look => {
                self.entries.push(Entry::Look(self.shared.look()))?;
                Ok(())
            }
            Input::Own(call) => self.own(call),
        }
    }

    fn make(&mut self, t: u64) -> Result<(), AllocError>
        requires counted { self.old.unfinished ≤ length self.old.entries.items }
        ensures world { OnOk result (world_in self.new
            ≡ make_world (world_in self.old) t ((world_in self.old).tasks t)) }
        ensures shared { self.new.shared ≡ self.old.shared }
        ensures limit { self.new.shared.core.limit ≡ self.old.shared.core.limit }
    {
        if self.tasks.contains_key(&t) {
            return Ok(());
        }
        self.tasks.insert(
            t,
            Task {
                waker: 0,
                kept: Ran::Pending,
                step: Step::new(),
            },
        )?;
        // Each unfinished task has an entry, so their number fits.
        self.unfinished += 1;
        self.entries.push(Entry::Made(t))?;
        Ok(())
    }

    fn poll(&mut self, t: u64, waker: u64) -> Result<(), AllocError>
        ensures world { OnOk result (world_in self.new
            ≡ poll_world (world_in self.old) t waker ((world_in self.old).tasks t)) }
        ensures shared { self.new.shared ≡ self.old.shared }
        ensures limit { self.new.shared.core.limit ≡ self.old.shared.core.limit }
    {
        let Some(task) = self.tasks.get_mut(&t) else {
            return Ok(());
        };
        if !task.step.is_resting() {
            return Ok(());
        }
        task.waker = waker;
        task.step.begin();
        self.entries.push(Entry::Begin(t, waker))?;
        Ok(())
    }

    fn begin_drop(&mut self, t: u64) -> Result<(), AllocError>
        ensures world { OnOk result (world_in self.new
            ≡ drop_world (world_in self.old) t ((world_in self.old).tasks t)) }
        ensures lazy { self.new.shared.side.lazy ≡ self.old.shared.side.lazy }
        ensures limit { self.new.shared.core.limit ≡ self.old.shared.core.limit }
    {
        let Some(task) = self.tasks.get_mut(&t) else {
            return Ok(());
        };
        if !task.step.is_resting() {
            return Ok(());
        }
        let more = task.step.begin_drop(&mut self.shared.side);
        self.unfinished = still_unfinished(&task.step, self.unfinished);
        self.entries.push(Entry::DropBegin(t))?;
        if !more {
            self.entries.push(Entry::DropEnd(t))?;
        }
        Ok(())
    }

    fn go(&mut self, t: u64, answer: Ran, granted: bool) -> Result<(), AllocError>
        requires can { TaskCan self.old.shared.core.limit (shared_of self.old.shared)
            ((world_in self.old).tasks t) }
        ensures world { OnOk result (world_in self.new
            ≡ go_world self.old.shared.side.lazy self.old.shared.core.limit (world_in self.old) t answer granted
            ((world_in self.old).tasks t)) }
        ensures lazy { self.new.shared.side.lazy ≡ self.old.shared.side.lazy }
        ensures limit { self.new.shared.core.limit ≡ self.old.shared.core.limit }
    {
        let Some(task) = self.tasks.get_mut(&t) else {
            return Ok(());
        };
        if task.step.left() == 0 {
            return Ok(());
        }
        self.shared.reserve()?;
        let seen = self.shared.advance(task, answer, granted);
        self.unfinished = still_unfinished(&task.step, self.unfinished);
        let kept = task.kept;
        record_step(&mut self.entries, t, seen, kept, self.shared.side.value)
    }

    fn own(&mut self, call: &Call) -> Result<(), AllocError>
        ensures world { (kind : RecordedKind) → is_lazy kind ≡ self.old.shared.side.lazy
            → OnOk result (world_in self.new
            ≡ own_world_by (self.old.unfinished == 0) (owner_has kind (call_of call.now))
            (world_in self.old) (call_of call.now)) }
        ensures lazy { self.new.shared.side.lazy ≡ self.old.shared.side.lazy }
        ensures limit { self.new.shared.core.limit ≡ self.old.shared.core.limit }
    {
        if self.unfinished != 0 || !self.shared.has_call(call) {
            return Ok(());
        }
        let recorded = copied(call)?;
        let got = self.shared.own(call)?;
        self.entries.push(Entry::Own(recorded, got))?;
        Ok(())
    }

    /// The record, with the queue log and the queue that stands at the door.
    pub fn into_record(self) -> Record
        ensures entries { record_entries result ≡ (world_in self).history }
        ensures queues { record_lines result ≡ (world_in self).log }
        ensures queue { result.queue ≡ (world_in self).shared.door }
    {
        let queue = self.shared.core.door;
        Record {
            entries: self.entries,
            queues: self.shared.core.into_log(),
            queue,
        }
    }
}

fn copied(call: &Call) -> Result<Call, AllocError>
    ensures { IfOk result (λ c. call_of c ≡ call_of call.now) }
{
    Ok(match call {
        Call::Take => Call::Take,
        Call::Write(v) => Call::Write(*v),
        Call::Parts => Call::Parts,
        Call::ReplaceValue(v) => Call::ReplaceValue(*v),
        Call::ReplaceAnswers(answers) => {
            Call::ReplaceAnswers(Vec::from_slice(*answers.allocator(), answers)?)
        }
    })
}

fn still_unfinished(step: &Step<u64, u64>, unfinished: u64) -> u64
    ensures { result ≡ unfinished_after step.now unfinished }
{
    if step.is_finished() {
        unfinished.saturating_sub(1)
    } else {
        unfinished
    }
}

fn record_step(
    entries: &mut Vec<Entry>,
    t: u64,
    seen: StepSeen,
    kept: Ran,
    value: u64,
) -> Result<(), AllocError>
    ensures { OnOk result (history_in entries.new.items ≡ step_entries t seen kept value
        ++ history_in entries.old.items) }
{
    let StepSeen {
        claimed,
        ran,
        freed,
        handed,
        leaving,
        progress,
    } = seen;
    record_init(entries, t, claimed, ran)?;
    if freed {
        let nobody = Vec::new(*entries.allocator());
        entries.push(release_entry(t, kept, nobody))?;
    }
    if let Some(out) = handed {
        record_out(entries, t, leaving, out, kept)?;
    }
    if let Progress::Ended(ending) = progress {
        entries.push(end_entry(t, ending, kept, value))?;
    }
    Ok(())
}

fn record_init(
    entries: &mut Vec<Entry>,
    t: u64,
    claimed: bool,
    ran: Option<Ran>,
) -> Result<(), AllocError>
    ensures { OnOk result (history_in entries.new.items ≡ ran_entries ran t
        ++ claim_entries claimed t ++ history_in entries.old.items) }
{
    if claimed {
        entries.push(Entry::Claim(t))?;
    }
    if let Some(answer) = ran {
        entries.push(Entry::Ran(t, answer))?;
    }
    Ok(())
}

fn record_out(
    entries: &mut Vec<Entry>,
    t: u64,
    leaving: bool,
    out: Out<u64>,
    kept: Ran,
) -> Result<(), AllocError>
    ensures { OnOk result (history_in entries.new.items ≡ out_entries leaving (wakers_in out) t kept
        ++ history_in entries.old.items) }
{
    let wakers = wakers_out(*entries.allocator(), out)?;
    if !leaving {
        entries.push(release_entry(t, kept, wakers))?;
    } else if !wakers.is_empty() {
        entries.push(Entry::Pass(t, wakers))?;
    }
    Ok(())
}

fn wakers_out(alloc: Global, out: Out<u64>) -> Result<Vec<u64>, AllocError>
    ensures { IfOk result (λ X. X.items ≡ wakers_in out) }
{
    match out {
        Out::One(waker) => waker.into_iter().collect(alloc),
        Out::All(listings) => listings
            .into_iter()
            .filter_map(|listing| listing.waker)
            .collect(alloc),
    }
}

fn release_entry(t: u64, kept: Ran, wakers: Vec<u64>) -> Entry
    ensures { entry_of result ≡ release_of kept t wakers.items }
{
    match kept {
        Ran::Value(v) => Entry::Fill(t, v, wakers),
        _ => Entry::Free(t, wakers),
    }
}

fn end_entry(t: u64, ending: Ending, kept: Ran, value: u64) -> Entry
    ensures { entry_of result ≡ end_of ending t value kept }
{
    match ending {
        Ending::Pending => Entry::End(t, Reply::Pending),
        Ending::Value => Entry::End(t, Reply::Value(value)),
        Ending::Error => Entry::End(t, Reply::Error(error_in(kept))),
        Ending::Memory => Entry::End(t, Reply::Memory),
        Ending::Full => Entry::End(t, Reply::Full),
        Ending::Dropped => Entry::DropEnd(t),
    }
}

fn error_in(kept: Ran) -> u64
    ensures { result ≡ error_of kept }
{
    match kept {
        Ran::Error(e) => e,
        _ => 0,
    }
}
