//! What all tasks of a replay share, and one step of a task over it.
ghost use Rattle.std.specs.Prelude.{◌≡◌, ◌≤◌, ◌-◌, ◌^◌, ◌++◌, ℕ, true, [], OnOk, IfOk};
ghost use Rattle.once_machine.specs.Steps.{is_running, is_leaving, is_freeing, is_adding};

use super::side::ReplaySide;
use super::{Call, Got, Kind, Ran};
use crate::plain::Core;
use once_machine::step::{Out, Place, Progress, Step};
use once_machine::task::Task;
use std::alloc::{AllocError, Global};
use std::mem::replace;

#[derive(Drop)]
pub(super) struct ReplayCell {
    pub core: Core<u64>,
    pub side: ReplaySide,
}

/// What one step of a task was seen to do, for `step_entries` of `specs/WorldShown`.
#[derive(Drop)]
pub(super) struct StepSeen {
    pub claimed: bool,
    pub ran: Option<Ran>,
    /// By the fast release.
    pub freed: bool,
    /// By a release under the lock, or by a waiter that left.
    pub handed: Option<Out<u64>>,
    pub leaving: bool,
    pub progress: Progress,
}

impl ReplayCell {
    ghost use Rattle.once_machine.specs.Record.{Kind as RecordedKind, is_lazy, replaces, has_call as owner_has};
    ghost use Rattle.once_machine.specs.Log.{take_lines};
    ghost use Rattle.once_machine.specs.Can.{CanAdvance};
    ghost use Rattle.once_script.specs.Core.{HasRoom};
    ghost use Rattle.once_machine.specs.Steps.{in_call};
    ghost use Rattle.once_machine.specs.Machine.{first_world, look_value, step_lines, reset_shared};
    ghost use Rattle.once_machine.specs.Machine.{owner_shared, owner_got, owner_lines, advance as outcome};
    ghost use Rattle.once_machine.specs.Shown.{kind_of, call_of, got_of};
    ghost use Rattle.once_script.specs.WorldShown.{shared_of, log_in, step_entries};

    /// A cell of this kind that nobody used, in which at most `limit` tasks may be counted in. It takes no memory.
    pub fn new(alloc: Global, kind: Kind, limit: u64) -> Self
        requires { limit ≤ 2 ^ 62 - 2 }
        ensures shared { shared_of result ≡ (first_world (kind_of kind)).shared }
        ensures log { log_in result ≡ [] }
        ensures lazy { result.side.lazy ≡ is_lazy (kind_of kind) }
        ensures limit { result.core.limit ≡ limit }
    {
        let lazy = matches!(&kind, Kind::Lazy(_) | Kind::LazyWith(_));
        let (value, answers) = match kind {
            Kind::Once => (None, Vec::new(alloc)),
            Kind::OnceWith(v) => (Some(v), Vec::new(alloc)),
            Kind::Lazy(mut answers) => {
                answers.reverse();
                (None, answers)
            }
            Kind::LazyWith(v) => (Some(v), Vec::new(alloc)),
        };
        ReplayCell {
            core: Core::new(alloc, value.is_some(), limit),
            side: ReplaySide {
                lazy,
                answers,
                value: value.unwrap_or(0),
                answer: Ran::Pending,
                granted: true,
                waker: 0,
                kept: Ran::Pending,
                ran: None,
                handed: None,
            },
        }
    }

    /// What a look finds: the value, if it is set.
    pub fn look(&self) -> Option<u64>
        ensures { result ≡ look_value (shared_of self.now) }
    {
        if self.core.word.is_ready() {
            Some(self.side.value)
        } else {
            None
        }
    }

    /// Makes the room that one step may need. If that is refused, what is shared, the log and the side stay.
    pub fn reserve(&mut self) -> Result<(), AllocError>
        ensures room { OnOk result (HasRoom self.new.core) }
        ensures shared { shared_of self.new ≡ shared_of self.old }
        ensures log { log_in self.new ≡ log_in self.old }
        ensures side { self.new.side ≡ self.old.side }
        ensures limit { self.new.core.limit ≡ self.old.core.limit }
    {
        self.core.reserve()
    }

    /// Makes one step of a task with a call under way. An init that it polls gives `answer`, but that of a lazy cell
    /// gives its own. `granted` says whether the step is given memory.
    pub fn advance(&mut self, task: &mut Task, answer: Ran, granted: bool) -> StepSeen
        requires call { in_call task.old.step ≡ true }
        requires room { HasRoom self.old.core }
        requires can { CanAdvance self.old.core.limit (shared_of self.old) task.old.step }
        ensures shared { (t : ℕ) → shared_of self.new
            ≡ (outcome self.old.side.lazy self.old.core.limit
            (shared_of self.old) t task.old answer granted).shared }
        ensures step { (t : ℕ) → task.new.step
            ≡ (outcome self.old.side.lazy self.old.core.limit
            (shared_of self.old) t task.old answer granted).step }
        ensures kept { (t : ℕ) → task.new.kept
            ≡ (outcome self.old.side.lazy self.old.core.limit
            (shared_of self.old) t task.old answer granted).kept }
        ensures waker { task.new.waker ≡ task.old.waker }
        ensures seen { (t : ℕ) → step_entries t result task.new.kept self.new.side.value
            ≡ (outcome self.old.side.lazy self.old.core.limit
            (shared_of self.old) t task.old answer granted).entries }
        ensures log { log_in self.new ≡ step_lines granted (shared_of self.old) task.old.step
            ++ log_in self.old }
        ensures lazy { self.new.side.lazy ≡ self.old.side.lazy }
        ensures limit { self.new.core.limit ≡ self.old.core.limit }
    {
        self.side.ran = None;
        self.side.handed = None;
        self.side.answer = answer;
        self.side.granted = granted;
        self.side.waker = task.waker;
        self.side.kept = task.kept;
        self.core.set_waker(task.waker);
        self.core.grant(granted);
        let freeing = is_freeing(&task.step);
        let leaving = is_leaving(&task.step);
        let progress = task.step.advance(&mut self.core, &mut self.side);
        task.kept = self.side.kept;
        StepSeen {
            claimed: is_running(&task.step),
            ran: self.side.ran.take(),
            freed: freeing && !is_adding(&task.step),
            handed: self.side.handed.take(),
            leaving,
            progress,
        }
    }

    /// Whether this kind of cell has the call.
    pub fn has_call(&self, call: &Call) -> bool
        ensures { (kind : RecordedKind) → is_lazy kind ≡ self.now.side.lazy
            → result ≡ owner_has kind (call_of call.now) }
    {
        match call {
            Call::Take => !self.side.lazy,
            Call::Write(_) => true,
            Call::Parts | Call::ReplaceValue(_) | Call::ReplaceAnswers(_) => self.side.lazy,
        }
    }

    /// Makes a call of the cell's owner, and answers what the owner is given.
    pub fn own(&mut self, call: &Call) -> Result<Got, AllocError>
        ensures shared { OnOk result (shared_of self.new
            ≡ owner_shared (call_of call.now) (shared_of self.old)) }
        ensures got { IfOk result (λ g. got_of g
            ≡ owner_got (call_of call.now) (shared_of self.old)) }
        ensures log { OnOk result (log_in self.new
            ≡ owner_lines (replaces (call_of call.now)) (shared_of self.old) ++ log_in self.old) }
        ensures lazy { self.new.side.lazy ≡ self.old.side.lazy }
        ensures limit { self.new.core.limit ≡ self.old.core.limit }
    {
        self.core.reserve()?;
        let value = self.look();
        let got = value.map_or(Got::None, Got::Value);
        match call {
            Call::Take => {
                self.renew(None);
                Ok(got)
            }
            Call::Write(v) => {
                if value.is_some() {
                    self.side.value = *v;
                }
                Ok(got)
            }
            Call::Parts => {
                let alloc = *self.side.answers.allocator();
                let mut answers = replace(&mut self.side.answers, Vec::new(alloc));
                self.renew(None);
                if value.is_some() {
                    return Ok(got);
                }
                answers.reverse();
                Ok(Got::Answers(answers))
            }
            Call::ReplaceValue(v) => {
                self.side.answers.clear();
                self.renew(Some(*v));
                Ok(got)
            }
            Call::ReplaceAnswers(answers) => {
                let mut answers = Vec::from_slice(*answers.allocator(), answers)?;
                answers.reverse();
                self.side.answers = answers;
                self.renew(None);
                Ok(got)
            }
        }
    }

    fn renew(&mut self, value: Option<u64>)
        requires room { HasRoom self.old.core }
        ensures shared { shared_of self.new
            ≡ reset_shared (shared_of self.old) value (shared_of self.old).answers }
        ensures log { log_in self.new ≡ take_lines self.old.core.door ++ log_in self.old }
        ensures lazy { self.new.side.lazy ≡ self.old.side.lazy }
        ensures limit { self.new.core.limit ≡ self.old.core.limit }
    {
        self.core.reset(value.is_some());
        if let Some(v) = value {
            self.side.value = v;
        }
    }
}

// Whether the next step polls the init.
fn is_running<W, Q>(step: &Step<W, Q>) -> bool
    ensures { result ≡ is_running step.now }
{
    matches!(step, Step::UnderWay(Place::Run(_)))
}

// Whether the next step takes the task's listing out.
fn is_leaving<W, Q>(step: &Step<W, Q>) -> bool
    ensures { result ≡ is_leaving step.now }
{
    matches!(step, Step::UnderWay(Place::Leave(_, _, _)))
}

// Whether the next step is the fast release.
fn is_freeing<W, Q>(step: &Step<W, Q>) -> bool
    ensures { result ≡ is_freeing step.now }
{
    matches!(step, Step::UnderWay(Place::Fast(_)))
}

// Whether the next step counts a holder in, because its fast release was not done.
fn is_adding<W, Q>(step: &Step<W, Q>) -> bool
    ensures { result ≡ is_adding step.now }
{
    matches!(step, Step::UnderWay(Place::AddOne(_)))
}
