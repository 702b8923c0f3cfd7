//! Plays a script line by line, and shows a watcher each line with what it did.
ghost use Rattle.std.specs.Prelude.{OnOk};
ghost use Rattle.once_script.specs.Reached.{IsReached};

use crate::reading::{Script, ScriptLine, TextLine};
use crate::text::write_filled;
use once_machine::step::Step;
use once_script::parse::{Line, Opening};
use once_script::play::take_line;
use once_script::print::call_word;
use once_script::world::{Call, Entry, Input, Kind, World};
use std::alloc::{AllocError, Global};
use std::fmt;

/// Why an input was passed over.
#[derive(Clone, Copy)]
pub enum Reason {
    /// This task was made before.
    MadeBefore(u64),
    /// This task was not made.
    NotMade(u64),
    /// A poll or a drop of this task is under way.
    CallUnderWay(u64),
    /// No poll and no drop of this task is under way.
    NoCallUnderWay(u64),
    /// This task is gone.
    Gone(u64),
    /// The owner called while this task was not gone.
    NotGone(u64),
    /// A once cell has no call of this name.
    NotOfOnce(&'static str),
    /// A lazy cell has no call of this name.
    NotOfLazy(&'static str),
}

impl fmt::Display for Reason {
    fn fmt<W: fmt::Write>(&self, f: &mut fmt::Formatter<W>) -> fmt::Result {
        match *self {
            Reason::MadeBefore(task) => write_filled(f, "task {} was made before", &[task]),
            Reason::NotMade(task) => write_filled(f, "task {} was not made", &[task]),
            Reason::CallUnderWay(task) => {
                write_filled(f, "a call of task {} is under way", &[task])
            }
            Reason::NoCallUnderWay(task) => {
                write_filled(f, "no call of task {} is under way", &[task])
            }
            Reason::Gone(task) => write_filled(f, "task {} is gone", &[task]),
            Reason::NotGone(task) => write_filled(f, "task {} is not gone", &[task]),
            Reason::NotOfOnce(word) => write_no_call(f, "once", word),
            Reason::NotOfLazy(word) => write_no_call(f, "lazy", word),
        }
    }
}

/// Writes that a cell of this kind has no call of this name.
fn write_no_call<W: fmt::Write>(
    f: &mut fmt::Formatter<W>,
    kind: &'static str,
    word: &'static str,
) -> fmt::Result {
    write!(f, "a {kind} cell has no call `{word}`")
}

/// What there is to see after a line.
#[derive(Clone, Copy)]
pub struct Moment<'a> {
    /// The line.
    pub source: TextLine<'a>,
    /// The task that the line names, if it names one.
    pub task: Option<u64>,
    /// Why the line was passed over, if it was.
    pub reason: Option<Reason>,
    /// What the line added to the record.
    pub added: &'a [Entry],
    /// The world after the line.
    pub world: &'a World,
}

impl Moment<'_> {
    /// Whether the line may have changed what all tasks share: it was not passed over, and did more than make
    /// a task, begin a poll or look.
    pub fn may_change(&self) -> bool {
        match self.added.first() {
            Some(Entry::Made(_) | Entry::Begin(_, _) | Entry::Look(_)) => false,
            _ => self.reason.is_none(),
        }
    }
}

/// What is shown a script while it is played.
pub trait Watcher {
    /// Sees the cell after a line, the first one included.
    fn see(&mut self, moment: Moment<'_>) -> Result<(), AllocError>;
}

/// Plays a script, and shows the watcher each of its lines.
pub fn play<V: Watcher>(
    alloc: Global,
    script: Script<'_>,
    watcher: &mut V,
) -> Result<(), AllocError> {
    let Script {
        opening: Opening { kind, limit },
        first,
        lines,
    } = script;
    let lazy = matches!(&kind, Kind::Lazy(_) | Kind::LazyWith(_));
    let mut world = World::new(alloc, kind, limit);
    watcher.see(Moment {
        source: first,
        task: None,
        reason: None,
        added: &[],
        world: &world,
    })?;
    play_lines(&mut world, &lines, lazy, watcher)
}

// Plays the lines after the first.
fn play_lines<V: Watcher>(
    world: &mut World,
    lines: &[ScriptLine<'_>],
    lazy: bool,
    watcher: &mut V,
) -> Result<(), AllocError>
    requires reached { IsReached world.old }
{
    // Each task that an entry before this one made is gone.
    let mut gone = 0usize;
    for line in lines {
        let reason = reason_of(world, &line.line, lazy, &mut gone);
        play_line(world, line, reason, watcher)?;
    }
    Ok(())
}

// Plays a line, which is passed over for this reason, if there is one.
fn play_line<V: Watcher>(
    world: &mut World,
    line: &ScriptLine<'_>,
    reason: Option<Reason>,
    watcher: &mut V,
) -> Result<(), AllocError>
    requires reached { IsReached world.old }
    ensures reached { OnOk result (IsReached world.new) }
{
    let before = world.entries().len();
    take_line(world, &line.line)?;
    watcher.see(Moment {
        source: line.source,
        task: task_of(&line.line),
        reason,
        added: world.entries().get(before..).unwrap_or(&[]),
        world,
    })
}

/// The task that a line names.
fn task_of(line: &Line) -> Option<u64> {
    match line {
        Line::Run(task, _, _) => Some(*task),
        Line::Single(input) => match input {
            Input::Make(task) | Input::Poll(task, _) | Input::Drop(task) | Input::Go(task, _, _) =>
                { Some(*task) }
            Input::Look | Input::Own(_) => None,
        },
    }
}

/// Why the world would pass a line over, if it would.
fn reason_of(world: &World, line: &Line, lazy: bool, gone: &mut usize) -> Option<Reason> {
    match line {
        Line::Run(task, _, _) => no_step(world, *task),
        Line::Single(input) => match input {
            Input::Make(task) => world.step_of(*task).map(|_| Reason::MadeBefore(*task)),
            Input::Poll(task, _) | Input::Drop(task) => no_rest(world, *task),
            Input::Go(task, _, _) => no_step(world, *task),
            Input::Look => None,
            Input::Own(call) => match not_of_kind(call, lazy) {
                Some(reason) => Some(reason),
                None => not_gone(world, gone),
            },
        },
    }
}

/// Why the task can't begin a call, if it can't.
fn no_rest(world: &World, task: u64) -> Option<Reason> {
    match world.step_of(task) {
        None => Some(Reason::NotMade(task)),
        Some(Step::Resting(_)) => None,
        Some(Step::UnderWay(_)) => Some(Reason::CallUnderWay(task)),
        Some(Step::Finished) => Some(Reason::Gone(task)),
    }
}

/// Why the task can't make a step, if it can't.
fn no_step(world: &World, task: u64) -> Option<Reason> {
    match world.step_of(task) {
        None => Some(Reason::NotMade(task)),
        Some(Step::UnderWay(_)) => None,
        Some(Step::Resting(_) | Step::Finished) => Some(Reason::NoCallUnderWay(task)),
    }
}

/// Whether this kind of cell lacks the call.
fn not_of_kind(call: &Call, lazy: bool) -> Option<Reason> {
    match call {
        Call::Take if lazy => Some(Reason::NotOfLazy(call_word(call))),
        Call::Parts | Call::ReplaceValue(_) | Call::ReplaceAnswers(_) if !lazy => {
            Some(Reason::NotOfOnce(call_word(call)))
        }
        _ => None,
    }
}

/// The first task that is not gone. Each that was made by an entry before `gone` is, and the search goes on
/// there, since none comes back.
fn not_gone(world: &World, gone: &mut usize) -> Option<Reason> {
    let later = world.entries().get(*gone..).unwrap_or(&[]);
    for entry in later {
        if let Entry::Made(task) = entry {
            match world.step_of(*task) {
                Some(Step::Finished) | None => {}
                Some(_) => return Some(Reason::NotGone(*task)),
            }
        }
        *gone = gone.saturating_add(1);
    }
    None
}
