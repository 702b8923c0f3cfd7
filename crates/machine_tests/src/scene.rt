//! Scenes of a cell and its tasks, which are schedules whose lines lead to something else than entries. A task is
//! walked step by step over the parts that threads share, or it makes whole calls.
//!
//! Lines of a script, of an empty once cell, make and walk tasks. There `x` refuses the copy of a waker, and no other
//! memory. These are lines too:
//!
//! | Line | What is done |
//! |---|---|
//! | `make T A` | a task that makes whole calls; its init answers A: `p` is Pending, `v` the name T, `e` an error |
//! | `make T over U` | one whose side has the task U for its own |
//! | `polls T` | from now on T's side polls U if its init is polled, if its waker is copied and if it wakes others |
//! | `leaves T` | from now on T's side drops U if its waker is copied |
//! | `poll T A` | a poll, in which the init answers A; with ` x` behind it, the copy of a waker is refused |
//! | `drop T` | a drop |
//! | `starve T` | a poll of T while all memory is taken |
//! | `other` | how the last call of U ended that T made, and the notes of U's side, are told |
//!
//! The waker of a task has its number. After `=>` stands how the call ended, None if it goes on, and `Ok` with the
//! value of a whole call; the notes of the task's side since it was last told; and where a task that is walked then
//! stands. Several may stand in one line, with `; ` between two. After ` | ` stands what the cell shows then: `set`,
//! `held`, how many tasks are counted, and `queue` if one stands at the door; or `free`.

use crate::bell::Cell;
use crate::calls::caller::{Called, Caller};
use crate::scenes::walker::Walker;
use crate::side::Act;
use once_machine::step::{Ending, Polled, Progress};
use once_script::parse::{Line, RUN_STEPS, parse_line};
use once_script::world::{Input, Ran};
use std::alloc::{AllocError, AllocGlobal, Global};
use std::collections::BTreeMap;
use std::io;
use std::random::RandomSource;
use std::sync::Wait;
use std::test::Fail;
use test_doubles::memory::hoard;
use test_doubles::schedule::{Row, Schedule, schedules_in};

// What a line came to. None says that it does not fit, or that a note was lost.
type Told = io::Result<Option<String>>;

// A scene under way.
#[derive(Drop)]
struct Scene<'a, 'r, R: Wait + AllocGlobal> {
    cell: &'a Cell,
    rt: &'r R,
    walkers: BTreeMap<u64, Walker<'a, 'r, R>>,
    callers: BTreeMap<u64, Caller<'a, 'r, R>>,
    // The task whose side has another for its own.
    meddler: Option<Caller<'a, 'r, R, Caller<'a, 'r, R>>>,
}

/// Plays each scene of a text, and compares what its lines come to with what stands beside them. What a line without
/// `=>` comes to is not told.
pub fn play<R: Wait + AllocGlobal + RandomSource>(rt: &R, text: &str) -> Result<(), Fail> {
    for schedule in &schedules_in(rt.alloc(), text)? {
        play_one(rt, schedule)?;
    }
    Ok(())
}

// Plays a scene, on a cell of its own.
fn play_one<R: Wait + AllocGlobal + RandomSource>(
    rt: &R,
    schedule: &Schedule<'_>,
) -> Result<(), Fail> {
    let (alloc, cell) = (rt.alloc(), Cell::new());
    let mut scene = Scene {
        cell: &cell,
        rt,
        walkers: BTreeMap::new(alloc),
        callers: BTreeMap::new(alloc),
        meddler: None,
    };
    check(&mut scene, schedule)
}

fn check<R: Wait + AllocGlobal + RandomSource>(
    scene: &mut Scene<'_, '_, R>,
    schedule: &Schedule<'_>,
) -> Result<(), Fail> {
    for (place, line) in schedule.text.lines().enumerate() {
        for order in line.split("; ") {
            let row = Row::read(order);
            let told = scene.told(row)?;
            compare(schedule, place, row, told)?;
        }
    }
    Ok(())
}

// Compares what a line came to with what stands beside it, if anything does.
fn compare(
    schedule: &Schedule<'_>,
    place: usize,
    row: Row<'_>,
    told: Option<String>,
) -> Result<(), Fail> {
    match told {
        None => Err(Fail::new(format_args!("in {schedule}: {:?} does not fit", row.order))),
        Some(told) if row.added.is_empty() || row.added == told.as_str() => Ok(()),
        Some(told) => Err(schedule.difference(place, row, told.as_str())),
    }
}

// What a cell shows of which these words are so, and no more.
fn shown_of(alloc: Global, words: &str) -> Result<String, AllocError> {
    let mut count = 0u64;
    for word in words.split(' ') {
        count = word.parse().unwrap_or(count);
    }
    let (is_set, is_held) = (words.contains("set"), words.contains("held"));
    let has_queue = words.contains("queue");
    format!(in alloc;
        "Inner {{ ready: {is_set}, quick_init: {is_held}, refcount: {count}, queue: {has_queue} }}"
    )
}

impl<R: Wait + AllocGlobal + RandomSource> Scene<'_, '_, R> {
    // What a line comes to, with the state that the cell has to show, if it has to, or else with what it shows.
    fn told(&mut self, row: Row<'_>) -> Told {
        let Some(told) = self.tell(row.order)? else {
            return Ok(None);
        };
        let Some((_, state)) = row.added.split_once(" | ") else {
            return Ok(Some(told));
        };
        let alloc = self.rt.alloc();
        let shown = format!(in alloc; "{:?}", self.cell)?;
        let is_so = shown == shown_of(alloc, state)?;
        let state = if is_so { state } else { shown.as_str() };
        Ok(Some(format!(in alloc; "{told} | {state}")?))
    }

    fn tell(&mut self, text: &str) -> Told {
        match parse_line(self.rt.alloc(), text)? {
            Some(line) => self.walk(&line),
            None => self.call(text),
        }
    }

    fn walk(&mut self, line: &Line) -> Told {
        match line {
            Line::Single(Input::Make(t)) => self.make_walker(*t),
            Line::Single(Input::Poll(t, _)) => self.begin(*t, false),
            Line::Single(Input::Drop(t)) if self.walkers.contains_key(t) => self.begin(*t, true),
            Line::Single(Input::Drop(t)) => self.leave(*t),
            Line::Single(Input::Go(t, answer, is_granted)) => self.go(*t, *answer, *is_granted, 1),
            Line::Run(t, answer, is_granted) => self.go(*t, *answer, *is_granted, RUN_STEPS),
            Line::Single(Input::Look | Input::Own(_)) => Ok(None),
        }
    }

    fn make_walker(&mut self, t: u64) -> Told {
        let task = Walker::new(self.cell, self.rt, t)?;
        self.walkers.insert(t, task)?;
        Ok(Some(String::new(self.rt.alloc())))
    }

    // Begins a poll or a drop of a task that rests.
    fn begin(&mut self, t: u64, is_drop: bool) -> Told {
        if let Some(task) = self.walkers.get_mut(&t)
            && task.step().is_resting()
        {
            if is_drop {
                task.begin_drop();
            } else {
                task.poll();
            }
            return walked(self.rt.alloc(), task, None);
        }
        Ok(None)
    }

    // Makes steps of the last call of a task. If that is over they do nothing.
    fn go(&mut self, t: u64, answer: Ran, is_granted: bool, steps: u64) -> Told {
        if let Some(task) = self.walkers.get_mut(&t)
            && !task.step().is_resting()
        {
            let ending = go_on(task, polled(answer), is_granted, steps);
            return walked(self.rt.alloc(), task, ending);
        }
        Ok(None)
    }

    // Does what a line of whole calls says.
    fn call(&mut self, text: &str) -> Told {
        let (verb, rest) = text.split_once(' ').unwrap_or((text, ""));
        let (name, how) = rest.split_once(' ').unwrap_or((rest, ""));
        let name = name.parse().unwrap_or(0);
        match verb {
            "make" => match how.strip_prefix("over ") {
                Some(other) => self.make_over(name, other.parse().unwrap_or(0)),
                None => self.make(name, answer_in(how)),
            },
            "polls" => Ok(self.meddles(name, Act::Poll, Act::Poll)),
            "leaves" => Ok(self.meddles(name, Act::Nothing, Act::Leave)),
            "poll" => self.poll(name, answer_in(how), !how.ends_with(" x")),
            "starve" => self.starve(name),
            "other" => self.other(),
            _ => Ok(None),
        }
    }

    fn make(&mut self, name: u64, answer: Polled) -> Told {
        let task = Caller::new(self.cell, self.rt, name, answer)?;
        self.callers.insert(name, task)?;
        Ok(Some(String::new(self.rt.alloc())))
    }

    fn make_over(&mut self, name: u64, other: u64) -> Told {
        let Some(other) = self.callers.remove(&other) else {
            return Ok(None);
        };
        self.meddler = Some(Caller::over(self.cell, self.rt, name, other)?);
        Ok(Some(String::new(self.rt.alloc())))
    }

    fn meddles(&mut self, name: u64, at_run: Act, at_copy: Act) -> Option<String> {
        let meddler = self.meddler.as_mut()?;
        if meddler.side.name != name {
            return None;
        }
        meddler.side.meddles(at_run, at_copy);
        Some(String::new(self.rt.alloc()))
    }

    fn poll(&mut self, name: u64, answer: Polled, is_granted: bool) -> Told {
        let alloc = self.rt.alloc();
        if let Some(task) = self.callers.get_mut(&name) {
            return called(alloc, task.called(answer, is_granted));
        }
        match &mut self.meddler {
            Some(meddler) if meddler.side.name == name => {
                called(alloc, meddler.called(answer, is_granted))
            }
            Some(meddler) => called(alloc, meddler.other_called(answer, is_granted)),
            None => Ok(None),
        }
    }

    fn leave(&mut self, name: u64) -> Told {
        let alloc = self.rt.alloc();
        if let Some(task) = self.callers.get_mut(&name) {
            return called(alloc, task.dropped());
        }
        match &mut self.meddler {
            Some(meddler) if meddler.side.name == name => called(alloc, meddler.dropped()),
            _ => Ok(None),
        }
    }

    fn other(&mut self) -> Told {
        let alloc = self.rt.alloc();
        let Some(meddler) = &mut self.meddler else {
            return Ok(None);
        };
        let (heard, notes) = meddler.other_heard();
        Ok(Some(format!(in alloc; "{heard:?} {notes:?}")?))
    }

    fn starve(&mut self, name: u64) -> Told {
        let alloc = self.rt.alloc();
        let Some(task) = self.callers.get_mut(&name) else {
            return Ok(None);
        };
        let held = hoard(alloc)?;
        let ended = task.called_again();
        drop(held);
        called(alloc, ended)
    }
}

// What an init answers, by the first letter of this.
fn answer_in(text: &str) -> Polled {
    if text.starts_with('v') {
        Polled::Value
    } else if text.starts_with('e') {
        Polled::Error
    } else {
        Polled::Pending
    }
}

// What a step sees of an init's answer.
fn polled(answer: Ran) -> Polled {
    match answer {
        Ran::Pending => Polled::Pending,
        Ran::Value(_) => Polled::Value,
        Ran::Error(_) => Polled::Error,
    }
}

// Makes so many steps of the call that is under way: how it ended, or None if it goes on.
fn go_on<R: Wait + AllocGlobal>(
    task: &mut Walker<'_, '_, R>,
    answer: Polled,
    is_granted: bool,
    steps: u64,
) -> Option<Ending> {
    for _ in 0..steps {
        if let Progress::Ended(ending) = task.go(answer, is_granted)? {
            return Some(ending);
        }
    }
    None
}

// How the last step ended the call, what the side noted, and where the task stands.
fn walked<R: Wait + AllocGlobal>(
    alloc: Global,
    task: &mut Walker<'_, '_, R>,
    ending: Option<Ending>,
) -> Told {
    let Some(notes) = task.take_notes() else {
        return Ok(None);
    };
    let stage = task.stage();
    Ok(Some(format!(in alloc; "{ending:?} {notes:?} {stage}")?))
}

// How a whole call ended, and what the side noted.
fn called(alloc: Global, called: Called) -> Told {
    match called {
        (Some(ended), Some(notes)) => Ok(Some(format!(in alloc; "{ended:?} {notes:?}")?)),
        _ => Ok(None),
    }
}
