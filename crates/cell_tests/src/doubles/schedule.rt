//! Schedules: futures of cells that are made, polled and dropped, in orders. A line has one, or several with `; `
//! between.
//!
//! There is a `OnceCell`, and a `Lazy` with a future of its own. `init T` and `try T` make future T by `get_or_init`
//! and `get_or_try_init`, `get T`, `unpin T` and `into T` by `get`, `get_unpin` and `into_future` of the `Lazy`.
//! `looks T SHOWN` makes one whose init looks at its cell when it is dropped, and `found` says whether that showed
//! SHOWN. `drop T` and `forget T` put an end to future T, and `leave T` calls its `leave`.
//!
//! `poll T A` polls it by task T, `poll T A W` by task W; if its init is polled, it answers A: `v` with a value, `e`
//! with an error, `p` if it is Pending and asks for another poll of its task, which counts as a wake, or `s` if it is
//! Pending and asks for nothing. `is SHOWN` and `lazy SHOWN` say what the cells show, in the words of `expected`,
//! `future T` has the Debug text of a future, and `inits` how often inits were polled and dropped. After `starve` every
//! request for memory is refused while an order is obeyed. After `=>` stands what the poll answered, whether the future
//! is done, and the tasks that were woken since the order before.
//!
//! Task 1 has one other future of the `OnceCell`, whose init is Pending once and then gives 4. `other` polls it.
//! `uses T PLAN` makes a future as `try T` does, whose init does something to the other one, as `Meddling` says: a word
//! for each poll, and after `/ ` one for its drop. Then `found` has what the other answered at last.
//!
//! `look` has what the `OnceCell` lends and answers to a new token, and what such a token knows before and after.
//! `ask A` polls a new future once with a new token, by task 0, and `know A` with one that looked before. Then comes
//! what the token knows, and how many inits were dropped before that future was.
//!
//! A line that begins with `owner` has a call of the owner, and puts an end to all futures: `take` and `write N` on the
//! `OnceCell`, and `with N`, `from N` and `default` put a new one in its place; `lend N` writes the value of the
//! `Lazy`, and `replace N` and `renew` put a new one in its place. After `=>` stands what was there. The last line may
//! be `end A`, `apart A` or `gone`. It has the values that come out of the cells, by `into_inner` or by `into_parts`,
//! or none if the `Lazy` is dropped, and what `inits` says then. A future that comes out is polled once by task 0, and
//! answers A.

mod little;
mod refusals;
mod scene;

use crate::doubles::expected::{cell_shows, lazy_shows};
use crate::doubles::made::Made;
use crate::doubles::other::Other;
use crate::doubles::same;
use crate::doubles::stub::Init;
use async_once_cell::{Lazy, OnceCell};
use futures::task::Poll;
use futures::test::MockTask;
pub use little::run_in_little;
pub use refusals::refuse_each;
use scene::{Inits, Outcome, Scene, Tasks};
use std::alloc::{AllocError, AllocGlobal, Global};
use std::mem;
use std::process::Abort;
use std::random::RandomSource;
use std::sync::Wait;
use test_doubles::memory::hoard;
use test_doubles::text::text_of;

// How many futures and tasks a schedule has, which are numbered from 0: one more than its greatest number, and two at
// least.
fn most(lines: &str) -> usize {
    let mut greatest = 1;
    for number in lines.split(|letter: char| !letter.is_ascii_digit()) {
        greatest = greatest.max(number.parse::<usize>().unwrap_or(0));
    }
    greatest.saturating_add(1)
}

// A schedule under way.
#[derive(Drop)]
struct Schedule<'o, 'a, 'i, R: Wait + AllocGlobal> {
    scene: Scene<'o, 'a, 'i, R>,
    futures: Vec<Option<Made<'o, 'a, 'i, R>>>,
    // Whether every request for memory is refused while a line is obeyed.
    starves: bool,
    // The number that `n` stands for, and whether it is the last.
    turn: usize,
    is_last: bool,
}

impl<'o, 'a: 'o, 'i: 'o, R: Wait + AllocGlobal> Schedule<'o, 'a, 'i, R> {
    // One with a place for a future of each task, all empty.
    fn begun(
        rt: &'o R,
        (cell, lazy): (&'o OnceCell<u64>, &'o Lazy<u64, Init<'i, u64>>),
        other: &'o Other<'a, R>,
        (inits, tasks): (&'i Inits, &'o Tasks),
    ) -> Self {
        let mut futures = Vec::new(rt.alloc());
        for _ in &tasks.tasks {
            let _ = futures.push(None);
        }
        Schedule {
            scene: Scene {
                rt,
                cell,
                lazy,
                other,
                inits,
                tasks,
            },
            futures,
            starves: false,
            turn: 0,
            is_last: true,
        }
    }

    // `n` stands for the turn, and whatever is no number for one that no future has.
    fn number(&self, text: &str) -> usize {
        if text == "n" {
            return self.turn;
        }
        text.parse::<usize>().unwrap_or(usize::MAX)
    }

    // What a line leads to.
    fn obey(&mut self, line: &'o str) -> Result<String, AllocError> {
        let (word, rest) = line.split_once(' ').unwrap_or((line, ""));
        match word {
            "is" if cell_shows(self.scene.cell, rest) => self.scene.written(Outcome::Obeyed),
            "is" => self.scene.shown(),
            "lazy" if lazy_shows(self.scene.lazy, rest) => self.scene.written(Outcome::Obeyed),
            "lazy" => self.scene.shown_lazy(),
            "inits" => self.scene.counted(),
            "found" => self.scene.found(),
            "future" => self.shown(rest),
            "look" => self.scene.looked(),
            "ask" | "know" => self.scene.asked(word == "know", rest),
            _ => self.acted(word, rest),
        }
    }

    fn shown(&self, number: &str) -> Result<String, AllocError> {
        let alloc = self.scene.rt.alloc();
        match self.futures.get(self.number(number)) {
            Some(Some(future)) => future.shown(alloc),
            _ => text_of(alloc, &"no future"),
        }
    }

    // What a line of a future leads to, without memory if the schedule starves.
    fn acted(&mut self, word: &str, rest: &'o str) -> Result<String, AllocError> {
        let hoarded = hoarded(self.scene.rt.alloc(), self.starves)?;
        let outcome = self.act(word, rest);
        drop(hoarded);
        if self.is_last {
            return self.scene.written(outcome);
        }
        format!(in self.scene.rt.alloc(); "{outcome}")
    }

    fn act(&mut self, word: &str, rest: &'o str) -> Outcome {
        let (number, rest) = rest.split_once(' ').unwrap_or((rest, ""));
        let number = self.number(number);
        match word {
            "starve" => {
                self.starves = true;
                Outcome::Obeyed
            }
            "poll" => self.poll(number, rest),
            "other" => match self.scene.other.poll() {
                Some(reply) => Outcome::Polled(reply, false),
                None => Outcome::Unreadable,
            },
            "leave" => self.leave(number),
            "forget" => self.forget(number),
            "drop" => self.put(number, None),
            _ => match self.scene.made(word, rest) {
                Some(made) => self.put(number, Some(made)),
                None => Outcome::Unreadable,
            },
        }
    }

    fn leave(&mut self, number: usize) -> Outcome {
        match self.futures.get_mut(number) {
            Some(Some(future)) => {
                future.leave();
                Outcome::Obeyed
            }
            _ => Outcome::Unreadable,
        }
    }

    fn forget(&mut self, number: usize) -> Outcome {
        match self.futures.get_mut(number) {
            Some(future) => {
                mem::forget(future.take());
                Outcome::Obeyed
            }
            None => Outcome::Unreadable,
        }
    }

    // Puts a future, or none, in the place of the one with this number, which is dropped.
    fn put(&mut self, number: usize, made: Option<Made<'o, 'a, 'i, R>>) -> Outcome {
        match self.futures.get_mut(number) {
            Some(future) => {
                *future = made;
                Outcome::Obeyed
            }
            None => Outcome::Unreadable,
        }
    }

    // Polls a future, by `A` or `A W`: by the task of its number or by task W. An init that is polled then answers A.
    fn poll(&mut self, number: usize, text: &str) -> Outcome {
        let (answer, task) = match text.split_once(' ') {
            Some((answer, task)) => (answer, self.number(task)),
            None => (text, number),
        };
        let (inits, tasks) = (self.scene.inits, self.scene.tasks);
        inits.tell(answer);
        match (self.futures.get_mut(number), tasks.tasks.get(task)) {
            (Some(Some(future)), Some(task)) => {
                let (reply, is_done) = future.polled(task);
                Outcome::Polled(reply, is_done)
            }
            _ => Outcome::Unreadable,
        }
    }
}

impl<'o, 'a: 'o, 'i: 'o, R: Wait + AllocGlobal + Abort> Schedule<'o, 'a, 'i, R> {
    fn run(&mut self, name: &str, lines: &'o str) {
        for line in lines.lines() {
            for order in line.split("; ") {
                self.run_order(name, order);
            }
        }
    }

    // The tasks that an order wakes are looked at after its last turn.
    fn run_order(&mut self, name: &str, order: &'o str) {
        let (order, wanted) = order.split_once(" => ").unwrap_or((order, "so"));
        let (from, to, order) = turns_in(order);
        same(self.scene.rt, order, from < to, true);
        for turn in from..to {
            self.turn = turn;
            self.is_last = turn.saturating_add(1) == to;
            let text = self.obey(order);
            compare(self.scene.rt, (name, order), text, wanted);
        }
    }
}

// From which turn to below which an order is obeyed, `A..B * ` or `N * ` before it. None, if that can't be read.
fn turns_in(order: &str) -> (usize, usize, &str) {
    let (turns, order) = order.split_once(" * ").unwrap_or(("1", order));
    let (from, to) = turns.split_once("..").unwrap_or(("0", turns));
    (from.parse().unwrap_or(0), to.parse().unwrap_or(0), order)
}

// All memory, if a schedule starves.
fn hoarded(alloc: Global, starves: bool) -> Result<Option<Vec<Vec<u8>>>, AllocError> {
    if starves {
        return Ok(Some(hoard(alloc)?));
    }
    Ok(None)
}

// Fails the test if an order leads to something else than is wanted. No text stands for one that memory lacked for.
fn compare<R: AllocGlobal + Abort>(
    rt: &R,
    (name, order): (&str, &str),
    text: Result<String, AllocError>,
    wanted: &str,
) {
    let text = text.unwrap_or(String::new(rt.alloc()));
    assert_eq!(rt; text.as_str(), wanted, "{order} in {name}");
}

// Runs the orders between two calls of the owner.
fn run_part<'s, 'i: 's, R: Wait + AllocGlobal + Abort>(
    rt: &'s R,
    (cell, lazy): (&'s OnceCell<u64>, &'s Lazy<u64, Init<'i, u64>>),
    (inits, tasks): (&'i Inits, &'s Tasks),
    (name, parts): (&str, [&'s str; 2]),
) {
    let other = Other::new(cell, rt, tasks.tasks.get(1));
    let mut schedule = Schedule::begun(rt, (cell, lazy), &other, (inits, tasks));
    for lines in parts {
        schedule.run(name, lines);
    }
}

// Has the owner of a cell write the value: what was lent before.
fn write(cell: &mut OnceCell<u64>, value: u64) -> Option<u64> {
    let lent = cell.get().copied();
    if let Some(place) = cell.get_mut() {
        *place = value;
    }
    lent
}

// The same of a lazy cell, by both of its calls.
fn lend(lazy: &mut Lazy<u64, Init<'_, u64>>, value: u64) -> Option<u64> {
    let lent = lazy.try_get_mut().copied();
    if let Some(place) = lazy.try_get_mut_unpin() {
        *place = value;
    }
    lent
}

// What a call of the owner answers.
fn own<'i>(
    cell: &mut OnceCell<u64>,
    lazy: &mut Lazy<u64, Init<'i, u64>>,
    inits: &'i Inits,
    order: &str,
) -> Option<u64> {
    let (word, number) = order.split_once(' ').unwrap_or((order, ""));
    let value = number.parse::<u64>().unwrap_or(0);
    match word {
        "take" => cell.take(),
        "write" => write(cell, value),
        "with" => mem::replace(cell, OnceCell::new_with(value)).into_inner(),
        "from" => mem::replace(cell, OnceCell::from(value)).into_inner(),
        "default" => mem::replace(cell, OnceCell::default()).into_inner(),
        "lend" => lend(lazy, value),
        "replace" => lazy.replace_and_take(Lazy::with_value(value)),
        "renew" => lazy.replace_and_take(Lazy::new(inits.sure.init())),
        _ => None,
    }
}

// The same with the tasks that this woke.
fn owned<'i>(
    alloc: Global,
    cell: &mut OnceCell<u64>,
    lazy: &mut Lazy<u64, Init<'i, u64>>,
    (inits, tasks): (&'i Inits, &Tasks),
    order: &str,
) -> Result<String, AllocError> {
    let found = own(cell, lazy, inits, order);
    let text = format!(in alloc; "{found:?}{tasks}");
    tasks.calm();
    text
}

// What comes out of a lazy cell that is taken apart: its value, or what its future answers to the next poll.
fn apart(lazy: Lazy<u64, Init<'_, u64>>, task: Option<&MockTask>) -> Option<u64> {
    match lazy.into_parts() {
        Ok(value) => Some(value),
        Err(Some(mut future)) => match task?.poll(&mut future) {
            Poll::Ready(value) => Some(value),
            Poll::Pending => None,
        },
        Err(None) => None,
    }
}

// What the cells have in the end, and what inits went through then.
fn left(
    alloc: Global,
    cell: OnceCell<u64>,
    lazy: Lazy<u64, Init<'_, u64>>,
    (inits, tasks): (&Inits, &Tasks),
    order: &str,
) -> Result<String, AllocError> {
    let (word, answer) = order.split_once(' ').unwrap_or((order, ""));
    inits.tell(answer);
    let own = match word {
        "apart" => apart(lazy, tasks.tasks.first()),
        "gone" => {
            drop(lazy);
            None
        }
        _ => lazy.into_inner(),
    };
    let values = [cell.into_inner(), own];
    format!(in alloc; "{values:?}, {inits}")
}

// Runs a schedule in parts, between which the owner calls. Before the first the owner does nothing: its head stands
// there.
fn run_parts<'i, R: Wait + AllocGlobal + Abort>(
    rt: &R,
    cell: &mut OnceCell<u64>,
    lazy: &mut Lazy<u64, Init<'i, u64>>,
    (inits, tasks): (&'i Inits, &Tasks),
    (name, text): (&str, &str),
) {
    for part in text.split("\nowner ") {
        let (line, lines) = part.split_once('\n').unwrap_or((part, ""));
        let (call, rest) = line.split_once("; ").unwrap_or((line, ""));
        let (order, wanted) = call.split_once(" => ").unwrap_or((call, "None"));
        let found = owned(rt.alloc(), cell, lazy, (inits, tasks), order);
        compare(rt, (name, order), found, wanted);
        run_part(rt, (&*cell, &*lazy), (inits, tasks), (name, [rest, lines]));
    }
}

// Runs a schedule, and looks at what is left if its last line asks for it.
fn run_one<R>(rt: &R, text: &str)
where
    R: Wait + AllocGlobal + RandomSource + Abort,
{
    let (name, lines) = text.split_once('\n').unwrap_or((text, ""));
    let (parts, end) = ended(text);
    let Ok(tasks) = Tasks::new(rt, most(lines)) else {
        return same(rt, name, "no tasks", "tasks");
    };
    let inits = Inits::new();
    let (mut cell, mut lazy) = (OnceCell::new(), Lazy::new(inits.sure.init()));
    run_parts(rt, &mut cell, &mut lazy, (&inits, &tasks), (name, parts));
    let (order, wanted) = end.split_once(" => ").unwrap_or(("", ""));
    let left = left(rt.alloc(), cell, lazy, (&inits, &tasks), order);
    if !end.is_empty() {
        compare(rt, (name, order), left, wanted);
    }
}

// How the last line of a schedule may begin, that says how the cells end.
const ENDS: [&str; 3] = ["end ", "apart ", "gone "];

// The lines before the last, and that, if it says how the cells end.
fn ended(text: &str) -> (&str, &str) {
    match text.rsplit_once('\n') {
        Some((parts, end)) if ENDS.iter().any(|word| end.starts_with(*word)) => (parts, end),
        _ => (text, ""),
    }
}

/// Runs the schedules of a text, each over cells of its own. An empty line stands between two, and `# NAME` or
/// `# NAME: WHAT IT IS ABOUT` before the lines of each. Each order must lead to what stands after its `=>`, or wake
/// nobody if nothing stands there. `A..B * ` before an order stands for such orders at the numbers from A to B - 1,
/// by which each `n` is read, and `N * ` for N of them.
pub fn run<R>(rt: &R, schedules: &str)
where
    R: Wait + AllocGlobal + RandomSource + Abort,
{
    for text in schedules.split("\n\n") {
        run_one(rt, text);
    }
}
