//! Schedules of which each request for memory is refused in turn.

use super::scene::{Inits, Scene, Tasks};
use super::{Schedule, most, turns_in};
use crate::doubles::made::Made;
use crate::doubles::other::Other;
use crate::doubles::poll::wake;
use crate::doubles::same;
use crate::doubles::stub::Init;
use async_once_cell::record::Reply;
use async_once_cell::{Lazy, OnceCell};
use futures::test::MockTask;
use std::alloc::{AllocError, AllocGlobal};
use std::process::Abort;
use std::random::RandomSource;
use std::sync::Wait;
use test_doubles::memory::{Rations, Request, hoard_most};

// How often a woken future is polled until all are finished.
const POLLS: u64 = 10;

// How the Debug text of a cell ends that nobody uses. A queue stands at most if the value is not set.
const FREE: &str = "quick_init: false, refcount: 0, queue: false } }";

const QUEUED: &str = "ready: false, quick_init: false, refcount: 0, queue: true } }";

impl<'o, 'a: 'o, 'i: 'o, R: Wait + AllocGlobal> Schedule<'o, 'a, 'i, R> {
    // Makes, polls and drops futures as the lines say, each with its ration of memory. Whether there was memory for
    // the rations.
    fn is_rationed(&mut self, lines: &'o str, rations: &mut Rations) -> bool {
        let mut is_so = true;
        for line in lines.lines() {
            for order in line.split("; ") {
                is_so &= self.is_order_rationed(order, rations);
            }
        }
        is_so
    }

    fn is_order_rationed(&mut self, order: &'o str, rations: &mut Rations) -> bool {
        let (order, _) = order.split_once(" => ").unwrap_or((order, ""));
        let ((from, to, order), mut is_so) = (turns_in(order), true);
        for turn in from..to {
            self.turn = turn;
            is_so &= self.act_rationed(order, rations).is_ok();
        }
        is_so
    }

    // A future is polled at first, and then only if its task was woken, as an executor does. What is only looked at is
    // passed over.
    fn act_rationed(&mut self, order: &'o str, rations: &mut Rations) -> Result<(), AllocError> {
        let (word, rest) = order.split_once(' ').unwrap_or((order, ""));
        let (number, _) = rest.split_once(' ').unwrap_or((rest, ""));
        let tasks = self.scene.tasks;
        let Some(task) = tasks.tasks.get(self.number(number)) else {
            return Ok(());
        };
        let is_by_another = rest.split(' ').count() > 2;
        let is_look = matches!(word, "is" | "lazy" | "future");
        if is_look || word == "poll" && (is_by_another || !task.is_woken()) {
            return Ok(());
        }
        let held = rations.begin()?;
        self.act(word, rest);
        rations.end(held)?;
        if word != "poll" {
            wake(task);
        }
        Ok(())
    }

    // Polls each future whose task was woken, until none is, and has inits give a value. Whether all are
    // finished then.
    fn settles(&mut self) -> bool {
        self.scene.inits.set(Some(Ok(4)));
        let mut are_finished = true;
        for _ in 0..POLLS {
            are_finished = true;
            for number in 0..self.futures.len() {
                are_finished &= self.is_settled(number);
            }
        }
        are_finished
    }

    // Polls a future, if there is one and its task was woken. Whether it is finished then.
    fn is_settled(&mut self, number: usize) -> bool {
        let tasks = self.scene.tasks;
        match (self.futures.get_mut(number), tasks.tasks.get(number)) {
            (Some(Some(future)), Some(task)) => future.is_settled(task),
            _ => true,
        }
    }
}

impl<'o, 'a: 'o, 'i: 'o, R: Wait + AllocGlobal> Scene<'o, 'a, 'i, R> {
    // Whether nobody is left in the cells, and a new future of each has its value.
    fn works(&self) -> bool {
        let are_left = is_left(self.shown()) & is_left(self.shown_lazy());
        let value = self.cell.get().copied().unwrap_or(7);
        let own = self.lazy.try_get().copied().unwrap_or(7);
        self.inits.set(Some(Ok(7)));
        let answers = [self.answers("init"), self.answers("get")];
        are_left && answers == [Some(Reply::Value(value)), Some(Reply::Value(own))]
    }

    // What a new future of this kind answers.
    fn answers(&self, word: &str) -> Option<Reply> {
        let task = self.tasks.tasks.first()?;
        Some(answer_of(self.made(word, "")?, task))
    }
}

// Polls a future once and drops it: what it answered.
fn answer_of<R: Wait + AllocGlobal>(mut made: Made<'_, '_, '_, R>, task: &MockTask) -> Reply {
    made.polled(task).0
}

// Whether nobody uses the cell that shows this Debug text.
fn is_left(text: Result<String, AllocError>) -> bool {
    match text {
        Ok(text) => text.ends_with(FREE) || text.ends_with(QUEUED),
        Err(_) => false,
    }
}

// Runs a schedule with rations: whether nobody waits in vain, and the cells still work.
fn works_after<'s, 'i: 's, R: Wait + AllocGlobal>(
    rt: &'s R,
    (cell, lazy): (&'s OnceCell<u64>, &'s Lazy<u64, Init<'i, u64>>),
    (inits, tasks): (&'i Inits, &'s Tasks),
    lines: &'s str,
    rations: &mut Rations,
) -> bool {
    let other = Other::new(cell, rt, tasks.tasks.get(1));
    let mut schedule = Schedule::begun(rt, (cell, lazy), &other, (inits, tasks));
    let is_rationed = schedule.is_rationed(lines, rations);
    let settles = schedule.settles();
    schedule.futures.clear();
    is_rationed && settles && schedule.scene.works()
}

// Whether that is so, and each init was dropped once.
fn is_sound<R>(rt: &R, lines: &str, mut rations: Rations) -> (bool, Rations)
where
    R: Wait + AllocGlobal + RandomSource,
{
    let Ok(tasks) = Tasks::new(rt, most(lines)) else {
        return (false, rations);
    };
    let inits = Inits::new();
    let (cell, lazy) = (OnceCell::new(), Lazy::new(inits.sure.init()));
    let works = works_after(rt, (&cell, &lazy), (&inits, &tasks), lines, &mut rations);
    drop(cell);
    drop(lazy);
    (works && inits.drops() == inits.made(), rations)
}

// Runs a schedule once for each request of it, with that one refused: how many they were.
fn refused_in<R>(rt: &R, name: &str, lines: &str) -> usize
where
    R: Wait + AllocGlobal + RandomSource + Abort,
{
    let (mut is_always, noted) = is_sound(rt, lines, Rations::noting(rt.alloc()));
    for request in noted.requests() {
        is_always &= is_sound(rt, lines, Rations::refusing(rt.alloc(), *request)).0;
    }
    for act in 0..noted.acts() {
        let request = Request::to_grow(act);
        is_always &= is_sound(rt, lines, Rations::refusing(rt.alloc(), request)).0;
    }
    same(rt, name, is_always, true);
    noted.requests().len()
}

// Whether memory is not short anyway, no future is forgotten, and the owner does nothing.
fn is_plain(lines: &str) -> bool {
    let ends = ["starve", "forget ", "owner ", "end "];
    !ends.iter().any(|word| lines.contains(*word))
}

/// Runs each schedule once for each request for memory that its lines make, with that one refused, whatever
/// stands after `=>`. After that nobody may wait in vain: a future that is woken is polled, until none is, and
/// then all are finished. The cells show nobody, and a new future has their value. Each init is dropped once.
///
/// So many requests have to be refused at least. A poll by another future's task is passed over, and so is a schedule
/// in which a future is forgotten, memory is short anyway, the owner calls, or more than a hundred futures wait.
pub fn refuse_each<R>(rt: &R, schedules: &str, least: usize) -> Result<(), AllocError>
where
    R: Wait + AllocGlobal + RandomSource + Abort,
{
    let held = hoard_most(rt.alloc())?;
    let mut refused = 0usize;
    for text in schedules.split("\n\n") {
        let (name, lines) = text.split_once('\n').unwrap_or((text, ""));
        if is_plain(lines) && most(lines) <= 102 {
            refused = refused.saturating_add(refused_in(rt, name, lines));
        }
    }
    drop(held);
    same(
        rt,
        "requests that were refused",
        refused,
        refused.max(least),
    );
    Ok(())
}
