//! Threads that use one cell in rounds. Between two of them its owner looks at all that is left.

use crate::doubles::asked::{Asked, Cell, Way};
use crate::doubles::counted::{Tally, Value, empty, tallies};
use crate::doubles::work::{Host, Hosts, Work, by_threads, same};
use async_once_cell::record::Reply;
use async_once_cell::{OnceCell, Parker};
use futures::test::MockTask;
use rand_core::{Rng, SeedableRng};
use rand_xoshiro::Xoshiro256PlusPlus;
use std::io;
use std::mem::replace;
use std::test::Fail;

const ROUNDS: u64 = 300;

// How many futures a thread makes in a round, one after another.
const TURNS: u64 = 4;

// What threads do in a round.
#[derive(Drop)]
struct Round<'c> {
    asked: Asked<'c>,
    number: u64,
    // The value that the cell had before the round.
    before: Option<u64>,
}

impl Work for Round<'_> {
    fn goes<R: Host>(&self, rt: &R, task: &MockTask, parker: &mut Parker, thread: u64) -> u64 {
        let seed = self.number.wrapping_mul(8).wrapping_add(thread);
        let (mut random, mut well) = (Xoshiro256PlusPlus::seed_from_u64(seed), 0u64);
        for _ in 0..TURNS {
            let is_used = self.is_used(rt, task, parker, random.next_u64());
            well = well.wrapping_add(u64::from(is_used));
        }
        well
    }
}

impl<'c> Round<'c> {
    // What a future answers that answers a value.
    fn value(&self) -> u64 {
        self.before.unwrap_or(self.number)
    }

    // Makes a future, and polls it to its end or drops it midway: whether it answered as it may. Its init is Pending up
    // to twice. In two of three rounds each other init gives the value.
    fn is_used<R: Host>(&self, rt: &R, task: &MockTask, parker: &mut Parker, turn: u64) -> bool {
        let gives = self.number % 3 > 0 && turn.is_multiple_of(2);
        let leaves = turn / 2 % 2 == 0;
        let answer = if gives { Ok(self.value()) } else { Err(turn) };
        let way = if leaves { Way::Leave(3) } else { Way::Drive };
        let init = self.asked.tally.init(turn / 4 % 3, 0, answer);
        match self.asked.asked(rt, task, parker, init, way) {
            Some(Reply::Value(value)) => value == self.value(),
            Some(Reply::Error(error)) => error == turn && !gives,
            reply => leaves && reply == Some(Reply::Pending),
        }
    }

    // Whether the cell is as the round left it: it has the value, which one init gave or which it had before, or it is
    // free.
    fn is_settled<R: Host>(&self, rt: &R) -> bool {
        let (has, tally, was_set) = (self.asked.has(), self.asked.tally, self.before.is_some());
        let made = u64::from(has.is_some() && !was_set);
        let kept = if made > 0 {
            Some(self.number)
        } else {
            self.before
        };
        let is_counted = tally.has(made, made) && (!was_set || tally.failed() == 0);
        has == kept && is_counted && self.asked.is_left(rt, has.is_some())
    }

    // A call of the owner, or none: whether it finds the value that the cell lends.
    fn is_found(&mut self) -> bool {
        let (lent, tally) = (self.asked.has(), self.asked.tally);
        let Cell::Try(cell) = &mut self.asked.cell else {
            return false;
        };
        let found = match self.number % 5 {
            0 => number_of(cell.take()),
            1 => cell.get_mut().map(|value| value.number),
            2 => number_of(replace(
                cell,
                OnceCell::new_with(tally.value(self.number)),
            ).into_inner()),
            3 => number_of(replace(cell, OnceCell::new()).into_inner()),
            _ => lent,
        };
        found == lent
    }
}

fn number_of(found: Option<Value<'_>>) -> Option<u64> {
    Some(found?.number)
}

// The first round of so many threads that did not end as it should. The cell is dropped then.
fn first_bad<R: Hosts>(rt: &R, threads: u64, tallies: &[Tally]) -> io::Result<Option<u64>> {
    let mut cell = Cell::Try(OnceCell::new());
    for (number, tally) in (0..).zip(tallies) {
        let asked = Asked { cell, tally };
        let before = asked.has();
        let mut round = Round {
            asked,
            number,
            before,
        };
        let went = by_threads(rt, threads, &round)?;
        let is_well = went == threads.wrapping_mul(TURNS);
        if !is_well || !round.is_settled(rt) || !round.is_found() {
            return Ok(Some(number));
        }
        cell = round.asked.cell;
    }
    Ok(None)
}

// The same, and how many rounds left no value then.
fn seen<R: Hosts>(rt: &R, threads: u64) -> io::Result<(Option<u64>, u64)> {
    let tallies = tallies(rt.alloc(), ROUNDS, 0)?;
    let bad = first_bad(rt, threads, tallies.as_slice())?;
    Ok((bad, empty(&tallies)))
}

/// After each round of two to four threads the cell is free or filled. Each waiter that was not dropped was woken.
#[test]
fn rounds_leave_nothing(rt: HostRuntime) -> Result<(), Fail> {
    for threads in 2..=4 {
        same(&rt, "round", seen(&rt, threads)?, (None, ROUNDS));
    }
    Ok(())
}
