//! Calls at random.

use super::whole::{Row, Whole};
use super::{Part, Player, Wakers};
use once_script::world::{Call, Input, Kind, Ran};
use rand_core::{Rng, SeedableRng};
use rand_xoshiro::Xoshiro256PlusPlus;
use std::alloc::{AllocError, Global};
use std::cell::Cell;
use std::test::Fail;

// How many seeds there are, how often the owner calls for each, and how many calls come before that.
const SEEDS: u64 = 100;

const PARTS: u64 = 3;

const CALLS: u64 = 26;

// Draws calls.
#[derive(Drop)]
struct Chance {
    alloc: Global,
    rng: Xoshiro256PlusPlus,
    is_lazy: bool,
    // How many tasks were made.
    made: u64,
}

impl Chance {
    fn new(alloc: Global, seed: u64) -> Chance {
        Chance {
            alloc,
            rng: Xoshiro256PlusPlus::seed_from_u64(seed),
            is_lazy: seed % 3 == 0,
            made: 0,
        }
    }

    // A number below this one, which is not 0.
    fn draw(&mut self, below: u64) -> u64 {
        self.rng.next_u64().checked_rem(below).unwrap_or(0)
    }

    fn kind(&mut self) -> Result<Kind, AllocError> {
        let has_value = self.draw(8) == 0;
        Ok(match (self.is_lazy, has_value) {
            (false, false) => Kind::Once,
            (false, true) => Kind::OnceWith(4),
            (true, false) => Kind::Lazy(self.answers()?),
            (true, true) => Kind::LazyWith(3),
        })
    }

    // What the future of a lazy cell answers.
    fn answers(&mut self) -> Result<Vec<Option<u64>>, AllocError> {
        let mut answers = Vec::new(self.alloc);
        for _ in 0..self.draw(5) {
            answers.push(None)?;
        }
        if self.draw(4) > 0 {
            answers.push(Some(self.draw(9)))?;
        }
        Ok(answers)
    }

    // In the end each future is dropped, since the owner calls then.
    fn part(&mut self) -> Result<Part, AllocError> {
        let mut rows = Vec::new(self.alloc);
        let first = self.made;
        for _ in 0..CALLS {
            rows.push(Row::new(self.alloc, self.whole()))?;
        }
        for task in first..self.made {
            let whole = Whole::new(Input::Drop(task.saturating_add(1)));
            rows.push(Row::new(self.alloc, whole))?;
        }
        let last = Whole::new(Input::Own(self.call()?));
        Ok(Part {
            rows,
            last: Some(last),
        })
    }

    // One of the five tasks that were made last.
    fn task(&mut self) -> u64 {
        self.made.saturating_sub(self.draw(5))
    }

    // The waker of its own that a task is polled by, or now and then another of its own or of three tasks.
    fn waker(&mut self, task: u64) -> u64 {
        match self.draw(6) {
            0 => self.draw(3).saturating_add(9),
            _ => task % 9,
        }
    }

    fn whole(&mut self) -> Whole {
        let input = match self.draw(20) {
            0..=5 => {
                self.made = self.made.saturating_add(1);
                Input::Make(self.made)
            }
            6 => Input::Drop(self.task()),
            7 => Input::Look,
            _ => {
                let task = self.task();
                Input::Poll(task, self.waker(task))
            }
        };
        Whole {
            input,
            answer: self.answer(),
            is_granted: true,
        }
    }

    fn answer(&mut self) -> Ran {
        match self.draw(12) {
            0 => Ran::Value(self.draw(9)),
            1 | 2 => Ran::Error(self.draw(9)),
            _ => Ran::Pending,
        }
    }

    fn call(&mut self) -> Result<Call, AllocError> {
        Ok(match (self.is_lazy, self.draw(4)) {
            (_, 0) => Call::Write(self.draw(9)),
            (false, _) => Call::Take,
            (true, 1) => Call::Parts,
            (true, 2) => Call::ReplaceValue(self.draw(9)),
            (true, _) => Call::ReplaceAnswers(self.answers()?),
        })
    }
}

#[test]
fn calls_at_random(rt: HostRuntime) -> Result<(), Fail> {
    let (alloc, wakers, answer) = (rt.alloc(), Wakers::new(&rt)?, Cell::new(Ran::Pending));
    for seed in 0..SEEDS {
        let mut chance = Chance::new(alloc, seed);
        let kind = chance.kind()?;
        let mut parts = Vec::new(alloc);
        for _ in 0..PARTS {
            parts.push(chance.part()?)?;
        }
        let name = format!(in alloc; "seed {seed}")?;
        let player = Player {
            rt: &rt,
            wakers: &wakers,
            answer: &answer,
            name: name.as_str(),
        };
        player.play(kind, parts)?;
    }
    Ok(())
}
