//! How much memory a list takes whose listings come and go: no more than for four times as many as ever wait at once.

use crate::same::same;
use once_machine::waiters::{Answer, Lists};
use once_machine::word::{NEW, QINIT_BIT};
use rand_core::{Rng, SeedableRng};
use rand_xoshiro::Xoshiro256PlusPlus;
use std::alloc::{AllocError, Global};
use std::test::Fail;
use test_doubles::memory::hoard;

// How many tasks there are that wait or do not.
const TASKS: u64 = 20;

// A list in which so many waited at once has all the room that it may take while TASKS come and go.
const CROWD: u64 = 4 * (TASKS + 1);

const TURNS: u64 = 10_000;

// How many bytes are left beside the list, if any are. It would ask for fewer to have twice the room.
const SPARE: usize = 20_000;

/// A list while some task holds, and the ticket of each task that waits.
#[derive(Drop)]
struct Waiting {
    lists: Lists<u64>,
    tickets: Vec<Option<u64>>,
    rng: Xoshiro256PlusPlus,
    // Whether each task that asked was listed so far.
    is_granted: bool,
}

impl Waiting {
    // A crowd was listed, and left.
    fn new(alloc: Global, seed: u64) -> Result<Waiting, AllocError> {
        let mut lists = Lists::new(alloc);
        lists.look(&mut None, None, NEW);
        for _ in 0..CROWD {
            lists.list(&mut None, &mut Some(0), NEW);
        }
        for ticket in 0..CROWD {
            lists.leave(ticket, QINIT_BIT);
        }
        let mut tickets = Vec::new(alloc);
        for _ in 0..TASKS {
            tickets.push(None)?;
        }
        Ok(Waiting {
            lists,
            tickets,
            rng: Xoshiro256PlusPlus::seed_from_u64(seed),
            is_granted: true,
        })
    }

    fn below(&mut self, limit: u64) -> u64 {
        self.rng.next_u64().checked_rem(limit).unwrap_or(0)
    }

    // A task that does not wait is listed. One that does leaves, claims the right after a failure, or is listed anew.
    fn turn(&mut self) {
        let task = self.below(TASKS);
        let Some(mut ticket) = self.tickets.get(task as usize).copied() else {
            return;
        };
        match (ticket, self.below(3)) {
            (Some(mine), 0) => {
                self.lists.leave(mine, QINIT_BIT);
                ticket = None;
            }
            (Some(_), 1) => {
                self.lists.release(false);
                self.lists.look(&mut ticket, None, NEW);
            }
            _ => self.list(task, &mut ticket),
        }
        if let Some(kept) = self.tickets.get_mut(task as usize) {
            *kept = ticket;
        }
    }

    fn list(&mut self, task: u64, ticket: &mut Option<u64>) {
        let answer = self.lists.list(ticket, &mut Some(task), NEW).0;
        self.is_granted &= answer == Answer::Listed;
    }
}

// Makes the turns while all memory is taken, or all but some bytes. Whether each task that asked was listed, and
// whether these bytes are left still.
fn comes_and_goes(alloc: Global, seed: u64, leaves: bool) -> Result<[bool; 2], AllocError> {
    let mut waiting = Waiting::new(alloc, seed)?;
    let mut spare = Some(Vec::<u8>::with_capacity(alloc, SPARE)?);
    let held = hoard(alloc)?;
    if leaves {
        spare = None;
    }
    for _ in 0..TURNS {
        waiting.turn();
    }
    let is_left = Vec::<u8>::with_capacity(alloc, SPARE).is_ok();
    drop(held);
    drop(spare);
    Ok([waiting.is_granted, is_left])
}

#[test]
fn a_list_takes_no_more_room_while_waiters_come_and_go(rt: HostRuntime) -> Result<(), Fail> {
    for seed in 0..3 {
        let without = comes_and_goes(rt.alloc(), seed, false)?;
        let beside = comes_and_goes(rt.alloc(), seed, true)?;
        let wanted = (seed, [true, false], [true, true]);
        same(&rt, "of a seed", (seed, without, beside), wanted);
    }
    Ok(())
}
