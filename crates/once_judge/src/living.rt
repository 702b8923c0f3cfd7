//! The tasks that live, which of them wait, and which of these ask to be woken.
ghost use Rattle.std.specs.Prelude.{◌≡◌, ◌≤◌, ◌==◌, ℕ, if◌then◌else◌, Some, None, OnOk, IfOk, true};
ghost use Rattle.std.specs.BTreeMap.{get};
ghost use Rattle.std.specs.Ordering.{nat_cmp};
ghost use Rattle.once_judge.specs.Living.{StandAmong, Asks, AskAmong, count_at};

use crate::task::{Task, is_waiting};
use std::alloc::{AllocError, Global};
use std::collections::{BTreeMap, BTreeSet};

/// The tasks that were made and are not gone. Those that wait, or ask, can be looked over without the others.
#[derive(Drop)]
pub struct Living {
    /// All of them, by their numbers.
    pub all: BTreeMap<u64, Task>,
    /// When each waker was handed out last.
    pub handed: BTreeMap<u64, u64>,
    /// The numbers of those that wait.
    pub waiting: BTreeSet<u64>,
    /// Of those that wait the numbers of the ones that ask, and maybe of some that were woken.
    pub asking: BTreeSet<u64>,
    pub ghost stand: { StandAmong all waiting },
    pub ghost asked: { AskAmong all handed asking },
}

impl Living {
    /// No task.
    pub fn new(alloc: Global) -> Living
        ensures all { (t : ℕ) → get nat_cmp result.all t ≡ None }
        ensures handed { (w : ℕ) → count_at result.handed w ≡ 0 }
    {
        Living {
            all: BTreeMap::new(alloc),
            handed: BTreeMap::new(alloc),
            waiting: BTreeSet::new(alloc),
            asking: BTreeSet::new(alloc),
        }
    }

    /// Keeps a task.
    pub fn insert(&mut self, t: u64, task: Task) -> Result<(), AllocError>
        ensures all { OnOk result ((u : ℕ) → get nat_cmp self.new.all u
            ≡ (if t == u then Some task else get nat_cmp self.old.all u)) }
        ensures handed { self.new.handed ≡ self.old.handed }
    {
        if is_waiting(task.status) {
            self.waiting.insert(t)?;
            self.asking.insert(t)?;
            self.all.insert(t, task)?;
        } else {
            self.all.insert(t, task)?;
            let _ = self.waiting.remove(&t);
            let _ = self.asking.remove(&t);
        }
        Ok(())
    }

    /// Forgets a task.
    pub fn remove(&mut self, t: u64)
        ensures all { (u : ℕ) → get nat_cmp self.new.all u ≡ (if t == u then None else get nat_cmp self.old.all u) }
        ensures handed { self.new.handed ≡ self.old.handed }
    {
        let _ = self.all.remove(&t);
        let _ = self.waiting.remove(&t);
        let _ = self.asking.remove(&t);
    }

    /// A waker is handed out by the entry of this number.
    pub fn hand(&mut self, waker: u64, number: u64) -> Result<(), AllocError>
        requires later { count_at self.old.handed waker ≤ number }
        ensures handed { OnOk result ((w : ℕ) → count_at self.new.handed w
            ≡ (if waker == w then number else count_at self.old.handed w)) }
        ensures all { self.new.all ≡ self.old.all }
    {
        self.handed.insert(waker, number)?;
        Ok(())
    }

    /// Those that were woken ask no more.
    pub fn settle(&mut self, alloc: Global) -> Result<(), AllocError>
        ensures all { self.new.all ≡ self.old.all }
        ensures handed { self.new.handed ≡ self.old.handed }
    {
        self.asking = self.still_asking(alloc)?;
        Ok(())
    }

    // Those that ask.
    fn still_asking(&self, alloc: Global) -> Result<BTreeSet<u64>, AllocError>
        ensures { IfOk result (λ s. AskAmong self.now.all self.now.handed s) }
    {
        let mut asking = BTreeSet::new(alloc);
        for t in &self.asking {
            if self.asks(*t) {
                asking.insert(*t)?;
            }
        }
        Ok(asking)
    }

    // Whether the task asks.
    fn asks(&self, t: u64) -> bool
        ensures { Asks self.now.all self.now.handed t → result ≡ true }
    {
        match self.all.get(&t) {
            Some(task) => {
                let handed = self.handed.get(&task.waker).copied().unwrap_or(0);
                is_waiting(task.status) && handed <= task.ended
            }
            None => false,
        }
    }
}
