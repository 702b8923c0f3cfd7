//! The same whole calls over a cell and over a replay of the machine, compared call by call: what each answers, the
//! tasks that it wakes, in their order, and the Debug text of the cell after it. That text has the word, and whether a
//! queue stands at the door.
//!
//! A cell goes by straight ways, and a replay by `advance`. Each atomic step of a way is proved to be a step of the
//! machine; here whole calls are compared as they run. Both use the same list of those that wait (`Lists`), so a fault
//! in it is not seen here. The limit of the count is that of the cells.
ghost use Rattle.std.specs.Prelude.{OnOk};
ghost use Rattle.once_script.specs.Reached.{IsReached};

mod cell;
mod chance;
mod inits;
mod machine;
mod meeting;
mod rows;
mod wakers;
mod whole;

use cell::{Cell, Stage, seen};
use inits::Answer;
use machine::{Seen, Teller, Wanted, ordered};
use meeting::{Meeting, Meets};
use once_script::world::Kind;
use std::alloc::AllocGlobal;
use std::sync::Wait;
use std::test::Fail;
use wakers::Wakers;
use whole::{Row, Whole};

/// Calls of futures, and then one of the owner.
#[derive(Drop)]
pub struct Part {
    pub rows: Vec<Row>,
    pub last: Option<Whole>,
}

/// Plays calls over cells and over replays.
#[derive(Drop)]
pub struct Player<'p, R> {
    pub rt: &'p R,
    pub wakers: &'p Wakers,
    pub answer: &'p Answer,
    /// What is played.
    pub name: &'p str,
}

impl<R: Wait + AllocGlobal> Player<'_, R> {
    /// Plays calls over a cell of this kind.
    pub fn play(&self, kind: Kind, parts: Vec<Part>) -> Result<(), Fail> {
        let alloc = self.rt.alloc();
        let mut cell = Cell::new(alloc, &kind)?;
        let mut teller = Teller::new(alloc, kind);
        for part in parts {
            let Part { rows, last } = part;
            let stage = Stage::new(self.rt, &cell, self.wakers, self.answer);
            self.play_part(&mut teller, stage, rows)?;
            self.own(&mut teller, &mut cell, last)?;
        }
        Ok(())
    }

    // Compares the calls of futures of one part.
    fn play_part(
        &self,
        teller: &mut Teller,
        stage: Stage<'_, R>,
        rows: Vec<Row>,
    ) -> Result<(), Fail>
        requires reached { IsReached teller.old.world }
        ensures reached { OnOk result (IsReached teller.new.world) }
    {
        if let Some(task) = met_in(&rows) {
            return self.play_met(teller, stage, (rows, task));
        }
        let mut stage = stage;
        for row in rows {
            let wanted = teller.tell_one(&row.whole)?;
            let found = stage.seen(&row.whole)?;
            self.compare(&row.whole, found, wanted)?;
        }
        Ok(())
    }

    // The same where others are made in the middle of those of one task.
    fn play_met(
        &self,
        teller: &mut Teller,
        stage: Stage<'_, R>,
        calls: (Vec<Row>, u64),
    ) -> Result<(), Fail>
        requires reached { IsReached teller.old.world }
        ensures reached { OnOk result (IsReached teller.new.world) }
    {
        let (alloc, (rows, task)) = (self.rt.alloc(), calls);
        let Cell::Once(once) = stage.cell else {
            return Err(Fail::new(format_args!("{} is of a lazy cell", self.name)));
        };
        let meeting = Meeting::new(stage);
        let meets = Meets {
            alloc,
            meeting: &meeting,
        };
        let mut outer = once.get_or_try_init(&meets, meeting.init());
        for row in rows {
            let wanted = teller.tell(&row)?;
            let Row {
                whole,
                steps: _,
                meanwhile,
            } = row;
            let found = if whole.task() == task {
                meeting.seen_over(&mut outer, &whole, meanwhile)?
            } else {
                vec![in alloc; meeting.seen(&whole)?]?
            };
            self.compare_all(&whole, found, wanted)?;
        }
        Ok(())
    }

    fn compare_all(
        &self,
        whole: &Whole,
        found: Vec<Seen>,
        wanted: Vec<Wanted>,
    ) -> Result<(), Fail> {
        if found.len() != wanted.len() {
            let name = self.name;
            return Err(Fail::new(format_args!("in {name}, {whole:?}: of the cell {found:?}")));
        }
        for (found, wanted) in found.into_iter().zip(wanted) {
            self.compare(whole, found, wanted)?;
        }
        Ok(())
    }

    // Compares a call of the owner, if there is one.
    fn own(&self, teller: &mut Teller, cell: &mut Cell, last: Option<Whole>) -> Result<(), Fail>
        requires reached { IsReached teller.old.world }
        ensures reached { OnOk result (IsReached teller.new.world) }
    {
        let Some(whole) = last else {
            return Ok(());
        };
        let wanted = teller.tell_one(&whole)?;
        let told = cell.owned(self.rt.alloc(), &whole)?;
        let found = seen(self.rt, self.wakers, cell, told)?;
        self.compare(&whole, found, wanted)
    }

    fn compare(&self, whole: &Whole, found: Seen, wanted: Wanted) -> Result<(), Fail> {
        let Seen { told, woken, shown } = found;
        let Wanted { seen: wanted, own } = wanted;
        let woken = ordered(self.rt.alloc(), &woken, &own)?;
        let found = Seen { told, woken, shown };
        if found != wanted {
            let name = self.name;
            return Err(Fail::new(format_args!(
                "in {name}, {whole:?}: of the cell {found:?}, of the machine {wanted:?}"
            )));
        }
        Ok(())
    }
}

// The task in the middle of whose call others are made.
fn met_in(rows: &[Row]) -> Option<u64> {
    for row in rows {
        if !row.meanwhile.is_empty() {
            return Some(row.whole.task());
        }
    }
    None
}
