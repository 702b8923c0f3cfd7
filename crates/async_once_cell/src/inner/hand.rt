//! What a task has of its cell's book: its pen, what it has seen of the log, and the moments that it makes without the
//! lock. Functions that do nothing say what is known of a record, and a trait says whose a waker is.
ghost use Rattle.std.specs.Prelude.{◌≡◌, ◌≢◌, ◌↔◌, ℕ, None, true, false, [], ◌∷◌, reverse};
ghost use Rattle.async_once_cell.specs.Inner.Acts.{Tells};
ghost use Rattle.async_once_cell.specs.Inner.Prelude.{IsHand, number_in, IsWord, Stayed, CountIn, DoorPut, DoorTake};
ghost use Rattle.async_once_cell.specs.Inner.Prelude.{PutQueue, Refused, Taken, counted, EndsSet, IsSet, PollsOnce};
ghost use Rattle.async_once_cell.specs.Inner.Prelude.{WasFilled, IsPrefix, MatchOption, fresh_task, Made, Once};
ghost use Rattle.async_once_cell.specs.Inner.Prelude.{AtEvery, IsRun, SomebodyCalled, Grew, entries_of, most, Went};
ghost use Rattle.async_once_cell.specs.Inner.Prelude.{call_in, CanRefuse};
ghost use Rattle.async_once_cell.specs.Inner.Prelude.{rests_with_right, Holding, status, in_call};

use super::book::{CellPens, CellWord, Leaf, Line, Record};
use super::pollable::Answered;
use once_machine::memory::{NoCopy, NoMemory};
use once_machine::parts::Counted;
use once_machine::step::RunRight;
use once_machine::waiters::WakerId;
use once_machine::word::{MAX_WAITERS, QINIT_BIT, READY_BIT};
use pagebook::Play;
use std::marker::Model;
use std::snapshot::Snapshot;

/// What is done without the lock, but for a put of the value.
#[derive(Drop)]
pub enum Act {
    /// Looks for the value, by no task.
    Look,
    /// Makes a task.
    Make,
    /// Makes the step of the word that is the call of its place.
    ByTable,
    /// Loads the word, to count itself in: it may find as many counted as may be.
    Full,
    /// Counts itself in, if the word is still this one.
    Enter(u64),
    /// Sees whether a queue was ever put to the door.
    NonePut,
    /// Begins a poll.
    Begin,
    /// Begins a drop.
    BeginDrop,
    /// Polled its init.
    Ran(Answered),
    /// Was refused the copy of its waker.
    Refused(NoCopy),
    /// Was refused the memory of a queue.
    Unput(NoMemory),
    /// Learned more of the log, where it finds no entry of its own that it had not seen.
    Learn,
    /// Looked at its own page: whether it rests with the right.
    Recall,
    /// Met another task's pen.
    Meet,
}

impl Play<Act, Line, Leaf> for Act {
    ghost then = { Tells };
}

/// The number of a task, as a clause sees it. It has no bytes.
#[derive(Drop)]
pub struct Mark {
    pens: Snapshot<CellPens>,
}

impl Model for Mark {
    ghost Value = { ℕ };

    ghost view = { λ m. number_in m.pens.value.held };
}

impl Mark {
    /// The number of the task whose pen this is.
    pub fn of(pens: &CellPens) -> Mark
        ensures { result ≡ number_in pens.now.held }
    {
        Mark {
            pens: Snapshot::of(pens),
        }
    }
}

/// What a task has of its cell's book. It has no bytes.
#[derive(Drop)]
pub struct Hand {
    pub(super) seen: Record,
    // Code that has the pen may turn the page, so no code outside of `inner` has it.
    pub(super) pens: CellPens,
    pub ghost book_is: { pens.book ≡ seen.book },
    pub ghost is_hand: { IsHand seen.log pens.held },
}

impl Hand {
    ghost use Rattle.async_once_cell.specs.Inner.Hands.{HasRight, HasRun, own_of};

    /// A new task's, by what was seen of the log before.
    pub fn new(front: &Record) -> Hand
        ensures book { result.seen.book ≡ front.now.book }
        ensures task { (own_of result).task ≡ fresh_task }
        ensures log { Grew (Made (own_of result).number ∷ []) front.now.log (own_of result).log }
    {
        let mut seen = front.again();
        let mut pens = seen.no_pens();
        seen.note::<Act, Act>(&mut pens, &Act::Make);
        Hand { seen, pens }
    }

    /// Counts the task in, or answers that as many are counted as may be. `None` says that nothing was done, because
    /// another task changed the word between the load and the exchange.
    pub fn try_count_in(&mut self, word: &CellWord) -> Option<Counted>
        requires word { IsWord word.now self.old.seen.book 0 }
        requires can { call_in (own_of self.old).task.step ≡ CountIn }
        ensures book { self.new.seen.book ≡ self.old.seen.book }
        ensures did { MatchOption result (Stayed (own_of self.old) (own_of self.new))
            (λ c. Went (own_of self.old) (counted c) [] (own_of self.new)) }
    {
        let before = word.load::<Act, Act>(&Act::Full, &mut self.seen, &mut self.pens);
        if before % QINIT_BIT >= MAX_WAITERS {
            if before >= READY_BIT {
                return Some(Counted::SeenReady);
            }
            return Some(Counted::Full);
        }
        let found = word.compare_exchange::<Act, Act>(
            before,
            before + 1,
            &Act::Enter(before),
            &mut self.seen,
            &mut self.pens,
        );
        if found == before {
            return Some(Counted::In(before));
        }
        None
    }

    /// Sees whether no queue was ever put. If so, there is none to take, and that was the step.
    pub fn finds_none_put(&mut self, has_put: &CellWord) -> bool
        requires word { IsWord has_put.now self.old.seen.book 1 }
        requires can { call_in (own_of self.old).task.step ≡ DoorTake }
        ensures book { self.new.seen.book ≡ self.old.seen.book }
        ensures none { result ≡ true → Went (own_of self.old) (Taken false) [] (own_of self.new) }
        ensures some { result ≡ false → Stayed (own_of self.old) (own_of self.new) }
    {
        has_put.load::<Act, Act>(&Act::NonePut, &mut self.seen, &mut self.pens) == 0
    }

    // Writes down how the init answered.
    pub(super) fn ran(&mut self, answer: Answered)
        requires right { HasRight self.old }
        ensures ran { HasRun self.old answer self.new }
    {
        self.seen
            .note::<Act, Act>(&mut self.pens, &Act::Ran(answer));
    }

    /// The copy of the waker was refused, after a look that found a holder.
    pub fn refused(&mut self, why: NoCopy)
        requires can { CanRefuse (own_of self.old).task.step }
        ensures book { self.new.seen.book ≡ self.old.seen.book }
        ensures did { Went (own_of self.old) Refused [] (own_of self.new) }
    {
        self.seen
            .note::<Act, Act>(&mut self.pens, &Act::Refused(why));
    }

    /// Memory for a queue was refused.
    pub fn unput(&mut self, why: NoMemory)
        requires can { call_in (own_of self.old).task.step ≡ DoorPut }
        ensures book { self.new.seen.book ≡ self.old.seen.book }
        ensures did { Went (own_of self.old) (PutQueue None) [] (own_of self.new) }
    {
        self.seen.note::<Act, Act>(&mut self.pens, &Act::Unput(why));
    }

    /// The task learns what a record of its cell has.
    pub fn learn(&mut self, seen: &Record)
        requires book { seen.now.book ≡ self.old.seen.book }
        ensures book { self.new.seen.book ≡ self.old.seen.book }
        ensures number { (own_of self.new).number ≡ (own_of self.old).number }
        ensures task { (own_of self.new).task ≡ (own_of self.old).task }
        ensures log { IsPrefix (own_of self.old).log (own_of self.new).log
            × IsPrefix seen.now.log (own_of self.new).log }
        ensures mine { entries_of (own_of self.old).number (own_of self.new).log
            ≡ entries_of (own_of self.old).number (own_of self.old).log }
        ensures own_set { IsSet (own_of self.old).log → IsSet (own_of self.new).log }
        ensures other_set { IsSet seen.now.log → IsSet (own_of self.new).log }
    {
        let before = self.seen.again();
        self.seen.learn(seen);
        self.seen.note::<Act, Act>(&mut self.pens, &Act::Learn);
        stays_set(&before, &self.seen);
        stays_set(seen, &self.seen);
    }

    /// The task looks at its page: if it is in no call, it rests with the right exactly if the record says so.
    pub fn recall(&mut self)
        ensures book { self.new.seen.book ≡ self.old.seen.book }
        ensures number { (own_of self.new).number ≡ (own_of self.old).number }
        ensures task { (own_of self.new).task ≡ (own_of self.old).task }
        ensures log { IsPrefix (own_of self.old).log (own_of self.new).log }
        ensures set { IsSet (own_of self.old).log → IsSet (own_of self.new).log }
        ensures holds { in_call (own_of self.old).task.step ≡ false
            → (rests_with_right (own_of self.old).task.step ≡ true)
            ↔ (status Once (own_of self.new).number (reverse (own_of self.new).log) ≡ Holding) }
    {
        let before = self.seen.again();
        self.seen.note::<Act, Act>(&mut self.pens, &Act::Recall);
        stays_set(&before, &self.seen);
    }

    /// Shows that two hands of one book are of two tasks. The first may learn more of the record.
    pub fn are_two(a: &mut Hand, b: &mut Hand)
        requires book { b.old.seen.book ≡ a.old.seen.book }
        ensures book { (a.new.seen.book ≡ a.old.seen.book) × (b.new.seen.book ≡ b.old.seen.book) }
        ensures number { (own_of a.new).number ≡ (own_of a.old).number }
        ensures task { (own_of a.new).task ≡ (own_of a.old).task }
        ensures log { IsPrefix (own_of a.old).log (own_of a.new).log }
        ensures set { IsSet (own_of a.old).log → IsSet (own_of a.new).log }
        ensures other { own_of b.new ≡ own_of b.old }
        ensures two { (own_of a.new).number ≢ (own_of b.new).number }
    {
        let before = a.seen.again();
        a.pens.append(&mut b.pens);
        a.seen.note::<Act, Act>(&mut a.pens, &Act::Meet);
        b.pens = a.pens.split_off(1);
        stays_set(&before, &a.seen);
    }
}

impl RunRight for Hand {
    ghost use Rattle.async_once_cell.specs.Inner.Hands.{HasRight, HasRun};

    ghost can = { HasRight };

    ghost ran = { HasRun };
}

/// A waker that is known to be a task's.
pub trait TaskWaker: WakerId {
    ghost whose: { Self → ℕ };

    // A task is listed once.
    ghost apart: { (a b : Self) → Self.tells_same a b → ⊥ };
}

/// A record that was seen is a run of the cell. At each of its beginnings somebody was woken if somebody had to be.
/// Each task polls its init once at most in each of its calls.
pub fn is_run(seen: &Record)
    ensures run { IsRun Once most (reverse seen.now.log) }
    ensures called { AtEvery (SomebodyCalled Once) (reverse seen.now.log) }
    ensures filled { IsSet seen.now.log → WasFilled seen.now.log }
    ensures once { PollsOnce seen.now.log }
{
    seen.again().learn(seen);
}

/// A cell that was set in a record is set in each later one.
pub fn stays_set(earlier: &Record, later: &Record)
    ensures { IsPrefix earlier.now.log later.now.log → IsSet earlier.now.log → IsSet later.now.log }
{
    later.again().learn(later);
}

/// The cell is set in a record whose newest entry is the end of a call with the value.
pub fn is_set_where_answered(seen: &Record)
    requires { (t : ℕ) × EndsSet t seen.now.log }
    ensures { IsSet seen.now.log }
{
    seen.again().learn(seen);
}
