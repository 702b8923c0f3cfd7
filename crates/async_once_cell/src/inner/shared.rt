//! What the tasks of a cell share, and that as one task uses it. Why the value, which lies beside the words, may be
//! written and read plainly is said at the head of `slot.rt` in `pagebook`.
ghost use Rattle.std.specs.Prelude.{◌≡◌, [], true, IfSome, IsSome, List, ◌∷◌, reverse};
ghost use Rattle.async_once_cell.specs.Inner.Hands.{own_of};
ghost use Rattle.async_once_cell.specs.Inner.Prelude.{CountIn, Load, Loaded, Put, PutValue, counted as count_told};
ghost use Rattle.async_once_cell.specs.Inner.Prelude.{IsWord, Turned, flags_of, Went, call_in, EndsSet, Looked};
ghost use Rattle.async_once_cell.specs.Inner.Prelude.{WasFilled, Writes as Wrote, Puts as HasPut, is_some, Entry, Made};
ghost use Rattle.async_once_cell.specs.Inner.Prelude.{Begin, fresh_task, drop_entries, Grew, is_resting, step_of_drop};
ghost use Rattle.async_once_cell.specs.Inner.Prelude.{task_begun, task_dropping, parts_can, parts_did};

use super::book::{CellRule, CellSlot, CellWord, Leaf, Line, Record};
use super::desk::Desk;
use super::hand::{Act, Hand, Mark, TaskWaker};
use super::task::Idle;
use boxcar::tag::Tag;
use once_machine::memory::{self, NoCopy};
use once_machine::parts::{Counted, Parts};
use once_machine::step::{Polled, Side};
use once_machine::waiters::{Answer, Lists, Op};
use once_machine::word::{NEW, QINIT_BIT, READY_BIT, Word as Flags};
use pagebook::{Anything, Fits, KeyedMutex, Play, Slot, Word, Written};
use std::alloc::AllocGlobal;
use std::fmt;
use std::marker::Brand;
use std::sync::Wait;

pub(super) struct Writes;

impl Play<(), Line, Leaf> for Writes {
    ghost then = { λ _ v n w. Wrote v w };
}

pub(super) struct Puts;

impl Play<(), Line, Leaf> for Puts {
    ghost then = { λ _ v n w. HasPut v w };
}

/// What all tasks of a cell share: the word, whether a queue was ever put to the door, the slot of the value, and under
/// one lock the door with the queue. `V` says what is promised of the value.
///
/// ```
/// let cell = Inner::<u64, Bell>::new();
/// assert_eq!(rt; cell.has_queue(), Some(false));
/// let mut record = cell.record();
/// assert!(rt; cell.look(&mut record).is_none());
/// ```
#[derive(Drop)]
pub struct Inner<T, W: TaskWaker, V: Fits<T> = Anything> {
    pub(super) word: CellWord,
    pub(super) has_put: CellWord,
    pub(super) slot: CellSlot<T, V>,
    // What each new task has seen of the log.
    pub(super) front: Record,
    pub(super) desk: KeyedMutex<Desk<W>>,
    ghost word_is: { IsWord word front.book 0 },
    ghost put_is: { IsWord has_put front.book 1 },
    ghost slot_is: { (slot.book ≡ front.book) × (slot.key ≡ 2) },
    ghost desk_is: { desk.book ≡ front.book },
}

impl<T, W: TaskWaker + Drop> Inner<T, W> {
    /// A new cell, of whose value nothing is promised. It takes no memory. No clause says that it is empty.
    pub fn new() -> Self
        ensures about { result.slot.about ≡ [] }
    {
        Inner::promised(&Tag::empty())
    }
}

impl<T, W: TaskWaker + Drop, V: Fits<T>> Inner<T, W, V> {
    ghost use Rattle.async_once_cell.specs.Inner.Shares.{cell_of, own};

    /// As [`new`](Self::new). What `V` promises of the value is about the numbers of the tag.
    pub fn promised(tag: &Tag) -> Self
        ensures about { result.slot.about ≡ tag.now.numbers }
    {
        let (mut blanks, front, pens) = Word::open::<(), CellRule>(&());
        Inner {
            word: Word::new(0, &mut blanks),
            has_put: Word::new(0, &mut blanks),
            slot: Slot::promised(&mut blanks, tag),
            front,
            desk: KeyedMutex::new(Desk::new(pens)),
        }
    }

    /// The record as a new task or token has seen it.
    pub fn record(&self) -> Record
        ensures { result.book ≡ self.now.slot.book }
    {
        self.front.again()
    }

    /// A new task.
    #[inline(always)]
    pub fn task<'a, 'r, R>(&'a self, rt: &'r R) -> Shared<'a, 'r, T, W, R, V>
        ensures cell { cell_of result ≡ self.now.slot }
        ensures idle { result.idle ≡ Idle.New }
        ensures task { (own result).task ≡ fresh_task }
        ensures log { (seen : List Entry) × Grew (Made (own result).number ∷ []) seen (own result).log }
    {
        Shared {
            inner: self,
            rt,
            hand: Hand::new(&self.front),
            idle: Idle::New,
        }
    }

    /// Looks for the value: one load of the word. If that is ready, the value is there. Else the cell was not set then.
    pub fn look<'a>(&'a self, seen: &mut Record) -> Option<(&'a T, Written<T>)>
        requires book { seen.old.book ≡ self.now.slot.book }
        ensures book { seen.new.book ≡ seen.old.book }
        ensures look { Looked (is_some result) seen.old.log seen.new.log }
        ensures filled { IsSome result → WasFilled seen.new.log }
        ensures value { IfSome result (λ r. (r.0.now ≡ r.1.value) × (r.1.of ≡ self.now.slot.id)) }
        ensures promise { IfSome result (λ r. V.fits self.now.slot.about r.0.now) }
    {
        if Flags::from_bits(self.load(seen)).is_ready() {
            return Some(self.slot.get(seen));
        }
        None
    }

    fn load(&self, seen: &mut Record) -> u64
        requires book { seen.old.book ≡ self.now.slot.book }
        ensures book { seen.new.book ≡ seen.old.book }
        ensures look { Looked (flags_of result).ready seen.old.log seen.new.log }
        ensures filled { (flags_of result).ready ≡ true → WasFilled seen.new.log }
    {
        let mut none = seen.no_pens();
        self.word.load::<Act, Act>(&Act::Look, seen, &mut none)
    }

    /// The value, for a caller that has what shows it. It does not look at the word.
    pub fn value<'a>(&'a self, written: &Written<T>) -> &'a T
        requires { written.now.of ≡ self.now.slot.id }
        ensures value { result.now ≡ written.now.value }
        ensures promise { V.fits self.now.slot.about result.now }
    {
        self.slot.value(written)
    }

    /// What shows the value, if a look finds it.
    pub fn witness(&self) -> Option<Written<T>>
        ensures { IfSome result (λ w. w.of ≡ self.now.slot.id) }
    {
        let (_, written) = self.look(&mut self.record())?;
        Some(written)
    }

    /// The value, if it was put, which no clause says. The record ends.
    pub fn into_inner(self) -> Option<T>
        ensures promise { IfSome result (V.fits self.slot.about) }
    {
        self.slot.into_inner()
    }

    /// The value, for a caller that has what shows it. The record ends.
    pub fn into_value(self, written: &Written<T>) -> T
        requires { written.now.of ≡ self.slot.id }
        ensures value { result ≡ written.now.value }
        ensures promise { V.fits self.slot.about result }
    {
        self.slot.into_value(written)
    }

    /// Whether a queue stands at the door, for Debug. It waits for nobody: `None` says that the lock was not free. No
    /// clause says what it answers.
    pub fn has_queue(&self) -> Option<bool> {
        self.stands::<Brand>()
    }
}

impl<T, W: TaskWaker + Drop, V: Fits<T>> fmt::Debug for Inner<T, W, V> {
    fn fmt<F: fmt::Write>(&self, f: &mut fmt::Formatter<F>) -> fmt::Result {
        let flags = Flags::from_bits(self.load(&mut self.record()));
        let queue = match self.has_queue() {
            Some(true) => "true",
            Some(false) => "false",
            None => "busy",
        };
        let (ready, quick, count) = (flags.is_ready(), flags.is_quick(), flags.count());
        write!(
            f,
            "Inner {{ ready: {ready}, quick_init: {quick}, refcount: {count}, queue: {queue} }}"
        )
    }
}

unsafe impl<T: Send, W: TaskWaker + Send, V: Fits<T>> Send for Inner<T, W, V> {}

unsafe impl<T: Send + Sync, W: TaskWaker + Send, V: Fits<T>> Sync for Inner<T, W, V> {}

/// What the tasks of a cell share, as one task uses it that has a page in the book. Each call of [`Parts`] but `refuse`
/// is one step. Here a task that meets nobody fills its cell:
///
/// ```
/// task.begin();
/// let word = task.load();
/// assert_eq!(rt; word, 0);
/// let won = task.quick();
/// assert!(rt; won);
/// let polled = task.run(&mut side);
/// assert_eq!(rt; polled, Polled::Value);
/// task.put(7);
/// let released = task.fast(true);
/// assert!(rt; released);
/// task.door_take();
/// let (value, _) = task.value();
/// ```
#[derive(Drop)]
pub struct Shared<'a, 'r, T, W: TaskWaker, R, V: Fits<T> = Anything> {
    pub(super) inner: &'a Inner<T, W, V>,
    pub(super) rt: &'r R,
    pub(super) hand: Hand,
    // Where the next call of a `Task` begins. Code that makes single steps keeps that by itself.
    pub(super) idle: Idle,
    ghost fits: { hand.seen.book ≡ inner.now.front.book },
}

impl<'a, 'r, T, W: TaskWaker, R, V: Fits<T>> Shared<'a, 'r, T, W, R, V> {
    ghost use Rattle.async_once_cell.specs.Inner.Shares.{cell_of, own};

    /// Begins a poll.
    pub fn begin(&mut self)
        requires can { is_resting (own self.old).task.step ≡ true }
        ensures cell { cell_of self.new ≡ cell_of self.old }
        ensures did { Turned (own self.old) (task_begun (own self.old).number (own self.old).task)
            (Begin (own self.old).number (own self.old).number ∷ []) (own self.new) }
    {
        let hand = &mut self.hand;
        hand.seen.note::<Act, Act>(&mut hand.pens, &Act::Begin);
    }

    /// Begins a drop.
    pub fn begin_drop(&mut self)
        requires can { is_resting (own self.old).task.step ≡ true }
        ensures cell { cell_of self.new ≡ cell_of self.old }
        ensures did { Turned (own self.old) (task_dropping (own self.old).task)
            (reverse (drop_entries (own self.old).number (step_of_drop (own self.old).task.step))) (own self.new) }
    {
        let hand = &mut self.hand;
        hand.seen.note::<Act, Act>(&mut hand.pens, &Act::BeginDrop);
    }

    /// The value, for a task whose last call ended with it.
    pub fn value(&self) -> (&'a T, Written<T>)
        requires ended { EndsSet (own self.now).number (own self.now).log }
        ensures value { (result.0.now ≡ result.1.value) × (result.1.of ≡ (cell_of self.now).id) }
        ensures promise { V.fits (cell_of self.now).about result.0.now }
    {
        self.inner.slot.get(&self.hand.seen)
    }

    // Puts the value, which nothing can refuse.
    pub(super) fn put_value(&mut self, value: T) -> Written<T>
        requires can { call_in (own self.old).task.step ≡ Put }
        requires fits { V.fits (cell_of self.old).about value }
        ensures cell { cell_of self.new ≡ cell_of self.old }
        ensures did { Went (own self.old) PutValue [] (own self.new) }
        ensures written { (result.of ≡ (cell_of self.old).id) × (result.value ≡ value) }
    {
        let hand = &mut self.hand;
        self.inner
            .slot
            .put::<(), Writes, Puts>(value, &(), &mut hand.seen, &mut hand.pens)
    }

    /// The number of this task, for its wakers.
    pub fn mark(&self) -> Mark
        ensures { result ≡ (own self.now).number }
    {
        Mark::of(&self.hand.pens)
    }
}

/// Each call is one moment of the cell's book. There is one queue, which lies with the door, so a waiter keeps none.
impl<T, W: TaskWaker + Drop, R: Wait + AllocGlobal, V: Fits<T>> Parts<W>
    for Shared<'_, '_, T, W, R, V> {
    ghost use Rattle.async_once_cell.specs.Inner.Shares.{cell_of, own};

    type Queue = ();

    type Value = T;

    type Right = Hand;

    ghost can = { parts_can cell_of own W.whose };

    ghost did = { parts_did cell_of own W.whose };

    ghost takes = { λ p. V.fits (cell_of p).about };

    fn load(&mut self) -> u64 {
        self.inner.loaded(&mut self.hand)
    }

    fn quick(&mut self) -> bool {
        let hand = &mut self.hand;
        let found = self.inner.word.compare_exchange::<Act, Act>(
            NEW,
            QINIT_BIT,
            &Act::ByTable,
            &mut hand.seen,
            &mut hand.pens,
        );
        found == NEW
    }

    fn fast(&mut self, ready: bool) -> bool {
        let hand = &mut self.hand;
        let to = if ready { READY_BIT } else { NEW };
        let found = self.inner.word.compare_exchange::<Act, Act>(
            QINIT_BIT,
            to,
            &Act::ByTable,
            &mut hand.seen,
            &mut hand.pens,
        );
        found == QINIT_BIT
    }

    fn count_in(&mut self) -> Counted {
        self.inner.counted(self.rt, &mut self.hand)
    }

    fn add_one(&mut self) {
        let hand = &mut self.hand;
        self.inner
            .word
            .fetch_add::<Act, Act>(1, &Act::ByTable, &mut hand.seen, &mut hand.pens);
    }

    fn count_out(&mut self) -> u64 {
        let inner = self.inner;
        let hand = &mut self.hand;
        let found = inner
            .word
            .fetch_sub::<Act, Act>(1, &Act::ByTable, &mut hand.seen, &mut hand.pens);
        found - 1
    }

    fn door_get(&mut self) -> Option<()> {
        if self.inner.lock_and_get::<Brand, R>(self.rt, &mut self.hand) {
            return Some(());
        }
        None
    }

    // The queue takes memory, so it is made with the lock free. If another task put one meanwhile, this one is let go.
    fn door_put(&mut self) -> Option<()> {
        let alloc = self.rt.alloc();
        match memory::boxed(alloc, Lists::new(alloc)) {
            Ok(queue) => {
                self.inner
                    .lock_and_put::<Brand, R>(self.rt, &mut self.hand, queue);
                Some(())
            }
            Err(why) => {
                self.hand.unput(why);
                None
            }
        }
    }

    // If no queue was ever put, the load that finds so is the step. What was listed is let go with the lock free.
    #[inline(always)]
    fn door_take(&mut self) -> bool {
        if self.hand.finds_none_put(&self.inner.has_put) {
            return false;
        }
        self.inner
            .lock_and_take::<Brand, R>(self.rt, &mut self.hand)
            .is_some()
    }

    #[inline(always)]
    fn section(&mut self, _queue: &(), op: &mut Op<W>) -> Answer<W> {
        let (answer, _spent) = self
            .inner
            .lock_and_enter::<Brand, R>(self.rt, &mut self.hand, op);
        answer
    }

    fn refuse(&mut self, why: NoCopy) {
        self.hand.refused(why);
    }

    #[inline(always)]
    fn run<S: Side<W, Right = Hand>>(&mut self, side: &mut S) -> Polled {
        side.run(&mut self.hand)
    }

    fn put(&mut self, value: T) {
        self.put_value(value);
    }
}

impl<T, W: TaskWaker, V: Fits<T>> Inner<T, W, V> {
    pub(super) fn loaded(&self, hand: &mut Hand) -> u64
        requires book { hand.old.seen.book ≡ self.now.front.book }
        requires can { call_in (own_of hand.old).task.step ≡ Load }
        ensures book { hand.new.seen.book ≡ hand.old.seen.book }
        ensures did { Went (own_of hand.old) (Loaded (flags_of result)) [] (own_of hand.new) }
    {
        self.word
            .load::<Act, Act>(&Act::ByTable, &mut hand.seen, &mut hand.pens)
    }

    pub(super) fn counted<R: Wait>(&self, rt: &R, hand: &mut Hand) -> Counted
        requires book { hand.old.seen.book ≡ self.now.front.book }
        requires can { call_in (own_of hand.old).task.step ≡ CountIn }
        ensures book { hand.new.seen.book ≡ hand.old.seen.book }
        ensures did { Went (own_of hand.old) (count_told result) [] (own_of hand.new) }
    {
        if let Some(counted) = hand.try_count_in(&self.word) {
            return counted;
        }
        self.counted_again(rt, hand)
    }

    // Tries again while others change the word between the load and the exchange.
    #[inline(never)]
    fn counted_again<R: Wait>(&self, rt: &R, hand: &mut Hand) -> Counted
        requires book { hand.old.seen.book ≡ self.now.front.book }
        requires can { call_in (own_of hand.old).task.step ≡ CountIn }
        ensures book { hand.new.seen.book ≡ hand.old.seen.book }
        ensures did { Went (own_of hand.old) (count_told result) [] (own_of hand.new) }
    {
        for _ in rt.forever() {
            if let Some(counted) = hand.try_count_in(&self.word) {
                return counted;
            }
        }
        unreachable!()
    }
}
