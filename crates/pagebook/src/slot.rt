// A place for one value. Its state is a word of the book: 0 while the slot is empty, 1 while one thread writes the
// value, and 2 from then on. The state has no bytes, so its steps are steps of the proof alone, and none of them orders
// the write of the value before a read. What orders the two is how the reader came to know that the value is there. It
// stepped a `Word` and found a number that says so, or it got a `Seen` or a `Written` from a thread that did, over a
// lock, say, or at a join. Neither a note nor a put elsewhere can tell it (`proofs/Book/Untold.antt`), so a caller that
// may call `get` or `value` has such an order.
ghost use Rattle.core.specs.Prelude.{◌≡◌, ℕ, ◌+◌, [], drop, slice_get, IfSome};
ghost use Rattle.pagebook.specs.Prelude.{Placed, placed_coded, Rest, resting, shared, written, IsPrefix, fsep, fex};
ghost use Rattle.pagebook.specs.Prelude.{said, Some, View, Moves, Sure};

use crate::rule::{Anything, Fits, Play, Rule};
use crate::word::{Blanks, Pens, Seen};
use boxcar::tag::Tag;
use std::marker::{Model, Move, Owns, PhantomData};
use std::mem::align_of;

/// What shows that the slot whose `id` is `of` holds `value`. It has no bytes, can be copied, and stays true.
pub struct Written<T> {
    marker: PhantomData<T>,
    pub ghost of: { ℕ },
    pub ghost value: { T },
}

impl<T> Model for Written<T> {
    ghost also_owns = { λ w. written T.row w.of w.value };

    ghost also_shares = { λ w _ κ. said (written T.row w.of w.value) κ };
}

/// A place for one value, put once and read by all. A clause sees its `book`, its `key`, which is the place of its
/// state among the book's words, its `id`, which a `Written` names, and `about`, the numbers that `V` promises about.
pub struct Slot<T, E, P, R: Rule<E, P>, V: Fits<T> = Anything> {
    value: Option<T>,
    marker: PhantomData<(E, P, R, V)>,
}

impl<T, E, P, R: Rule<E, P>, V: Fits<T>> Owns for Slot<T, E, P, R, V> {
    ghost Value = { Placed };

    ghost coded = { placed_coded };

    ghost shr_at = { λ l p κ. shared T.row V.fits l p κ };
}

impl<T, E, P, R: Rule<E, P>, V: Fits<T>> Move for Slot<T, E, P, R, V> {
    ghost own_val = { λ l vs. fex (Rest T.row.Denot)
        (λ s. fsep (Fields.own_val (record { value = s.1; marker = record {} }) vs) (resting T.row V.fits l s)) };
}

impl<T, E, P, R: Rule<E, P>, V: Fits<T>> Slot<T, E, P, R, V> {
    /// An empty slot, whose state is the word of the first blank, a 0. What `V` promises is about no numbers.
    pub fn new(blanks: &mut Blanks) -> Slot<T, E, P, R, V>
        requires { slice_get blanks.old.numbers 0 ≡ Some 0 }
        ensures slot { (result.book ≡ blanks.old.book) × (result.key ≡ blanks.old.first) × (result.about ≡ []) }
        ensures blanks { (blanks.new.book ≡ blanks.old.book) × (blanks.new.first ≡ blanks.old.first + 1)
            × (blanks.new.numbers ≡ drop 1 blanks.old.numbers) }
    {
        Slot::promised(blanks, &Tag::empty())
    }

    /// As `new`, but what `V` promises of the value is about the numbers of the tag.
    pub fn promised(blanks: &mut Blanks, tag: &Tag) -> Slot<T, E, P, R, V>
        requires { slice_get blanks.old.numbers 0 ≡ Some 0 }
        ensures slot { (result.book ≡ blanks.old.book) × (result.key ≡ blanks.old.first)
            × (result.about ≡ tag.now.numbers) }
        ensures blanks { (blanks.new.book ≡ blanks.old.book) × (blanks.new.first ≡ blanks.old.first + 1)
            × (blanks.new.numbers ≡ drop 1 blanks.old.numbers) }
    {
        let _ = tag;
        Slot {
            value: None,
            marker: PhantomData,
        }
    }

    /// Puts the value. It is two steps of the state, each of which may change pages and the log as a step of a `Word`
    /// does: `B` says what the first tells, by which the state is 1, and `F` the second, by which it is 2. Neither is
    /// in the machine code: all that runs is a plain write of the value. By the rule the first finds 0, because nobody
    /// began to put a value, and the second keeps the rule wherever the first led.
    pub fn put<X, B: Play<X, E, P>, F: Play<X, E, P>>(
        &self,
        value: T,
        about: &X,
        seen: &mut Seen<E, P, R>,
        pens: &mut Pens<P>,
    ) -> Written<T>
        requires seen { seen.old.book ≡ self.now.book }
        requires pens { pens.old.book ≡ self.now.book }
        requires begins { Moves R.holds (seen.old.log, pens.old.held) self.now.key (λ _. 1)
            (λ n w. (n ≡ 0) × B.then about.now (seen.old.log, pens.old.held) n w) }
        requires fills { (w : View E P) → B.then about.now (seen.old.log, pens.old.held) 0 w
            → Moves R.holds w self.now.key (λ _. 2) (λ n u. F.then about.now w n u) }
        requires fits { V.fits self.now.about value }
        ensures book { (seen.new.book ≡ seen.old.book) × (pens.new.book ≡ pens.old.book) }
        ensures log { IsPrefix seen.old.log seen.new.log }
        ensures then { (w : View E P) × B.then about.now (seen.old.log, pens.old.held) 0 w
            × F.then about.now w 1 (seen.new.log, pens.new.held) }
        ensures written { (result.of ≡ self.now.id) × (result.value ≡ value) }
    {
        let slot = self as *const Slot<T, E, P, R, V>;
        unsafe {
            std::ptr::write(&raw const (*slot).value as *mut Option<T>, Some(value));
            Written {
                marker: PhantomData,
            }
        }
    }

    /// The value, and what shows that it is the slot's. By the rule the state is 2 if so much of the log was seen.
    pub fn get<'a>(&'a self, seen: &Seen<E, P, R>) -> (&'a T, Written<T>)
        requires book { seen.now.book ≡ self.now.book }
        requires sure { Sure R.holds seen.now.log self.now.key 2 }
        ensures { (result.0.now ≡ result.1.value) × (result.1.of ≡ self.now.id) × V.fits self.now.about result.0.now }
    {
        let written = self.found(seen);
        (self.value(&written), written)
    }

    fn found(&self, seen: &Seen<E, P, R>) -> Written<T>
        requires book { seen.now.book ≡ self.now.book }
        requires sure { Sure R.holds seen.now.log self.now.key 2 }
        ensures { result.of ≡ self.now.id }
    {
        Written {
            marker: PhantomData,
        }
    }

    /// The value, for a caller that shows by a token that there is one. No book is needed.
    pub fn value<'a>(&'a self, written: &Written<T>) -> &'a T
        requires { written.now.of ≡ self.now.id }
        ensures { (result.now ≡ written.now.value) × V.fits self.now.about result.now }
    {
        let slot = self as *const Slot<T, E, P, R, V>;
        unsafe {
            // The value of a `Some` lies so far behind its tag. The token shows that it is one: the tag is not read.
            let place = (&raw const (*slot).value as *const u8).add(align_of::<T>()) as *const T;
            &*place
        }
    }

    /// The value, if there is one.
    pub fn into_inner(self) -> Option<T>
        ensures { IfSome result (V.fits self.about) }
    {
        let Self { value, marker: _ } = self;
        value
    }

    /// The value, for an owner that shows by a token that there is one.
    pub fn into_value(self, written: &Written<T>) -> T
        requires { written.now.of ≡ self.id }
        ensures { (result ≡ written.now.value) × V.fits self.about result }
    {
        match self.taken(written) {
            Some(value) => value,
            None => unreachable!(),
        }
    }

    fn taken(self, written: &Written<T>) -> Option<T>
        requires { written.now.of ≡ self.id }
        ensures { (result ≡ Some written.now.value) × V.fits self.about written.now.value }
    {
        let _ = written;
        let Self { value, marker: _ } = self;
        value
    }
}

impl<T> Written<T> {
    /// A copy, which shows the same.
    pub fn again(&self) -> Written<T>
        ensures { (result.of ≡ self.now.of) × (result.value ≡ self.now.value) }
    {
        Written {
            marker: PhantomData,
        }
    }

    /// Two tokens of one slot show one value. It does nothing.
    pub fn agrees(&self, other: &Written<T>)
        requires { self.now.of ≡ other.now.of }
        ensures { self.now.value ≡ other.now.value }
    {}
}

impl<T: Drop, E, P, R: Rule<E, P>, V: Fits<T>> Drop for Slot<T, E, P, R, V> {
    fn drop(self) {
        drop(self.into_inner());
    }
}

impl<T> Drop for Written<T> {
    fn drop(self) {
        let Self { marker: _ } = self;
    }
}

unsafe impl<T: Send, E, P, R: Rule<E, P>, V: Fits<T>> Send for Slot<T, E, P, R, V> {}

unsafe impl<T: Send + Sync, E, P, R: Rule<E, P>, V: Fits<T>> Sync for Slot<T, E, P, R, V> {}

unsafe impl<T> Send for Written<T> {}

unsafe impl<T> Sync for Written<T> {}
