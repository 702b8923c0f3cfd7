// A word that threads read and change in single steps, with the book behind it: how a book is opened, what a thread
// knows of it, and which pages the thread may change.
ghost use Rattle.core.specs.Prelude.{◌≡◌, ℕ, ◌+◌, ◌-◌, ◌%◌, ◌^◌, ◌==◌, List, [], ◌++◌, take, drop, slice_get};
ghost use mathlib.Core.Logic.{◌⊎◌};
ghost use Rattle.pagebook.specs.Prelude.{Book, book_coded, Held, held_coded, Named, named_coded, Moves, Notes, dealt};
ghost use Rattle.pagebook.specs.Prelude.{blanks_own, pens_own, seen_owns, word_pen, word_shares, IsPrefix, fsep, fex};
ghost use Rattle.pagebook.specs.Prelude.{coded_list, coded_ℕ, said, Some, either};

use crate::rule::{Opening, Play, Rule};
use atomic_table::exchange;
use std::marker::{Brand, Model, Move, Owns, PhantomData};
use std::sync::atomic::Ordering::SeqCst;
use std::sync::atomic::raw;

/// A `u64` that threads change in single atomic steps, which are sequentially consistent. A clause sees its `book`, and
/// its `key`, which is its place among the words of that book. A step may change pages and add to the log too. It has
/// to keep the rule (`Moves`), whatever words, pages and log fit what `seen` and `pens` say. `M` says what the caller
/// is told, of the data `about`. Afterwards `seen` knows at least what it knew.
pub struct Word<E, P, R: Rule<E, P>> {
    bits: u64,
    marker: PhantomData<(E, P, R)>,
}

/// The blanks of a new book: its words of which nothing is made yet. Their keys are `first` and those after it, and
/// `numbers` are what they begin with. `Word::new` and `Slot::new` take the first blank. It has no bytes.
pub struct Blanks {
    marker: PhantomData<()>,
    pub ghost book: { Book } by { book_coded },
    pub ghost first: { ℕ },
    pub ghost numbers: { List ℕ } by { coded_list coded_ℕ },
}

impl Model for Blanks {
    ghost also_owns = { λ f. blanks_own f.book f.first f.numbers };
}

impl<E, P, R: Rule<E, P>> Owns for Word<E, P, R> {
    ghost Value = { Named };

    ghost coded = { named_coded };

    ghost shr_at = { λ w p κ. word_shares w p κ };
}

impl<E, P, R: Rule<E, P>> Move for Word<E, P, R> {
    ghost own_val = { λ w vs. fex ℕ
        (λ n. fsep (Fields.own_val (record { bits = n; marker = record {} }) vs) (word_pen w n)) };
}

impl<E, P, R: Rule<E, P>> Word<E, P, R> {
    /// A new book: the blanks of all its words, what was seen of the log, and the pens of the first pages, in their
    /// order. `M` says how the book begins, by `about`, and the rule has to hold of that.
    ///
    /// ```
    /// let (mut blanks, front, _) = Word::open::<(), OneMedal>(&());
    /// let medals = Word::new(0, &mut blanks);
    /// ```
    pub fn open<X, M: Opening<X, E, P>>(about: &X) -> (Blanks, Seen<E, P, R>, Pens<P>)
        requires { R.holds (M.words about.now) (M.pages about.now) (M.log about.now) }
        ensures words { (result.0.first ≡ 0) × (result.0.numbers ≡ M.words about.now) }
        ensures seen { (result.1.book ≡ result.0.book) × (result.1.log ≡ M.log about.now) }
        ensures pens { (result.2.book ≡ result.0.book) × (result.2.held ≡ dealt 0 (M.pages about.now) []) }
    {
        (
            Blanks {
                marker: PhantomData,
            },
            Seen {
                marker: PhantomData,
            },
            Pens {
                marker: PhantomData,
            },
        )
    }

    /// The word of the first blank, which begins with `bits`.
    pub fn new(bits: u64, blanks: &mut Blanks) -> Word<E, P, R>
        requires { slice_get blanks.old.numbers 0 ≡ Some bits }
        ensures word { (result.book ≡ blanks.old.book) × (result.key ≡ blanks.old.first) }
        ensures blanks { (blanks.new.book ≡ blanks.old.book) × (blanks.new.first ≡ blanks.old.first + 1)
            × (blanks.new.numbers ≡ drop 1 blanks.old.numbers) }
    {
        Word {
            bits,
            marker: PhantomData,
        }
    }

    /// The number in the word, which stays.
    pub fn load<X, M: Play<X, E, P>>(
        &self,
        about: &X,
        seen: &mut Seen<E, P, R>,
        pens: &mut Pens<P>,
    ) -> u64
        requires seen { seen.old.book ≡ self.now.book }
        requires pens { pens.old.book ≡ self.now.book }
        requires moves { Moves R.holds (seen.old.log, pens.old.held) self.now.key (λ n. n)
            (M.then about.now (seen.old.log, pens.old.held)) }
        ensures book { (seen.new.book ≡ seen.old.book) × (pens.new.book ≡ pens.old.book) }
        ensures log { IsPrefix seen.old.log seen.new.log }
        ensures then { M.then about.now (seen.old.log, pens.old.held) result (seen.new.log, pens.new.held) }
    {
        unsafe { raw::load::<Brand>(self as *const Self as *const u64, SeqCst) }
    }

    /// Writes `new`. Its caller is not told what was there, so `then` holds of some number that was found.
    pub fn store<X, M: Play<X, E, P>>(
        &self,
        new: u64,
        about: &X,
        seen: &mut Seen<E, P, R>,
        pens: &mut Pens<P>,
    )
        requires seen { seen.old.book ≡ self.now.book }
        requires pens { pens.old.book ≡ self.now.book }
        requires moves { Moves R.holds (seen.old.log, pens.old.held) self.now.key (λ _. new)
            (M.then about.now (seen.old.log, pens.old.held)) }
        ensures book { (seen.new.book ≡ seen.old.book) × (pens.new.book ≡ pens.old.book) }
        ensures log { IsPrefix seen.old.log seen.new.log }
        ensures then { (n : ℕ) × M.then about.now (seen.old.log, pens.old.held) n (seen.new.log, pens.new.held) }
    {
        unsafe { raw::store::<Brand>(self as *const Self as *const u64, new, SeqCst) }
    }

    /// Writes `new`, and returns the number that was there.
    pub fn swap<X, M: Play<X, E, P>>(
        &self,
        new: u64,
        about: &X,
        seen: &mut Seen<E, P, R>,
        pens: &mut Pens<P>,
    ) -> u64
        requires seen { seen.old.book ≡ self.now.book }
        requires pens { pens.old.book ≡ self.now.book }
        requires moves { Moves R.holds (seen.old.log, pens.old.held) self.now.key (λ _. new)
            (M.then about.now (seen.old.log, pens.old.held)) }
        ensures book { (seen.new.book ≡ seen.old.book) × (pens.new.book ≡ pens.old.book) }
        ensures log { IsPrefix seen.old.log seen.new.log }
        ensures then { M.then about.now (seen.old.log, pens.old.held) result (seen.new.log, pens.new.held) }
    {
        unsafe { raw::swap::<Brand>(self as *const Self as *const u64, new, SeqCst) }
    }

    /// Writes `new` if the number there is `old`, and else leaves it. Returns the number that was there.
    pub fn compare_exchange<X, M: Play<X, E, P>>(
        &self,
        old: u64,
        new: u64,
        about: &X,
        seen: &mut Seen<E, P, R>,
        pens: &mut Pens<P>,
    ) -> u64
        requires seen { seen.old.book ≡ self.now.book }
        requires pens { pens.old.book ≡ self.now.book }
        requires moves { Moves R.holds (seen.old.log, pens.old.held) self.now.key (λ n. either (n == old) new n)
            (M.then about.now (seen.old.log, pens.old.held)) }
        ensures book { (seen.new.book ≡ seen.old.book) × (pens.new.book ≡ pens.old.book) }
        ensures log { IsPrefix seen.old.log seen.new.log }
        ensures then { M.then about.now (seen.old.log, pens.old.held) result (seen.new.log, pens.new.held) }
    {
        unsafe { exchange::<Brand>(self as *const Self as *const u64, old, new) }
    }

    /// Adds `k`, modulo 2 ^ 64, and returns the number that was there.
    pub fn fetch_add<X, M: Play<X, E, P>>(
        &self,
        k: u64,
        about: &X,
        seen: &mut Seen<E, P, R>,
        pens: &mut Pens<P>,
    ) -> u64
        requires seen { seen.old.book ≡ self.now.book }
        requires pens { pens.old.book ≡ self.now.book }
        requires moves { Moves R.holds (seen.old.log, pens.old.held) self.now.key (λ n. (n + k) % 2 ^ 64)
            (M.then about.now (seen.old.log, pens.old.held)) }
        ensures book { (seen.new.book ≡ seen.old.book) × (pens.new.book ≡ pens.old.book) }
        ensures log { IsPrefix seen.old.log seen.new.log }
        ensures then { M.then about.now (seen.old.log, pens.old.held) result (seen.new.log, pens.new.held) }
    {
        unsafe { raw::fetch_add::<Brand>(self as *const Self as *const u64, k, SeqCst) }
    }

    /// Subtracts `k`, modulo 2 ^ 64, and returns the number that was there.
    pub fn fetch_sub<X, M: Play<X, E, P>>(
        &self,
        k: u64,
        about: &X,
        seen: &mut Seen<E, P, R>,
        pens: &mut Pens<P>,
    ) -> u64
        requires seen { seen.old.book ≡ self.now.book }
        requires pens { pens.old.book ≡ self.now.book }
        requires moves { Moves R.holds (seen.old.log, pens.old.held) self.now.key (λ n. (n + (2 ^ 64 - k)) % 2 ^ 64)
            (M.then about.now (seen.old.log, pens.old.held)) }
        ensures book { (seen.new.book ≡ seen.old.book) × (pens.new.book ≡ pens.old.book) }
        ensures log { IsPrefix seen.old.log seen.new.log }
        ensures then { M.then about.now (seen.old.log, pens.old.held) result (seen.new.log, pens.new.held) }
    {
        self.fetch_add::<X, M>(k.wrapping_neg(), about, seen, pens)
    }
}

/// What a thread has seen of a book: its log begins with `log`, and stays so whatever others do. It can be copied.
pub struct Seen<E, P, R: Rule<E, P>> {
    marker: PhantomData<(E, P, R)>,
    pub ghost book: { Book } by { book_coded },
    pub ghost log: { List E } by { coded_list E.code },
}

impl<E, P, R: Rule<E, P>> Model for Seen<E, P, R> {
    ghost also_owns = { λ s. seen_owns E.row.coded.code P.row.coded.code R.holds s.book s.log };

    ghost also_shares = { λ s _ κ. said (seen_owns E.row.coded.code P.row.coded.code R.holds s.book s.log) κ };
}

/// A hand of pens: the right to change the pages in `held`, each by its number in the book, with what it says now.
/// Nobody else changes these pages, and no page is in two hands. If a hand is dropped, its pages stay as they are.
pub struct Pens<P> {
    pub(crate) marker: PhantomData<P>,
    pub ghost book: { Book } by { book_coded },
    pub ghost held: { Held P } by { held_coded P.code },
}

impl<P> Model for Pens<P> {
    ghost also_owns = { λ p. pens_own P.row.coded.code p.book p.held };
}

impl<E, P, R: Rule<E, P>> Seen<E, P, R> {
    /// A copy, which knows the same.
    pub fn again(&self) -> Seen<E, P, R>
        ensures { result ≡ self.now }
    {
        Seen {
            marker: PhantomData,
        }
    }

    /// Learns what another of the same book knows: its log then begins with both, and the rule holds of that log.
    pub fn learn(&mut self, other: &Seen<E, P, R>)
        requires { other.now.book ≡ self.old.book }
        ensures book { self.new.book ≡ self.old.book }
        ensures log { IsPrefix self.old.log self.new.log × IsPrefix other.now.log self.new.log }
        ensures rule { (ns : List ℕ) × (ps : List P) × R.holds ns ps self.new.log }
    {}

    /// Of two logs that were seen of one book, one is a beginning of the other. It does nothing.
    pub fn agrees(&self, other: &Seen<E, P, R>)
        requires { other.now.book ≡ self.now.book }
        ensures { IsPrefix self.now.log other.now.log ⊎ IsPrefix other.now.log self.now.log }
    {
        let mut both = self.again();
        both.learn(other);
    }

    /// A hand with no pen, for a step that changes no page, or that makes the first page of its hand.
    pub fn no_pens(&self) -> Pens<P>
        ensures { (result.book ≡ self.now.book) × (result.held ≡ []) }
    {
        Pens {
            marker: PhantomData,
        }
    }

    /// A step that touches no word, and costs nothing. It may change pages of the hand, and add pages and entries, if
    /// it keeps the rule (`Notes`). New pens come first in the hand. `M` says what the caller is told, of `about`.
    pub fn note<X, M: Play<X, E, P>>(&mut self, pens: &mut Pens<P>, about: &X)
        requires pens { pens.old.book ≡ self.old.book }
        requires notes { Notes R.holds (self.old.log, pens.old.held)
            (M.then about.now (self.old.log, pens.old.held) 0) }
        ensures book { (self.new.book ≡ self.old.book) × (pens.new.book ≡ pens.old.book) }
        ensures log { IsPrefix self.old.log self.new.log }
        ensures then { M.then about.now (self.old.log, pens.old.held) 0 (self.new.log, pens.new.held) }
    {}
}

impl<P> Pens<P> {
    /// Takes all pens of another hand of the book behind its own, and leaves that hand with none.
    pub fn append(&mut self, other: &mut Pens<P>)
        requires { other.old.book ≡ self.old.book }
        ensures own { (self.new.book ≡ self.old.book) × (self.new.held ≡ self.old.held ++ other.old.held) }
        ensures other { (other.new.book ≡ other.old.book) × (other.new.held ≡ []) }
    {}

    /// Keeps the first `at` pens, and gives the others away. With fewer than that it gives none.
    pub fn split_off(&mut self, at: usize) -> Pens<P>
        ensures kept { (self.new.book ≡ self.old.book) × (self.new.held ≡ take at self.old.held) }
        ensures given { (result.book ≡ self.old.book) × (result.held ≡ drop at self.old.held) }
    {
        let _ = at;
        Pens {
            marker: PhantomData,
        }
    }
}

impl Drop for Blanks {
    fn drop(self) {
        let Self { marker: _ } = self;
    }
}

impl<E, P, R: Rule<E, P>> Drop for Word<E, P, R> {
    fn drop(self) {
        let Self { bits: _, marker: _ } = self;
    }
}

impl<E, P, R: Rule<E, P>> Drop for Seen<E, P, R> {
    fn drop(self) {
        let Self { marker: _ } = self;
    }
}

impl<P> Drop for Pens<P> {
    fn drop(self) {
        let Self { marker: _ } = self;
    }
}

unsafe impl Send for Blanks {}

unsafe impl<E, P, R: Rule<E, P>> Send for Word<E, P, R> {}

unsafe impl<E, P, R: Rule<E, P>> Sync for Word<E, P, R> {}

unsafe impl<E, P, R: Rule<E, P>> Send for Seen<E, P, R> {}

unsafe impl<E, P, R: Rule<E, P>> Sync for Seen<E, P, R> {}

unsafe impl<P> Send for Pens<P> {}

unsafe impl<P> Sync for Pens<P> {}
