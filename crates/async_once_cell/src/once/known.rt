//! Tokens: what their holder has learned of one cell. And what was told of it, for its owner.
ghost use Rattle.std.specs.Prelude.{◌≡◌, ◌↔◌, ◌⊎◌, IfSome, IsSome, IsTrue, MatchOption, None, Some, true, reverse};
ghost use Rattle.async_once_cell.specs.Prelude.{CellView, IsOf, Shows, ToldView, TokenView, is_shared, known_of};
ghost use Rattle.async_once_cell.specs.Prelude.{log_of, is_some, option_or, IsPrefix, Once, AtEvery, IsRun};
ghost use Rattle.async_once_cell.specs.Prelude.{NobodyForgotten, SomebodyCalled, most, IsSet, PollsOnce, WasFilled};
ghost use Rattle.async_once_cell.specs.Prelude.{Agrees, IsSetIn};

use super::{Contents, OnceCell};
use crate::inner::Record;
use crate::inner::hand::{is_run, stays_set};
use pagebook::{Anything, Fits, Written};
use std::fmt;
use std::marker::Model;
use std::snapshot::Snapshot;
use std::sync::OnceToken;

// What a token saw of its cell.
#[derive(Drop)]
pub(super) enum Seen<T> {
    // Of a cell that has its owner's value: whether the token knows it.
    Owned(bool),
    // Of a cell that tasks share: the record as far as it was seen, and what shows the value.
    Shared(Record, Option<Written<T>>),
}

/// What its holder has learned of one cell: the cell's value, if it knows it, and the record as far as it was seen. A
/// token learns the value from a call that answers it, [`OnceCell::get_as`] or the `poll_as` of a future, or a future
/// tells it the value that it answered. From then on each such call answers that value: the contracts say so. To pass
/// a token on passes on what it knows. A token borrows its cell, so the cell's owner makes no call meanwhile.
#[derive(Drop)]
pub struct Known<'a, T, V: Fits<T> = Anything> {
    cell: &'a OnceCell<T, V>,
    pub(super) seen: Seen<T>,
    // None always. It keeps `'a` at one lifetime for the borrow checker, which a `PhantomData` does not do yet.
    lifetime: Option<OnceToken<'a, T>>,
}

impl<'a, T, V: Fits<T>> Model for Known<'a, T, V> {
    ghost Value = { TokenView T };

    ghost view = { λ k. record { cell = k.cell.now; value = known_of k.cell.now k.seen; log = log_of k.seen } };

    ghost invariant = { λ k. IsOf k.cell.now k.seen };
}

impl<'a, T, V: Fits<T>> Known<'a, T, V> {
    pub(super) fn new(cell: &'a OnceCell<T, V>) -> Self
        ensures cell { result.cell ≡ cell.now }
        ensures knows { result.value ≡ None }
    {
        let seen = match &cell.contents {
            Contents::Owned(_) => Seen::Owned(false),
            Contents::Shared(inner) => Seen::Shared(inner.record(), None),
        };
        Known {
            cell,
            seen,
            lifetime: None,
        }
    }

    pub(super) fn knows_value(&self) -> bool
        ensures knows { result ≡ is_some self.now.value }
        ensures set { result ≡ true → IsSetIn self.now.cell self.now.log }
    {
        match &self.seen {
            Seen::Owned(knows) => *knows,
            Seen::Shared(_, written) => written.is_some(),
        }
    }

    fn shown(&self) -> Option<(&'a OnceCell<T, V>, &'a T, Option<Written<T>>)>
        ensures { MatchOption result (self.now.value ≡ None)
            (λ r. (r.0.now ≡ self.now.cell) × (self.now.value ≡ Some r.1.now) × Shows r.0.now r.1.now r.2) }
    {
        let cell = self.cell;
        match (&cell.contents, &self.seen) {
            (Contents::Owned(value), Seen::Owned(true)) => Some((cell, value, None)),
            (Contents::Shared(inner), Seen::Shared(_, Some(written))) => {
                Some((cell, inner.value(written), Some(written.again())))
            }
            _ => None,
        }
    }

    /// Takes over what another token of the cell has seen: its record, and its value if this one knows none. If both
    /// know a value, it is one. It waits for nobody. Here `other` knows the value, and so `token` does then:
    ///
    /// ```
    /// token.learn_from(other);
    /// cell.get_as(token).unwrap() // never None, which is proved
    /// ```
    pub fn learn_from(&mut self, other: &Known<'a, T, V>)
        requires tokens_of_one_cell { self.old.cell ≡ other.now.cell }
        ensures cell { self.new.cell ≡ self.old.cell }
        ensures value { self.new.value ≡ option_or self.old.value other.now.value }
        ensures agrees { IfSome other.now.value (Agrees self.old.value) }
        ensures log { IsPrefix self.old.log self.new.log }
        ensures other { IsPrefix other.now.log self.new.log }
        ensures set { IsSetIn other.now.cell other.now.log → IsSetIn self.new.cell self.new.log }
    {
        self.seen.learn_from(&other.seen);
    }

    /// It does nothing. Its contract is about the record of a cell that tasks share. The record is a run of the cell,
    /// and at each of its beginnings somebody was woken if somebody had to be. If the cell is set in it, it has a
    /// Fill, and no waiter is forgotten. Each task polls its init once at most in each of its calls.
    ///
    /// ```
    /// token.is_run();
    /// error_is_ones_own(); // this law of all runs holds of the record that the token has seen
    /// ```
    pub fn is_run(&self)
        ensures run { is_shared self.now.cell ≡ true → IsRun Once most (reverse self.now.log) }
        ensures called { is_shared self.now.cell ≡ true → AtEvery (SomebodyCalled Once) (reverse self.now.log) }
        ensures filled { is_shared self.now.cell ≡ true → IsSet self.now.log → WasFilled self.now.log }
        ensures nobody_forgotten { is_shared self.now.cell ≡ true
            → AtEvery (NobodyForgotten Once) (reverse self.now.log) }
        ensures once { is_shared self.now.cell ≡ true → PollsOnce self.now.log }
        ensures knows { is_some self.now.value ≡ true → IsSetIn self.now.cell self.now.log }
    {
        if let Seen::Shared(record, _) = &self.seen {
            is_run(record);
        }
    }

    /// Whether both tokens, which are of one cell, know a value. Then the two values are one. It waits for nobody. Here
    /// two threads ask one cell. By its contract each gives the value and a token that knows it:
    ///
    /// ```
    /// let (one, other) = thread::join(rt, one, other);
    /// let (first, known) = one?;
    /// let (second, as_known) = other?;
    /// Known::compare(&known, &as_known); // after this it is proved that `first` is `second`
    /// ```
    pub fn compare(a: &Known<'a, T, V>, b: &Known<'a, T, V>) -> bool
        requires tokens_of_one_cell { a.now.cell ≡ b.now.cell }
        ensures both { IsTrue result ↔ (IsSome a.now.value × IsSome b.now.value) }
        ensures one { IsTrue result → a.now.value ≡ b.now.value }
    {
        match (&a.seen, &b.seen) {
            (Seen::Shared(_, Some(x)), Seen::Shared(_, Some(y))) => {
                x.agrees(y);
                true
            }
            (Seen::Owned(x), Seen::Owned(y)) => *x && *y,
            _ => false,
        }
    }

    /// It does nothing. Its contract is about two tokens of one cell: the record of one is a beginning of the other's,
    /// and if the cell is set in it, it is set in the other's. Here only the second has seen that the cell is set:
    ///
    /// ```
    /// Known::compare_records(without, with); // so the first one's record is a beginning of the other's
    /// ```
    pub fn compare_records(a: &Known<'a, T, V>, b: &Known<'a, T, V>)
        requires tokens_of_one_cell { a.now.cell ≡ b.now.cell }
        ensures begins { IsPrefix a.now.log b.now.log ⊎ IsPrefix b.now.log a.now.log }
        ensures on { IsPrefix a.now.log b.now.log → IsSetIn a.now.cell a.now.log → IsSetIn b.now.cell b.now.log }
        ensures back { IsPrefix b.now.log a.now.log → IsSetIn b.now.cell b.now.log → IsSetIn a.now.cell a.now.log }
    {
        if let (Seen::Shared(one, _), Seen::Shared(other, _)) = (&a.seen, &b.seen) {
            one.agrees(other);
            stays_set(one, other);
            stays_set(other, one);
        }
    }

    /// What this token knows, for the time when its loan of the cell is over.
    pub fn told(&self) -> Option<Told<T, V>>
        ensures { MatchOption result (self.now.value ≡ None)
            (λ t. (t.cell ≡ self.now.cell) × (self.now.value ≡ Some t.value)) }
    {
        let (cell, value, written) = self.shown()?;
        Some(Told {
            cell: Snapshot::of(cell),
            value: Snapshot::of(value),
            written,
        })
    }
}

/// What shows which value a cell has. It borrows no cell, so an owner can give it to calls that answer that value.
#[derive(Drop)]
pub struct Told<T, V: Fits<T> = Anything> {
    cell: Snapshot<OnceCell<T, V>>,
    value: Snapshot<T>,
    pub(super) written: Option<Written<T>>,
}

impl<T, V: Fits<T>> Model for Told<T, V> {
    ghost Value = { ToldView T };

    ghost view = { λ t. record { cell = t.cell.value; value = t.value.value } };

    ghost invariant = { λ t. Shows t.cell.value t.value.value t.written };
}

impl<T> Seen<T> {
    pub(super) fn learn_from(&mut self, other: &Seen<T>)
        requires of { (c : CellView T) × IsOf c self.old × IsOf c other.now }
        ensures of { (c : CellView T) → IsOf c self.old → IsOf c other.now
            → IsOf c self.new × (known_of c self.new ≡ option_or (known_of c self.old) (known_of c other.now))
            × IfSome (known_of c other.now) (Agrees (known_of c self.old)) }
        ensures log { IsPrefix (log_of self.old) (log_of self.new) }
        ensures other { IsPrefix (log_of other.now) (log_of self.new) }
        ensures set { IsSet (log_of other.now) → IsSet (log_of self.new) }
    {
        match (self, other) {
            (Seen::Owned(knows), Seen::Owned(others)) => *knows |= *others,
            (Seen::Shared(own, known), Seen::Shared(record, found)) => {
                let before = own.again();
                own.learn(record);
                stays_set(&before, own);
                stays_set(record, own);
                if let Some(found) = found {
                    match known {
                        Some(known) => known.agrees(found),
                        None => *known = Some(found.again()),
                    }
                }
            }
            _ => unreachable!(),
        }
    }
}

/// `Known(Some(V))` if the token knows the value, and `Known(None)` if it knows nothing.
impl<T: fmt::Debug, V: Fits<T>> fmt::Debug for Known<'_, T, V> {
    fn fmt<W: fmt::Write>(&self, f: &mut fmt::Formatter<W>) -> fmt::Result {
        let Some((_, value, _)) = self.shown() else {
            return f.write_str("Known(None)");
        };
        write!(f, "Known(Some({value:?}))")
    }
}
