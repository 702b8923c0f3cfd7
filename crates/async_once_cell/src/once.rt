//! A cell that is filled once, by the init of one of the calls that ask for its value. And where it keeps that value.
ghost use Rattle.std.specs.Prelude.{◌≡◌, IfSome, IsSome, None, Ok, Some, true, false};
ghost use Rattle.async_once_cell.specs.declared.once.Contents.TheVariants.{Owned as OwnedValue};
ghost use Rattle.async_once_cell.specs.Prelude.{CellView, IsWritten, Owned, Settled, about_of, is_shared, view_of};
ghost use Rattle.async_once_cell.specs.Prelude.{Gives, IsSetIn, Learns, Lends, LendsMut, Looks, is_some, IsMade};
ghost use Rattle.async_once_cell.specs.Prelude.{LendsIf, sem};

mod future;
mod known;
mod waits;

pub use crate::error::{InitError, Refused};
use crate::inner::hand::stays_set;
use crate::inner::{Inner, Pollable};
use crate::waker::ListedWaker;
use boxcar::tag::{Names, Tag};
use core::mem::replace_with;
pub use future::{InitFuture, Initializing, TryInitFuture};
use futures::Future;
use known::Seen;
pub use known::{Known, Told};
use pagebook::{Anything, Fits};
use std::alloc::AllocGlobal;
use std::marker::Model;
use std::sync::Wait;
use std::{fmt, mem};
pub use waits::Parker;

/// A cell that is empty or has one value, and is filled by a future.
///
/// Each call brings its own init, and one task at a time may run its own. The others wait, and are woken when the cell
/// is filled. An init that fails, or whose future is dropped, leaves the cell empty and wakes one of them.
///
/// ```
/// let cell = OnceCell::new();
/// let first = cell.get_or_init(rt, ready(4)).wait()?; // Ok(&4)
/// let second = cell.get_or_init(rt, ready(5)).wait()?; // Ok(&4): this init is not polled
/// ```
///
/// The contracts say that a cell made with a value lends it and gives it back, until its owner asks to write it. Any
/// other cell has a record of all that tasks do with it. Each of its futures and tokens has seen a beginning of it, see
/// [`Initializing`] and [`Known`]. `V` says what is promised of the value, see [`OnceCell::promised`].
///
/// Memory is taken only when tasks meet: for the queue of those that wait, and for the place of each in it. An init may
/// borrow whatever outlives its future. One that asks its own cell waits like any other task, and may give its own
/// value all the same. A cell may be sent to another thread if `T: Send`, and shared if `T: Send + Sync`.
#[derive(Drop)]
pub struct OnceCell<T, V: Fits<T> = Anything> {
    pub(crate) contents: Contents<T, V>,
}

/// A clause sees a cell as the value that its owner put there, or else as the slot into which tasks put one.
impl<T, V: Fits<T>> Model for OnceCell<T, V> {
    ghost Value = { CellView T };

    ghost view = { λ c. view_of c.contents };
}

impl<T> OnceCell<T> {
    /// An empty cell with a new record. It takes no memory. Its clause says that tasks share it, not that it is empty.
    pub fn new() -> Self
        ensures { is_shared result ≡ true }
    {
        OnceCell {
            contents: Contents::Shared(Inner::new()),
        }
    }

    /// A cell with this value. It takes no memory.
    pub fn new_with(value: T) -> Self
        ensures { result ≡ Owned value }
    {
        OnceCell {
            contents: Contents::Owned(value),
        }
    }
}

impl<T, V: Fits<T>> OnceCell<T, V> {
    ghost use Rattle.async_once_cell.specs.contracts.once.OnceCell.{the_row};

    /// An empty cell that promises its value: what tasks put fits, as `V` says of it and of the numbers of the tag.
    /// A caller that is told the value knows this, on any thread, without a token. Each future asks that its init gives
    /// nothing else.
    ///
    /// ```
    /// let mut cell = OnceCell::<u64, TenTimes>::promised(&Tag::of::<u64, Key>(&key));
    /// ```
    pub fn promised(tag: &Tag) -> Self
        ensures shared { is_shared result ≡ true }
        ensures about { about_of result ≡ tag.now.numbers }
    {
        OnceCell {
            contents: Contents::Shared(Inner::promised(tag)),
        }
    }

    /// The value, if it is set; None if the cell is empty or being filled. It waits for nobody. Of a cell that tasks
    /// share its clauses say only that a value is as the cell promises; those of [`OnceCell::get_as`] say more.
    pub fn get(&self) -> Option<&T>
        ensures lends { Lends self.now result }
        ensures promise { is_shared self.now ≡ true → IfSome result (λ value. V.fits (about_of self.now) value.now) }
    {
        match &self.contents {
            Contents::Owned(value) => Some(value),
            Contents::Shared(inner) => {
                let (value, _) = inner.look(&mut inner.record())?;
                Some(value)
            }
        }
    }

    /// The value for writing, if it is set. It waits for nobody. A value that tasks set becomes the owner's, and its
    /// record ends: [`OnceCell::own_as`] tells which value that is. A value that the owner put there is lent.
    ///
    /// ```
    /// let mut cell = OnceCell::new_with(5u64);
    /// let lent = cell.get().copied(); // Some(5)
    /// if let Some(value) = cell.get_mut() {
    ///     *value = 6;
    /// }
    /// let taken = cell.take(); // Some(6), and the cell is empty
    /// ```
    pub fn get_mut(&mut self) -> Option<&mut T>
        ensures* writes_back { sem 𝓛 (LendsIf (the_row T.row V.row V.Fits) T.row self.entry result Owned self.old) }
        ensures value { LendsMut self.old result }
    {
        self.contents.get_mut()
    }

    /// The value, if it was set. The cell is then as a new one: empty, with a record of its own, though no clause says
    /// so. A queue that futures left there goes as well. It waits for nobody.
    pub fn take(&mut self) -> Option<T>
        ensures taken { Gives self.old result }
        ensures promise { is_shared self.old ≡ true → IfSome result (V.fits (about_of self.old)) }
        ensures fresh { is_shared self.new ≡ true }
        ensures about { about_of self.new ≡ about_of self.old }
    {
        let fresh = self.fresh();
        mem::replace(self, fresh).into_inner()
    }

    // An empty cell that promises the same of its value.
    fn fresh(&self) -> Self
        ensures shared { is_shared result ≡ true }
        ensures about { about_of result ≡ about_of self.now }
    {
        OnceCell::promised(&Tag::of::<Self, About>(self))
    }

    /// The value, if it was set. The record, and a queue that futures left, go with the cell. It waits for nobody.
    pub fn into_inner(self) -> Option<T>
        ensures gives { Gives self result }
        ensures promise { is_shared self ≡ true → IfSome result (V.fits (about_of self)) }
    {
        match self.contents {
            Contents::Owned(value) => Some(value),
            Contents::Shared(inner) => inner.into_inner(),
        }
    }

    /// As [`OnceCell::into_inner`], for a caller that was told the value.
    pub fn into_inner_as(self, told: &Told<T, V>) -> T
        requires { told.now.cell ≡ self }
        ensures { result ≡ told.now.value }
    {
        match self.contents {
            Contents::Owned(value) => value,
            Contents::Shared(inner) => inner.into_value(told.written.as_ref().unwrap()),
        }
    }

    /// As [`OnceCell::take`], for a caller that was told the value.
    pub fn take_as(&mut self, told: &Told<T, V>) -> T
        requires { told.now.cell ≡ self.old }
        ensures taken { result ≡ told.now.value }
        ensures fresh { is_shared self.new ≡ true }
        ensures about { about_of self.new ≡ about_of self.old }
    {
        let fresh = self.fresh();
        mem::replace(self, fresh).into_inner_as(told)
    }

    /// A future of the value: the one that is set, or that `init` gives. Nothing happens before its first poll.
    ///
    /// ```
    /// let (cell, task) = (OnceCell::new(), MockTask::new(rt)?);
    /// let mut holder = cell.get_or_init(rt, pending());
    /// let mut waiter = cell.get_or_init(rt, ready(9));
    /// let is_held = task.poll(&mut holder).is_pending(); // true: it has the right
    /// let _ = task.poll(&mut waiter); // Pending: it waits
    /// drop(holder);
    /// let is_made = task.poll(&mut waiter).is_ready(); // true: it polled its own init
    /// ```
    #[inline(always)]
    pub fn get_or_init<'a, F, R>(&'a self, rt: &'a R, init: F) -> InitFuture<'a, T, F, R, V>
    where
        F: Future<Output = T>,
        R: Wait + AllocGlobal,
        requires can { F.can_poll init }
        requires fits { (v : T) → F.gives init v → V.fits (about_of self.now) v }
        ensures cell { result.cell ≡ self.now }
        ensures live { result.finished ≡ false }
        ensures made { IsMade result }
        ensures init { result.init ≡ Some init }
    {
        Initializing::new(self, rt, Pollable::new(init))
    }

    /// As [`OnceCell::get_or_init`], with an init that may fail. An error goes to its own caller alone, and leaves the
    /// cell empty. Here `Dial` is one try to connect, which may fail with the error `Down`, and `tried` is what
    /// `cell.get_or_try_init(rt, Dial { server }).wait()?` answers. Whether the other side is down:
    ///
    /// ```
    /// match tried {
    ///     Ok(_) => Ok(false),
    ///     Err(error) => match error.own() {
    ///         Ok(Down) => Ok(true), // the next try brings an init of its own
    ///         Err(refused) => Err(Fault::Refused(refused)),
    ///     },
    /// }
    /// ```
    pub fn get_or_try_init<'a, E, F, R>(
        &'a self,
        rt: &'a R,
        init: F,
    ) -> TryInitFuture<'a, T, E, F, R, V>
    where
        E: Drop,
        F: Future<Output = Result<T, E>>,
        R: Wait + AllocGlobal,
        requires can { F.can_poll init }
        requires fits { (v : T) → F.gives init (Ok v) → V.fits (about_of self.now) v }
        ensures cell { result.cell ≡ self.now }
        ensures live { result.finished ≡ false }
        ensures made { IsMade result }
        ensures init { result.init ≡ Some init }
    {
        Initializing::new(self, rt, Pollable::new(init))
    }

    /// A token that knows nothing yet, see [`Known`]. It takes no memory, and waits for nobody. Here `value` is a
    /// function that answers `cell.get_or_init(rt, ready(6)).wait_as(token)??`:
    ///
    /// ```
    /// let cell = OnceCell::new();
    /// let mut token = cell.token();
    /// let first = *value(rt, &cell, &mut token)?; // 6, and the token knows it
    /// let second = *value(rt, &cell, &mut token)?; // the same number, which is proved
    /// ```
    pub fn token(&self) -> Known<'_, T, V>
        ensures cell { result.cell ≡ self.now }
        ensures knows { result.value ≡ None }
    {
        Known::new(self)
    }

    /// As [`OnceCell::get`], and the token learns the value that is answered. A token that knows a value gets it,
    /// always. Any other makes one look in the record of a cell that tasks share: it gets a value exactly when the cell
    /// is set at that moment. So a token gets the value if the cell is set in the record that it has seen.
    ///
    /// ```
    /// let first = cell.get_as(token)?; // from here on the token knows the value
    /// let second = cell.get_as(token).unwrap(); // never None, and the same value: both are proved
    /// ```
    pub fn get_as<'a>(&'a self, token: &mut Known<'a, T, V>) -> Option<&'a T>
        requires token_of_this_cell { token.old.cell ≡ self.now }
        ensures cell { token.new.cell ≡ token.old.cell }
        ensures value { Learns token.old.value token.new.value result }
        ensures lends { Lends self.now result }
        ensures promise { is_shared self.now ≡ true → IfSome result (λ v. V.fits (about_of self.now) v.now) }
        ensures look { Looks self.now token.old.value (is_some result) token.old.log token.new.log }
        ensures set { IsSome result → IsSetIn self.now token.new.log }
        ensures stays { IsSetIn self.now token.old.log → IsSome result }
    {
        match (&self.contents, &mut token.seen) {
            (Contents::Owned(value), Seen::Owned(knows)) => {
                *knows = true;
                Some(value)
            }
            (Contents::Shared(inner), Seen::Shared(record, written)) => {
                if let Some(written) = written {
                    return Some(inner.value(written));
                }
                let before = record.again();
                let found = inner.look(record);
                stays_set(&before, record);
                let (value, found) = found?;
                *written = Some(found);
                Some(value)
            }
            _ => unreachable!(),
        }
    }

    /// Gives the owner the value that the caller was told. Then looks, `take` and polls without a token say which.
    pub fn own_as(&mut self, told: &Told<T, V>)
    where
        T: Drop,
        requires { told.now.cell ≡ self.old }
        ensures { self.new ≡ Owned told.now.value }
    {
        self.contents = Contents::Owned(self.take_as(told));
    }
}

// The numbers about which a cell promises something of its value.
struct About;

impl<T, V: Fits<T>> Names<OnceCell<T, V>> for About {
    ghost numbers = { about_of };
}

impl<T> Default for OnceCell<T> {
    ghost is_default = { λ cell. is_shared cell ≡ true };

    fn default() -> Self {
        OnceCell::new()
    }
}

impl<T> From<T> for OnceCell<T> {
    ghost from_gives = { λ value cell. cell ≡ Owned value };

    fn from(value: T) -> Self {
        OnceCell::new_with(value)
    }
}

impl<T: fmt::Debug, V: Fits<T>> OnceCell<T, V> {
    // A cell with its owner's value shows the same as one that was filled while nobody else was there.
    pub(crate) fn fmt_as<W: fmt::Write>(
        &self,
        name: &str,
        f: &mut fmt::Formatter<W>,
    ) -> fmt::Result {
        match &self.contents {
            Contents::Owned(value) => write!(
                f,
                "{name} {{ value: Some({value:?}), \
                inner: Inner {{ ready: true, quick_init: false, refcount: 0, queue: false }} }}"
            ),
            Contents::Shared(inner) => {
                let value = self.get();
                write!(f, "{name} {{ value: {value:?}, inner: {inner:?} }}")
            }
        }
    }
}

impl<T: fmt::Debug, V: Fits<T>> fmt::Debug for OnceCell<T, V> {
    fn fmt<W: fmt::Write>(&self, f: &mut fmt::Formatter<W>) -> fmt::Result {
        self.fmt_as("OnceCell", f)
    }
}

/// The value of a cell, if there is one.
#[derive(Drop)]
pub(crate) enum Contents<T, V: Fits<T> = Anything> {
    /// Put there by the cell's owner. It has no record.
    Owned(T),
    /// In what tasks share. They set it once at most.
    Shared(Inner<T, ListedWaker, V>),
}

impl<T, V: Fits<T>> Contents<T, V> {
    ghost use Rattle.async_once_cell.specs.contracts.once.Contents.{the_row};

    // Gives the owner a value that tasks put.
    fn settle(&mut self)
        ensures { Settled self.old self.new }
    {
        let written = match self {
            Contents::Owned(_) => None,
            Contents::Shared(inner) => inner.witness(),
        };
        if let Some(written) = written {
            replace_with(
                self,
                written,
                |value, written|
                    requires { IsWritten (view_of value) written }
                    ensures { view_of result.0 ≡ Owned written.value }
                {
                    let owned = match value {
                        Contents::Owned(value) => value,
                        Contents::Shared(inner) => inner.into_value(&written),
                    };
                    (Contents::Owned(owned), ())
                },
            );
        }
    }

    // A slot lends its value for reading alone, since what tokens say holds for good. So the value is taken out.
    fn get_mut(&mut self) -> Option<&mut T>
        ensures* writes_back { sem 𝓛
            (LendsIf (the_row T.row V.row V.Fits) T.row self.entry result OwnedValue self.old) }
        ensures value { LendsMut (view_of self.old) result }
    {
        self.settle();
        match self {
            Contents::Owned(value) => Some(value),
            Contents::Shared(_) => None,
        }
    }
}
