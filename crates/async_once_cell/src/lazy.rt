//! A cell that owns the future that fills it.
ghost use Rattle.std.specs.Prelude.{◌≡◌, IfOk, IfSome, IsSome, None, false, true};
ghost use Rattle.async_once_cell.specs.Prelude.{Gives, IsSetIn, Learns, Lends, Looks, result_ok, is_some, IsMade};
ghost use Rattle.async_once_cell.specs.Prelude.{Owned, about_of, is_shared, CellView};

mod future;

use crate::once::{Initializing, Known, OnceCell, Told};
use boxcar::tag::Tag;
use future::{Driven, Promised};
pub use future::{LazyFuturePin, LazyFutureUnpin};
use futures::Future;
use pagebook::{Anything, Fits, KeyedMutex};
use std::alloc::AllocGlobal;
use std::marker::Model;
use std::sync::Wait;
use std::{fmt, mem};

/// A cell that is filled by one future of its own. The task that holds the right drives that future on. If that task
/// is dropped, the next one goes on where it stopped. Tests show this, and that the future is dropped once it has
/// given its value; no clause does. A cell may be sent to another thread if `T: Send` and `F: Send`, and shared
/// between threads if besides `T: Sync`.
///
/// ```
/// let lazy = Lazy::new(ready(3));
/// let value = lazy.get(rt).wait()?; // Ok(&3)
/// let set = lazy.try_get().copied(); // Some(3)
/// ```
#[derive(Drop)]
pub struct Lazy<T, F: Future, V: Fits<T> + Fits<F::Output> = Anything> {
    pub(crate) cell: OnceCell<T, V>,
    // Without a future while that is polled, and once it gave its value.
    future: KeyedMutex<Promised<F, V>>,
}

impl<T, F: Future, V: Fits<T> + Fits<F::Output>> Model for Lazy<T, F, V> {
    ghost Value = { CellView T };

    ghost view = { λ l. l.cell };

    ghost invariant = { λ l. is_shared l.cell ≡ true → l.future.about ≡ about_of l.cell };
}

impl<T, F: Future<Output = T>> Lazy<T, F> {
    /// A cell that this future will fill.
    pub fn new(future: F) -> Self
        requires { F.can_poll future }
        ensures { is_shared result ≡ true }
    {
        Lazy::promised(&Tag::empty(), future)
    }

    /// As [`Lazy::new`].
    pub fn from_future(future: F) -> Self
        requires { F.can_poll future }
        ensures { is_shared result ≡ true }
    {
        Lazy::new(future)
    }

    /// A cell with this value, and no future.
    pub fn with_value(value: T) -> Self
        ensures { result ≡ Owned value }
    {
        Lazy {
            cell: OnceCell::new_with(value),
            future: KeyedMutex::new(Promised::none(Tag::empty())),
        }
    }
}

impl<T, F: Future<Output = T>, V: Fits<T>> Lazy<T, F, V> {
    /// A cell that this future will fill, and that promises its value: it fits, as `V` says of it and of the numbers of
    /// the tag. A caller that is told the value knows this, on any thread, without a token. See
    /// [`OnceCell::promised`].
    ///
    /// ```
    /// let lazy = Lazy::<u64, Fetch, TenTimes>::promised(&Tag::of::<u64, Key>(&key), Fetch { key });
    /// ```
    pub fn promised(tag: &Tag, future: F) -> Self
        requires can { F.can_poll future }
        requires fits { (v : T) → F.gives future v → V.fits tag.now.numbers v }
        ensures shared { is_shared result ≡ true }
        ensures about { about_of result ≡ tag.now.numbers }
    {
        Lazy {
            cell: OnceCell::promised(tag),
            future: KeyedMutex::new(Promised::new(future, tag)),
        }
    }

    /// A future of the value: the one that is set, or the one that the cell's future gives. Nothing happens before the
    /// first poll, see [`LazyFuturePin`]. Here `Sum` adds the numbers below `end`, which is 5, one at each poll:
    ///
    /// ```
    /// let lazy = Lazy::new(Sum {
    ///     next: 0,
    ///     end,
    ///     sum: 0,
    /// });
    /// let first = *lazy.get(rt).wait()??; // 10: this thread drove the cell's future to its end
    /// let second = *lazy.get(rt).wait()??; // 10, and nothing is polled
    /// ```
    pub fn get<'a, R: Wait + AllocGlobal>(&'a self, rt: &'a R) -> LazyFuturePin<'a, T, F, R, V>
        ensures cell { result.cell ≡ self.now }
        ensures live { result.finished ≡ false }
        ensures made { IsMade result }
    {
        let driven = Driven {
            rt,
            future: &self.future,
        };
        LazyFuturePin {
            inner: Initializing::new(&self.cell, rt, driven),
        }
    }

    /// As [`Lazy::get`].
    pub fn get_unpin<'a, R: Wait + AllocGlobal>(
        &'a self,
        rt: &'a R,
    ) -> LazyFutureUnpin<'a, T, F, R, V>
        ensures cell { result.cell ≡ self.now }
        ensures live { result.finished ≡ false }
        ensures made { IsMade result }
    {
        self.get(rt)
    }

    /// As [`Lazy::get`].
    pub fn into_future<'a, R: Wait + AllocGlobal>(
        &'a self,
        rt: &'a R,
    ) -> LazyFutureUnpin<'a, T, F, R, V>
        ensures cell { result.cell ≡ self.now }
        ensures live { result.finished ≡ false }
        ensures made { IsMade result }
    {
        self.get(rt)
    }

    /// The value, if it is set. It polls nothing, and waits for nobody. Of a cell that tasks share its clauses say
    /// only that a value is as the cell promises; those of [`Lazy::try_get_as`] say more. With the cell that stands at
    /// [`Lazy::get`]:
    ///
    /// ```
    /// let before = lazy.try_get().copied(); // None: nobody polled the cell's future yet
    /// let first = *lazy.get(rt).wait()??; // 10
    /// let still = lazy.try_get().copied(); // Some(10)
    /// ```
    pub fn try_get(&self) -> Option<&T>
        ensures lends { Lends self.now result }
        ensures promise { is_shared self.now ≡ true → IfSome result (λ value. V.fits (about_of self.now) value.now) }
    {
        self.cell.get()
    }

    /// The value for writing, if it is set. It waits for nobody. No clause says what it lends, or what the cell is
    /// after it: [`Lazy::own_as`] makes the value the owner's, with clauses.
    ///
    /// ```
    /// let mut lazy: Lazy<u64, Ready<u64>> = Lazy::with_value(7);
    /// let lent = lazy.try_get_mut().copied(); // Some(7)
    /// ```
    pub fn try_get_mut(&mut self) -> Option<&mut T> {
        self.cell.get_mut()
    }

    /// As [`Lazy::try_get_mut`].
    pub fn try_get_mut_unpin(&mut self) -> Option<&mut T> {
        self.cell.get_mut()
    }

    /// The value, if it was set. Else the future is dropped, and the answer is None, even if one poll
    /// of the future would give the value. A queue that futures left goes too. Only the drop of the future may wait.
    pub fn into_inner(self) -> Option<T>
        ensures gives { Gives self result }
        ensures promise { is_shared self ≡ true → IfSome result (V.fits (about_of self)) }
    {
        self.into_parts().ok()
    }

    /// The value, if it was set; else the future in the state that it is in. `Err(None)` would say that there is
    /// neither; no schedule of calls is known to lead there. A queue that futures left goes as well. It waits for
    /// nobody. Here the cell's future is Pending at its first poll, and gives 9 at the second:
    ///
    /// ```
    /// let is_pending = task.poll(&mut held).is_pending(); // true; `held` is a future of `lazy`
    /// drop(held);
    /// let Err(Some(mut future)) = lazy.into_parts() else {
    ///     return Err(Fault::Empty);
    /// };
    /// let last = task.poll(&mut future); // Ready(9): it went on where it stood
    /// ```
    pub fn into_parts(self) -> Result<T, Option<F>>
        ensures gives { Gives self (result_ok result) }
        ensures promise { is_shared self ≡ true → IfOk result (V.fits (about_of self)) }
    {
        match self.cell.into_inner() {
            Some(value) => Ok(value),
            None => Err(self.future.into_inner().into_future()),
        }
    }

    /// Puts another cell in place of this one, and answers what [`Lazy::into_inner`] would have answered before.
    ///
    /// ```
    /// let mut lazy: Lazy<u64, Ready<u64>> = Lazy::with_value(7);
    /// let (one, set) = (
    ///     lazy.replace_and_take(Lazy::with_value(8)), // Some(7)
    ///     lazy.try_get().copied(),                    // Some(8)
    /// );
    /// let three = lazy.replace_and_take(Lazy::new(ready(9))); // Some(8), and the cell is empty
    /// ```
    pub fn replace_and_take(&mut self, replacement: Self) -> Option<T>
        ensures taken { Gives self.old result }
        ensures promise { is_shared self.old ≡ true → IfSome result (V.fits (about_of self.old)) }
        ensures replaced { self.new ≡ replacement }
    {
        mem::replace(self, replacement).into_inner()
    }

    /// As [`Lazy::into_inner`], for a caller that was told the value.
    pub fn into_inner_as(self, told: &Told<T, V>) -> T
        requires { told.now.cell ≡ self }
        ensures { result ≡ told.now.value }
    {
        self.cell.into_inner_as(told)
    }

    /// As [`Lazy::replace_and_take`], for a caller that was told the value.
    pub fn replace_and_take_as(&mut self, replacement: Self, told: &Told<T, V>) -> T
        requires { told.now.cell ≡ self.old }
        ensures taken { result ≡ told.now.value }
        ensures replaced { self.new ≡ replacement }
    {
        mem::replace(self, replacement).into_inner_as(told)
    }

    /// Gives the owner the value that the caller was told. Then looks, and polls without a token, say which.
    pub fn own_as(&mut self, told: &Told<T, V>)
    where
        T: Drop,
        requires { told.now.cell ≡ self.old }
        ensures { self.new ≡ Owned told.now.value }
    {
        self.cell.own_as(told);
    }

    /// A token that knows nothing yet. See [`Known`]. It takes no memory, and waits for nobody.
    pub fn token(&self) -> Known<'_, T, V>
        ensures cell { result.cell ≡ self.now }
        ensures knows { result.value ≡ None }
    {
        self.cell.token()
    }

    /// As [`Lazy::try_get`], and the token learns the value that is answered. A token that knows one gets it, always.
    pub fn try_get_as<'a>(&'a self, token: &mut Known<'a, T, V>) -> Option<&'a T>
        requires token_of_this_cell { token.old.cell ≡ self.now }
        ensures cell { token.new.cell ≡ token.old.cell }
        ensures value { Learns token.old.value token.new.value result }
        ensures lends { Lends self.now result }
        ensures promise { is_shared self.now ≡ true → IfSome result (λ v. V.fits (about_of self.now) v.now) }
        ensures look { Looks self.now token.old.value (is_some result) token.old.log token.new.log }
        ensures set { IsSome result → IsSetIn self.now token.new.log }
        ensures stays { IsSetIn self.now token.old.log → IsSome result }
    {
        self.cell.get_as(token)
    }
}

impl<T: fmt::Debug, F: Future, V: Fits<T> + Fits<F::Output>> fmt::Debug for Lazy<T, F, V> {
    fn fmt<W: fmt::Write>(&self, f: &mut fmt::Formatter<W>) -> fmt::Result {
        self.cell.fmt_as("Lazy", f)
    }
}
