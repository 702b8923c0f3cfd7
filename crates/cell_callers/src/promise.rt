//! Cells that promise their value: ten times a key, or one that the cell's own future gives.
ghost use Rattle.std.specs.Prelude.{◌≡◌, ◌*◌, ◌^◌, ◌<◌, ℕ, true, false, List, [], ◌∷◌, IfOk, IfSome};
ghost use Rattle.async_once_cell.specs.Prelude.{IfValue, about_of, is_shared, value_of};

use async_once_cell::{Lazy, OnceCell, Refused};
use boxcar::tag::{Names, Tag};
use futures::Future;
use futures::future::{Ready, ready};
use futures::task::{Context, Poll};
use pagebook::Fits;
use std::alloc::AllocGlobal;
use std::io;
use std::marker::PhantomData;
use std::random::RandomSource;
use std::sync::Wait;

/// What the promise is about: the key.
pub struct Key;

impl Names<u64> for Key {
    ghost numbers = { λ key. key ∷ [] };
}

/// Promises ten times the key.
pub struct TenTimes;

impl Fits<u64> for TenTimes {
    ghost fits = { λ about value. (key : ℕ) → about ≡ key ∷ [] → value ≡ key * 10 };
}

/// An empty cell for the value of this key.
pub fn cell_of(key: u64) -> OnceCell<u64, TenTimes>
    ensures shared { is_shared result ≡ true }
    ensures about { about_of result ≡ key ∷ [] }
{
    OnceCell::promised(&Tag::of::<u64, Key>(&key))
}

/// A look without a token, by a caller that knows the key: it finds ten times the key, or nothing.
pub fn looked(cell: &OnceCell<u64, TenTimes>, key: u64) -> Option<&u64>
    requires shared { is_shared cell.now ≡ true }
    requires about { about_of cell.now ≡ key ∷ [] }
    ensures { IfSome result (λ value. value.now ≡ key * 10) }
{
    let _ = key;
    cell.get()
}

/// A poll with an init that gives what the cell promises. It answers ten times the key, whoever gave that.
pub fn asked<'a, R>(
    cell: &'a OnceCell<u64, TenTimes>,
    rt: &'a R,
    key: u64,
    cx: &mut Context<'_>,
) -> Poll<Result<&'a u64, Refused>>
where
    R: Wait + AllocGlobal,
    requires small { key * 10 < 2 ^ 64 }
    requires shared { is_shared cell.now ≡ true }
    requires about { about_of cell.now ≡ key ∷ [] }
    ensures { IfSome (value_of result) (λ value. value ≡ key * 10) }
{
    cell.get_or_init(rt, ready(key * 10)).poll(cx)
}

/// The owner takes the value out. It is ten times the key, and the cell that is left promises the same.
pub fn taken(cell: &mut OnceCell<u64, TenTimes>, key: u64) -> Option<u64>
    requires shared { is_shared cell.old ≡ true }
    requires about { about_of cell.old ≡ key ∷ [] }
    ensures value { IfSome result (λ value. value ≡ key * 10) }
    ensures about { about_of cell.new ≡ key ∷ [] }
{
    let _ = key;
    cell.take()
}

/// The owner of a cell that tasks share takes what was promised out of it. Of a value of its own nothing is promised.
pub fn taken_out<V: Fits<u64>>(cell: OnceCell<u64, V>) -> Option<u64>
    requires { is_shared cell ≡ true }
    ensures { IfSome result (V.fits (about_of cell)) }
{
    cell.into_inner()
}

/// A lazy cell for the value of this key: its future gives ten times the key.
pub fn lazy_of(key: u64) -> Lazy<u64, Ready<u64>, TenTimes>
    requires { key * 10 < 2 ^ 64 }
    ensures shared { is_shared result ≡ true }
    ensures about { about_of result ≡ key ∷ [] }
{
    Lazy::promised(&Tag::of::<u64, Key>(&key), ready(key * 10))
}

/// A wait for a lazy cell of this key, whatever its future is: it answers ten times the key.
pub fn lazily<F, R>(
    lazy: &Lazy<u64, F, TenTimes>,
    rt: &R,
    key: u64,
) -> io::Result<Result<u64, Refused>>
where
    F: Future<Output = u64>,
    R: Wait + AllocGlobal + RandomSource,
    requires shared { is_shared lazy.now ≡ true }
    requires about { about_of lazy.now ≡ key ∷ [] }
    ensures { IfOk result (λ answer. IfOk answer (λ value. value ≡ key * 10)) }
{
    let _ = key;
    Ok(lazy.get(rt).wait()?.copied())
}

/// Promises that a future which has these numbers, as `N` reads them off it, gives the value.
pub struct GivenBy<F, N> {
    marker: PhantomData<(F, N)>,
}

impl<F: Future, N: Names<F>> Fits<F::Output> for GivenBy<F, N> {
    ghost fits = { λ about value. (future : F) × (N.numbers future ≡ about) × F.gives future value };
}

/// A lazy cell whose value is one that its future gives.
pub fn lazy_by<T, F, N>(future: F) -> Lazy<T, F, GivenBy<F, N>>
where
    F: Future<Output = T>,
    N: Names<F>,
    requires { F.can_poll future }
    ensures shared { is_shared result ≡ true }
    ensures about { about_of result ≡ N.numbers future }
{
    Lazy::promised(&Tag::of::<F, N>(&future), future)
}

/// A look at such a cell. What it finds is what a future gives that has the numbers of the cell's.
pub fn found<T, F, N>(lazy: &Lazy<T, F, GivenBy<F, N>>) -> Option<&T>
where
    F: Future<Output = T>,
    N: Names<F>,
    requires { is_shared lazy.now ≡ true }
    ensures { IfSome result (λ value. (future : F) × (N.numbers future ≡ about_of lazy.now)
        × F.gives future value.now) }
{
    lazy.try_get()
}
