//! Cells that promise an even value, and a lazy cell that promises ten times a key. So callers that have no token know
//! what they are told, on any thread. A table of such cells is `table` of `memo_table`.
ghost use Rattle.std.specs.Prelude.{◌≡◌, ◌*◌, ◌^◌, ◌<◌, ℕ, true, IfOk, IfSome, List, [], ◌∷◌};
ghost use Rattle.async_once_cell.specs.Views.{about_of, is_shared};

use crate::fault::Fault;
use async_once_cell::{Lazy, OnceCell};
use boxcar::tag::{Names, Tag};
use futures::Future;
use futures::task::{Context, Poll};
use pagebook::Fits;
use std::alloc::AllocGlobal;
use std::random::RandomSource;
use std::sync::Wait;
use std::thread::{self, Threads};

/// Promises that a number is even.
struct IsEven;

impl Fits<u64> for IsEven {
    ghost fits = { λ _ value. (half : ℕ) × (value ≡ half * 2) };
}

/// A future that gives twice a number.
#[derive(Drop)]
struct Twice {
    half: u64,
    ghost small: { half * 2 < 2 ^ 64 },
}

impl Future for Twice {
    type Output = u64;

    ghost gives = { λ twice value. value ≡ twice.half * 2 };

    fn poll(&mut self, _cx: &mut Context<'_>) -> Poll<u64> {
        Poll::Ready(self.half * 2)
    }
}

/// The value for a caller without a token, which brings twice a number. The cell asks of each init that it gives an
/// even one.
fn asked<R>(rt: &R, cell: &OnceCell<u64, IsEven>, number: u64) -> Result<u64, Fault>
where
    R: Wait + RandomSource + AllocGlobal,
    requires shared { is_shared cell.now ≡ true }
    requires small { number * 2 < 2 ^ 64 }
    ensures { IfOk result (λ value. (half : ℕ) × (value ≡ half * 2)) }
{
    let value = cell.get_or_init(rt, Twice { half: number }).wait()??;
    Ok(*value)
}

/// The value, if it is there.
fn looked(cell: &OnceCell<u64, IsEven>) -> Option<u64>
    requires { is_shared cell.now ≡ true }
    ensures { IfSome result (λ value. (half : ℕ) × (value ≡ half * 2)) }
{
    let value = cell.get()?;
    Some(*value)
}

/// One thread asks while another looks, and they tell each other nothing. What each is told is even.
fn asked_and_looked<R>(
    rt: &R,
    cell: &OnceCell<u64, IsEven>,
    number: u64,
) -> (Result<u64, Fault>, Option<u64>)
where
    R: Threads + Wait + RandomSource + AllocGlobal + Sync,
    requires shared { is_shared cell.now ≡ true }
    requires small { number * 2 < 2 ^ 64 }
    ensures asked { IfOk result.0 (λ value. (half : ℕ) × (value ≡ half * 2)) }
    ensures looked { IfSome result.1 (λ value. (half : ℕ) × (value ≡ half * 2)) }
{
    thread::join(
        rt,
        ||
            requires shared { is_shared cell.now ≡ true }
            requires small { number * 2 < 2 ^ 64 }
        { asked(rt, cell, number) },
        ||
            requires { is_shared cell.now ≡ true }
        { looked(cell) },
    )
}

/// The value of a lazy cell, for a caller without a token and over any future.
fn even<F, R>(rt: &R, lazy: &Lazy<u64, F, IsEven>) -> Result<u64, Fault>
where
    F: Future<Output = u64>,
    R: Wait + RandomSource + AllocGlobal,
    requires { is_shared lazy.now ≡ true }
    ensures { IfOk result (λ value. (half : ℕ) × (value ≡ half * 2)) }
{
    Ok(*lazy.get(rt).wait()??)
}

/// What a thread is told while another looks, and what a lazy cell gives. Both numbers are even.
pub fn ask<R>(rt: &R) -> Result<(u64, u64), Fault>
where
    R: Threads + Wait + RandomSource + AllocGlobal + Sync,
{
    let cell = OnceCell::<u64, IsEven>::promised(&Tag::empty());
    let (told, _) = asked_and_looked(rt, &cell, 35);
    let lazy = Lazy::<u64, Twice, IsEven>::promised(&Tag::empty(), Twice { half: 21 });
    Ok((told?, even(rt, &lazy)?))
}

/// What is promised of a value is about its key.
struct Key;

impl Names<u64> for Key {
    ghost numbers = { λ key. key ∷ [] };
}

/// Promises ten times the key.
struct TenTimes;

impl Fits<u64> for TenTimes {
    ghost fits = { λ about value. (key : ℕ) → about ≡ key ∷ [] → value ≡ key * 10 };
}

/// A future that gives ten times a key.
#[derive(Drop)]
struct Fetch {
    key: u64,
    ghost small: { key * 10 < 2 ^ 64 },
}

impl Future for Fetch {
    type Output = u64;

    ghost gives = { λ fetch value. value ≡ fetch.key * 10 };

    fn poll(&mut self, _cx: &mut Context<'_>) -> Poll<u64> {
        Poll::Ready(self.key * 10)
    }
}

/// The value of the lazy cell of a key, over any future: ten times the key.
fn value_of<F, R>(rt: &R, lazy: &Lazy<u64, F, TenTimes>, key: u64) -> Result<u64, Fault>
where
    F: Future<Output = u64>,
    R: Wait + RandomSource + AllocGlobal,
    requires shared { is_shared lazy.now ≡ true }
    requires about { about_of lazy.now ≡ key ∷ [] }
    ensures { IfOk result (λ value. value ≡ key * 10) }
{
    let _ = key;
    Ok(*lazy.get(rt).wait()??)
}

/// What the lazy cell of the key 7 gives.
pub fn ask_by_key<R>(rt: &R) -> Result<u64, Fault>
where
    R: Wait + RandomSource + AllocGlobal,
    ensures { IfOk result (λ value. value ≡ 70) }
{
    let key = 7;
    let lazy = Lazy::<u64, Fetch, TenTimes>::promised(&Tag::of::<u64, Key>(&key), Fetch { key });
    value_of(rt, &lazy, key)
}
