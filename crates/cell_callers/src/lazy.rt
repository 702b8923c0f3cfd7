//! Lazy cells: their promise, and their futures, which say of the record what those of other cells say.
ghost use Rattle.std.specs.Prelude.{◌≡◌, ◌*◌, ◌^◌, ◌<◌, ℕ, false, true, Some};
ghost use Rattle.async_once_cell.specs.Prelude.{HasLeft, IfValue, IsSetIn, IsValue, is_shared};

use async_once_cell::{Known, Lazy, LazyFuturePin, Refused};
use boxcar::tag::Tag;
use futures::future::{Ready, ready};
use futures::task::{Context, Poll};
use pagebook::Fits;
use std::alloc::AllocGlobal;
use std::io;
use std::random::RandomSource;
use std::sync::Wait;

/// Promises that a number is even.
pub struct IsEven;

impl Fits<u64> for IsEven {
    ghost fits = { λ _ value. (half : ℕ) × (value ≡ half * 2) };
}

/// A lazy cell whose value is even.
pub fn twice(half: u64) -> Lazy<u64, Ready<u64>, IsEven>
    requires { half * 2 < 2 ^ 64 }
    ensures { is_shared result ≡ true }
{
    Lazy::promised(&Tag::empty(), ready(half * 2))
}

/// A wait with a token, which knows the value that is answered.
pub fn waited<'a, R>(
    lazy: &'a Lazy<u64, Ready<u64>>,
    rt: &'a R,
    token: &mut Known<'a, u64>,
) -> io::Result<Result<&'a u64, Refused>>
where
    R: Wait + AllocGlobal + RandomSource,
    requires token_of_this_cell { token.old.cell ≡ lazy.now }
    ensures { IfValue result (λ value. token.new.value ≡ Some value) }
{
    lazy.get(rt).wait_as(token)
}

/// A poll that takes over what a token has seen: if the cell is set there, it answers a value.
pub fn polled_after<'a, R>(
    future: &mut LazyFuturePin<'a, u64, Ready<u64>, R>,
    cx: &mut Context<'_>,
    token: &Known<'a, u64>,
) -> Poll<Result<&'a u64, Refused>>
where
    R: Wait + AllocGlobal,
    requires unfinished { future.old.finished ≡ false }
    requires token_of_this_cell { token.now.cell ≡ future.old.cell }
    ensures { IsSetIn token.now.cell token.now.log → IsValue result }
{
    future.learn(token);
    future.poll(cx)
}

/// A future is given up, as a drop in the record. The cell's own future stays. The clause is `left` of
/// [`LazyFuturePin::leave`].
pub fn given_up<R>(future: &mut LazyFuturePin<'_, u64, Ready<u64>, R>)
where
    R: Wait + AllocGlobal,
    requires unfinished { future.old.finished ≡ false }
    ensures { HasLeft future.old future.new }
{
    future.leave();
}
