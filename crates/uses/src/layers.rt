//! A lazy cell over another. The types of the values say what the futures give, so a caller that asks knows the value.
ghost use Rattle.std.specs.Prelude.{◌≡◌, IfOk};

use crate::fault::Fault;
use async_once_cell::{Lazy, LazyFuturePin, Refused};
use futures::Future;
use futures::future::ready;
use futures::task::{Context, Poll};
use std::alloc::AllocGlobal;
use std::random::RandomSource;
use std::sync::Wait;

/// The lower value, which is 5.
#[derive(Drop)]
struct Base {
    number: u64,
    ghost five: { number ≡ 5 },
}

/// The upper value, twice the lower.
#[derive(Drop)]
struct Double {
    number: u64,
    ghost ten: { number ≡ 10 },
}

/// Twice what the lower cell answered.
fn twice(base: Result<&Base, Refused>) -> Result<Double, Refused> {
    let number = base?.number * 2;
    Ok(Double { number })
}

/// The init of the upper cell, which asks the lower.
#[derive(Drop)]
struct Doubles<'a, F: Future, R: Wait + AllocGlobal> {
    base: LazyFuturePin<'a, Base, F, R>,
}

impl<F: Future<Output = Base>, R: Wait + AllocGlobal> Future for Doubles<'_, F, R> {
    type Output = Result<Double, Refused>;

    fn poll(&mut self, cx: &mut Context<'_>) -> Poll<Result<Double, Refused>> {
        match Future::poll(&mut self.base, cx) {
            Poll::Ready(base) => Poll::Ready(twice(base)),
            Poll::Pending => Poll::Pending,
        }
    }
}

/// The number of the upper cell: twice that which the lower one's future gives.
fn told<F, R>(rt: &R, double: &Lazy<Result<Double, Refused>, F>) -> Result<u64, Fault>
where
    F: Future<Output = Result<Double, Refused>>,
    R: Wait + RandomSource + AllocGlobal,
    ensures { IfOk result (λ number. number ≡ 10) }
{
    match double.get(rt).wait()?? {
        Ok(double) => Ok(double.number),
        Err(refused) => Err(Fault::Refused(*refused)),
    }
}

/// The same of an upper cell that is made over this one.
fn doubled<'a, F, R>(rt: &'a R, base: &'a Lazy<Base, F>) -> Result<u64, Fault>
where
    F: Future<Output = Base>,
    R: Wait + RandomSource + AllocGlobal,
    ensures { IfOk result (λ number. number ≡ 10) }
{
    let double = Lazy::new(Doubles { base: base.get(rt) });
    told(rt, &double)
}

/// The number of an upper cell over a new one.
pub fn ask<R>(rt: &R) -> Result<u64, Fault>
where
    R: Wait + RandomSource + AllocGlobal,
{
    doubled(rt, &Lazy::new(ready(Base { number: 5 })))
}
