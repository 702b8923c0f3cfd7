//! An init, and how it is polled: once, and into the record.
//!
//! Two types have private fields, which no code outside of this file can read or write. So the future that lies in a
//! [`Pollable`] is polled by `ask` alone, and only an [`Answered`], which `ask` alone makes, can be in the `Act` by
//! which a hand writes what an init answered.
ghost use Rattle.std.specs.Prelude.{◌≡◌, Some, None, IsSome, IsSomeAnd, IfErr, IfOk};
ghost use Rattle.async_once_cell.specs.Inits.{GivesNoOther, polled_in};
ghost use Rattle.async_once_cell.specs.Inner.Hands.{HasRight, HasRun};
ghost use Rattle.futures.specs.Poll.{IfReady, OnPending};
ghost use Rattle.futures.specs.Task.{IsArmed, Keeps};

use super::hand::Hand;
use super::task::{Failed, Gives};
use crate::error::Failure;
use futures::Future;
use futures::task::{Context, Poll};
use once_machine::step::Polled;
use std::marker::Model;

/// A future that may be polled, only by a task that has the right. A clause sees the future.
#[derive(Drop)]
pub struct Pollable<F: Future> {
    future: F,
}

impl<F: Future> Model for Pollable<F> {
    ghost Value = { F };

    ghost view = { λ p. p.future };

    ghost invariant = { λ p. F.can_poll p.future };
}

impl<F: Future> Pollable<F> {
    /// A box with this future.
    pub fn new(future: F) -> Self
        requires { F.can_poll future }
        ensures { result ≡ future }
    {
        Pollable { future }
    }

    /// The future, for the owner of a cell. No clause says that it may be polled.
    pub fn into_inner(self) -> F
        ensures { result ≡ self }
    {
        self.future
    }

    // Polls the future once, and writes the answer into the record. The future goes into `init` if it is Pending.
    #[inline(always)]
    pub(super) fn ask<T, X: Failure>(
        self,
        cx: &mut Context<'_>,
        init: &mut Option<Self>,
        right: &mut Hand,
    ) -> Poll<Result<T, Failed<X>>>
    where
        F::Output: Gives<T, X>,
        requires right { HasRight right.old }
        requires init { init.old ≡ None }
        ensures ran { HasRun right.old (polled_in result) right.new }
        ensures init { OnPending result (IsSome init.new) }
        ensures own { IfReady result (λ a. IfErr a
            (λ e. IsSomeAnd (F.Output.given_as e.error) (F.gives self))) }
        ensures given { IfReady result (λ a. IfOk a
            (λ v. IsSomeAnd (F.Output.given_with v) (F.gives self))) }
        ensures same { GivesNoOther (λ f x. IsSomeAnd (F.Output.given_as x) (F.gives f)) (Some self) init.new }
        ensures same_values { GivesNoOther (λ f v. IsSomeAnd (F.Output.given_with v) (F.gives f))
            (Some self) init.new }
        ensures armed { OnPending result (IsArmed cx.new) }
        ensures kept { Keeps cx.old cx.new }
    {
        let Pollable { mut future } = self;
        match future.poll(cx) {
            Poll::Pending => {
                right.ran(Answered(Polled::Pending));
                *init = Some(Pollable { future });
                Poll::Pending
            }
            Poll::Ready(output) => match output.given() {
                Ok(value) => {
                    right.ran(Answered(Polled::Value));
                    Poll::Ready(Ok(value))
                }
                Err(error) => {
                    right.ran(Answered(Polled::Error));
                    Poll::Ready(Err(Failed { error }))
                }
            },
        }
    }
}

/// How an init answered a poll, for the record.
#[derive(Drop)]
pub struct Answered(Polled);

impl Model for Answered {
    ghost use Rattle.once_machine.specs.declared.step.Polled.{Polled};

    ghost Value = { Polled };

    ghost view = { λ a. a.0 };
}
