//! Where the side under test polls its init.
ghost use Rattle.std.specs.Prelude.{◌≡◌, IsSome};
ghost use Rattle.async_once_cell.specs.Inner.Hands.{HasRight, HasRun};

use async_once_cell::inner::{Hand, Pollable};
use async_once_cell::{Init, InitError};
use futures::Future;
use futures::task::{Context, Doorbell, Poll, Solo};
use once_machine::step::Polled;
use std::alloc::AllocGlobal;
use std::io;
use std::random::RandomSource;

/// An init that answers so at each poll. It gives no value of its own: a side makes that.
#[derive(Drop)]
pub struct Scripted {
    answer: Polled,
}

impl Future for Scripted {
    type Output = Result<(), ()>;

    fn poll(&mut self, cx: &mut Context<'_>) -> Poll<Result<(), ()>> {
        match self.answer {
            Polled::Pending => cx.yield_now(),
            Polled::Value => Poll::Ready(Ok(())),
            Polled::Error => Poll::Ready(Err(())),
        }
    }
}

/// An init that answers so.
pub fn init_that_answers(answer: Polled) -> Pollable<Scripted> {
    Pollable::new(Scripted { answer })
}

/// Polls inits, one at a time, in contexts of a task of its own.
#[derive(Drop)]
pub struct Poller {
    task: Solo,
}

impl Poller {
    /// It takes memory, and polls take none.
    pub fn new<R: AllocGlobal + RandomSource>(rt: &R) -> io::Result<Self> {
        let task = Solo::new(rt, Doorbell::spinning())?;
        Ok(Poller { task })
    }

    /// Polls the init once, with the right of its task.
    pub fn poll(&self, init: &mut Option<Pollable<Scripted>>, right: &mut Hand) -> Polled
        requires init { IsSome init.old }
        requires right { HasRight right.old }
        ensures ran { HasRun right.old result right.new }
        ensures init { result ≡ Polled.Pending → IsSome init.new }
    {
        let mut cx = self.task.begin();
        let polled = <Pollable<Scripted> as Init<(), InitError<()>>>::poll_init(
            init, &mut cx, right,
        );
        let again: Poll<()> = cx.yield_now();
        cx.end(&again);
        match polled {
            Poll::Pending => Polled::Pending,
            Poll::Ready(Ok(())) => Polled::Value,
            Poll::Ready(Err(_)) => Polled::Error,
        }
    }
}
