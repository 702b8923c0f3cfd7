//! A poll of an init.
ghost use Rattle.std.specs.Prelude.{◌≡◌, IsSome};
ghost use Rattle.async_once_cell.specs.Inner.Hands.{HasRight, HasRun};
ghost use Rattle.async_once_cell.specs.Inner.Prelude.{polled_in};

use async_once_cell::inner::{Hand, Pollable};
use async_once_cell::{Failed, Init, InitError};
use futures::future::Ready;
use futures::task::{Context, Poll};

/// An init that gives a number or an error.
type Brought = Pollable<Ready<Result<u64, u64>>>;

/// A poll by a task that has the right. What is answered stands in the record.
pub fn polled(
    init: &mut Option<Brought>,
    cx: &mut Context<'_>,
    right: &mut Hand,
) -> Poll<Result<u64, Failed<InitError<u64>>>>
    requires init { IsSome init.old }
    requires right { HasRight right.old }
    ensures { HasRun right.old (polled_in result) right.new }
{
    Brought::poll_init(init, cx, right)
}
