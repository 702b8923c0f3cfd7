//! Why a poll ended without a value: the error of its own init, or a refusal.
ghost use Rattle.std.specs.Prelude.{◌≡◌, Some};
ghost use Rattle.async_once_cell.specs.Prelude.{own_error, message, message_of, kind_of, error_of, Ending};
ghost use Rattle.async_once_cell.specs.Prelude.{ending_of_refusal, ending_of_error, error_kind};

use std::error::Error;
use std::io::ErrorKind;
use std::{fmt, io};

/// Why a poll ended without a value, as a future tells it: [`Refused`], or an [`InitError`] if the init may fail.
pub trait Failure: Drop {
    // How the poll ended.
    ghost ending: { Self → Ending };

    /// The poll was refused.
    fn refused(refused: Refused) -> Self
        ensures { ending result ≡ ending_of_refusal refused };
}

impl Failure for Refused {
    ghost ending = { ending_of_refusal };

    fn refused(refused: Refused) -> Self {
        refused
    }
}

impl<E: Drop> Failure for InitError<E> {
    ghost ending = { ending_of_error };

    fn refused(refused: Refused) -> Self {
        InitError::from(refused)
    }
}

/// Why a poll ended without a value, though no init failed. Its future is finished, and all else is as if the future
/// had been dropped. A new future may be tried. By `?` this becomes the [`InitError`] of the same name, or an
/// `io::Error` that prints the same. An init that asks another cell may be refused there. This one passes it on:
///
/// ```
/// match Future::poll(&mut self.base, cx) {
///     Poll::Ready(Ok(value)) => Poll::Ready(Ok(value.wrapping_mul(2))),
///     Poll::Ready(Err(refused)) => Poll::Ready(Err(refused)),
///     Poll::Pending => Poll::Pending,
/// }
/// ```
#[derive(Clone, Copy, Debug, PartialEq, Eq)]
pub enum Refused {
    /// Memory was refused: for the queue, or for the task's place in it.
    Memory,
    /// As many tasks are counted in as may be, 2^62 - 2. Counted are those that wait, those in a call that came to
    /// the queue, and a holder that claimed there.
    Full,
}

impl fmt::Display for Refused {
    ghost output = { λ refused. Some (message refused) };

    fn fmt<W: fmt::Write>(&self, f: &mut fmt::Formatter<W>) -> fmt::Result {
        match self {
            Refused::Memory => f.write_str("out of memory"),
            Refused::Full => f.write_str("too many waiters"),
        }
    }
}

impl Error for Refused {}

/// Why a poll ended without a value: its own init failed, or it was refused. [`InitError::own`] tells which.
#[derive(Clone, Copy, Debug, Drop, PartialEq, Eq)]
pub enum InitError<E> {
    /// The caller's init answered this error. The right was given back, and another caller may fill the cell.
    Init(E),
    /// As [`Refused::Memory`].
    Memory,
    /// As [`Refused::Full`].
    Full,
}

impl<E> InitError<E> {
    /// The error of the caller's init, or else the refusal.
    ///
    /// ```
    /// match cell.get_or_try_init(rt, load).wait_as(token)? {
    ///     Ok(value) => Ok(*value),
    ///     Err(error) => match error.own() {
    ///         Ok(own) => Err(Fault::NotLoaded(own)), // the caller's own load failed
    ///         Err(refused) => Err(Fault::Refused(refused)),
    ///     },
    /// }
    /// ```
    pub fn own(self) -> Result<E, Refused>
        ensures { result ≡ own_error self }
    {
        match self {
            InitError::Init(error) => Ok(error),
            InitError::Memory => Err(Refused::Memory),
            InitError::Full => Err(Refused::Full),
        }
    }
}

impl<E: fmt::Display> fmt::Display for InitError<E> {
    ghost output = { message_of E.output };

    fn fmt<W: fmt::Write>(&self, f: &mut fmt::Formatter<W>) -> fmt::Result {
        match self {
            InitError::Init(error) => fmt::Display::fmt(error, f),
            InitError::Memory => fmt::Display::fmt(&Refused::Memory, f),
            InitError::Full => fmt::Display::fmt(&Refused::Full, f),
        }
    }
}

impl<E: fmt::Debug + fmt::Display + Drop> Error for InitError<E> {}

/// Lets `future.wait()??` give an `io::Error`: of kind `OutOfMemory` for [`Refused::Memory`], `Other` for `Full`.
impl From<Refused> for io::Error {
    ghost from_gives = { λ refused error. error_kind error ≡ kind_of refused };

    fn from(refused: Refused) -> Self {
        match refused {
            Refused::Memory => io::Error::from(ErrorKind::OutOfMemory),
            Refused::Full => io::Error::other("too many waiters"),
        }
    }
}

impl<E> From<Refused> for InitError<E> {
    ghost from_gives = { λ refused error. error ≡ error_of refused };

    fn from(refused: Refused) -> Self {
        match refused {
            Refused::Memory => InitError::Memory,
            Refused::Full => InitError::Full,
        }
    }
}
