//! A connection that is tried again after an error, until it is there.
ghost use Rattle.std.specs.Prelude.{◌≡◌, Err, IfErr};
ghost use Rattle.async_once_cell.specs.Refused.{own_error};

use crate::fault::Fault;
use async_once_cell::OnceCell;
use async_once_cell::once::InitError;
use futures::Future;
use futures::task::{Context, Poll};
use std::alloc::AllocGlobal;
use std::cell::Cell;
use std::random::RandomSource;
use std::sync::Wait;

/// A connection, with the number of the try that made it.
#[derive(Clone, Copy, Debug)]
pub struct Connection {
    number: u64,
}

/// The other side does not answer.
#[derive(Clone, Copy)]
struct Down;

/// One try of those that are counted. The other side answers at the third.
#[derive(Drop)]
struct Dial<'a> {
    tries: &'a Cell<u64>,
}

impl Future for Dial<'_> {
    type Output = Result<Connection, Down>;

    fn poll(&mut self, _cx: &mut Context<'_>) -> Poll<Result<Connection, Down>> {
        let number = self.tries.get().saturating_add(1);
        self.tries.set(number);
        if number < 3 {
            return Poll::Ready(Err(Down));
        }
        Poll::Ready(Ok(Connection { number }))
    }
}

/// Whether the other side did not answer. A poll that was refused is no try, and is told as such.
fn is_down(tried: Result<&Connection, InitError<Down>>) -> Result<bool, Fault>
    ensures { IfErr tried.entry (λ error. IfErr (own_error error) (λ refused. result ≡ Err (Fault.Refused refused))) }
{
    match tried {
        Ok(_) => Ok(false),
        Err(error) => match error.own() {
            Ok(Down) => Ok(true),
            Err(refused) => Err(Fault::Refused(refused)),
        },
    }
}

/// Tries once, if there is no connection. Whether the other side did not answer.
fn try_once<R>(rt: &R, cell: &OnceCell<Connection>, tries: &Cell<u64>) -> Result<bool, Fault>
where
    R: Wait + RandomSource + AllocGlobal,
{
    is_down(cell.get_or_try_init(rt, Dial { tries }).wait()?)
}

/// The connection, after at most so many tries.
fn connect<R>(
    rt: &R,
    cell: &OnceCell<Connection>,
    tries: &Cell<u64>,
    most: u64,
) -> Result<Connection, Fault>
where
    R: Wait + RandomSource + AllocGlobal,
{
    for _ in 0..most {
        if !try_once(rt, cell, tries)? {
            break;
        }
    }
    cell.get().copied().ok_or(Fault::Tries(most))
}

/// What a caller is told that tries too few times, and what two are told that try often enough.
pub fn connect_thrice<R>(rt: &R) -> [Result<Connection, Fault>; 3]
where
    R: Wait + RandomSource + AllocGlobal,
{
    let (cell, tries) = (OnceCell::new(), Cell::new(0));
    let first = connect(rt, &cell, &tries, 2);
    let second = connect(rt, &cell, &tries, 4);
    let third = connect(rt, &cell, &tries, 4);
    [first, second, third]
}
