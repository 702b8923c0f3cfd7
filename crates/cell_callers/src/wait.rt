//! Waits, with a token and without.
ghost use Rattle.std.specs.Prelude.{◌≡◌, ◌*◌, [], ◌∷◌, Err, IfErr, IfOk, None, Some, false, true};
ghost use Rattle.async_once_cell.specs.Inits.{IfInit};
ghost use Rattle.async_once_cell.specs.Prelude.{IfFailure, IfValue, IsSetIn, IsValueAtOnce, SawEnd, about_of, end_of};
ghost use Rattle.async_once_cell.specs.Prelude.{ending_of_error, is_shared};

use crate::promise::TenTimes;
use async_once_cell::{InitError, Known, OnceCell, Parker, Refused, TryInitFuture};
use futures::future::{Ready, ready};
use std::alloc::AllocGlobal;
use std::io;
use std::sync::Wait;

/// A wait on a parker that the caller keeps. The token knows the value that is answered, and none if the thread could
/// not wait. If the token has seen that the cell is set, a value is answered.
pub fn waited<'a, R>(
    cell: &'a OnceCell<u64>,
    rt: &'a R,
    token: &mut Known<'a, u64>,
    parker: &mut Parker,
) -> io::Result<Result<&'a u64, Refused>>
where
    R: Wait + AllocGlobal,
    requires token_of_this_cell { token.old.cell ≡ cell.now }
    ensures value { IfValue result (λ value. token.new.value ≡ Some value) }
    ensures error { IfErr result (λ _. token.new.value ≡ None) }
    ensures late { IsSetIn token.old.cell token.old.log → IsValueAtOnce result }
{
    cell.get_or_init(rt, ready(6)).wait_as_on(token, parker)
}

/// A future whose init, which a caller brings, may fail.
type Tried<'a, R> = TryInitFuture<'a, u64, u64, Ready<Result<u64, u64>>, R>;

/// A wait whose init may fail. Whatever it answers, the token has seen: that the cell is set; or how a poll of this
/// future ended, which began after all that the token had seen before.
pub fn tried<'a, R>(
    future: Tried<'a, R>,
    token: &mut Known<'a, u64>,
    parker: &mut Parker,
) -> io::Result<Result<&'a u64, InitError<u64>>>
where
    R: Wait + AllocGlobal,
    requires unfinished { future.finished ≡ false }
    requires token_of_this_cell { token.old.cell ≡ future.cell }
    ensures set { IsValueAtOnce result → IsSetIn token.new.cell token.new.log }
    ensures last { IfFailure result (λ error. SawEnd future.entry.cell future.entry.task
        (end_of future.entry.task (ending_of_error error)) token.old.log token.new.log) }
{
    future.wait_as_on(token, parker)
}

/// A wait without a token, by a caller that brings what its init answers. A value is what the cell promises, whoever
/// gave that, and an error of an init is the caller's own. That a poll told it is not said: for that a wait needs a
/// token.
pub fn tried_alone<'a, R>(
    cell: &'a OnceCell<u64, TenTimes>,
    rt: &'a R,
    key: u64,
    brought: Result<u64, u64>,
    parker: &mut Parker,
) -> io::Result<Result<&'a u64, InitError<u64>>>
where
    R: Wait + AllocGlobal,
    requires shared { is_shared cell.now ≡ true }
    requires about { about_of cell.now ≡ key ∷ [] }
    requires fits { IfOk brought (λ value. value ≡ key * 10) }
    ensures value { IfValue result (λ value. value ≡ key * 10) }
    ensures error { IfFailure result (λ error. IfInit error (λ own. brought ≡ Err own)) }
{
    let _ = key;
    cell.get_or_try_init(rt, ready(brought)).wait_on(parker)
}
