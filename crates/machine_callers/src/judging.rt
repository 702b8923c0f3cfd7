//! What a verdict says of a record.
ghost use Rattle.std.specs.Prelude.{◌≡◌, IfOk, MatchOption, true};
ghost use Rattle.std.specs.Bool.{Decides};
ghost use Rattle.once_machine.specs.Called.{SomebodyCalled};
ghost use Rattle.once_machine.specs.Run.{AtEvery};
ghost use Rattle.once_machine.specs.Shown.{kind_of, history_in};
ghost use Rattle.once_judge.specs.Calls.{IsRunBy};
ghost use Rattle.once_judge.specs.Verdict.{StopsAt, IsForgottenAt, judged as judged_of};

use once_judge::{Calls, Verdict, judge};
use once_machine::record::{Entry, Kind};
use std::alloc::{AllocError, Global};

/// Both verdicts on a record. The clauses are two of those of `judge`.
pub fn judged(
    alloc: Global,
    kind: &Kind,
    limit: u64,
    calls: Calls,
    entries: &[Entry],
) -> Result<Verdict, AllocError>
    ensures run { IfOk result (λ v. MatchOption v.fault
        (IsRunBy calls (kind_of kind.now) limit (history_in entries.now))
        (λ f. StopsAt calls (kind_of kind.now) limit entries.now f.entry)) }
    ensures called { IfOk result (λ v. MatchOption v.forgotten
        (AtEvery (SomebodyCalled (kind_of kind.now)) (history_in (judged_of v.fault entries.now)))
        (λ f. IsForgottenAt (kind_of kind.now) entries.now f.entry f.task)) }
{
    judge(alloc, kind, limit, calls, entries)
}

/// Whether a record is a run.
pub fn is_run(
    alloc: Global,
    kind: &Kind,
    limit: u64,
    calls: Calls,
    entries: &[Entry],
) -> Result<bool, AllocError>
    ensures { IfOk result (λ is_run.
        Decides is_run (IsRunBy calls (kind_of kind.now) limit (history_in entries.now))) }
{
    match judge(alloc, kind, limit, calls, entries)?.fault {
        None => Ok(true),
        Some(_) => Ok(false),
    }
}
