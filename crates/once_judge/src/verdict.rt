//! The verdicts on a record.
ghost use Rattle.std.specs.Prelude.{◌<◌, length, take, IfOk, IfSome, MatchOption};
ghost use Rattle.once_machine.specs.Called.{SomebodyCalled};
ghost use Rattle.once_machine.specs.Run.{AtEvery};
ghost use Rattle.once_machine.specs.Shown.{kind_of, history_in};
ghost use Rattle.once_judge.specs.Calls.{IsRunBy};
ghost use Rattle.once_judge.specs.Verdict.{StopsAt, IsTrueAt, IsForgottenAt, judged};
ghost use Rattle.once_judge.specs.Shown.{seen_of};
ghost use Rattle.once_judge.specs.Moments.{FirstForgotten};

use crate::calls::Calls;
use crate::reason::Reason;
use crate::seen::Seen;
use once_machine::record::{Entry, Kind};
use std::alloc::{AllocError, Global};

/// The first entry that may not come next.
#[derive(Clone, Copy, Debug, Drop, PartialEq, Eq)]
pub struct Fault {
    /// How many entries stand before it.
    pub entry: usize,
    /// Why it may not come next.
    pub reason: Reason,
}

/// The first moment at which the cell is empty and some task waits, and nobody was woken.
#[derive(Clone, Copy, Debug, Drop, PartialEq, Eq)]
pub struct Forgotten {
    /// It comes after the entry before which so many stand.
    pub entry: usize,
    /// A task that waits then.
    pub task: u64,
}

/// Both verdicts on a record.
#[derive(Clone, Copy, Debug, Drop, PartialEq, Eq)]
pub struct Verdict {
    /// Where the record stops to be a run, or `None` if it is one.
    pub fault: Option<Fault>,
    /// Where somebody is forgotten in the entries before the fault, or in all; `None` if, whenever somebody had to be
    /// woken, somebody was.
    pub forgotten: Option<Forgotten>,
}

/// Judges a record, the oldest entry first: whether it is a run of a cell of this kind, in which at most `limit` tasks
/// may be counted in, and whose releases without a value wake one task or all; and whether somebody is woken in it
/// whenever somebody has to be.
///
/// A run alone may still lose a wake: only both verdicts together say of a record what `replay` promises of its own.
///
/// `AllocError` says that memory was refused. Then there is no verdict.
///
/// ```
/// let verdict = judge(rt.alloc(), &Kind::Once, MOST, Calls::One, &entries)?;
/// ```
pub fn judge(
    alloc: Global,
    kind: &Kind,
    limit: u64,
    calls: Calls,
    entries: &[Entry],
) -> Result<Verdict, AllocError>
    // With no fault the record is a run. Else it is one up to the entry that the fault names, and no record that begins
    // as this one up to and with that entry is a run.
    ensures run { IfOk result (λ v. MatchOption v.fault
        (IsRunBy calls (kind_of kind.now) limit (history_in entries.now))
        (λ f. StopsAt calls (kind_of kind.now) limit entries.now f.entry)) }

    // The reason that a fault gives is true.
    ensures reason { IfOk result (λ v. IfSome v.fault (λ f.
        IsTrueAt (kind_of kind.now) limit f.reason f.entry entries.now)) }

    // Whenever in the run somebody had to be woken, somebody was; or there is a first moment at which nobody was.
    ensures called { IfOk result (λ v. MatchOption v.forgotten
        (AtEvery (SomebodyCalled (kind_of kind.now)) (history_in (judged v.fault entries.now)))
        (λ f. IsForgottenAt (kind_of kind.now) entries.now f.entry f.task)) }

    // That moment comes before the fault.
    ensures before { IfOk result (λ v. IfSome v.forgotten (λ f. f.entry < length (judged v.fault entries.now))) }
{
    let mut seen = Seen::new(alloc, kind, limit, calls)?;
    let mut forgotten = None;
    for (number, entry) in entries.iter().enumerate() {
        if let Some(reason) = seen.follow(entry)? {
            let fault = Some(Fault {
                entry: number,
                reason,
            });
            return Ok(Verdict { fault, forgotten });
        }
        forgotten = first_forgotten(forgotten, &seen, number);
    }
    Ok(Verdict {
        fault: None,
        forgotten,
    })
}

// The first moment at which somebody is forgotten, after the entry before which so many stand: an earlier one, or now.
fn first_forgotten(earlier: Option<Forgotten>, seen: &Seen, entry: usize) -> Option<Forgotten>
    ensures { FirstForgotten earlier result entry (seen_of seen.now) }
{
    if earlier.is_some() {
        return earlier;
    }
    match seen.forgotten() {
        Some(task) => Some(Forgotten { entry, task }),
        None => None,
    }
}
