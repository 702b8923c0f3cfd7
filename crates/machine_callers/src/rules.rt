//! The rules of a run, each with a record that breaks it or keeps it.
ghost use Rattle.std.specs.Prelude.{◌≡◌, IfOk, true, false};

use crate::judging::is_run;
use once_judge::Calls;
use once_machine::record::{Call, Entry, Got, Kind, Ran, Reply};
use std::alloc::{AllocError, Global};

/// No task is made twice, even if it is gone.
pub fn task_is_made_again(alloc: Global) -> Result<bool, AllocError>
    ensures { IfOk result (λ is_run. is_run ≡ false) }
{
    let record = [
        Entry::Made(1),
        Entry::DropBegin(1),
        Entry::DropEnd(1),
        Entry::Made(1),
    ];
    is_run(alloc, &Kind::Once, 1, Calls::One, &record)
}

/// A holder whose init is Pending may be polled again.
pub fn holder_is_polled_again(alloc: Global) -> Result<bool, AllocError>
    ensures { IfOk result (λ is_run. is_run ≡ true) }
{
    let record = [
        Entry::Made(1),
        Entry::Begin(1, 5),
        Entry::Claim(1),
        Entry::Ran(1, Ran::Pending),
        Entry::End(1, Reply::Pending),
        Entry::Begin(1, 5),
    ];
    is_run(alloc, &Kind::Once, 1, Calls::One, &record)
}

/// A cell that is set is not claimed.
pub fn set_cell_is_claimed(alloc: Global) -> Result<bool, AllocError>
    ensures { IfOk result (λ is_run. is_run ≡ false) }
{
    let record = [Entry::Made(1), Entry::Begin(1, 5), Entry::Claim(1)];
    is_run(alloc, &Kind::OnceWith(7), 1, Calls::One, &record)
}

/// Only the task that holds polls its init.
pub fn init_of_another_is_polled(alloc: Global) -> Result<bool, AllocError>
    ensures { IfOk result (λ is_run. is_run ≡ false) }
{
    let record = [
        Entry::Made(1),
        Entry::Begin(1, 5),
        Entry::Claim(1),
        Entry::Made(2),
        Entry::Begin(2, 6),
        Entry::Ran(2, Ran::Pending),
    ];
    is_run(alloc, &Kind::Once, 2, Calls::One, &record)
}

/// Where a release wakes all, it leaves out no task that waits.
pub fn one_of_two_is_woken(alloc: Global) -> Result<bool, AllocError>
    ensures { IfOk result (λ is_run. is_run ≡ false) }
{
    let mut woken = Vec::new(alloc);
    woken.push(6)?;
    let record = [
        Entry::Made(1),
        Entry::Begin(1, 5),
        Entry::Claim(1),
        Entry::Made(2),
        Entry::Begin(2, 6),
        Entry::End(2, Reply::Pending),
        Entry::Made(3),
        Entry::Begin(3, 7),
        Entry::End(3, Reply::Pending),
        Entry::Ran(1, Ran::Error(0)),
        Entry::Free(1, woken),
    ];
    is_run(alloc, &Kind::Once, 3, Calls::All, &record)
}

/// A poll that passed its turn on does not end as if it still had it.
pub fn turn_is_passed_on_and_kept(alloc: Global) -> Result<bool, AllocError>
    ensures { IfOk result (λ is_run. is_run ≡ false) }
{
    let mut first = Vec::new(alloc);
    first.push(6)?;
    let mut next = Vec::new(alloc);
    next.push(7)?;
    let record = [
        Entry::Made(1),
        Entry::Begin(1, 5),
        Entry::Claim(1),
        Entry::Made(2),
        Entry::Begin(2, 6),
        Entry::End(2, Reply::Pending),
        Entry::Made(3),
        Entry::Begin(3, 7),
        Entry::End(3, Reply::Pending),
        Entry::Ran(1, Ran::Error(0)),
        Entry::Free(1, first),
        Entry::Begin(2, 6),
        Entry::Pass(2, next),
        Entry::Begin(3, 7),
        Entry::Claim(3),
        Entry::End(2, Reply::Pending),
    ];
    is_run(alloc, &Kind::Once, 3, Calls::One, &record)
}

/// A holder that is dropped gives the right back.
pub fn dropped_holder_keeps_the_right(alloc: Global) -> Result<bool, AllocError>
    ensures { IfOk result (λ is_run. is_run ≡ false) }
{
    let record = [
        Entry::Made(1),
        Entry::Begin(1, 5),
        Entry::Claim(1),
        Entry::Ran(1, Ran::Pending),
        Entry::End(1, Reply::Pending),
        Entry::DropBegin(1),
        Entry::DropEnd(1),
    ];
    is_run(alloc, &Kind::Once, 1, Calls::One, &record)
}

/// A look finds the value that is set.
pub fn value_is_not_found(alloc: Global) -> Result<bool, AllocError>
    ensures { IfOk result (λ is_run. is_run ≡ false) }
{
    let record = [Entry::Look(None)];
    is_run(alloc, &Kind::OnceWith(7), 1, Calls::One, &record)
}

/// The value of a lazy cell is not taken, since the cell has no such call.
pub fn value_of_a_lazy_cell_is_taken(alloc: Global) -> Result<bool, AllocError>
    ensures { IfOk result (λ is_run. is_run ≡ false) }
{
    let record = [Entry::Own(Call::Take, Got::Value(7))];
    is_run(alloc, &Kind::LazyWith(7), 1, Calls::One, &record)
}
