//! What a record tells of its tasks: which were made, and which were woken.
ghost use Rattle.std.specs.Prelude.{◌≡◌, ◌∷◌, ◌||◌, if◌then◌else◌, ℕ, List, IfOk, OnOk, false};
ghost use Rattle.once_machine.specs.Numbers.{member};
ghost use Rattle.once_machine.specs.Record.{Kind, Entry as Recorded, made_in, handed_by as wakers_of};
ghost use Rattle.once_machine.specs.Shown.{entry_of, history_in};
ghost use Rattle.once_machine.specs.Tasks.{last_call};
ghost use Rattle.once_machine.specs.Wakers.{handed_since, is_end_of};
ghost use Rattle.once_drained.specs.Turn.{is_woken, made_by as task_made_by};

use once_script::world::Entry;
use std::alloc::{AllocError, Global};

/// The tasks that were made.
pub fn made(alloc: Global, entries: &[Entry]) -> Result<Vec<u64>, AllocError>
    ensures { IfOk result (λ tasks. (t : ℕ) → member t tasks.items ≡ false
        → member t (made_in (history_in entries.now)) ≡ false) }
{
    let mut tasks = Vec::new(alloc);
    for entry in entries {
        push_made(&mut tasks, entry)?;
    }
    Ok(tasks)
}

// Adds the task that the entry makes, if it makes one.
fn push_made(tasks: &mut Vec<u64>, entry: &Entry) -> Result<(), AllocError>
    ensures { OnOk result ((t : ℕ) (before : List Recorded)
        → (member t tasks.old.items ≡ false → member t (made_in before) ≡ false)
        → member t tasks.new.items ≡ false → member t (made_in (entry_of entry.now ∷ before)) ≡ false) }
{
    match made_by(entry) {
        Some(task) => {
            tasks.push(task)?;
            Ok(())
        }
        None => Ok(()),
    }
}

fn made_by(entry: &Entry) -> Option<u64>
    ensures { result ≡ task_made_by (entry_of entry.now) }
{
    match entry {
        Entry::Made(task) => Some(*task),
        _ => None,
    }
}

/// Whether the waker of the task's last poll was handed out since that poll ended.
pub fn was_woken(entries: &[Entry], task: u64) -> bool
    ensures { (kind : Kind) → result ≡ is_woken kind task (history_in entries.now) }
{
    was_handed(entries, task, last_waker(entries, task))
}

// The waker of the task's last poll, or 0.
fn last_waker(entries: &[Entry], task: u64) -> u64
    ensures { (kind : Kind) → result ≡ (last_call kind task (history_in entries.now)).waker }
{
    let mut waker = 0;
    for entry in entries {
        if let Entry::Begin(begun, with) = entry {
            if *begun == task {
                waker = *with;
            }
        }
    }
    waker
}

// Whether the waker was handed out since the task's last poll ended.
fn was_handed(entries: &[Entry], task: u64, waker: u64) -> bool
    ensures { result ≡ member waker (handed_since task (history_in entries.now)) }
{
    let mut handed = false;
    for entry in entries {
        handed = handed_after(entry, task, waker, handed);
    }
    handed
}

// The same after one more entry.
fn handed_after(entry: &Entry, task: u64, waker: u64, handed: bool) -> bool
    ensures { result ≡ (if is_end_of task (entry_of entry.now) then false
        else (handed || member waker (wakers_of (entry_of entry.now)))) }
{
    if ends_poll(entry, task) {
        false
    } else {
        handed || hands_out(entry, waker)
    }
}

fn ends_poll(entry: &Entry, task: u64) -> bool
    ensures { result ≡ is_end_of task (entry_of entry.now) }
{
    match entry {
        Entry::End(ended, _) => *ended == task,
        _ => false,
    }
}

fn hands_out(entry: &Entry, waker: u64) -> bool
    ensures { result ≡ member waker (wakers_of (entry_of entry.now)) }
{
    handed_by(entry).contains(&waker)
}

// The wakers that an entry hands out.
fn handed_by<'a>(entry: &'a Entry) -> &'a [u64]
    ensures { result.now ≡ wakers_of (entry_of entry.now) }
{
    match entry {
        Entry::Free(_, wakers) | Entry::Fill(_, _, wakers) | Entry::Pass(_, wakers) => wakers,
        _ => &[],
    }
}
