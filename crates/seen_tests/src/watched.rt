//! Replays at random, of which is told what can be seen from outside: a run is found that has it.

use crate::seen::run_of;
use once_script::parse::record::RecordText;
use once_script::print::FullLine;
use once_script::world::Entry;
use once_view::observed::{Event, Observed};
use script_doubles::chance::Chance;
use script_doubles::records::record;
use std::alloc::{AllocError, Global};
use std::test::Fail;

// The task of an entry that can be seen, or 0 of one that has none; and no number of one that can't be seen.
fn seen_of(entry: &Entry) -> Option<u64> {
    match entry {
        Entry::Claim(_) | Entry::Free(_, _) | Entry::Fill(_, _, _) | Entry::Pass(_, _) => None,
        Entry::Look(_) | Entry::Own(_, _) => Some(0),
        Entry::Made(task)
        | Entry::Begin(task, _)
        | Entry::Ran(task, _)
        | Entry::End(task, _)
        | Entry::DropBegin(task)
        | Entry::DropEnd(task) => Some(*task),
    }
}

// What can be seen of each of the three tasks, and of all else: the lines of its entries in their order.
fn told(alloc: Global, entries: &[Entry]) -> Result<String, AllocError> {
    let mut told = String::new(alloc);
    for task in 0..4u64 {
        for entry in entries.iter().filter(|entry| seen_of(entry) == Some(task)) {
            told.push_str(format!(in alloc; "{}\n", FullLine(entry))?.as_str())?;
        }
        told.push_str("\n")?;
    }
    Ok(told)
}

// What is seen of these entries, with their wakes or without.
fn events(
    alloc: Global,
    entries: Vec<Entry>,
    are_wakes_seen: bool,
) -> Result<Vec<Event>, AllocError> {
    let mut events = Vec::new(alloc);
    for entry in entries {
        match &entry {
            Entry::Free(task, wakers) | Entry::Fill(task, _, wakers) | Entry::Pass(task, wakers)
                if are_wakes_seen => {
                for waker in wakers {
                    events.push(Event::Woke(*task, *waker))?;
                }
            }
            _ => {}
        }
        if seen_of(&entry).is_some() {
            events.push(Event::Entry(entry))?;
        }
    }
    Ok(events)
}

// A run is found that has what is seen of the record of a replay at random.
fn is_found(alloc: Global, seed: u64, are_wakes_seen: bool) -> Result<(), Fail> {
    let mut chance = Chance::new(seed);
    let RecordText {
        kind,
        limit,
        entries,
    } = record(alloc, &mut chance, seed.is_multiple_of(2))?;
    let wanted = told(alloc, &entries)?;
    let observed = Observed {
        kind,
        limit,
        are_wakes_seen,
        events: events(alloc, entries, are_wakes_seen)?,
    };
    let run = run_of(alloc, &observed, seed)?;
    let found = told(alloc, &run)?;
    if found != wanted {
        return Err(Fail::new(format_args!("of the seed {seed}: {found}, and not {wanted}")));
    }
    Ok(())
}

#[test]
fn runs_of_replays_are_found(rt: HostRuntime) -> Result<(), Fail> {
    for seed in 0..300 {
        is_found(rt.alloc(), seed, true)?;
    }
    Ok(())
}

#[test]
fn they_are_found_without_the_wakes(rt: HostRuntime) -> Result<(), Fail> {
    for seed in 0..300 {
        is_found(rt.alloc(), seed, false)?;
    }
    Ok(())
}
