//! Records of replays at random, whole and with one entry dropped, doubled or exchanged: the judge and the plain
//! definitions say the same of each, by the rule that a failure wakes one, and by the rule that it wakes all.

use crate::plain::Rules;
use crate::same::same;
use once_judge::{Calls, judge};
use once_script::parse::record::RecordText;
use once_script::world::{Entry, Got, Reply};
use script_doubles::chance::Chance;
use script_doubles::records::{answer, call, record, task, waker};
use std::alloc::{AllocError, Global};
use std::process::Abort;
use std::test::Fail;

// An entry that is read from nowhere.
fn entry(alloc: Global, chance: &mut Chance) -> Result<Entry, AllocError> {
    let (task, waker) = (task(chance), waker(chance));
    Ok(match chance.draw(14) {
        0 => Entry::Made(task),
        1 => Entry::Begin(task, waker),
        2 => Entry::Claim(task),
        3 => Entry::Ran(task, answer(chance)),
        4 => Entry::Free(task, Vec::new(alloc)),
        5 => Entry::Free(task, vec![in alloc; waker]?),
        6 => Entry::Fill(task, 6, vec![in alloc; waker]?),
        7 => Entry::Pass(task, vec![in alloc; waker]?),
        8 => Entry::End(task, Reply::Memory),
        9 => Entry::End(task, Reply::Full),
        10 => Entry::End(task, Reply::Pending),
        11 => Entry::DropBegin(task),
        12 => Entry::Look(None),
        _ => Entry::Own(call(alloc, chance)?, Got::None),
    })
}

// The record with one entry dropped, put elsewhere once more, or exchanged.
fn damage(alloc: Global, chance: &mut Chance, entries: &mut Vec<Entry>) -> Result<(), AllocError> {
    let at = chance.draw((entries.len() as u64).max(1)) as usize;
    match chance.draw(4) {
        0 if at < entries.len() => {
            let _ = entries.remove(at);
        }
        1 if at.saturating_add(1) < entries.len() => entries.swap(at, at.saturating_add(1)),
        2 if at < entries.len() => {
            let other = entry(alloc, chance)?;
            entries[at] = other;
        }
        _ => {
            let more = entry(alloc, chance)?;
            entries.insert(at.min(entries.len()), more)?;
        }
    }
    Ok(())
}

// The record as a cell makes it whose releases without a value wake all, up to where it can't: each release hands out
// every waker that is due.
fn to_all(alloc: Global, rules: Rules<'_>, entries: Vec<Entry>) -> Result<Vec<Entry>, AllocError> {
    let mut to_all = Vec::new(alloc);
    for entry in entries {
        let mut due = Vec::new(alloc);
        for waker in 7..10u64 {
            if rules.is_due(waker, &to_all) {
                due.push(waker)?;
            }
        }
        to_all.push(match entry {
            Entry::Free(t, _) => Entry::Free(t, due),
            Entry::Fill(t, v, _) => Entry::Fill(t, v, due),
            _ => entry,
        })?;
    }
    to_all.truncate(rules.first_fault(&to_all).unwrap_or(to_all.len()));
    Ok(to_all)
}

// What the judge says of a record is what the definitions do. The answer is whether it is a run.
fn compare(
    rt: &impl Abort,
    alloc: Global,
    seed: u64,
    rules: Rules<'_>,
    entries: &[Entry],
) -> Result<bool, AllocError> {
    let verdict = judge(alloc, rules.kind, rules.limit, rules.calls, entries)?;
    let fault = rules.first_fault(entries);
    let end = fault.unwrap_or(entries.len()).min(entries.len());
    let wanted = [fault, rules.first_forgotten(&entries[..end])];
    let found = [
        verdict.fault.map(|f| f.entry),
        verdict.forgotten.map(|f| f.entry),
    ];
    same(rt, (seed, found), (seed, wanted));
    Ok(fault.is_none())
}

// How many were so of the records that were compared.
#[derive(Clone, Copy, Drop)]
struct Counts {
    // That are runs, though they are damaged.
    runs: u64,
    // That are runs by the rule that a failure wakes all, and by no other.
    apart: u64,
}

impl Counts {
    // Compares the record of a seed, which is a run by the rule, and then damages it five times and compares each time.
    fn compare_seed(
        &mut self,
        rt: &impl Abort,
        alloc: Global,
        seed: u64,
        calls: Calls,
    ) -> Result<(), AllocError> {
        let mut chance = Chance::new(seed);
        let calls_all = matches!(calls, Calls::All);
        let RecordText {
            kind,
            limit,
            mut entries,
        } = record(alloc, &mut chance, calls_all)?;
        let rules = Rules {
            kind: &kind,
            limit,
            calls,
        };
        if calls_all {
            entries = to_all(alloc, rules, entries)?;
            let one = Rules {
                calls: Calls::One,
                ..rules
            };
            let is_run = compare(rt, alloc, seed, one, &entries)?;
            self.apart = self.apart.saturating_add(u64::from(!is_run));
        }
        let is_run = compare(rt, alloc, seed, rules, &entries)?;
        same(rt, (seed, is_run), (seed, true));
        for _ in 0..5 {
            damage(alloc, &mut chance, &mut entries)?;
            let is_run = compare(rt, alloc, seed, rules, &entries)?;
            self.runs = self.runs.saturating_add(u64::from(is_run));
        }
        Ok(())
    }
}

// Compares so many records by this rule.
fn compare_all(
    rt: &impl Abort,
    alloc: Global,
    seeds: u64,
    calls: Calls,
) -> Result<Counts, AllocError> {
    let mut counts = Counts { runs: 0, apart: 0 };
    for seed in 0..seeds {
        counts.compare_seed(rt, alloc, seed, calls)?;
    }
    Ok(counts)
}

#[test]
fn judge_and_definitions_say_the_same(rt: HostRuntime) -> Result<(), Fail> {
    let runs = compare_all(&rt, rt.alloc(), 2_000, Calls::One)?.runs;
    assert!(rt; runs > 500, "{runs} damaged records are runs");
    Ok(())
}

#[test]
fn they_say_the_same_of_cells_that_call_all(rt: HostRuntime) -> Result<(), Fail> {
    let Counts { runs, apart } = compare_all(&rt, rt.alloc(), 400, Calls::All)?;
    assert!(rt;
        apart > 50 && runs > 100,
        "{apart} records are apart, {runs} damaged ones are runs"
    );
    Ok(())
}
