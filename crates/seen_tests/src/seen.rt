//! What is seen of a cell from outside: a run has it.

use crate::same::same;
use once_judge::{Calls, judge};
use once_script::world::Entry;
use once_view::observed::{Answer, Observed, StopLine, linearize, parse_observed};
use once_view::verdict::VerdictLine;
use std::alloc::Global;
use std::test::Fail;

/// A run that has what was seen in the round of this seed, in which the judge finds no fault and nobody forgotten.
pub fn run_of(alloc: Global, observed: &Observed, seed: u64) -> Result<Vec<Entry>, Fail> {
    match linearize(alloc, observed, Calls::One, 100_000) {
        Ok(Answer::Run(run)) => {
            let verdict = judge(alloc, &observed.kind, observed.limit, Calls::One, &run)?;
            if verdict.fault.is_none() && verdict.forgotten.is_none() {
                return Ok(run);
            }
            let line = VerdictLine(&verdict, &run);
            Err(Fail::new(format_args!("of the seed {seed}: {line}")))
        }
        Ok(Answer::NoRun(stop) | Answer::GaveUp(stop)) => {
            let line = StopLine(&stop, &observed.events);
            Err(Fail::new(format_args!("of the seed {seed}: {line}")))
        }
        Err(bad) => Err(Fail::new(format_args!("of the seed {seed}: {bad:?}"))),
    }
}

#[test]
fn a_search_may_give_up(rt: HostRuntime) -> Result<(), Fail> {
    let text = b"once 8\nmade 1\nbegin 1 5\nend 1 v3";
    let Ok(observed) = parse_observed(rt.alloc(), text) else {
        return Err(Fail::new("unreadable"));
    };
    let answer = linearize(rt.alloc(), &observed, Calls::One, 3);
    same(&rt, matches!(answer, Ok(Answer::GaveUp(_))), true);
    Ok(())
}
