//! Judges a record from standard input, or from the file that is named: whether it is a run, and whether somebody is
//! forgotten. All that it does is in `once_view`.
#![tactic(auto)]

use once_view::program::judge_record;
use std::process::ExitCode;

fn main(rt: HostRuntime) -> ExitCode {
    judge_record(&rt, &rt, rt.reader())
}
