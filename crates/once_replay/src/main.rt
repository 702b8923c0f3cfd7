//! Replays a cell and its tasks from standard input, and prints the record.
#![tactic(auto)]

use once_script::replay;
use std::process::ExitCode;

fn main(rt: HostRuntime) -> ExitCode {
    replay(&rt, rt.reader())
}
