//! Two threads ask a table for its values: each key is fetched once.
#![tactic(auto)]

use memo_table::program::{run, status};
use std::io;
use std::process::ExitCode;

fn main(rt: HostRuntime) -> ExitCode {
    ExitCode::from(status(&rt, run(&rt, &mut io::writer(&rt))))
}
