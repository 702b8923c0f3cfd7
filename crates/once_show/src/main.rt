//! Shows a script: as a table with a row for each line, or as a picture.
#![tactic(auto)]

use once_view::program::show_script;
use std::process::ExitCode;

fn main(rt: HostRuntime) -> ExitCode {
    show_script(&rt, &rt, rt.reader())
}
