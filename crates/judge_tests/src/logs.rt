//! The queue log of a record: which queue was put to the door, entered and taken out.

use crate::same::same;
use once_script::parse::parse_script;
use once_script::play::replay_lines;
use std::alloc::Global;
use std::test::Fail;

// Scripts, in which a slash ends a line, and what the queue log of each says.
const LOGS: [(&str, &str); 4] = [
    // Nobody waits, and no queue is put.
    (
        "once 8/make 1/poll 1 7/run 1 v4/make 2/poll 2 7/run 2 e9",
        "[]",
    ),
    // Each look and each listing enters the queue, and so does the release of the first task. The other task takes it
    // out.
    (
        "once 8/make 1/make 2/poll 1 7/run 1 p/poll 2 7/run 2 e9/poll 2 7/run 2 e9/poll 1 7/run 1 v2\
/poll 2 7/run 2 e9",
        "[Put(1), Entered(1), Entered(1), Entered(1), Entered(1), Taken(1)]",
    ),
    // Nobody enters a queue that is put too late, and the task that put it takes it out again.
    (
        "once 8/make 1/make 2/poll 1 5/run 1 p/poll 2 7/go 2 p/go 2 p/poll 1 5/run 1 v4/run 2 p",
        "[Put(1), Taken(1)]",
    ),
    // The step that would put the queue is given no memory.
    (
        "once 8/make 1/make 2/poll 1 5/run 1 p/poll 2 7/go 2 p x/go 2 p x/go 2 p x",
        "[]",
    ),
];

fn log_of(alloc: Global, script: &str) -> Result<String, Fail> {
    let text = script.replace(alloc, '/', "\n")?;
    let script = parse_script(alloc, text.as_bytes())?;
    let record = replay_lines(alloc, script.kind, script.limit, &script.lines)?;
    Ok(format!(in alloc; "{:?}", record.queues)?)
}

#[test]
fn logs(rt: HostRuntime) -> Result<(), Fail> {
    for (script, log) in &LOGS {
        same(
            &rt,
            (*script, log_of(rt.alloc(), script)?.as_str()),
            (*script, *log),
        );
    }
    Ok(())
}
