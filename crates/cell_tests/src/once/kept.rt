//! An init is kept until the first poll or the drop of its future, whether tasks share the cell or it has its owner's
//! value.

use crate::doubles::schedule::run;
use std::test::Fail;

const FILLED: &str = "init 0; poll 0 v4 => v4, done; drop 0";

// What becomes of the cell then: it is as the future left it, or was written by its owner, or made anew with a value,
// or from one.
const CALLS: [(&str, &str); 4] = [
    ("none", "None"),
    ("write 4", "Some(4)"),
    ("with 4", "Some(4)"),
    ("from 4", "Some(4)"),
];

// The poll of a set cell drops the init and does not poll it, also with a token that knows the value. No other call
// does.
const KEPT: &str = "\
init 1; inits => 1 polls, 1 drops
poll 1 v9 => v4, done; inits => 1 polls, 2 drops
drop 1; try 1; inits => 1 polls, 2 drops
poll 1 e9 => v4, done; inits => 1 polls, 3 drops
drop 1; init 1; inits => 1 polls, 3 drops
drop 1; inits => 1 polls, 4 drops
know v9 => v4, done, Known(Some(4)), 5 drops
inits => 1 polls, 5 drops";

const EMPTY: &str = "\
# empty: an init whose future is never polled is dropped with it
init 1; inits => 0 polls, 0 drops
drop 1; inits => 0 polls, 1 drops";

#[test]
fn kept_until_the_poll_or_the_drop(rt: HostRuntime) -> Result<(), Fail> {
    run(&rt, EMPTY);
    for (call, before) in CALLS {
        let text = format!(in rt.alloc(); "# {call}\n{FILLED}\nowner {call} => {before}\n{KEPT}")?;
        run(&rt, &text);
    }
    Ok(())
}
