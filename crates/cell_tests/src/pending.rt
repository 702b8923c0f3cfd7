//! Holders whose inits are Pending and ask for nothing.

use crate::doubles::schedule::run;

// An init that is dropped lets its waker go, which wakes its task.
const SCHEDULES: &str = "\
# holder: the task of a holder is not woken while its init asks for nothing
init 0; poll 0 s => pending; is held

# lazy_holder: the same of a cell that owns its init
get 0; poll 0 s => pending; lazy held

# holder_that_waited: the same of a holder that waited before
0..2 * init n; poll 0 s => pending; poll 1 s => pending
drop 0 => so, wakes 0 to 1
poll 1 s => pending; inits => 2 polls, 1 drops

# holder_with_a_token: the same of a poll with a token
ask s => pending, Known(None), 0 drops";

#[test]
fn holders_are_not_called(rt: HostRuntime) {
    run(&rt, SCHEDULES);
}
