//! Which task drives the future of a cell, and what the others get, as schedules of polls and drops.

use crate::doubles::schedule::{refuse_each, run, run_in_little};
use std::alloc::AllocError;

// Schedules over a `Lazy`.
const SCHEDULES: &str = "\
# four_of_one_cell: one task polls all: the cell's own future is driven by the first, and all get the value
get 0; unpin 1; into 2; get 3; poll 0 p 0 => pending, wakes 0; 1..4 * poll n p 0 => pending; lazy held 3 queue
poll 0 v2 0 => v2, done, wakes 0
1..4 * poll n v2 0 => v2, done; inits => 2 polls, 1 drops; lazy v2

# holder_dropped: a holder is dropped: the cell's future stays, and goes on where it stood
0..2 * get n; poll 0 p => pending, wakes 0; poll 1 p => pending
drop 0 => so, wakes 1; inits => 1 polls, 0 drops
poll 1 p => pending, wakes 1
poll 1 v5 => v5, done; drop 1; inits => 3 polls, 1 drops

# driven_on_after_a_holder_left: by `leave`: the future of the cell stays, and another task drives it on
0..2 * get n; poll 0 p => pending, wakes 0
leave 0; future 0 => LazyFuturePin { finished: true }; inits => 1 polls, 0 drops
poll 1 v4 => v4, done; inits => 2 polls, 1 drops

# polled_when_done: a future that is done asks for another poll, and leaves its cell as it is
get 0; poll 0 v5 => v5, done
poll 0 v5 => pending, done, wakes 0; inits => 1 polls, 1 drops; lazy v5

# futures_shown: a future says whether it is finished
get 0; future 0 => LazyFuturePin { finished: false }
unpin 1; poll 1 v5 => v5, done; future 0 => LazyFuturePin { finished: false }
future 1 => LazyFuturePin { finished: true }

# value_of_the_future: a value that the future gave is there for all calls, and the future is not
into 0; poll 0 v9 => v9, done; drop 0; lazy v9; inits => 1 polls, 1 drops
end => [None, Some(9)], 1 polls, 1 drops";

// A schedule over a `Lazy` that needs no memory from some point on, and gets none.
const STARVED: &str = "\
# no_memory_to_wait: who would wait is refused and done, and the cell stays as it is. The holder goes on
0..2 * get n; starve; poll 0 p => pending, wakes 0
poll 1 p => memory, done
poll 0 v4 => v4, done; 0..2 * drop n; inits => 2 polls, 1 drops; lazy v4";

#[test]
fn memory_as_asked(rt: HostRuntime) {
    run(&rt, SCHEDULES);
}

#[test]
fn starved(rt: HostRuntime) {
    run(&rt, STARVED);
}

#[test]
fn each_request_refused(rt: HostRuntime) -> Result<(), AllocError> {
    refuse_each(&rt, SCHEDULES, 3)
}

#[test]
fn no_memory_kept(rt: HostRuntime) -> Result<(), AllocError> {
    run_in_little(&rt, SCHEDULES, 5)
}
