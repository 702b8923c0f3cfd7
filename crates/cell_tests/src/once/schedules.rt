//! Schedules of polls and drops over a cell, line by line.

use crate::doubles::schedule::{refuse_each, run, run_in_little};
use std::alloc::AllocError;

// Schedules over a `OnceCell`. A waiter that leaves the list lets its waker go, which wakes its task.
const SCHEDULES: &str = "\
# plain_path
is free; init 0; poll 0 v4 => v4, done
init 1; poll 1 v9 => v4, done; inits => 1 polls, 2 drops; is v4

# slow_path
0..2 * init n; poll 0 p => pending, wakes 0; poll 1 v9 => pending; poll 1 v9 => pending
poll 0 v2 => v2, done, wakes 1
poll 1 v9 => v2, done; inits => 2 polls, 2 drops; is v2

# tricked_fast_path: a waiter is gone when the value is set: the right goes back as if nobody had waited
0..2 * init n; poll 0 p => pending, wakes 0; poll 1 v9 => pending
init 1 => so, wakes 1; poll 0 v2 => v2, done; is v2
poll 1 v9 => v2, done; is v2

# second_try
1..5 * try n; poll 1 p => pending, wakes 1; is held
2..5 * poll n v9 => pending; is held 3 queue
poll 2 v9 => pending
poll 1 e1 => e1, done, wakes 2; is 3 queue
try 4 => so, wakes 4; is 2 queue
poll 2 p => pending, wakes 2; poll 3 v9 => pending
poll 2 v2 => v2, done, wakes 3
poll 4 v9 => v2, done; is v2 1 queue
poll 3 v9 => v2, done; inits => 4 polls, 5 drops; is v2

# dropped_holder
0..2 * init n; poll 0 p => pending, wakes 0; poll 1 v9 => pending
drop 0 => so, wakes 1; inits => 1 polls, 1 drops; is 1 queue
poll 1 v5 => v5, done; inits => 2 polls, 2 drops; is v5

# second_try_of_one_task: as second_try, where one task polls them all
1..5 * try n; poll 1 p 0 => pending, wakes 0; 2..5 * poll n v9 0 => pending; is held 3 queue
poll 2 v9 0 => pending
poll 1 e1 0 => e1, done, wakes 0
try 4 => so, wakes 0; poll 2 p 0 => pending, wakes 0; poll 3 v9 0 => pending
poll 2 v2 0 => v2, done, wakes 0
poll 4 v9 0 => v2, done; is v2 1 queue
poll 3 v9 0 => v2, done; is v2

# second_holder_dropped: a waiter that took the right over is dropped in its turn
0..2 * init n; poll 0 p => pending, wakes 0; poll 1 v9 => pending
drop 0 => so, wakes 1
poll 1 p => pending, wakes 1; is 1 queue
init 2; poll 2 v9 => pending
drop 1 => so, wakes 2; inits => 2 polls, 2 drops
poll 2 v5 => v5, done; inits => 3 polls, 3 drops; is v5

# inits_dropped_once: an init is dropped once: when it is done, when it fails, or with its future
try 0; poll 0 p => pending, wakes 0; inits => 1 polls, 0 drops
drop 0; inits => 1 polls, 1 drops
try 0; poll 0 e1 => e1, done; inits => 2 polls, 2 drops
drop 0; try 1
poll 1 v3 => v3, done; inits => 3 polls, 3 drops
drop 1; try 2
poll 2 e1 => v3, done; inits => 3 polls, 4 drops
drop 2; try 3; drop 3; inits => 3 polls, 5 drops

# polled_without_a_call
0..2 * init n; poll 0 p => pending, wakes 0; 100 * poll 1 v9 => pending; is held 1 queue
poll 0 v2 => v2, done, wakes 1
poll 1 v9 => v2, done

# moved_from_task_to_task: where a waker takes the place of another task's, that one is let go, which wakes its task
0..2 * init n; poll 0 p => pending, wakes 0; poll 1 v9 1 => pending
poll 1 v9 2 => pending, wakes 1
poll 1 v9 1 => pending, wakes 2; is held 1 queue
poll 0 v3 => v3, done, wakes 1
poll 1 v9 2 => v3, done

# polled_when_done: a future that is done asks for another poll, and leaves its cell as it is
try 0; poll 0 e1 => e1, done; is free
poll 0 v9 => pending, done, wakes 0
poll 0 v9 => pending, done, wakes 0; is free
init 1; poll 1 v2 => v2, done
poll 1 v9 => pending, done, wakes 1
try 2; poll 2 e1 => v2, done
poll 2 e1 => pending, done, wakes 2; inits => 2 polls, 3 drops; is v2

# right_held_until_the_init_is_dropped: an init is dropped before the right is given back, when its future is dropped
looks 0 held; poll 0 p => pending, wakes 0; found => None
drop 0; found => Some(true); is free

# right_held_until_the_init_is_done: the same, when it is done
looks 0 held; poll 0 v4 => v4, done; found => Some(true)

# place_held_until_the_init_is_dropped: a waiter's init is dropped before its place among those who wait is given back
looks 0 held 1 queue; looks 1 held 1 queue; poll 0 p => pending, wakes 0; poll 1 p => pending
drop 1 => so, wakes 1; found => Some(true); is held queue

# place_held_until_the_value_is_found: the same, where it finds the value
init 0; looks 1 v4 1 queue; poll 0 p => pending, wakes 0; poll 1 p => pending
poll 0 v4 => v4, done, wakes 1
poll 1 v9 => v4, done; found => Some(true); is v4

# place_held_until_the_init_of_a_set_cell_is_dropped: the same, where a waiter is dropped after the value was set
init 0; looks 1 v2 1 queue; poll 0 p => pending, wakes 0; poll 1 p => pending
poll 0 v2 => v2, done, wakes 1; found => None
drop 1; found => Some(true); is v2

# place_held_until_the_init_is_dropped_by_a_call: the same, where its `leave` is called
init 0; looks 1 v2 1 queue; poll 0 p => pending, wakes 0; poll 1 p => pending
poll 0 v2 => v2, done, wakes 1; found => None
leave 1; found => Some(true); future 1 => Initializing { finished: true }; is v2

# polled_within_the_init: a second future waits within the init while the cell is empty, and then the init fills it
uses 0 visit; poll 0 v6 => v6, done, wakes 1; found => Pending
drop 0; inits => 1 polls, 1 drops; is v6

# futures_shown: a future says whether it is finished
try 0; future 0 => Initializing { finished: false }
poll 0 e1 => e1, done; future 0 => Initializing { finished: true }
drop 0; init 1; future 1 => Initializing { finished: false }
poll 1 v4 => v4, done; future 1 => Initializing { finished: true }

# filled_twice: a cell whose value was taken is filled again as a new one is
init 0; poll 0 v5 => v5, done
owner take => Some(5)
init 0; poll 0 v8 => v8, done
end => [Some(8), None], 2 polls, 3 drops

# taken_while_a_queue_stands: a forgotten future leaves its right behind. The owner puts all away, and wakes nobody
0..2 * init n; poll 0 p => pending, wakes 0; poll 1 p => pending
drop 1 => so, wakes 1
forget 0; is held queue
owner take => None; is free
init 0; poll 0 v3 => v3, done";

const CROWD: &str = "\
# crowd: more may wait than a number of sixteen bits can say. The value wakes each, and each is told it
0..70001 * init n; poll 0 p => pending, wakes 0; 1..70001 * poll n v9 => pending; is held 70000 queue
poll 0 v4 => v4, done, wakes 1 to 70000
1..70001 * poll n v9 => v4, done; inits => 2 polls, 70001 drops; is v4";

// Schedules over a `OnceCell` that need no memory from some point on, and get none.
const STARVED: &str = "\
# ready_at_once
starve; init 0; poll 0 v4 => v4, done

# nobody_waits
starve; init 0; poll 0 p => pending, wakes 0; drop 0
try 1; poll 1 e1 => e1, done
init 2; poll 2 v4 => v4, done; inits => 3 polls, 3 drops; is v4

# waited_before: a future that waited before keeps its place, and takes the right over
0..2 * init n; poll 0 p => pending, wakes 0; poll 1 v9 => pending
starve; drop 0 => so, wakes 1
poll 1 v4 => v4, done; is v4

# no_memory_to_wait: who would wait is refused and done, and the cell stays as it is. The holder goes on
0..2 * init n; starve; poll 0 p => pending, wakes 0
poll 1 p => memory, done; is held
drop 1; is held
poll 0 v4 => v4, done; drop 0; inits => 2 polls, 2 drops; is v4

# place_held_until_a_refused_init_is_dropped: who is refused a listing drops its init, and then gives its place back
init 0; 1..9 * init n; looks 9 held 9 queue; poll 0 p => pending, wakes 0; 1..9 * poll n v9 => pending
found => None; starve
poll 9 v9 => memory, done, wakes 9; found => Some(true); is held 8 queue
drop 9; inits => 1 polls, 1 drops";

#[test]
fn memory_as_asked(rt: HostRuntime) {
    run(&rt, SCHEDULES);
}

#[test]
fn value_for_a_crowd(rt: HostRuntime) {
    run(&rt, CROWD);
}

#[test]
fn starved(rt: HostRuntime) {
    run(&rt, STARVED);
}

#[test]
fn each_request_refused(rt: HostRuntime) -> Result<(), AllocError> {
    refuse_each(&rt, SCHEDULES, 30)
}

#[test]
fn no_memory_kept(rt: HostRuntime) -> Result<(), AllocError> {
    run_in_little(&rt, SCHEDULES, 12)
}
