//! Whole calls of tasks, one after the other.

use crate::scene::play;
use std::test::Fail;

const CALLS: &str = "\
# one_task_fills_a_cell: a task that meets nobody gives the value
make 7 v; poll 7 v => Ok(7) [Ran(Value), Closed, Put]

# who_waits_gets_the_value: the holder wakes a task that waits, and that gets the value
make 7 p; make 8 v; poll 7 p => Err(Pending) [Ran(Pending)]; poll 8 v => Err(Pending) [Copied(Some(8))]
poll 7 v => Ok(7) [Ran(Value), Closed, Put, WokeAll([(0, Some(8))])]
poll 8 v => Ok(7) [Closed]

# an_error_calls_one_who_waits: the holder fails, and wakes the first of two, which then gives the value
make 1 p; make 2 v; make 3 v; poll 1 p => Err(Pending) [Ran(Pending)]; poll 2 v => Err(Pending) [Copied(Some(2))]
poll 3 v => Err(Pending) [Copied(Some(3))]
poll 1 e => Err(Error) [Ran(Error), Closed, WokeOne(Some(2))]
poll 2 v => Ok(2) [Ran(Value), Closed, Put, WokeAll([(1, Some(3))])]
poll 3 v => Ok(2) [Closed]

# a_holder_that_is_dropped_calls_one: the task that it wakes gives the value
make 1 p; make 2 v; poll 1 p => Err(Pending) [Ran(Pending)]; poll 2 v => Err(Pending) [Copied(Some(2))]
drop 1 => Err(Dropped) [Closed, WokeOne(Some(2))]
poll 2 v => Ok(2) [Ran(Value), Closed, Put, WokeAll([])]

# one_who_was_called_and_leaves_calls_the_next: a task that was woken is dropped, and passes its turn on
make 1 p; make 2 v; make 3 v; poll 1 p => Err(Pending) [Ran(Pending)]; poll 2 v => Err(Pending) [Copied(Some(2))]
poll 3 v => Err(Pending) [Copied(Some(3))]
drop 1 => Err(Dropped) [Closed, WokeOne(Some(2))]
drop 2 => Err(Dropped) [Closed, WokeOne(Some(3))]
poll 3 v => Ok(3) [Ran(Value), Closed, Put, WokeAll([])]

# one_who_was_not_called_leaves_and_calls_nobody: the holder then wakes the other
make 1 p; make 2 v; make 3 v; poll 1 p => Err(Pending) [Ran(Pending)]; poll 2 v => Err(Pending) [Copied(Some(2))]
poll 3 v => Err(Pending) [Copied(Some(3))]
drop 2 => Err(Dropped) [Closed, WokeOne(None)]
poll 1 v => Ok(1) [Ran(Value), Closed, Put, WokeAll([(1, Some(3))])]

# a_copy_that_is_refused_ends_with_memory: a task that would wait is gone, and the holder wakes nobody
make 1 p; make 2 v; poll 1 p => Err(Pending) [Ran(Pending)]
poll 2 v x => Err(Memory) [Copied(None), Closed]
poll 1 v => Ok(1) [Ran(Value), Closed, Put]

# a_task_that_was_never_polled_is_dropped: another task finds the cell as it was
make 1 v; make 2 v; drop 1 => Err(Dropped) [Closed]
poll 2 v => Ok(2) [Ran(Value), Closed, Put]
";

#[test]
fn calls_in_turn(rt: HostRuntime) -> Result<(), Fail> {
    play(&rt, CALLS)
}

const STARVED: &str = "\
# a_queue_that_is_refused_ends_with_memory: a task that would wait finds no memory, and the holder wakes nobody
make 1 p; make 2 v; poll 1 p => Err(Pending) [Ran(Pending)]
starve 2 => Err(Memory) [Closed]
poll 1 v => Ok(1) [Ran(Value), Closed, Put]
";

#[test]
fn a_queue_that_is_refused_ends_with_memory(rt: HostRuntime) -> Result<(), Fail> {
    play(&rt, STARVED)
}
