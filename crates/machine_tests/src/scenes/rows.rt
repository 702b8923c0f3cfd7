//! Worked schedules over shared parts, each told step by step: a queue is put and wakers are listed, since there is
//! memory for both.

use crate::scene::play;
use std::test::Fail;

// Whole calls, one after the other.
const CALLS: &str = "\
# plain_path: one task makes the value in its first poll, and a later task finds it
make 1; make 2; poll 1 1; run 1 v4 => Some(Value) [Ran(Value), Closed, Put] finished | set
poll 2 2; run 2 e9 => Some(Value) [Closed] finished | set

# one_waits: a task waits, polls again while it is listed, and finds the value when it was called
make 1; make 2; poll 1 1; run 1 p => Some(Pending) [Ran(Pending)] rests
poll 2 2; run 2 e9 => Some(Pending) [Copied(Some(2))] rests | held 1 queue
poll 2 2; run 2 e9 => Some(Pending) [] rests | held 1 queue
poll 1 1; run 1 v2 => Some(Value) [Ran(Value), Closed, Put, WokeAll([(0, Some(2))])] finished | set 1 queue
poll 2 2; run 2 e9 => Some(Value) [Closed] finished | set
";

#[test]
fn calls_in_turn(rt: HostRuntime) -> Result<(), Fail> {
    play(&rt, CALLS)
}

// A task that comes makes some of its steps, and another makes a call before it goes on.
const MEETINGS: &str = "\
# came_while_a_holder_left: the holder fails while a task stands before the count: that task claims the right
make 1; make 2; make 3; poll 1 1; run 1 p; poll 2 2; run 2 p; drop 2 => None [Closed] goes on
run 2 p => Some(Dropped) [WokeOne(None)] finished
poll 3 3; go 3 p => None [] goes on
poll 1 1; run 1 e5 => Some(Error) [Ran(Error), Closed] finished | queue
run 3 v6 => Some(Value) [Ran(Value), Closed, Put, WokeAll([])] finished | set

# queue_put_too_late: a task puts a queue when the holder has filled the cell and is gone, and takes the queue out
make 1; make 2; poll 1 1; run 1 p; poll 2 2; go 2 p; go 2 p => None [] goes on
poll 1 1; run 1 v4 => Some(Value) [Ran(Value), Closed, Put] finished | set
go 2 p => None [] goes on | set queue
go 2 p => None [Closed] goes on | set 1 queue
run 2 p => Some(Value) [] finished | set

# lost_quick_claim: a task that saw the new cell loses the quick claim, waits, and is called by the holder's drop
make 1; make 2; poll 1 1; go 1 p; poll 2 2; go 2 p; run 1 p => Some(Pending) [Ran(Pending)] rests
run 2 p => Some(Pending) [Copied(Some(2))] rests; drop 1 => None [Closed] goes on
run 1 p => Some(Dropped) [WokeOne(Some(2))] finished | 1 queue
poll 2 2; run 2 v3 => Some(Value) [Ran(Value), Closed, Put, WokeAll([])] finished | set

# waker_copy_refused: a task is counted in and finds a holder, and its waker can't be copied
make 1; make 2; poll 1 1; run 1 p; poll 2 2; go 2 p; go 2 p; go 2 p; go 2 p; go 2 p => None [] goes on | held 1 queue
go 2 p x => None [Copied(None), Closed] goes on | held 1 queue
run 2 p => Some(Memory) [] finished | held queue
";

#[test]
fn calls_that_meet(rt: HostRuntime) -> Result<(), Fail> {
    play(&rt, MEETINGS)
}
