//! Sides that use another task of their cell in the middle of a step of their own.

use crate::scene::play;
use std::test::Fail;

const COPY: &str = "\
# a_copy_that_polls: while a waiter's waker is copied, another task is polled, which waits too and is listed first
make 5 p; make 8 e; make 7 over 8; polls 7; poll 5 p => Err(Pending) [Ran(Pending)]
poll 7 e => Err(Pending) [Copied(Some(7))]; other => Some(Pending) Some([Copied(Some(8))])
poll 5 v => Ok(5) [Ran(Value), Closed, Put, WokeAll([(0, Some(8)), (1, Some(7))])]
poll 7 e => Ok(5) [Closed]
other => Some(Pending) Some([])
poll 8 e => Ok(5) [Closed] | set
";

#[test]
fn a_copy_that_polls(rt: HostRuntime) -> Result<(), Fail> {
    play(&rt, COPY)
}

const OTHERS: &str = "\
# an_init_and_a_wake_that_poll: an init polls a task, which waits; the wake by the value polls it again
make 9 e; make 7 over 9; polls 7; poll 7 p => Err(Pending) [Ran(Pending)]
other => Some(Pending) Some([Copied(Some(9))])
poll 7 v => Ok(7) [Ran(Value), Closed, Put, WokeAll([(0, Some(9))])]
other => Some(Value) Some([Closed]) | set

# a_wake_that_takes_the_right: the init fails, and the other, polled in the wake, takes the right and fails
make 9 e; make 7 over 9; polls 7; poll 7 e => Err(Error) [Ran(Error), Closed, WokeOne(Some(9))]
other => Some(Error) Some([Copied(Some(9)), Ran(Error), Closed, WokeOne(None)]) | queue

# a_turn_taken_while_it_is_passed_on: a woken waiter is dropped, and the next takes the right in that wake
make 5 p; make 9 e; make 7 over 9; poll 5 p => Err(Pending) [Ran(Pending)]; poll 7 e => Err(Pending) [Copied(Some(7))]
poll 9 e => Err(Pending) [Copied(Some(9))]
drop 5 => Err(Dropped) [Closed, WokeOne(Some(7))]
polls 7; drop 7 => Err(Dropped) [Closed, WokeOne(Some(9))]
other => Some(Error) Some([Ran(Error), Closed, WokeOne(None)]) | queue

# a_called_waiter_that_is_refused: the holder leaves while the waker of one who was woken is to be copied
make 1 p; make 5 p; make 3 v; make 4 v; make 2 over 5; poll 1 p => Err(Pending) [Ran(Pending)]
poll 2 v => Err(Pending) [Copied(Some(2))]; poll 3 v => Err(Pending) [Copied(Some(3))]
poll 4 v => Err(Pending) [Copied(Some(4))]
drop 1 => Err(Dropped) [Closed, WokeOne(Some(2))]
poll 5 p => Err(Pending) [Ran(Pending)]
leaves 2; poll 2 v x => Err(Memory) [Copied(None), Closed, WokeOne(Some(4))]
other => Some(Dropped) Some([Closed, WokeOne(Some(3))])
poll 3 v => Ok(3) [Ran(Value), Closed, Put, WokeAll([(2, None)])]
poll 4 v => Ok(3) [Closed] | set
";

#[test]
fn tasks_used_in_the_middle_of_a_step(rt: HostRuntime) -> Result<(), Fail> {
    play(&rt, OTHERS)
}
