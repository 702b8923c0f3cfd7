//! A copy of a waker is refused: a task that would wait is then refused too, and is neither counted nor listed. A
//! holder copies none.

use crate::scene::play;
use std::test::Fail;

// If the copy is refused the waiter is gone, and the holder finds nobody. Else the holder wakes it.
const WAITERS: &str = "\
# refused_waiter: it is gone, and the holder finds nobody
make 1; make 2; poll 1 1; run 1 p; poll 2 2; run 2 p x => Some(Memory) [Copied(None), Closed] finished | held queue
poll 1 1; run 1 v4 x => Some(Value) [Ran(Value), Closed, Put] finished | set

# granted_waiter: it waits, and the holder calls it
make 1; make 2; poll 1 1; run 1 p; poll 2 2; run 2 p => Some(Pending) [Copied(Some(2))] rests | held 1 queue
poll 1 1; run 1 v4 x => Some(Value) [Ran(Value), Closed, Put, WokeAll([(0, Some(2))])] finished | set 1 queue
";

#[test]
fn a_waiter_whose_copy_is_refused(rt: HostRuntime) -> Result<(), Fail> {
    play(&rt, WAITERS)
}

// A holder by the quick claim, alone or with a waiter, that gives a value, fails or is dropped.
const QUICK_HOLDERS: &str = "\
# quick_value_alone: a quick holder gives a value, and nobody waits
make 1; poll 1 1; run 1 p x => Some(Pending) [Ran(Pending)] rests | held
poll 1 1; run 1 v4 x => Some(Value) [Ran(Value), Closed, Put] finished | set

# quick_error_alone: a quick holder fails, and nobody waits
make 1; poll 1 1; run 1 p x => Some(Pending) [Ran(Pending)] rests | held
poll 1 1; run 1 e9 x => Some(Error) [Ran(Error), Closed] finished | free

# quick_drop_alone: a quick holder is dropped, and nobody waits
make 1; poll 1 1; run 1 p x => Some(Pending) [Ran(Pending)] rests | held
drop 1 => None [Closed] goes on; run 1 p x => Some(Dropped) [] finished | free

# quick_value: a quick holder gives a value, and calls the one who waits
make 1; make 2; poll 1 1; run 1 p x => Some(Pending) [Ran(Pending)] rests | held
poll 2 2; run 2 p; poll 1 1
run 1 v4 x => Some(Value) [Ran(Value), Closed, Put, WokeAll([(0, Some(2))])] finished | set 1 queue

# quick_error: a quick holder fails, and calls the one who waits
make 1; make 2; poll 1 1; run 1 p x => Some(Pending) [Ran(Pending)] rests | held
poll 2 2; run 2 p; poll 1 1; run 1 e9 x => Some(Error) [Ran(Error), Closed, WokeOne(Some(2))] finished | 1 queue

# quick_drop: a quick holder is dropped, and calls the one who waits
make 1; make 2; poll 1 1; run 1 p x => Some(Pending) [Ran(Pending)] rests | held
poll 2 2; run 2 p; drop 1 => None [Closed] goes on; run 1 p x => Some(Dropped) [WokeOne(Some(2))] finished | 1 queue
";

#[test]
fn a_quick_holder_copies_no_waker(rt: HostRuntime) -> Result<(), Fail> {
    play(&rt, QUICK_HOLDERS)
}

// A holder that got the right under the lock, with one that waits and then is dropped. The holder gives
// a value, fails or is dropped.
const LATER_HOLDERS: &str = "\
# later_value: a later holder gives a value, and calls the one who waits
make 1; make 2; make 3; poll 1 1; run 1 p; poll 2 2; run 2 p; drop 1; run 1 p x
poll 2 2; run 2 p x => Some(Pending) [Ran(Pending)] rests | 1 queue
poll 3 3; run 3 p; poll 3 3; run 3 p x => Some(Pending) [] rests | 2 queue
poll 2 2; run 2 v4 x => Some(Value) [Ran(Value), Closed, Put, WokeAll([(0, Some(3))])] finished | set 1 queue
drop 3 => None [Closed] goes on; run 3 p x => Some(Dropped) [WokeOne(None)] finished | set

# later_error: a later holder fails, and calls the one who waits
make 1; make 2; make 3; poll 1 1; run 1 p; poll 2 2; run 2 p; drop 1; run 1 p x
poll 2 2; run 2 p x => Some(Pending) [Ran(Pending)] rests | 1 queue
poll 3 3; run 3 p; poll 3 3; run 3 p x => Some(Pending) [] rests | 2 queue
poll 2 2; run 2 e9 x => Some(Error) [Ran(Error), Closed, WokeOne(Some(3))] finished | 1 queue
drop 3 => None [Closed] goes on; run 3 p x => Some(Dropped) [WokeOne(None)] finished | queue

# later_drop: a later holder is dropped, and calls the one who waits
make 1; make 2; make 3; poll 1 1; run 1 p; poll 2 2; run 2 p; drop 1; run 1 p x
poll 2 2; run 2 p x => Some(Pending) [Ran(Pending)] rests | 1 queue
poll 3 3; run 3 p; poll 3 3; run 3 p x => Some(Pending) [] rests | 2 queue
drop 2 => None [Closed] goes on; run 2 p x => Some(Dropped) [WokeOne(Some(3))] finished | 1 queue
drop 3 => None [Closed] goes on; run 3 p x => Some(Dropped) [WokeOne(None)] finished | queue
";

#[test]
fn a_later_holder_copies_no_waker(rt: HostRuntime) -> Result<(), Fail> {
    play(&rt, LATER_HOLDERS)
}
