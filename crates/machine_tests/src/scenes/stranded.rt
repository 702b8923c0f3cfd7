//! A waiter whose copy is refused, or that is dropped, while another waits behind it: if it has the turn, it passes
//! it on, and nobody is stranded. In each scene the third task fills the cell in the end.

use crate::scene::play;
use std::test::Fail;

// A waiter that has no turn: the one behind it is woken by the failure.
const BEFORE: &str = "\
# refused_before_it_was_listed: the second is refused and gone, and the first calls the third
make 1; make 2; make 3; poll 1 1; run 1 p; poll 2 2
run 2 p x => Some(Memory) [Copied(None), Closed] finished | held queue
poll 3 3; run 3 p; poll 1 1; run 1 e9 x => Some(Error) [Ran(Error), Closed, WokeOne(Some(3))] finished | 1 queue
poll 3 3; run 3 v4 x => Some(Value) [Ran(Value), Closed, Put, WokeAll([])] finished | set
";

#[test]
fn refused_before_it_was_listed(rt: HostRuntime) -> Result<(), Fail> {
    play(&rt, BEFORE)
}

// The same if the one behind it is listed while the poll that is refused is under way, after one to five steps of it.
const BEGUN: &str = "make 1; make 2; make 3; poll 1 1; run 1 p; poll 2 2";

const BESIDE: &str = "\
run 2 p x => Some(Memory) [Copied(None), Closed] finished | held 1 queue
poll 1 1; run 1 e9 x => Some(Error) [Ran(Error), Closed, WokeOne(Some(3))] finished | 1 queue
poll 3 3; run 3 v4 x => Some(Value) [Ran(Value), Closed, Put, WokeAll([])] finished | set
";

#[test]
fn refused_beside_one_who_waits(rt: HostRuntime) -> Result<(), Fail> {
    let mut steps = String::new(rt.alloc());
    for made in 1..=5 {
        steps.push_str("go 2 p; ")?;
        let name = "refused_beside_one_who_waits";
        let scene = format!(in rt.alloc();
            "# {name}_{made}: so many steps\n{BEGUN}; {steps}poll 3 3; run 3 p\n{BESIDE}"
        )?;
        play(&rt, scene.as_str())?;
    }
    Ok(())
}

// The second, the third and the fourth wait. The first fails and wakes the second, and the fifth holds. Now the
// second is polled, and the copy of its waker is refused; it makes so many steps of that poll before the fifth fails.
// Polled after that, it gets the right, and is dropped; refused after that, it passes its turn on to the fourth; and
// if it left before, the turn is the third's alone.
const CALLED: &str = "\
# fails_before_a_refusal_0: the second finds that nobody holds, gets the right, and is dropped
make 1; make 2; make 3; make 4; make 5; poll 1 1; run 1 p; poll 2 2; run 2 p; poll 3 3; run 3 p; poll 4 4; run 4 p
poll 1 1; run 1 e9; poll 5 5; run 5 p; poll 2 2
poll 5 5; run 5 e9 x => Some(Error) [Ran(Error), Closed, WokeOne(Some(3))] finished | 3 queue
run 2 p x => Some(Pending) [Ran(Pending)] rests | 3 queue
drop 2 => None [Closed] goes on; run 2 p x => Some(Dropped) [WokeOne(Some(4))] finished | 2 queue
poll 3 3; run 3 v4 x => Some(Value) [Ran(Value), Closed, Put, WokeAll([(2, None)])] finished | set 1 queue

# fails_before_a_refusal_1: the second finds that nobody holds, gets the right, and is dropped
make 1; make 2; make 3; make 4; make 5; poll 1 1; run 1 p; poll 2 2; run 2 p; poll 3 3; run 3 p; poll 4 4; run 4 p
poll 1 1; run 1 e9; poll 5 5; run 5 p; poll 2 2; go 2 p x
poll 5 5; run 5 e9 x => Some(Error) [Ran(Error), Closed, WokeOne(Some(3))] finished | 3 queue
run 2 p x => Some(Pending) [Ran(Pending)] rests | 3 queue
drop 2 => None [Closed] goes on; run 2 p x => Some(Dropped) [WokeOne(Some(4))] finished | 2 queue
poll 3 3; run 3 v4 x => Some(Value) [Ran(Value), Closed, Put, WokeAll([(2, None)])] finished | set 1 queue

# fails_after_a_refusal: the second was refused before the fifth fails, and passes its turn on
make 1; make 2; make 3; make 4; make 5; poll 1 1; run 1 p; poll 2 2; run 2 p; poll 3 3; run 3 p; poll 4 4; run 4 p
poll 1 1; run 1 e9; poll 5 5; run 5 p; poll 2 2; go 2 p x; go 2 p x
poll 5 5; run 5 e9 x => Some(Error) [Ran(Error), Closed, WokeOne(Some(3))] finished | 3 queue
run 2 p x => Some(Memory) [WokeOne(Some(4))] finished | 2 queue
poll 3 3; run 3 v4 x => Some(Value) [Ran(Value), Closed, Put, WokeAll([(2, None)])] finished | set 1 queue

# fails_after_a_leave: the second left before the fifth fails, which calls the third
make 1; make 2; make 3; make 4; make 5; poll 1 1; run 1 p; poll 2 2; run 2 p; poll 3 3; run 3 p; poll 4 4; run 4 p
poll 1 1; run 1 e9; poll 5 5; run 5 p; poll 2 2; go 2 p x; go 2 p x; go 2 p x
poll 5 5; run 5 e9 x => Some(Error) [Ran(Error), Closed, WokeOne(Some(3))] finished | 3 queue
run 2 p x => Some(Memory) [] finished | 2 queue
poll 3 3; run 3 v4 x => Some(Value) [Ran(Value), Closed, Put, WokeAll([(2, Some(4))])] finished | set 1 queue

# fails_after_a_poll: the poll of the second is over before the fifth fails, which calls the third
make 1; make 2; make 3; make 4; make 5; poll 1 1; run 1 p; poll 2 2; run 2 p; poll 3 3; run 3 p; poll 4 4; run 4 p
poll 1 1; run 1 e9; poll 5 5; run 5 p; poll 2 2; go 2 p x; go 2 p x; go 2 p x; go 2 p x
poll 5 5; run 5 e9 x => Some(Error) [Ran(Error), Closed, WokeOne(Some(3))] finished | 2 queue
run 2 p x => None [] finished | 2 queue
poll 3 3; run 3 v4 x => Some(Value) [Ran(Value), Closed, Put, WokeAll([(2, Some(4))])] finished | set 1 queue
";

#[test]
fn called_while_it_is_refused(rt: HostRuntime) -> Result<(), Fail> {
    play(&rt, CALLED)
}

// The second and the third wait, and the second is dropped: it is woken before it takes its listing out, or is gone
// by then.
const DROPPED: &str = "\
# fails_before_a_leave: the second is called, and passes its turn on
make 1; make 2; make 3; poll 1 1; run 1 p; poll 2 2; run 2 p; poll 3 3; run 3 p; drop 2
poll 1 1; run 1 e9 x => Some(Error) [Ran(Error), Closed, WokeOne(Some(2))] finished | 2 queue
run 2 p x => Some(Dropped) [WokeOne(Some(3))] finished | 1 queue
poll 3 3; run 3 v4 x => Some(Value) [Ran(Value), Closed, Put, WokeAll([])] finished | set

# fails_beside_a_drop: the second took its listing out, and the third is called
make 1; make 2; make 3; poll 1 1; run 1 p; poll 2 2; run 2 p; poll 3 3; run 3 p; drop 2; go 2 p x
poll 1 1; run 1 e9 x => Some(Error) [Ran(Error), Closed, WokeOne(Some(3))] finished | 2 queue
run 2 p x => Some(Dropped) [] finished | 1 queue
poll 3 3; run 3 v4 x => Some(Value) [Ran(Value), Closed, Put, WokeAll([])] finished | set

# fails_after_a_drop: the drop of the second is over, and the third is called
make 1; make 2; make 3; poll 1 1; run 1 p; poll 2 2; run 2 p; poll 3 3; run 3 p; drop 2; go 2 p x; go 2 p x
poll 1 1; run 1 e9 x => Some(Error) [Ran(Error), Closed, WokeOne(Some(3))] finished | 1 queue
run 2 p x => None [] finished | 1 queue
poll 3 3; run 3 v4 x => Some(Value) [Ran(Value), Closed, Put, WokeAll([])] finished | set
";

#[test]
fn called_while_it_is_dropped(rt: HostRuntime) -> Result<(), Fail> {
    play(&rt, DROPPED)
}
