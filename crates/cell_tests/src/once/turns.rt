//! A failure wakes one waiter, and a waiter that was woken and leaves passes its turn on.

use crate::doubles::schedule::{refuse_each, run, run_in_little};
use std::alloc::AllocError;

const TURNS: &str = "\
# called_waiter_dropped
0..3 * try n; poll 0 p => pending, wakes 0; 1..3 * poll n v9 => pending
poll 0 e1 => e1, done, wakes 1
drop 1 => so, wakes 2
poll 2 v2 => v2, done; inits => 3 polls, 3 drops; is v2

# each_in_its_turn
0..4 * try n; poll 0 p => pending, wakes 0; 1..4 * poll n v9 => pending
drop 0 => so, wakes 1
poll 1 e1 => e1, done, wakes 2
poll 2 e2 => e2, done, wakes 3
poll 3 v3 => v3, done; inits => 4 polls, 4 drops

# waiter_dropped_before_its_turn: who was not called leaves, with its own waker. A failure calls another
0..4 * try n; poll 0 p => pending, wakes 0; 1..4 * poll n v9 => pending
drop 1 => so, wakes 1
poll 0 e1 => e1, done, wakes 2
drop 3 => so, wakes 3; drop 2; is queue

# no_turn_while_another_holds: while another holds, a turn is not passed on: that one's failure calls the next
0..4 * try n; poll 0 p => pending, wakes 0; 1..3 * poll n v9 => pending
poll 0 e1 => e1, done, wakes 1
poll 3 p => pending, wakes 3; drop 1
poll 3 e3 => e3, done, wakes 2
poll 2 v2 => v2, done

# listed_anew_behind_the_others: who was called and finds another holder lists itself anew, at the end
0..4 * try n; poll 0 p => pending, wakes 0; 1..3 * poll n v9 => pending
poll 0 e1 => e1, done, wakes 1
poll 3 p => pending, wakes 3; poll 1 v9 => pending
poll 3 e3 => e3, done, wakes 2
poll 2 e2 => e2, done, wakes 1
poll 1 v1 => v1, done

# value_calls_all: the value calls all, also after a turn was given
0..4 * try n; poll 0 p => pending, wakes 0; 1..4 * poll n v9 => pending
poll 0 e1 => e1, done, wakes 1
poll 1 v4 => v4, done, wakes 2 to 3
2..4 * poll n v9 => v4, done

# value_calls_all_behind_one_who_was_called: it calls those who are listed behind one who was called before, too
0..4 * try n; poll 0 p => pending, wakes 0; 1..3 * poll n v9 => pending
poll 0 e1 => e1, done, wakes 1
poll 3 v4 => v4, done, wakes 2
1..3 * poll n v9 => v4, done

# one_task_is_woken_of_1: however many wait, a failure wakes one task, and a value wakes all
0..2 * try n; poll 0 p => pending, wakes 0; 1..2 * poll n v9 => pending
poll 0 e1 => e1, done, wakes 1
poll 1 v4 => v4, done; inits => 3 polls, 2 drops

# one_task_is_woken_of_10
0..11 * try n; poll 0 p => pending, wakes 0; 1..11 * poll n v9 => pending
poll 0 e1 => e1, done, wakes 1
poll 1 v4 => v4, done, wakes 2 to 10
2..11 * poll n v9 => v4, done; inits => 3 polls, 11 drops

# one_task_is_woken_of_100
0..101 * try n; poll 0 p => pending, wakes 0; 1..101 * poll n v9 => pending
poll 0 e1 => e1, done, wakes 1
poll 1 v4 => v4, done, wakes 2 to 100
2..101 * poll n v9 => v4, done; inits => 3 polls, 101 drops

# claimed_without_a_call: who finds the right free without a call takes its listing out, which wakes its task once more
0..3 * try n; poll 0 p => pending, wakes 0; 1..3 * poll n v9 => pending
poll 0 e1 => e1, done, wakes 1
poll 2 v2 => v2, done, wakes 2; drop 2
poll 1 v9 => v2, done

# turn_passed_on_to_the_last: ten wait. Nine are called and dropped, one after another, and the tenth fills the cell
0..11 * try n; poll 0 p => pending, wakes 0; 1..11 * poll n v9 => pending
drop 0 => so, wakes 1; drop 1 => so, wakes 2; drop 2 => so, wakes 3; drop 3 => so, wakes 4; drop 4 => so, wakes 5
drop 5 => so, wakes 6; drop 6 => so, wakes 7; drop 7 => so, wakes 8; drop 8 => so, wakes 9; drop 9 => so, wakes 10
poll 10 v7 => v7, done; inits => 2 polls, 11 drops";

// Schedules without memory: a waiter that is refused takes nobody's turn, and one that was woken needs none.
const STARVED: &str = "\
# listed_beside_who_waits: where the list has room, one more who waits takes no memory
0..3 * try n; poll 0 p => pending, wakes 0; poll 1 v9 => pending
starve; poll 2 v9 => pending
poll 0 e1 => e1, done, wakes 1
poll 1 v1 => v1, done, wakes 2
poll 2 v9 => v1, done

# refused_beside_who_waits: eight wait, and the list has no room for a ninth, whose waker is let go
0..10 * try n; poll 0 p => pending, wakes 0; 1..9 * poll n v9 => pending
starve; poll 9 v9 => memory, done, wakes 9
poll 0 e1 => e1, done, wakes 1
poll 1 v1 => v1, done, wakes 2 to 8

# listed_anew_without_memory: who was called and finds another holder lists itself anew, where it was listed before
0..3 * try n; poll 0 p => pending, wakes 0; poll 1 v9 => pending
starve; poll 0 e1 => e1, done, wakes 1
poll 2 p => pending, wakes 2; poll 1 v9 => pending
poll 2 v4 => v4, done, wakes 1
poll 1 v9 => v4, done";

#[test]
fn memory_as_asked(rt: HostRuntime) {
    run(&rt, TURNS);
}

#[test]
fn starved(rt: HostRuntime) {
    run(&rt, STARVED);
}

#[test]
fn each_request_refused(rt: HostRuntime) -> Result<(), AllocError> {
    refuse_each(&rt, TURNS, 36)
}

#[test]
fn no_memory_kept(rt: HostRuntime) -> Result<(), AllocError> {
    run_in_little(&rt, TURNS, 10)
}
