//! Inits that use another future of their cell: when they are polled, and when they are dropped.

use crate::doubles::schedule::run;

const SCHEDULES: &str = "\
# polls_another_and_fails: the other waits, and is woken by the failure. Its init fills the cell
uses 0 poll; poll 0 p => pending, wakes 0; found => Pending; is held 1 queue
poll 0 e9 => e9, done, wakes 1; found => Pending
other => pending, wakes 1
other => v4; is v4

# drops_who_waits: an init polls another future, which waits, and then drops it and gives the value. Nobody is left
uses 0 poll drop; poll 0 p => pending, wakes 0
poll 0 v6 => v6, done, wakes 1; found => Pending
other => unreadable; is v6

# polls_another_when_it_is_done: its init is dropped while the right is held still, so the other waits
uses 0 / poll; poll 0 p => pending, wakes 0
poll 0 v6 => v6, done, wakes 1; found => Pending
other => v6; is v6

# polls_another_when_its_future_is_dropped: the same of a holder that is dropped: the other is woken
uses 0 / poll; poll 0 p => pending, wakes 0
drop 0 => so, wakes 1; found => Pending
other => pending, wakes 1
other => v4; is v4

# leaves_after_the_value: a waiter is dropped, whose init polls the holder. That fills the cell before the waiter leaves
uses 0 / poll; other => pending, wakes 1
poll 0 p => pending
drop 0 => so, wakes 0; found => Value(4); is v4

# called_while_it_leaves: its init drops the holder, which wakes the one that leaves. That wakes the next
uses 0 / drop; init 2; other => pending, wakes 1
poll 0 p => pending; poll 2 p => pending
drop 0 => so, wakes 0, wakes 2
poll 2 p => pending, wakes 2
poll 2 v4 => v4, done; is v4

# right_taken_while_it_leaves: its init polls another, which takes the right. So no turn is passed on until that fills
init 0; uses 2 / poll; init 3; poll 0 p => pending, wakes 0; 2..4 * poll n p => pending
drop 0 => so, wakes 2
drop 2 => so, wakes 1; found => Pending
other => v4, wakes 3
poll 3 p => v4, done; is v4";

#[test]
fn another_future_used(rt: HostRuntime) {
    run(&rt, SCHEDULES);
}
