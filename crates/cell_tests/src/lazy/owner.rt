//! The calls of the cell's owner.

use crate::doubles::schedule::run;

const SCHEDULES: &str = "\
# one_in_place_of_another: the value of the one before comes out, and a future that is left is dropped
owner replace 7 => None; inits => 0 polls, 1 drops
owner replace 8 => Some(7); lazy v8
owner renew => Some(8); lazy free; inits => 0 polls, 1 drops
owner renew => None; inits => 0 polls, 2 drops; lazy free
end => [None, None], 0 polls, 3 drops

# value_lent_for_writing: a value is lent for writing, and given away at the end
owner replace 7 => None
owner lend 8 => Some(7); lazy v8
end => [None, Some(8)], 0 polls, 1 drops

# nothing_to_lend: there is nothing to lend before the first poll
owner lend 8 => None; lazy free; inits => 0 polls, 0 drops

# value_of_the_future_written: a value that the cell's future gave may be written, and then the written one is told
get 0; poll 0 v4 => v4, done
owner lend 8 => Some(4)
get 0; poll 0 v9 => v8, done; inits => 1 polls, 1 drops
end => [None, Some(8)], 1 polls, 1 drops

# value_of_the_future_given_away
get 0; poll 0 v4 => v4, done
owner replace 5 => Some(4)
end => [None, Some(5)], 1 polls, 1 drops

# no_value_before_a_poll: a future that would give its value at the first poll is not polled to get it
end v9 => [None, None], 0 polls, 1 drops

# unused_future_dropped: a cell drops its future at its own end, if nobody had its value
gone => [None, None], 0 polls, 1 drops

# future_handed_back: a future that was not done comes back as it was left, and goes on where it stood
get 0; poll 0 p => pending, wakes 0; inits => 1 polls, 0 drops
apart v9 => [None, Some(9)], 2 polls, 1 drops

# value_handed_back: and a value comes out, also one that the future gave
owner replace 7 => None
apart v9 => [None, Some(7)], 0 polls, 1 drops

# value_of_the_future_handed_back
get 0; poll 0 v9 => v9, done
apart v8 => [None, Some(9)], 1 polls, 1 drops";

#[test]
fn calls_of_the_owner(rt: HostRuntime) {
    run(&rt, SCHEDULES);
}
