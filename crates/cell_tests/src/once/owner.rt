//! The calls of the cell's owner.

use crate::doubles::schedule::run;

const SCHEDULES: &str = "\
# value_of_the_owner: a cell that is made with a value lends it, changes it and gives it away, and is empty then
owner with 5 => None
owner write 6 => Some(5); is v6
owner take => Some(6); is free; look => ([None, None], Known(None), Known(None))
owner write 7 => None
owner take => None
end => [None, None], 0 polls, 1 drops

# made_by_default
owner default => None; is free
end => [None, None], 0 polls, 1 drops

# taken_apart
owner with 5 => None
end => [Some(5), None], 0 polls, 1 drops

# made_from_a_value
owner from 7 => None
owner default => Some(7)
end => [None, None], 0 polls, 1 drops

# written_beside_a_queue: a value may be written while a queue stands, which a forgotten future left
0..2 * init n; poll 0 p => pending, wakes 0; poll 1 p => pending
poll 0 v4 => v4, done, wakes 1; drop 0; forget 1; is v4 1 queue
owner write 6 => Some(4); look => ([Some(6), Some(6)], Known(None), Known(Some(6)))

# nothing_to_write_beside_a_holder: a cell that is not set is left as it is, whichever futures were forgotten there
init 0; poll 0 p => pending, wakes 0; forget 0
owner write 6 => None; is held
init 0; poll 0 p => pending; forget 0
owner write 6 => None; is held 1 queue

# written_after_a_fill: polls and tokens are told the written value, and no other init is polled
init 0; poll 0 v4 => v4, done; look => ([Some(4), Some(4)], Known(None), Known(Some(4)))
owner write 6 => Some(4)
init 0; poll 0 v4 => v6, done; look => ([Some(6), Some(6)], Known(None), Known(Some(6))); inits => 1 polls, 2 drops
owner write 6 => Some(6)
owner take => Some(6)
end => [None, None], 1 polls, 3 drops";

#[test]
fn calls_of_the_owner(rt: HostRuntime) {
    run(&rt, SCHEDULES);
}
