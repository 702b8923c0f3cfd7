//! Tokens: what they know, and what a poll with one does.

use crate::doubles::schedule::run;

const SCHEDULES: &str = "\
# token_of_a_poll: a token learns the value by a poll, and another by a look
ask v4 => v4, done, Known(Some(4)), 1 drops; look => ([Some(4), Some(4)], Known(None), Known(Some(4)))
inits => 1 polls, 1 drops; is v4

# path_of_a_token: a token that knows the value answers it, and the init is dropped and not polled
owner with 4 => None; know v9 => v4, done, Known(Some(4)), 1 drops; inits => 0 polls, 1 drops; is v4

# token_of_a_fill: a token learns by a look what an init gave, and keeps it
look => ([None, None], Known(None), Known(None))
init 0; poll 0 v5 => v5, done; look => ([Some(5), Some(5)], Known(None), Known(Some(5)))

# token_of_the_owner: and what its owner made it with
owner with 4 => None; look => ([Some(4), Some(4)], Known(None), Known(Some(4)))

# one_poll_with_a_token: a poll with a token polls the init once
ask p => pending, wakes 0, Known(None), 0 drops; inits => 1 polls, 1 drops; is free";

#[test]
fn polls_and_looks_with_tokens(rt: HostRuntime) {
    run(&rt, SCHEDULES);
}
