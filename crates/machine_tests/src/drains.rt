//! Worlds that are drained. Each text has schedules in the form of `test_doubles::schedule`, whose lines lead to a
//! world. After the last `=>` stands how draining it ends, and what that adds to the record.

ghost use Rattle.std.specs.Prelude.{IfOk};
ghost use Rattle.once_script.specs.Reached.{IsReached};

use once_drained::drain;
use once_script::fault::Fault;
use once_script::parse::{Script, parse_script};
use once_script::play::take_line;
use once_script::print::EntryLine;
use once_script::world::{Ran, World};
use std::alloc::{AllocError, Global};
use std::test::Fail;
use test_doubles::schedule::schedules_in;

// Each init gives the value 9.
const VALUES: &str = "\
# fresh: a task that was never polled sets the value
once 8
make 1
=> All, begin 1 1, claim 1, ran 1 v9, fill 1 9 [], end 1 v9

# rests_with_the_right: the holder is polled, and the task that waits for it is woken
once 8
make 1
make 2
poll 1 5
run 1 p
poll 2 7
run 2 p
=> All, begin 1 1, ran 1 v9, fill 1 9 [7], end 1 v9, begin 2 2, end 2 v9

# turn_passed_on: the task that was woken is in its drop, which passes the turn on
once 8
make 1
make 2
make 3
poll 1 5
run 1 p
poll 2 7
run 2 p
poll 3 8
run 3 p
drop 1
run 1 p
drop 2
=> All, pass 2 [8], dropend 2, begin 3 3, claim 3, ran 3 v9, fill 3 9 [], end 3 v9

# under_way: a poll is under way, and waits for the holder as it ends
once 8
make 1
make 2
poll 1 5
run 1 p
poll 2 7
go 2 p
=> All, end 2 p, begin 1 1, ran 1 v9, fill 1 9 [7], end 1 v9, begin 2 2, end 2 v9

# full: no more than one task may be counted in
once 1
make 1
make 2
make 3
poll 1 5
run 1 p
poll 2 7
run 2 p
=> All, begin 1 1, ran 1 v9, fill 1 9 [7], end 1 v9, begin 2 2, end 2 v9, begin 3 3, end 3 v9

# lazy: the init of the cell gives its own values
lazy 8 p v4
make 1
make 2
poll 1 5
run 1 p
poll 2 7
run 2 p
=> All, begin 1 1, ran 1 v4, fill 1 4 [7], end 1 v4, begin 2 2, end 2 v4

# lazy_pending: it has no answer left, so its task keeps the right
lazy 8 p
make 1
make 2
poll 1 5
run 1 p
poll 2 7
run 2 p
=> Pending(1), begin 1 1, ran 1 p, end 1 p
";

// Each init fails with the error 9.
const ERRORS: &str = "\
# one_after_the_other: the failure of the holder wakes the task that waits
once 8
make 1
make 2
poll 1 5
run 1 p
poll 2 7
run 2 p
=> All, begin 1 1, ran 1 e9, free 1 [7], end 1 e9, begin 2 2, claim 2, ran 2 e9, free 2 [], end 2 e9

# woken_one_first: the task that waits and was not woken is polled only when the one before it failed too
once 8
make 1
make 2
make 3
poll 1 5
run 1 p
poll 2 8
run 2 p
poll 3 7
run 3 p
drop 1
run 1 p
poll 2 8
run 2 e4
=> All, begin 3 3, claim 3, ran 3 e9, free 3 [], end 3 e9
";

// The world to which a script leads, and how many lines it has.
fn replayed(alloc: Global, text: &str) -> Result<World, Fault>
    ensures { IfOk result (λ world. IsReached world) }
{
    let Script { kind, limit, lines } = parse_script(alloc, text.as_bytes())?;
    let mut world = World::new(alloc, kind, limit);
    for line in &lines {
        take_line(&mut world, line)?;
    }
    Ok(world)
}

// How draining a world ends, and what it adds to the record.
fn drained(alloc: Global, mut world: World, answer: Ran) -> Result<String, AllocError>
    requires { IsReached world }
{
    let before = world.entries().len();
    let drained = drain(alloc, &mut world, answer)?;
    let mut text = format!(in alloc; "{drained:?}")?;
    for entry in world.entries().get(before..).unwrap_or(&[]) {
        write!(text, ", {}", EntryLine(entry))?;
    }
    Ok(text)
}

// Drains the world of each schedule.
fn drains(alloc: Global, text: &str, answer: Ran) -> Result<(), Fail> {
    for schedule in &schedules_in(alloc, text)? {
        let script = schedule.script(alloc)?;
        let mut came = Vec::new(alloc);
        for _ in script.lines() {
            came.push(String::new(alloc))?;
        }
        let world = replayed(alloc, script.as_str())?;
        came.push(drained(alloc, world, answer)?)?;
        schedule.check(&came)?;
    }
    Ok(())
}

#[test]
fn a_world_is_drained(rt: HostRuntime) -> Result<(), Fail> {
    drains(rt.alloc(), VALUES, Ran::Value(9))?;
    drains(rt.alloc(), ERRORS, Ran::Error(9))
}
