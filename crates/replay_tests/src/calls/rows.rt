//! Worked schedules of whole calls, as lines for `once_replay` with `; ` between two. What stands between a `poll` and
//! its `run` is done in the middle of that poll.

use super::whole::Reader;
use super::{Part, Player, Wakers};
use once_script::parse::{Opening, parse_line, parse_opening};
use once_script::world::Ran;
use std::alloc::AllocGlobal;
use std::cell::Cell;
use std::random::RandomSource;
use std::sync::Wait;
use std::test::Fail;

const ROWS: &str = "\
# plain_path: one makes the value, and a later one finds it
once 8; make 1; poll 1 7; run 1 v4; make 2; poll 2 7; run 2 e9

# slow_path: one waits, and polls again before it is called
once 8; make 1; make 2; poll 1 7; run 1 p; poll 2 7; run 2 e9; poll 2 7; run 2 e9; poll 1 7; run 1 v2;
poll 2 7; run 2 e9

# second_try: one fails, and the next makes the value. One waker is that of all
once 8; make 1; make 2; make 3; make 4; poll 1 7; run 1 p; poll 2 7; run 2 v9; poll 3 7; run 3 v9;
poll 4 7; run 4 v9; poll 2 7; run 2 v9; poll 1 7; run 1 e1; drop 4; run 4 p; make 5; poll 2 7; run 2 p;
poll 3 7; run 3 v9; poll 2 7; run 2 v2; poll 5 7; run 5 v9; poll 3 7; run 3 v9

# second_try_of_each: the same if each has its own
once 8; make 1; make 2; make 3; make 4; poll 1 1; run 1 p; poll 2 2; run 2 v9; poll 3 3; run 3 v9;
poll 4 4; run 4 v9; poll 2 2; run 2 v9; poll 1 1; run 1 e1; drop 4; run 4 p; make 5; poll 2 2; run 2 p;
poll 3 3; run 3 v9; poll 2 2; run 2 v2; poll 5 5; run 5 v9; poll 3 3; run 3 v9

# came_after_a_failure: a queue stands that nobody waits in, and the holder has failed
once 8; make 1; make 2; make 3; poll 1 5; run 1 p; poll 2 7; run 2 p; drop 2; run 2 p; poll 1 5; run 1 e5;
poll 3 9; run 3 v6

# came_before_a_failure: the same if it comes before, and waits in that queue
once 8; make 1; make 2; make 3; poll 1 5; run 1 p; poll 2 7; run 2 p; drop 2; run 2 p; poll 3 9; run 3 p;
poll 1 5; run 1 e5; poll 3 9; run 3 v6

# two_wait: at a cell, whose limit nobody reaches
once 8; make 1; make 2; make 3; poll 1 5; run 1 p; poll 2 7; run 2 p; poll 3 9; run 3 p

# two_wait_for_a_failure: the first is called, and its value calls the other
once 8; make 1; make 2; make 3; poll 1 5; run 1 p; poll 2 7; run 2 p; poll 3 9; run 3 p; poll 1 5; run 1 e5;
poll 2 7; run 2 v6; poll 3 9; run 3 p

# value_for_three: three wait, and the value calls each as it was listed
once 8; make 1; make 2; make 3; make 4; poll 1 5; run 1 p; poll 4 9; run 4 p; poll 2 7; run 2 p;
poll 3 8; run 3 p; poll 1 5; run 1 v4; poll 2 7; run 2 p; poll 3 8; run 3 p; poll 4 9; run 4 p

# claimed_without_a_call: one who waits comes before the one who was called, and takes its own listing out
once 8; make 1; make 2; make 3; poll 1 5; run 1 p; poll 3 8; run 3 p; poll 2 7; run 2 p; poll 1 5; run 1 e9;
poll 2 7; run 2 e4; poll 3 8; run 3 v6

# turn_passed_on: the one who was called is dropped, and calls the next
once 8; make 1; make 2; make 3; poll 1 5; run 1 p; poll 2 7; run 2 p; poll 3 8; run 3 p; poll 1 5; run 1 e9;
drop 2; run 2 p; poll 3 8; run 3 v4

# late_queue: one makes a queue while the holder fills the cell and is gone
once 8; make 1; make 2; poll 1 5; run 1 p; poll 2 7; go 2 p; go 2 p; poll 1 5; run 1 v4; run 2 p

# within_the_init: an init polls another future, looks, and drops it
once 8; make 1; make 2; poll 1 5; go 1 p; go 1 p; poll 2 7; run 2 p; look; drop 2; run 2 p; run 1 v6

# changed_waker: one who waits comes with another waker
once 8; make 1; make 2; poll 1 5; run 1 p; poll 2 7; run 2 p; poll 2 8; run 2 p; poll 1 5; run 1 v3

# came_to_a_set_cell: while one who was called is not told the value yet
once 8; make 1; make 2; make 3; poll 1 5; run 1 p; poll 2 7; run 2 p; poll 1 5; run 1 v4; poll 3 9; run 3 p;
poll 2 7; run 2 p

# dropped_quick_holder: it calls the one who waits
once 8; make 1; make 2; poll 1 5; run 1 p; poll 2 7; run 2 p; drop 1; run 1 p; poll 2 7; run 2 v3";

// Schedules in which all memory is taken during a poll.
const REFUSED: &str = "\
# queue_refused: who would wait is refused a queue, and is gone. The next one waits
once 8; make 1; make 2; make 3; poll 1 5; run 1 p; poll 2 7; run 2 p x; poll 3 9; run 3 p; poll 1 5; run 1 v4;
poll 3 9; run 3 p

# nothing_asked: who holds, waits already, or is called needs no memory
once 8; make 1; make 2; poll 1 5; run 1 p x; poll 2 7; run 2 p; poll 2 7; run 2 p x; poll 1 5; run 1 e5 x;
poll 2 7; run 2 v4 x

# listing_refused: eight wait, and a ninth is refused a listing
once 16; make 1; make 2; make 3; make 4; make 5; make 6; make 7; make 8; make 9; make 10; poll 1 1; run 1 p;
poll 2 2; run 2 p; poll 3 3; run 3 p; poll 4 4; run 4 p; poll 5 5; run 5 p; poll 6 6; run 6 p;
poll 7 7; run 7 p; poll 8 8; run 8 p; poll 9 9; run 9 p; poll 10 10; run 10 p x; poll 1 1; run 1 e5;
poll 2 2; run 2 v6";

fn play_text<R: Wait + AllocGlobal>(player: &Player<'_, R>, text: &str) -> Result<(), Fail> {
    let (alloc, name) = (player.rt.alloc(), player.name);
    let mut reader = Reader::new(alloc);
    let (first, lines) = text.split_once(';').unwrap_or((text, ""));
    for line in lines.split(';') {
        match parse_line(alloc, line.trim())? {
            Some(line) => reader.read(line)?,
            None => return Err(Fail::new(format_args!("in {name} is unreadable: {line}"))),
        }
    }
    let part = Part {
        rows: reader.rows,
        last: None,
    };
    match parse_opening(alloc, first)? {
        Some(Opening { kind, limit: _ }) => player.play(kind, vec![in alloc; part]?),
        None => Err(Fail::new(format_args!("in {name} is unreadable: {first}"))),
    }
}

fn play_texts<R: Wait + AllocGlobal + RandomSource>(rt: &R, texts: &str) -> Result<(), Fail> {
    let answer = Cell::new(Ran::Pending);
    for text in texts.split("\n\n") {
        let wakers = Wakers::new(rt)?;
        let (name, script) = text.split_once('\n').unwrap_or((text, ""));
        let player = Player {
            rt,
            wakers: &wakers,
            answer: &answer,
            name,
        };
        play_text(&player, script)?;
    }
    Ok(())
}

#[test]
fn worked_schedules(rt: HostRuntime) -> Result<(), Fail> {
    play_texts(&rt, ROWS)
}

#[test]
fn memory_refused(rt: HostRuntime) -> Result<(), Fail> {
    play_texts(&rt, REFUSED)
}
