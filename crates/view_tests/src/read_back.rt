//! Reads pictures and tables of scripts at random back, and compares them with what the world says at each line.
//!
//! Of a picture it reads which tasks hold and which wait, polls and drops, which task wakes which, and the band of the
//! cell. Of a table it reads all. Nothing is shared with `once_view` but the words of docs/SCRIPTS.md and the classes
//! of shapes. The same seed always gives the same script.

use crate::same::same;
use once_view::range::LineRange;
use once_view::{Format, show_lines};
use script::{Played, play};
use script_doubles::chance::Chance;
use std::alloc::Global;
use std::ops::Range;
use std::test::Fail;
use tally::Tally;

mod picture;
mod script;
mod shapes;
mod story;
mod table;
mod tally;
mod words;

/// Some lines of a script, by their places, both included.
#[derive(Clone, Copy)]
struct Window {
    first: usize,
    last: usize,
}

/// A script as it is shown in this format.
fn shown(alloc: Global, format: Format, played: &Played, window: Window) -> Result<String, Fail> {
    let lines = &played.story.lines;
    let number = |place: usize| lines.get(place).map(|line| line.number);
    let range = LineRange::new(number(window.first), number(window.last))?;
    let mut output = Vec::new(alloc);
    if let Err(fault) = show_lines(alloc, format, range, played.script.as_bytes(), &mut output) {
        return Err(Fail::new(format_args!("of the seed {}: {fault:?}", played.story.seed)));
    }
    Ok(String::from_utf8_lossy(alloc, output.as_slice())?)
}

/// Reads what is shown of these lines.
fn read_back(
    alloc: Global,
    played: &Played,
    window: Window,
    tally: &mut Tally,
) -> Result<(), Fail> {
    let table = shown(alloc, Format::Table, played, window)?;
    table::compare(alloc, table.as_str(), &played.story, window, tally)?;
    let picture = shown(alloc, Format::Picture, played, window)?;
    picture::compare(alloc, picture.as_str(), &played.story, window, tally)
}

/// Plays the script of a seed, and reads all of it back, and some lines of it.
fn read_seed(alloc: Global, seed: u64, tally: &mut Tally) -> Result<(), Fail> {
    let played = play(alloc, seed)?;
    tally.count(&played.story)?;
    let many = played.story.lines.len();
    let last = many.saturating_sub(1);
    read_back(alloc, &played, Window { first: 0, last }, tally)?;
    let mut chance = Chance::new(seed);
    let first = chance.draw(many as u64) as usize;
    let more = chance.draw(many.saturating_sub(first) as u64) as usize;
    let last = first.saturating_add(more).min(last);
    read_back(alloc, &played, Window { first, last }, tally)
}

/// Reads back the script of each of these seeds, and tells how much was compared, and how many words for where a task
/// stands were seen: all are 17 for steps, and 4 others.
fn tallied(alloc: Global, seeds: Range<u64>) -> Result<String, Fail> {
    let mut tally = Tally::new(alloc);
    for seed in seeds {
        read_seed(alloc, seed, &mut tally)?;
    }
    Ok(format!(in alloc; "{tally}")?)
}

#[test]
fn scripts_1_to_30(rt: HostRuntime) -> Result<(), Fail> {
    let wanted =
        "1367 lines, 33018 cells, 630 bars, 13 arrows, 88 names; 17 words for steps, 4 others";
    same(&rt, tallied(rt.alloc(), 1..31)?.as_str(), wanted);
    Ok(())
}

#[test]
fn scripts_31_to_186(rt: HostRuntime) -> Result<(), Fail> {
    let wanted =
        "7948 lines, 207096 cells, 3674 bars, 74 arrows, 410 names; 17 words for steps, 4 others";
    same(&rt, tallied(rt.alloc(), 31..187)?.as_str(), wanted);
    Ok(())
}

#[test]
fn scripts_187_to_343(rt: HostRuntime) -> Result<(), Fail> {
    let wanted =
        "7853 lines, 205395 cells, 3637 bars, 63 arrows, 408 names; 17 words for steps, 4 others";
    same(&rt, tallied(rt.alloc(), 187..344)?.as_str(), wanted);
    Ok(())
}

#[test]
fn scripts_344_to_500(rt: HostRuntime) -> Result<(), Fail> {
    let wanted =
        "8450 lines, 226729 cells, 3889 bars, 91 arrows, 450 names; 17 words for steps, 4 others";
    same(&rt, tallied(rt.alloc(), 344..501)?.as_str(), wanted);
    Ok(())
}
