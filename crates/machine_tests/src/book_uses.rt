//! The uses of `pagebook` at work, most of them by two threads; and the sizes and the lock of `pagebook`.
ghost use Rattle.pagebook.specs.Pages.{of_book};
ghost use Rattle.std.specs.Prelude.{◌≡◌};

use crate::same::{same, same_text};
use pagebook::{Blanks, Key, Keyed, KeyedMutex, Pens, Seen, Slot, Word, Written};
use pagebook_uses::first::race;
use pagebook_uses::hall::{Arrival, Desk, HallRule, Page, visits};
use pagebook_uses::shelf::{Filled, OneFill, Shelf, Stage, fill_and_look, two_looks};
use pagebook_uses::tickets::draw_apart;
use pagebook_uses::turns::play;
use std::alloc::{AllocError, AllocGlobal};
use std::marker::Brand;
use std::mem::size_of;
use std::sync::{Mutex, Wait};
use std::test::Fail;

/// How often each thread goes in and out, or tries.
const TIMES: u32 = 500;

/// What is ghost takes no bytes, and the state of a slot is ghost. A lock whose content is of a book takes as many as
/// any lock.
#[test]
fn what_is_ghost_has_no_bytes(rt: HostRuntime) {
    let sizes = [
        size_of::<Word<Arrival, Page, HallRule>>(),
        size_of::<Seen<Arrival, Page, HallRule>>(),
        size_of::<Pens<Page>>(),
        size_of::<Blanks>(),
        size_of::<Written<u64>>(),
    ];
    let slot = size_of::<Slot<u64, Filled, Stage, OneFill>>() == size_of::<Option<u64>>();
    let lock = size_of::<KeyedMutex<Desk>>() == size_of::<Mutex<u64>>();
    same(&rt, "a word, and what is ghost", sizes, [8, 0, 0, 0, 0]);
    same(&rt, "a slot, and a lock", [slot, lock], [true, true]);
}

/// Just one of two threads is told that it came first.
#[test]
fn one_of_two_comes_first(rt: HostRuntime) {
    let (one, two) = race(&rt);
    same(&rt, "whether the second came first", two, !one);
}

/// Two threads visit 500 times each. All visits are counted, and nobody is inside at the end.
#[test]
fn all_visitors_are_counted_and_gone(rt: HostRuntime) {
    let (inside, entered, _log) = visits(&rt, TIMES);
    same(
        &rt,
        "who is inside, and who came",
        [inside, entered],
        [0, 1000],
    );
}

/// The first player hits at least once, and as often as the second or once more.
#[test]
fn players_hit_in_turn(rt: HostRuntime) {
    let (pings, pongs, _log) = play(&rt, TIMES);
    let ahead = pings.checked_sub(pongs);
    let in_turn = pings >= 1 && (ahead == Some(0) || ahead == Some(1));
    same(
        &rt,
        "hits, in turn",
        (pings, pongs, in_turn),
        (pings, pongs, true),
    );
}

/// Two threads draw two numbers each, which are 0 to 3. Of the four draws another thread makes two, so a draw is
/// refused twice at most.
#[test]
fn four_numbers_are_drawn(rt: HostRuntime) {
    // 9 is no number that is drawn.
    let (a, b, c, d) = draw_apart(&rt, 3).unwrap_or((9, 9, 9, 9));
    let mut numbers = [a, b, c, d];
    numbers.sort_unstable();
    same(&rt, "the numbers", numbers, [0, 1, 2, 3]);
}

/// Two threads find nothing before a fill, and the value after it. Nothing comes out of an empty shelf.
#[test]
fn a_shelf_is_filled_and_both_find_the_value(rt: HostRuntime) {
    let (shelf, filler) = Shelf::<u64>::new();
    let front = filler.seen.again();
    let before = two_looks(&rt, &shelf, &front);
    let (_token, seen) = shelf.fill(7, filler);
    front.agrees(&seen);
    let after = two_looks(&rt, &shelf, &seen);
    let (empty, _filler) = Shelf::<u64>::new();
    let wanted = ((None, None), (Some(7), Some(7)), None);
    same(
        &rt,
        "before, after, and empty",
        (before, after, empty.take()),
        wanted,
    );
}

/// A look after one beside a fill finds the value.
#[test]
fn a_look_after_a_fill_finds_the_value(rt: HostRuntime) {
    let (shelf, filler) = Shelf::<u64>::new();
    let front = filler.seen.again();
    let _ = fill_and_look(&rt, &shelf, filler, &front, 5);
    let after = two_looks(&rt, &shelf, &front);
    same(&rt, "after the fill", after, (Some(5), Some(5)));
}

/// A lock's content, which is of the book that its number stands for.
#[derive(Debug, Drop)]
struct Tally {
    number: u64,
    sum: u64,
}

impl Keyed for Tally {
    ghost key_of = { λ t. of_book (record { number = t.number; words_name = 0; pages_name = 0; log_name = 0 }) };
}

// Adds under the lock, whose content keeps its book.
fn add<J: Key, R: Wait>(rt: &R, lock: &KeyedMutex<Tally>, more: u64) -> u64
    requires { lock.now ≡ J.key }
    ensures { result ≡ J.key.book.number }
{
    let mut held = lock.lock::<J, R>(rt);
    held.value.sum = held.value.sum.wrapping_add(more);
    held.value.number
}

// What the lock shows while somebody holds it.
fn shown_held<J: Key, R: Wait + AllocGlobal>(
    rt: &R,
    lock: &KeyedMutex<Tally>,
) -> Result<String, AllocError>
    requires { lock.now ≡ J.key }
{
    let held = lock.lock::<J, R>(rt);
    let text = format!(in rt.alloc(); "{lock:?}")?;
    drop(held);
    Ok(text)
}

/// Calls under a lock find the number of its book. While nobody holds the lock, it shows its content.
#[test]
fn a_lock_keeps_its_book_and_shows_its_content(rt: HostRuntime) -> Result<(), Fail> {
    let mut lock = KeyedMutex::new(Tally { number: 7, sum: 0 });
    let numbers = (
        add::<Brand, _>(&rt, &lock, 3),
        add::<Brand, _>(&rt, &lock, 4),
    );
    let free = format!(in rt.alloc(); "{lock:?}")?;
    let held = shown_held::<Brand, _>(&rt, &lock)?;
    let sum = lock.get_mut(
        5,
        |tally: Tally, more: u64| -> (Tally, u64)
            ensures { result.0.number ≡ tally.number }
        {
            let (number, sum) = (tally.number, tally.sum.wrapping_add(more));
            (Tally { number, sum }, sum)
        },
    );
    let last = lock.into_inner();
    let found = [numbers.0, numbers.1, sum, last.number, last.sum];
    same(&rt, "the numbers and sums", found, [7, 7, 12, 7, 12]);
    let shown = "KeyedMutex { data: Tally { number: 7, sum: 7 }, .. }";
    same_text(&rt, "free", free.as_str(), shown);
    let locked = "KeyedMutex { data: \"<locked>\", .. }";
    same_text(&rt, "held", held.as_str(), locked);
    Ok(())
}
