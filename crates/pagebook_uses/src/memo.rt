// A memo of a key, of which it is promised beforehand what its value will be: ten times the key. So code that gets the
// value knows which it is, on any thread, and without a token.
ghost use Rattle.std.specs.Prelude.{◌≡◌, ◌*◌, ◌^◌, ◌<◌, IfSome};
ghost use Rattle.pagebook_uses.specs.Promise.{key_of};

use crate::shelf::{Filled, Filler, OneFill, Shelf, Stage};
use boxcar::tag::{Names, Tag};
use pagebook::{Fits, Seen};
use std::thread::{Threads, join};

/// The promise: the value is ten times the key.
pub struct TenTimes;

impl Fits<u64> for TenTimes {
    ghost use Rattle.pagebook_uses.specs.Promise.{IsTenTimes};

    ghost fits = { IsTenTimes };
}

// What it is promised about: the key.
struct Key;

impl Names<u64> for Key {
    ghost use Rattle.std.specs.Prelude.{[], ◌∷◌};

    ghost numbers = { λ key. key ∷ [] };
}

/// A memo, which threads share.
pub type Memo = Shelf<u64, TenTimes>;

/// An empty memo of a key, and the right to fill it.
pub fn memo_of(key: u64) -> (Memo, Filler)
    ensures book { result.1.pens.book ≡ result.0.ready.book }
    ensures key { key_of result.0.slot.about ≡ key }
{
    Shelf::promised(&Tag::of::<u64, Key>(&key))
}

/// The value, if it is there. No token says which it is.
///
/// Asked for: what was seen is of this memo.
pub fn get(memo: &Memo, front: &Seen<Filled, Stage, OneFill>) -> Option<u64>
    requires { front.now.book ≡ memo.now.ready.book }
    ensures { IfSome result (λ v. v ≡ 10 * key_of memo.now.slot.about) }
{
    let mut seen = front.again();
    match memo.look(&mut seen) {
        Some((value, _)) => Some(*value),
        None => None,
    }
}

/// Two threads get the value, and tell each other nothing. What each gets is ten times the key.
///
/// Asked for: what was seen is of this memo.
pub fn two_gets<R: Threads>(
    rt: &R,
    memo: &Memo,
    front: &Seen<Filled, Stage, OneFill>,
) -> (Option<u64>, Option<u64>)
    requires { front.now.book ≡ memo.now.ready.book }
    ensures { IfSome result.0 (λ v. v ≡ 10 * key_of memo.now.slot.about)
        × IfSome result.1 (λ v. v ≡ 10 * key_of memo.now.slot.about) }
{
    join(
        rt,
        ||
            requires { front.now.book ≡ memo.now.ready.book }
        { get(memo, front) },
        ||
            requires { front.now.book ≡ memo.now.ready.book }
        { get(memo, front) },
    )
}

/// One thread fills the memo while another gets the value, and then its owner takes it out.
///
/// Asked for: ten times the key is a number.
pub fn fill_and_take<R: Threads>(rt: &R, key: u64) -> (Option<u64>, Option<u64>)
    requires { 10 * key < 2 ^ 64 }
    ensures { IfSome result.0 (λ v. v ≡ 10 * key) × IfSome result.1 (λ v. v ≡ 10 * key) }
{
    let (memo, filler) = memo_of(key);
    let front = filler.seen.again();
    let got = filled_and_got(rt, &memo, filler, &front, key);
    (got, memo.take())
}

fn filled_and_got<R: Threads>(
    rt: &R,
    memo: &Memo,
    filler: Filler,
    front: &Seen<Filled, Stage, OneFill>,
    key: u64,
) -> Option<u64>
    requires filler { filler.pens.book ≡ memo.now.ready.book }
    requires front { front.now.book ≡ memo.now.ready.book }
    requires small { 10 * key < 2 ^ 64 }
    requires key { key_of memo.now.slot.about ≡ key }
    ensures { IfSome result (λ v. v ≡ 10 * key) }
{
    let (_, got) = join(
        rt,
        move ||
            requires filler { filler.pens.book ≡ memo.now.ready.book }
            requires small { 10 * key < 2 ^ 64 }
            requires key { key_of memo.now.slot.about ≡ key }
        { memo.fill(10 * key, filler) },
        ||
            requires { front.now.book ≡ memo.now.ready.book }
        { get(memo, front) },
    );
    got
}
