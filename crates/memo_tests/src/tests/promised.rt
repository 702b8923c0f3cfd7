//! A table that promises its values: each is ten times its key. So callers that have no token know what they are told,
//! on any thread; and the owner of one such cell what it takes out of it.
ghost use Rattle.std.specs.Prelude.{◌≡◌, ◌*◌, ◌^◌, ◌<◌, [], ◌∷◌, true, IfOk, IfSome};
ghost use Rattle.async_once_cell.specs.Views.{about_of, is_shared};

use super::{Hosts, same};
use crate::callers::{Host, looked, told};
use async_once_cell::OnceCell;
use boxcar::tag::Tag;
use memo_table::fault::Fault;
use memo_table::fetch::{Fetch, TenTimes};
use memo_table::table::{Key, Memo};
use std::sync::atomic::{AtomicU64, Ordering};
use std::test::Fail;
use std::thread;

// The keys of the table.
const KEYS: [u64; 3] = [5, 6, 7];

/// One thread asks while another looks, and they tell each other nothing. What each is told is ten times the key.
fn told_and_looked<R: Hosts>(
    rt: &R,
    memo: &Memo<u64, TenTimes>,
    fetches: &AtomicU64,
    key: u64,
) -> (Result<u64, Fault>, Option<u64>)
    requires { key * 10 < 2 ^ 64 }
    ensures { IfOk result.0 (λ value. value ≡ key * 10) × IfSome result.1 (λ value. value ≡ key * 10) }
{
    thread::join(
        rt,
        ||
            requires { key * 10 < 2 ^ 64 }
        { told(rt, memo, fetches, key) },
        || looked(memo, key),
    )
}

/// The value for a caller of one cell. A fetch gives ten times the key, as the cell asks of each init.
fn asked<R: Host>(
    rt: &R,
    cell: &OnceCell<u64, TenTimes>,
    key: u64,
    fetches: &AtomicU64,
) -> Result<u64, Fault>
    requires shared { is_shared cell.now ≡ true }
    requires about { about_of cell.now ≡ key ∷ [] }
    requires small { key * 10 < 2 ^ 64 }
    ensures { IfOk result (λ value. value ≡ key * 10) }
{
    let value = cell.get_or_init(rt, Fetch::new(key, fetches)).wait()??;
    Ok(*value)
}

/// The value that the owner takes, twice: the second time from the cell that was left, which promises the same.
fn taken_twice<R: Host>(rt: &R, key: u64) -> Result<(Option<u64>, Option<u64>), Fault>
    requires { key * 10 < 2 ^ 64 }
    ensures { IfOk result (λ taken. IfSome taken.0 (λ value. value ≡ key * 10)
        × IfSome taken.1 (λ value. value ≡ key * 10)) }
{
    let mut cell = OnceCell::<u64, TenTimes>::promised(&Tag::of::<u64, Key>(&key));
    let fetches = AtomicU64::new(0);
    asked(rt, &cell, key, &fetches)?;
    let first = cell.take();
    asked(rt, &cell, key, &fetches)?;
    Ok((first, cell.take()))
}

// What is told of two keys, and of the first again, and how many were fetched. The value of another key is never asked
// for.
fn told_in_turn<R: Host>(rt: &R, memo: &Memo<u64, TenTimes>) -> Result<([u64; 3], u64), Fault> {
    let fetches = AtomicU64::new(0);
    let values = [
        told(rt, memo, &fetches, 7)?,
        told(rt, memo, &fetches, 5)?,
        told(rt, memo, &fetches, 7)?,
    ];
    Ok((values, fetches.load(Ordering::SeqCst)))
}

/// A key that was asked for is fetched once, and another never.
#[test]
fn values_of_keys(rt: HostRuntime) -> Result<(), Fail> {
    let keys = Vec::from_array(rt.alloc(), KEYS)?;
    let memo = Memo::<u64, TenTimes>::promised(rt.alloc(), keys)?;
    let told = told_in_turn(&rt, &memo)?;
    same(&rt, "values, fetches", told, ([70, 50, 70], 2));
    Ok(())
}

/// A thread that looks while another asks finds the value, or none yet.
#[test]
fn a_look_beside_a_fetch(rt: HostRuntime) -> Result<(), Fail> {
    let keys = Vec::from_array(rt.alloc(), KEYS)?;
    let memo = Memo::<u64, TenTimes>::promised(rt.alloc(), keys)?;
    let (told, seen) = told_and_looked(&rt, &memo, &AtomicU64::new(0), 7);
    same(&rt, "told, seen", (told?, seen.unwrap_or(70)), (70, 70));
    Ok(())
}

/// The owner of a cell takes the value that was fetched, each time.
#[test]
fn values_of_an_owner(rt: HostRuntime) -> Result<(), Fail> {
    let taken = taken_twice(&rt, 7)?;
    same(&rt, "taken twice", taken, (Some(70), Some(70)));
    Ok(())
}
