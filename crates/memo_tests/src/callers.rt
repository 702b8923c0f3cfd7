//! What a caller can say of a table that promises its values, by the clauses of the table alone. Each function has an
//! edit in `must-fail`, with which it answers something else.
ghost use Rattle.std.specs.Prelude.{◌≡◌, ◌*◌, ◌^◌, ◌<◌, IfOk, IfSome};

use memo_table::ask::{TURNS, ask};
use memo_table::fault::Fault;
use memo_table::fetch::TenTimes;
use memo_table::table::Memo;
use std::alloc::AllocGlobal;
use std::random::RandomSource;
use std::sync::Wait;
use std::sync::atomic::AtomicU64;
use std::time::Clock;

/// A handle for all that a caller needs.
pub trait Host: Wait + RandomSource + AllocGlobal + Clock {}

impl<R: Wait + RandomSource + AllocGlobal + Clock> Host for R {}

/// The value of a key. No token says which it is: it is ten times the key.
pub fn told<R: Host>(
    rt: &R,
    memo: &Memo<u64, TenTimes>,
    fetches: &AtomicU64,
    key: u64,
) -> Result<u64, Fault>
    requires { key * 10 < 2 ^ 64 }
    ensures { IfOk result (λ value. value ≡ key * 10) }
{
    let answer = ask(rt, memo, fetches, key, TURNS)?;
    Ok(answer.value)
}

/// The same, if the value is there.
pub fn looked(memo: &Memo<u64, TenTimes>, key: u64) -> Option<u64>
    ensures { IfSome result (λ value. value ≡ key * 10) }
{
    let value = memo.cell(key)?.get()?;
    Some(*value)
}
