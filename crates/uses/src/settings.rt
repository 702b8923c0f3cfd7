//! Settings that are read once, when they are first asked for.
ghost use Rattle.std.specs.Prelude.{◌≡◌, Some, IfOk};
ghost use Rattle.async_once_cell.specs.Tokens.{Agrees};

use crate::fault::Fault;
use async_once_cell::Lazy;
use async_once_cell::once::Known;
use futures::Future;
use futures::task::{Context, Poll};
use std::alloc::AllocGlobal;
use std::cell::Cell;
use std::fs::{self, Files};
use std::io::ErrorKind;
use std::random::RandomSource;
use std::sync::Wait;

/// What a file of settings says.
#[derive(Clone, Copy, Debug)]
pub struct Settings {
    workers: u64,
    seconds: u64,
}

/// Why a file has no settings.
#[derive(Clone, Copy, Debug)]
pub enum Unread {
    File(ErrorKind),
    NoSettings,
}

type Outcome = Result<Settings, Unread>;

/// The init: it reads a file, and counts that.
#[derive(Drop)]
struct Reading<'a, R> {
    rt: &'a R,
    path: &'a str,
    reads: &'a Cell<u64>,
}

impl<R: Files + AllocGlobal> Future for Reading<'_, R> {
    type Output = Outcome;

    fn poll(&mut self, _cx: &mut Context<'_>) -> Poll<Outcome> {
        self.reads.set(self.reads.get().saturating_add(1));
        Poll::Ready(read(self.rt, self.path))
    }
}

fn read<R: Files + AllocGlobal>(rt: &R, path: &str) -> Outcome {
    match fs::read_to_string(rt, path) {
        Ok(text) => settings_in(text.as_str()).ok_or(Unread::NoSettings),
        Err(error) => Err(Unread::File(error.kind())),
    }
}

fn settings_in(text: &str) -> Option<Settings> {
    Some(Settings {
        workers: number_of(text, "workers ")?,
        seconds: number_of(text, "seconds ")?,
    })
}

fn number_of(text: &str, name: &str) -> Option<u64> {
    text.lines()
        .find_map(|line| line.strip_prefix(name))?
        .parse::<u64>()
        .ok()
}

/// What a file says. It is read at the first call alone: a caller whose token knows the outcome is told the
/// same, also if the file could not be read.
fn settings_of<'v, R>(
    rt: &'v R,
    lazy: &'v Lazy<Outcome, Reading<'_, R>>,
    token: &mut Known<'v, Outcome>,
) -> Result<Outcome, Fault>
where
    R: Files + Wait + RandomSource + AllocGlobal,
    requires { token.old.cell ≡ lazy.now }
    ensures cell { token.new.cell ≡ token.old.cell }
    ensures value { IfOk result (λ outcome. token.new.value ≡ Some outcome) }
    ensures same { IfOk result (λ outcome. Agrees token.old.value outcome) }
{
    Ok(*lazy.get(rt).wait_as(token)??)
}

/// What a caller that asks twice is told of the file at this path.
fn told_of<R>(rt: &R, path: &str, reads: &Cell<u64>) -> Result<Outcome, Fault>
where
    R: Files + Wait + RandomSource + AllocGlobal,
{
    let lazy = Lazy::new(Reading { rt, path, reads });
    let mut token = lazy.token();
    let _first = settings_of(rt, &lazy, &mut token)?;
    settings_of(rt, &lazy, &mut token)
}

/// Asks twice for the settings of each of these files, most of which have none. Prints what is told, and how often a
/// file was read.
pub fn show<R>(rt: &R) -> Result<(), Fault>
where
    R: Print + Files + Wait + RandomSource + AllocGlobal,
{
    for path in [
        "settings.txt",
        "missing.txt",
        "bytes.txt",
        "folder",
        "words.txt",
    ] {
        let reads = Cell::new(0);
        let outcome = told_of(rt, path, &reads)?;
        println!(rt; "{path}: {outcome:?} ({} read)", reads.get())?;
    }
    Ok(())
}
