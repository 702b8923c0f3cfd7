//! The text of a script, line by line.
ghost use Rattle.std.specs.Prelude.{◌≡◌, ◌≢◌, ◌<◌, ◌≤◌, ◌-◌, ◌^◌, ◌++◌, Bool, ℕ, Option, codes};
ghost use Rattle.std.specs.Prelude.{IfOk, IfSome, IsSome, MatchOption};
ghost use Rattle.once_machine.specs.declared.record.Ran.{Ran};
ghost use Rattle.once_machine.specs.declared.record.Call.{Call};
ghost use Rattle.once_machine.specs.declared.record.Kind.{Kind};
ghost use Rattle.once_script.specs.Number.{limit_of};
ghost use Rattle.once_script.specs.Script.{lines_in, IsScript, IsFirstUnreadable};
ghost use Rattle.once_script.specs.Text.{IsWith, IsOpening, IsOnce, IsLazy, IsPair, IsGiven, IsStep, IsLine};
ghost use Rattle.once_machine.specs.declared.record.Call.TheVariants.{Take, Write, Parts};
ghost use Rattle.once_machine.specs.declared.record.Input.TheVariants.{Make, Poll, Drop, Go, Look, Own};
ghost use Rattle.once_script.specs.declared.parse.Line.{Line};
ghost use Rattle.once_script.specs.declared.parse.Line.TheVariants.{Single, Run};

use crate::fault::Fault;
use answers::{parse_answer, parse_answers};
use lines::{opening_in, parse_lines, split_lines};
use number::{parse_limit, parse_number};
use once_machine::record::{Call, Input, Kind, Ran};
use std::alloc::{AllocError, Global};

mod answers;
pub mod entries;
mod lines;
pub mod number;
pub mod record;

/// How many steps a `run` line makes.
pub const RUN_STEPS: u64 = 16;

/// What the first line says.
#[derive(Debug, Drop)]
pub struct Opening {
    pub kind: Kind,
    pub limit: u64,
    ghost some: { 0 < limit },
    ghost within: { limit ≤ 2 ^ 62 - 2 },
}

/// What a later line says.
#[derive(Debug, Drop, PartialEq, Eq)]
pub enum Line {
    /// One input.
    Single(Input),
    /// The steps of a `run` line: a task, the answer to each of them, and memory or not.
    Run(u64, Ran, bool),
}

/// All that the text says.
#[derive(Debug, Drop)]
pub struct Script {
    pub kind: Kind,
    pub limit: u64,
    /// The lines after the first.
    pub lines: Vec<Line>,
    ghost some: { 0 < limit },
    ghost within: { limit ≤ 2 ^ 62 - 2 },
}

/// Reads a whole text. Each line ends with a line feed, which the last may lack.
///
/// `Unreadable` names the first line that cannot be read.
///
/// ```
/// let Script { kind, limit, lines } = parse_script(alloc, text.as_slice())?;
/// let record = replay_lines(alloc, kind, limit, &lines)?;
/// ```
pub fn parse_script(alloc: Global, text: &[u8]) -> Result<Script, Fault>
    ensures read { IfOk result
        (λ script. IsScript script.kind script.limit script.lines.items (lines_in text.now)) }
    ensures unreadable { (n : ℕ) → result ≡ Err (Fault.Unreadable n)
        → IsFirstUnreadable n (lines_in text.now) }
    ensures no_reads { result ≢ Err Fault.Io }
{
    let lines = split_lines(alloc, text)?;
    let (first, later) = lines.split_first().ok_or(Fault::Unreadable(1))?;
    let Some(Opening { kind, limit }) = opening_in(alloc, first)? else {
        return Err(Fault::Unreadable(1));
    };
    Ok(Script {
        kind,
        limit,
        lines: parse_lines(alloc, later)?,
    })
}

/// Reads the first line.
///
/// ```
/// let Some(opening) = parse_opening(alloc, first.text)? else {
///     return Err(unreadable(alloc, first, first_form(first.text))?);
/// };
/// ```
pub fn parse_opening(alloc: Global, text: &str) -> Result<Option<Opening>, AllocError>
    ensures read { IfOk result
        (λ read. IfSome read (λ opening. IsOpening opening.kind opening.limit text.now)) }
    ensures all { (kind : Kind) (limit : ℕ) → IsOpening kind limit text.now
        → IfOk result (λ read. IsSome read) }
{
    if let Some(rest) = text.strip_prefix("once ") {
        return Ok(parse_once(rest));
    }
    if let Some(rest) = text.strip_prefix("lazy ") {
        return parse_lazy(alloc, rest);
    }
    Ok(None)
}

/// Reads what a once cell has after its word.
fn parse_once(text: &str) -> Option<Opening>
    ensures read { IfSome result (λ opening. IsOnce opening.kind opening.limit text.now) }
    ensures all { (kind : Kind) (limit : ℕ) → IsOnce kind limit text.now → IsSome result }
{
    match text.split_once(' ') {
        None => with_limit(Kind::Once, text),
        Some((limit, given)) => with_limit(Kind::OnceWith(parse_with(given)?), limit),
    }
}

/// Reads what a lazy cell has after its word.
fn parse_lazy(alloc: Global, text: &str) -> Result<Option<Opening>, AllocError>
    ensures read { IfOk result
        (λ read. IfSome read (λ opening. IsLazy opening.kind opening.limit text.now)) }
    ensures all { (kind : Kind) (limit : ℕ) → IsLazy kind limit text.now
        → IfOk result (λ read. IsSome read) }
{
    let Some((limit, given)) = text.split_once(' ') else {
        return Ok(with_limit(Kind::Lazy(Vec::new(alloc)), text));
    };
    if let Some(value) = parse_with(given) {
        return Ok(with_limit(Kind::LazyWith(value), limit));
    }
    let Some(answers) = parse_answers(alloc, given)? else {
        return Ok(None);
    };
    Ok(with_limit(Kind::Lazy(answers), limit))
}

/// A cell of this kind, with the limit that a text says.
fn with_limit(kind: Kind, text: &str) -> Option<Opening>
    ensures { MatchOption result (limit_of text.now ≡ None)
        (λ opening. (opening.kind ≡ kind) × (limit_of text.now ≡ Some opening.limit)) }
{
    let limit = parse_limit(text)?;
    Some(Opening { kind, limit })
}

/// Reads the value that a cell is made with.
fn parse_with(text: &str) -> Option<u64>
    ensures { MatchOption result ((v : ℕ) → ¬ IsWith v text.now)
        (λ value. IsWith value text.now) }
{
    match text.split_once(' ')? {
        ("with", value) => parse_number(value),
        _ => None,
    }
}

/// Reads a line after the first.
///
/// ```
/// let Some(line) = parse_line(alloc, source.text)? else {
///     return Err(unreadable(alloc, source, expected_form(source.text))?);
/// };
/// ```
pub fn parse_line(alloc: Global, text: &str) -> Result<Option<Line>, AllocError>
    ensures read { IfOk result (λ read. IfSome read (λ line. IsLine line text.now)) }
    ensures all { (line : Line) → IsLine line text.now → IfOk result (λ read. IsSome read) }
{
    if text == "replace" {
        let none = Call::ReplaceAnswers(Vec::new(alloc));
        return Ok(Some(Line::Single(Input::Own(none))));
    }
    let Some(given) = text.strip_prefix("replace ") else {
        return Ok(parse_short_line(text));
    };
    let Some(call) = parse_replacement(alloc, given)? else {
        return Ok(None);
    };
    Ok(Some(Line::Single(Input::Own(call))))
}

/// Reads what a lazy cell is replaced by.
fn parse_replacement(alloc: Global, text: &str) -> Result<Option<Call>, AllocError>
    ensures read { IfOk result
        (λ read. IfSome read (λ call. IsLine (Single (Own call)) (codes "replace " ++ text.now))) }
    ensures all { (call : Call) → IsLine (Single (Own call)) (codes "replace " ++ text.now)
        → IfOk result (λ read. IsSome read) }
{
    if let Some(value) = parse_with(text) {
        return Ok(Some(Call::ReplaceValue(value)));
    }
    let Some(answers) = parse_answers(alloc, text)? else {
        return Ok(None);
    };
    Ok(Some(Call::ReplaceAnswers(answers)))
}

/// Reads a line that replaces nothing.
fn parse_short_line(text: &str) -> Option<Line>
    ensures read { IfSome result (λ line. IsLine line text.now) }
    ensures look { IsLine (Single Look) text.now → IsSome result }
    ensures take { IsLine (Single (Own Take)) text.now → IsSome result }
    ensures parts { IsLine (Single (Own Parts)) text.now → IsSome result }
    ensures make { (task : ℕ) → IsLine (Single (Make task)) text.now → IsSome result }
    ensures drop { (task : ℕ) → IsLine (Single (Drop task)) text.now → IsSome result }
    ensures write { (value : ℕ) → IsLine (Single (Own (Write value))) text.now → IsSome result }
    ensures poll { (task waker : ℕ) → IsLine (Single (Poll task waker)) text.now → IsSome result }
    ensures go { (task : ℕ) (answer : Ran) (memory : Bool)
        → IsLine (Single (Go task answer memory)) text.now → IsSome result }
    ensures run { (task : ℕ) (answer : Ran) (memory : Bool)
        → IsLine (Run task answer memory) text.now → IsSome result }
{
    if let Some(line) = parse_word_line(text) {
        return Some(line);
    }
    if let Some(line) = parse_number_line(text) {
        return Some(line);
    }
    parse_step_line(text)
}

/// Reads a line that is one word.
fn parse_word_line(text: &str) -> Option<Line>
    ensures read { IfSome result (λ line. IsLine line text.now) }
    ensures look { IsLine (Single Look) text.now → IsSome result }
    ensures take { IsLine (Single (Own Take)) text.now → IsSome result }
    ensures parts { IsLine (Single (Own Parts)) text.now → IsSome result }
{
    match text {
        "look" => Some(Line::Single(Input::Look)),
        "take" => Some(Line::Single(Input::Own(Call::Take))),
        "parts" => Some(Line::Single(Input::Own(Call::Parts))),
        _ => None,
    }
}

/// Reads a line that is a word and a number.
fn parse_number_line(text: &str) -> Option<Line>
    ensures read { IfSome result (λ line. IsLine line text.now) }
    ensures make { (task : ℕ) → IsLine (Single (Make task)) text.now → IsSome result }
    ensures drop { (task : ℕ) → IsLine (Single (Drop task)) text.now → IsSome result }
    ensures write { (value : ℕ) → IsLine (Single (Own (Write value))) text.now → IsSome result }
{
    let (word, rest) = text.split_once(' ')?;
    let number = parse_number(rest)?;
    match word {
        "make" => Some(Line::Single(Input::Make(number))),
        "drop" => Some(Line::Single(Input::Drop(number))),
        "write" => Some(Line::Single(Input::Own(Call::Write(number)))),
        _ => None,
    }
}

/// Reads a line that is a word, a task, and what the task is given.
fn parse_step_line(text: &str) -> Option<Line>
    ensures read { IfSome result (λ line. IsLine line text.now) }
    ensures poll { (task waker : ℕ) → IsLine (Single (Poll task waker)) text.now → IsSome result }
    ensures go { (task : ℕ) (answer : Ran) (memory : Bool)
        → IsLine (Single (Go task answer memory)) text.now → IsSome result }
    ensures run { (task : ℕ) (answer : Ran) (memory : Bool)
        → IsLine (Run task answer memory) text.now → IsSome result }
{
    let (word, rest) = text.split_once(' ')?;
    match word {
        "poll" => {
            let (task, waker) = parse_pair(rest)?;
            Some(Line::Single(Input::Poll(task, waker)))
        }
        "go" => {
            let (task, answer, memory) = parse_step(rest)?;
            Some(Line::Single(Input::Go(task, answer, memory)))
        }
        "run" => {
            let (task, answer, memory) = parse_step(rest)?;
            Some(Line::Run(task, answer, memory))
        }
        _ => None,
    }
}

/// Reads two numbers.
fn parse_pair(text: &str) -> Option<(u64, u64)>
    ensures read { IfSome result (λ pair. IsPair pair.0 pair.1 text.now) }
    ensures all { (first second : ℕ) → IsPair first second text.now → IsSome result }
{
    let (first, second) = text.split_once(' ')?;
    Some((parse_number(first)?, parse_number(second)?))
}

/// Reads a task, the answer that its init gives, and whether memory is granted.
fn parse_step(text: &str) -> Option<(u64, Ran, bool)>
    ensures read { IfSome result (λ step. IsStep step.0 step.1 step.2 text.now) }
    ensures all { (task : ℕ) (answer : Ran) (memory : Bool) → IsStep task answer memory text.now
        → IsSome result }
{
    let (task, given) = text.split_once(' ')?;
    let task = parse_number(task)?;
    let (answer, memory) = parse_given(given)?;
    Some((task, answer, memory))
}

/// Reads the answer that an init gives, and whether memory is granted.
fn parse_given(text: &str) -> Option<(Ran, bool)>
    ensures { MatchOption result ((a : Ran) (memory : Bool) → ¬ IsGiven a memory text.now)
        (λ given. IsGiven given.0 given.1 text.now) }
{
    let Some((answer, mark)) = text.split_once(' ') else {
        return Some((parse_answer(text)?, true));
    };
    if mark == "x" {
        return Some((parse_answer(answer)?, false));
    }
    None
}
