//! The lines of a record after the first.
use crate::parse::answers::{parse_answer, parse_answers};
use crate::parse::number::parse_number;
use once_machine::record::{Call, Entry, Got, Ran, Reply};
use std::alloc::{AllocError, Global};

/// Reads the line of an entry, as `EntryLine` and `FullLine` write it. The call of an owner has to be a full one.
///
/// ```
/// let entry = parse_entry(alloc, text)?;
/// entries.push(entry.ok_or(BadRecord::Line(number, entry_form(text)))?)?;
/// ```
pub fn parse_entry(alloc: Global, text: &str) -> Result<Option<Entry>, AllocError> {
    let Some((word, given)) = text.split_once(' ') else {
        return Ok(None);
    };
    match word {
        "free" => Ok(parse_release(alloc, given)?.map(|(task, wakers)| Entry::Free(task, wakers))),
        "pass" => Ok(parse_release(alloc, given)?.map(|(task, wakers)| Entry::Pass(task, wakers))),
        "fill" => parse_fill(alloc, given),
        "own" => parse_own(alloc, given),
        "look" => Ok(parse_value(given).map(Entry::Look)),
        "made" => Ok(parse_number(given).map(Entry::Made)),
        "claim" => Ok(parse_number(given).map(Entry::Claim)),
        "dropbegin" => Ok(parse_number(given).map(Entry::DropBegin)),
        "dropend" => Ok(parse_number(given).map(Entry::DropEnd)),
        _ => Ok(parse_told(word, given)),
    }
}

/// The form of the lines that begin with the same word as this one, or of all lines.
///
/// ```
/// entries.push(entry.ok_or(BadRecord::Line(number, entry_form(text)))?)?; // of `begin 1` it is `begin TASK WAKER`
/// ```
pub fn entry_form(text: &str) -> &'static str {
    match text.split_once(' ').map_or(text, |parts| parts.0) {
        "made" => "made TASK",
        "begin" => "begin TASK WAKER",
        "claim" => "claim TASK",
        "ran" => "ran TASK p, or vVALUE or eERROR in the place of p",
        "free" => "free TASK [WAKER ..]",
        "fill" => "fill TASK VALUE [WAKER ..]",
        "pass" => "pass TASK [WAKER]",
        "end" => "end TASK p, or vVALUE, eERROR, memory or full in the place of p",
        "dropbegin" => "dropbegin TASK",
        "dropend" => "dropend TASK",
        "look" => "look none, or look vVALUE",
        "own" => "own CALL GIVEN: once_replay --full writes what the CALL brings",
        _ => "made, begin, claim, ran, free, fill, pass, end, dropbegin, dropend, look or own",
    }
}

// Reads an entry of a task with a number, an answer or a reply.
fn parse_told(word: &str, text: &str) -> Option<Entry> {
    let (task, given) = text.split_once(' ')?;
    let task = parse_number(task)?;
    match word {
        "begin" => Some(Entry::Begin(task, parse_number(given)?)),
        "ran" => Some(Entry::Ran(task, parse_answer(given)?)),
        "end" => Some(Entry::End(task, parse_reply(given)?)),
        _ => None,
    }
}

// Reads what a poll answered.
fn parse_reply(text: &str) -> Option<Reply> {
    match text {
        "memory" => Some(Reply::Memory),
        "full" => Some(Reply::Full),
        _ => match parse_answer(text)? {
            Ran::Pending => Some(Reply::Pending),
            Ran::Value(value) => Some(Reply::Value(value)),
            Ran::Error(error) => Some(Reply::Error(error)),
        },
    }
}

// Reads a value that is there or not.
fn parse_value(text: &str) -> Option<Option<u64>> {
    if text == "none" {
        return Some(None);
    }
    match parse_answer(text)? {
        Ran::Value(value) => Some(Some(value)),
        _ => None,
    }
}

// Reads a task, and the wakers that it handed out without a value.
fn parse_release(alloc: Global, text: &str) -> Result<Option<(u64, Vec<u64>)>, AllocError> {
    let Some((task, wakers)) = text.split_once(' ') else {
        return Ok(None);
    };
    let Some(task) = parse_number(task) else {
        return Ok(None);
    };
    Ok(parse_wakers(alloc, wakers)?.map(|wakers| (task, wakers)))
}

// Reads a task, the value that it set, and the wakers that it handed out.
fn parse_fill(alloc: Global, text: &str) -> Result<Option<Entry>, AllocError> {
    let Some((task, given)) = text.split_once(' ') else {
        return Ok(None);
    };
    let Some((value, wakers)) = given.split_once(' ') else {
        return Ok(None);
    };
    let (Some(task), Some(value)) = (parse_number(task), parse_number(value)) else {
        return Ok(None);
    };
    Ok(parse_wakers(alloc, wakers)?.map(|wakers| Entry::Fill(task, value, wakers)))
}

// What stands in brackets.
fn in_brackets(text: &str) -> Option<&str> {
    text.strip_prefix('[')?.strip_suffix(']')
}

// Reads wakers in brackets.
fn parse_wakers(alloc: Global, text: &str) -> Result<Option<Vec<u64>>, AllocError> {
    let Some(listed) = in_brackets(text) else {
        return Ok(None);
    };
    let mut wakers = Vec::new(alloc);
    if listed.is_empty() {
        return Ok(Some(wakers));
    }
    for field in listed.split(' ') {
        let Some(waker) = parse_number(field) else {
            return Ok(None);
        };
        wakers.push(waker)?;
    }
    Ok(Some(wakers))
}

// Reads the answers of an init, in brackets.
fn parse_listed_answers(alloc: Global, text: &str) -> Result<Option<Vec<Option<u64>>>, AllocError> {
    match in_brackets(text) {
        None => Ok(None),
        Some("") => Ok(Some(Vec::new(alloc))),
        Some(listed) => parse_answers(alloc, listed),
    }
}

// Reads a call of the owner with what it was given.
fn parse_own(alloc: Global, text: &str) -> Result<Option<Entry>, AllocError> {
    let Some((call, given)) = parse_call(alloc, text)? else {
        return Ok(None);
    };
    Ok(parse_got(alloc, given)?.map(|got| Entry::Own(call, got)))
}

// Reads the call, and leaves what it was given.
fn parse_call<'a>(alloc: Global, text: &'a str) -> Result<Option<(Call, &'a str)>, AllocError> {
    if let Some(given) = text.strip_prefix("take ") {
        return Ok(Some((Call::Take, given)));
    }
    if let Some(given) = text.strip_prefix("parts ") {
        return Ok(Some((Call::Parts, given)));
    }
    if let Some(rest) = text.strip_prefix("write ") {
        return Ok(parse_brought(rest).map(|(value, given)| (Call::Write(value), given)));
    }
    if let Some(rest) = text.strip_prefix("replace with ") {
        return Ok(parse_brought(rest).map(|(value, given)| (Call::ReplaceValue(value), given)));
    }
    let Some(rest) = text.strip_prefix("replace [") else {
        return Ok(None);
    };
    let Some((listed, given)) = rest.split_once("] ") else {
        return Ok(None);
    };
    if listed.is_empty() {
        return Ok(Some((Call::ReplaceAnswers(Vec::new(alloc)), given)));
    }
    Ok(parse_answers(alloc, listed)?.map(|answers| (Call::ReplaceAnswers(answers), given)))
}

// Reads the value that a call brings, and leaves what it was given.
fn parse_brought(text: &str) -> Option<(u64, &str)> {
    let (value, given) = text.split_once(' ')?;
    Some((parse_number(value)?, given))
}

// Reads what a call was given.
fn parse_got(alloc: Global, text: &str) -> Result<Option<Got>, AllocError> {
    match parse_value(text) {
        Some(None) => Ok(Some(Got::None)),
        Some(Some(value)) => Ok(Some(Got::Value(value))),
        None => Ok(parse_listed_answers(alloc, text)?.map(Got::Answers)),
    }
}
