//! A script as people write it: with comments and empty lines, and with a word on what can't be read.
use crate::fault::{Expected, Fault, UnreadableLine};
use once_script::parse::{Line, Opening, parse_line, parse_opening};
use std::alloc::{AllocError, Global};

/// How many characters of a line that can't be read are told at most.
const MOST_TOLD: usize = 80;

/// A script that was read.
#[derive(Drop)]
pub struct Script<'a> {
    /// Which cell it is, as the first line says.
    pub opening: Opening,
    /// The first line.
    pub first: TextLine<'a>,
    /// The lines after it.
    pub lines: Vec<ScriptLine<'a>>,
}

/// A line of text.
#[derive(Clone, Copy)]
pub struct TextLine<'a> {
    /// Its number in the file, in which comments and empty lines count.
    pub number: u64,
    /// The line without its end.
    pub text: &'a str,
}

/// A line after the first.
#[derive(Drop)]
pub struct ScriptLine<'a> {
    /// The line as it is written.
    pub source: TextLine<'a>,
    /// What it says.
    pub line: Line,
}

/// A line that says something, as bytes.
#[derive(Clone, Copy)]
struct RawLine<'a> {
    number: u64,
    bytes: &'a [u8],
}

/// Reads a whole script. An empty line, and one that begins with `#`, says nothing.
///
/// `NotText` and `Unreadable` tell the first line that can't be read.
pub fn read_script(alloc: Global, text: &[u8]) -> Result<Script<'_>, Fault> {
    let lines = split_lines(alloc, text)?;
    let Some((first, later)) = lines.split_first() else {
        return Err(Fault::NoCell);
    };
    let first = decode(*first)?;
    Ok(Script {
        opening: read_opening(alloc, first)?,
        first,
        lines: read_lines(alloc, later)?,
    })
}

fn read_opening(alloc: Global, first: TextLine<'_>) -> Result<Opening, Fault> {
    let Some(opening) = parse_opening(alloc, first.text)? else {
        return Err(unreadable(alloc, first, first_form(first.text))?);
    };
    Ok(opening)
}

fn read_lines<'a>(alloc: Global, lines: &[RawLine<'a>]) -> Result<Vec<ScriptLine<'a>>, Fault> {
    let mut read = Vec::new(alloc);
    for line in lines {
        read.push(read_line(alloc, decode(*line)?)?)?;
    }
    Ok(read)
}

fn read_line(alloc: Global, source: TextLine<'_>) -> Result<ScriptLine<'_>, Fault> {
    let Some(line) = parse_line(alloc, source.text)? else {
        return Err(unreadable(alloc, source, expected_form(source.text))?);
    };
    Ok(ScriptLine { source, line })
}

/// The lines that say something.
fn split_lines(alloc: Global, text: &[u8]) -> Result<Vec<RawLine<'_>>, AllocError> {
    let mut lines = Vec::new(alloc);
    let mut number = 0u64;
    for bytes in text.split(|byte| *byte == b'\n') {
        number = number.saturating_add(1);
        if !bytes.is_empty() && !bytes.starts_with(b"#") {
            lines.push(RawLine { number, bytes })?;
        }
    }
    Ok(lines)
}

fn decode(line: RawLine<'_>) -> Result<TextLine<'_>, Fault> {
    match str::from_utf8(line.bytes) {
        Ok(text) => Ok(TextLine {
            number: line.number,
            text,
        }),
        Err(_) => Err(Fault::NotText(line.number)),
    }
}

fn unreadable(alloc: Global, line: TextLine<'_>, expected: Expected) -> Result<Fault, AllocError> {
    let mut text = String::new(alloc);
    for character in line.text.chars().take(MOST_TOLD) {
        text.push(character)?;
    }
    Ok(Fault::Unreadable(UnreadableLine {
        number: line.number,
        text,
        length: line.text.chars().count(),
        expected,
    }))
}

/// What a first line with this beginning may be.
fn first_form(text: &str) -> Expected {
    match text.split_once(' ') {
        Some(("once", _)) => Expected {
            form: "`once LIMIT` or `once LIMIT with VALUE`; the limit is from 1 to 4611686018427387902",
            has_numbers: true,
        },
        Some(("lazy", _)) => Expected {
            form: "`lazy LIMIT`, `lazy LIMIT ANSWER ..` or `lazy LIMIT with VALUE`; \
                the limit is from 1 to 4611686018427387902, and an answer is `p` or `vVALUE`",
            has_numbers: true,
        },
        _ => Expected {
            form: "`once LIMIT` or `lazy LIMIT`, with more after it or not",
            has_numbers: false,
        },
    }
}

/// The words that a line with numbers begins with, and what such a line may be.
static NUMBERED_FORMS: [(&str, &str); 7] = [
    ("make", "`make TASK`"),
    ("poll", "`poll TASK WAKER`"),
    ("drop", "`drop TASK`"),
    (
        "go",
        "`go TASK ANSWER` or `go TASK ANSWER x`; an answer is `p`, `vVALUE` or `eERROR`",
    ),
    (
        "run",
        "`run TASK ANSWER` or `run TASK ANSWER x`; an answer is `p`, `vVALUE` or `eERROR`",
    ),
    ("write", "`write VALUE`"),
    (
        "replace",
        "`replace`, `replace ANSWER ..` or `replace with VALUE`; an answer is `p` or `vVALUE`",
    ),
];

/// The same of lines of one word.
static PLAIN_FORMS: [(&str, &str); 3] = [
    ("look", "`look` alone"),
    ("take", "`take` alone"),
    ("parts", "`parts` alone"),
];

/// What is written beside this word.
fn form_of(forms: &[(&'static str, &'static str)], word: &str) -> Option<&'static str> {
    forms
        .iter()
        .find(|(begin, _)| *begin == word)
        .map(|(_, form)| *form)
}

/// What a line after the first with this beginning may be.
fn expected_form(text: &str) -> Expected {
    let text = text.trim();
    let word = text.split_once(' ').map_or(text, |(word, _)| word);
    if let Some(form) = form_of(&NUMBERED_FORMS, word) {
        return Expected {
            form,
            has_numbers: true,
        };
    }
    Expected {
        form: form_of(&PLAIN_FORMS, word).unwrap_or(
            "`make`, `poll`, `drop`, `go`, `run`, `look`, `take`, `write`, `parts` or `replace`",
        ),
        has_numbers: false,
    }
}
