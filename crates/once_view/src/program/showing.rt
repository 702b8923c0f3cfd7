//! What the program `once_show` does: its command line, its streams and its status.

use super::{Source, words_of};
use crate::fault::Fault;
use crate::range::LineRange;
use crate::{Format, show_lines};
use clap::error::{Error, ErrorKind};
use clap::{Arg, ArgAction, ArgMatches, Command, value_parser};
use std::alloc::{AllocError, AllocGlobal, Global};
use std::env::Env;
use std::fs::Files;
use std::io::{self, Read};
use std::process::ExitCode;

/// What the words of the command line say.
fn matches_of(alloc: Global, words: &[String]) -> Result<ArgMatches<'_>, Error> {
    let arguments = arguments(alloc)?;
    Command::new(alloc, "once_show")
        .about("Shows a script of a cell and its tasks, line by line")
        .args(arguments)?
        .try_get_matches_from(words)
}

/// The options and the word of the command line.
fn arguments(alloc: Global) -> Result<Vec<Arg<'static>>, AllocError> {
    let (from, to) = (
        "Shows no line before this one; all are played",
        "Shows no line after this one",
    );
    Ok(vec![in alloc;
        picture_option(alloc),
        line_option(alloc, "from", from),
        line_option(alloc, "to", to),
        script_word(alloc),
    ]?)
}

/// The option for a picture.
fn picture_option(alloc: Global) -> Arg<'static> {
    Arg::new(alloc, "svg")
        .long("svg")
        .action(ArgAction::SetTrue)
        .help("Writes a picture, as SVG, in the place of the table")
}

/// An option of this name, with the number of a line.
fn line_option(alloc: Global, name: &'static str, help: &'static str) -> Arg<'static> {
    Arg::new(alloc, name)
        .long(name)
        .value_name("LINE")
        .value_parser(value_parser!(u64).range(1..))
        .action(ArgAction::Set)
        .help(help)
}

/// The word that names the script.
fn script_word(alloc: Global) -> Arg<'static> {
    Arg::new(alloc, "FILE").action(ArgAction::Set).help(
        "The script; the standard input if there is none, or if it is -",
    )
}

/// Why there is nothing to show, or not all.
#[derive(Drop)]
enum Failure<'a> {
    /// The script can't be read.
    Source(Source<'a>, io::Error),
    Script(Fault),
}

impl From<Fault> for Failure<'_> {
    fn from(fault: Fault) -> Self {
        Failure::Script(fault)
    }
}

/// Shows the script that the command line names.
fn run<'a, R, F, I>(
    rt: &R,
    files: &F,
    matches: &ArgMatches<'a>,
    input: I,
) -> Result<(), Failure<'a>>
where
    R: Print + AllocGlobal,
    F: Files + AllocGlobal,
    I: Read + Drop,
{
    let range = LineRange::new(matches.get_one("from"), matches.get_one("to"))?;
    let source = Source::of(matches.get_str("FILE"));
    match source.read(files, input) {
        Ok(text) => show_lines(rt.alloc(), format_of(matches), range, &text, io::writer(rt))?,
        Err(error) => return Err(Failure::Source(source, error)),
    }
    Ok(())
}

/// The format that the command line names.
fn format_of(matches: &ArgMatches<'_>) -> Format {
    if matches.get_flag("svg") {
        Format::Picture
    } else {
        Format::Table
    }
}

/// Says why the command line names nothing to show, or prints the help that it asks for. Answers the status of
/// the process.
fn refuse<R: Print + Eprint>(rt: &R, error: &Error) -> u8 {
    match error.print(rt) {
        Ok(()) if error.kind() == ErrorKind::OutOfMemory => Fault::Memory.status(),
        Ok(()) => error.exit_code() as u8,
        Err(error) => fail(rt, Failure::Script(Fault::from(error))),
    }
}

/// Says why the script is not shown, unless nobody reads on. Answers the status of the process.
fn fail<R: Eprint>(rt: &R, failure: Failure<'_>) -> u8 {
    match failure {
        Failure::Source(source, error) => {
            let _ = eprintln!(rt; "once_show: {}: {error}", source.name());
            Fault::from(error).status()
        }
        Failure::Script(Fault::ClosedPipe) => Fault::ClosedPipe.status(),
        Failure::Script(fault) => {
            let _ = eprintln!(rt; "once_show: {fault}");
            fault.status()
        }
    }
}

/// The status after a run with these words.
fn status_of<R, F, I>(rt: &R, files: &F, words: &[String], input: I) -> u8
where
    R: Print + Eprint + AllocGlobal,
    F: Files + AllocGlobal,
    I: Read + Drop,
{
    let matches = match matches_of(rt.alloc(), words) {
        Ok(matches) => matches,
        Err(error) => return refuse(rt, &error),
    };
    match run(rt, files, &matches, input) {
        Ok(()) => 0,
        Err(failure) => fail(rt, failure),
    }
}

/// Shows the script that the command line names, one of `files` or the input. If that fails, standard error says
/// why, unless the reader of the output closed it.
///
/// ```
/// fn main(rt: HostRuntime) -> ExitCode {
///     show_script(&rt, &rt, rt.reader())
/// }
/// ```
pub fn show_script<R, F, I>(rt: &R, files: &F, input: I) -> ExitCode
where
    R: Env + Print + Eprint + AllocGlobal,
    F: Files + AllocGlobal,
    I: Read + Drop,
{
    let status = match words_of(rt) {
        Ok(words) => status_of(rt, files, &words, input),
        Err(error) => fail(rt, Failure::Script(Fault::from(error))),
    };
    ExitCode::from(status)
}
