//! What the programs over this crate do: the `main` of each stands in a crate of its name, so that tests can call the
//! rest.

mod judging;
mod showing;

pub use judging::judge_record;
pub use showing::show_script;
use std::alloc::AllocGlobal;
use std::env::{self, Env};
use std::fs::{self, Files};
use std::io::{self, BufReader, Read};

// The words of the command line.
fn words_of<R: Env + AllocGlobal>(rt: &R) -> io::Result<Vec<String>> {
    Ok(env::args(rt)?.collect(rt.alloc())?)
}

// Where a text is read from.
#[derive(Clone, Copy)]
enum Source<'a> {
    Input,
    File(&'a str),
}

impl<'a> Source<'a> {
    // The standard input stands for no file, and for the file `-`.
    fn of(file: Option<&'a str>) -> Source<'a> {
        match file {
            None | Some("-") => Source::Input,
            Some(path) => Source::File(path),
        }
    }

    fn name(self) -> &'a str {
        match self {
            Source::Input => "standard input",
            Source::File(path) => path,
        }
    }

    // All its bytes.
    fn read<F: Files + AllocGlobal, I: Read + Drop>(
        self,
        files: &F,
        input: I,
    ) -> io::Result<Vec<u8>> {
        match self {
            Source::File(path) => fs::read(files, path),
            Source::Input => {
                let mut text = Vec::new(files.alloc());
                BufReader::new(files.alloc(), input)?.read_to_end(&mut text)?;
                Ok(text)
            }
        }
    }
}
