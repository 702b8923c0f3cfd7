//! Scripts that are replayed, drawn or shown as a table, and a record that is judged and drawn. What is made of each
//! has to be what is stored beside it in data/scripts, as the pages show it.

use crate::fault;
use once_judge::{Calls, Verdict, judge};
use once_script::parse::record::{BadRecord, RecordText, parse_record};
use once_view::Format;
use once_view::verdict::draw_verdict;
use std::alloc::{AllocGlobal, Global};
use std::fs::{self, Files};
use std::io;

/// Why nothing is made of a text, or compared.
#[derive(Debug, Drop)]
enum Fault {
    Script(once_script::fault::Fault),
    View(once_view::fault::Fault),
    Record(BadRecord),
    Io(io::Error),
}

/// What is made of a script; or of a record, which is judged.
#[derive(Clone, Copy)]
enum Product {
    Record,
    Picture,
    Table,
    Judged,
}

impl Product {
    /// The ending of its file.
    fn ending(self) -> &'static str {
        match self {
            Product::Record => "record",
            Product::Picture | Product::Judged => "svg",
            Product::Table => "table",
        }
    }
}

/// The scripts and the record, and what is made of each.
static TEXTS: [(&str, Product); 15] = [
    ("late_queue", Product::Record),
    ("late_queue", Product::Picture),
    ("lazy_apart", Product::Record),
    ("lost_wake", Product::Record),
    ("lost_wake", Product::Picture),
    ("one_call", Product::Record),
    ("one_call", Product::Picture),
    ("one_call", Product::Table),
    ("queue_refused", Product::Record),
    ("release_beyond_the_limit", Product::Record),
    ("rust_lost_wake", Product::Judged),
    ("slow_path", Product::Record),
    ("slow_path", Product::Picture),
    ("turn_passed_on", Product::Record),
    ("waker_copy_refused", Product::Record),
];

/// Makes this of a text.
fn make(alloc: Global, product: Product, text: &[u8]) -> Result<Vec<u8>, Fault> {
    let mut made = Vec::new(alloc);
    match product {
        Product::Record => once_script::run(alloc, text, &mut made).map_err(Fault::Script)?,
        Product::Picture => draw(alloc, Format::Picture, text, &mut made)?,
        Product::Table => draw(alloc, Format::Table, text, &mut made)?,
        Product::Judged => draw_judged(alloc, text, &mut made)?,
    }
    Ok(made)
}

/// Shows a script.
fn draw(alloc: Global, format: Format, text: &[u8], made: &mut Vec<u8>) -> Result<(), Fault> {
    once_view::show(alloc, format, text, made).map_err(Fault::View)
}

/// Judges the record that stands in a text, by the rule of the Rust crate, and draws it with the verdict.
fn draw_judged(alloc: Global, text: &[u8], made: &mut Vec<u8>) -> Result<(), Fault> {
    let (record, verdict) = judged(alloc, text).map_err(Fault::Record)?;
    draw_verdict(alloc, &record.kind, &record.entries, &verdict, made).map_err(Fault::Io)
}

fn judged(alloc: Global, text: &[u8]) -> Result<(RecordText, Verdict), BadRecord> {
    let record = parse_record(alloc, text)?;
    let verdict = judge(
        alloc,
        &record.kind,
        record.limit,
        Calls::All,
        &record.entries,
    )?;
    Ok((record, verdict))
}

/// All the bytes of a text, or of what is stored of it.
fn read<R: Files + AllocGlobal>(rt: &R, name: &str, ending: &str) -> io::Result<Vec<u8>> {
    let path = format!(in rt.alloc(); "scripts/{name}.{ending}")?;
    fs::read(rt, path)
}

/// Whether what is made of a text is what is stored of it.
fn is_stored<R: Files + AllocGlobal>(rt: &R, name: &str, product: Product) -> Result<bool, Fault> {
    let text = read(rt, name, "txt").map_err(Fault::Io)?;
    let made = make(rt.alloc(), product, &text)?;
    let stored = read(rt, name, product.ending()).map_err(Fault::Io)?;
    Ok(stored == made)
}

/// Prints of each file that is stored whether the same is made, and fails if one differs.
pub fn show<R>(rt: &R) -> Result<(), fault::Fault>
where
    R: Print + Files + AllocGlobal,
{
    let mut are_same = true;
    for (name, product) in &TEXTS {
        let is_same = is_stored(rt, name, *product);
        are_same &= matches!(is_same, Ok(true));
        println!(rt; "{name}.{} is stored: {is_same:?}", product.ending())?;
    }
    if are_same {
        Ok(())
    } else {
        Err(fault::Fault::Stored)
    }
}
