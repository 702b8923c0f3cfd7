//! What a program leaves, and what it has to leave.

use crate::text::first_difference;
use std::alloc::{AllocError, Global};
use std::process::ExitCode;

/// What a program leaves: its status, and what it wrote to its two streams.
#[derive(Drop)]
pub struct Left {
    pub status: ExitCode,
    pub printed: String,
    pub said: String,
}

/// What holds of a part of what is left.
#[derive(Clone, Copy)]
pub enum Part<'t> {
    /// This is printed somewhere.
    Printed(&'t str),
    /// This is printed nowhere.
    NotPrinted(&'t str),
    /// What is said begins so.
    Said(&'t str),
}

impl Part<'_> {
    fn holds(&self, left: &Left) -> bool {
        match self {
            Part::Printed(text) => left.printed.contains(text),
            Part::NotPrinted(text) => !left.printed.contains(text),
            Part::Said(text) => left.said.starts_with(text),
        }
    }

    // Tells that it is otherwise.
    fn fault_of(&self, alloc: Global, left: &Left) -> Option<String> {
        let (what, text, all) = match self {
            Part::Printed(text) => ("is not printed", text, &left.printed),
            Part::NotPrinted(text) => ("is printed", text, &left.printed),
            Part::Said(text) => ("is not how it begins what it says", text, &left.said),
        };
        told(alloc, format!(in alloc; "{text:?} {what}: {all:?}"))
    }
}

/// What a program has to leave.
#[derive(Drop)]
pub struct Wanted<'t> {
    pub status: u8,
    pub printed: String,
    pub said: String,
    pub parts: Vec<Part<'t>>,
}

impl Wanted<'_> {
    /// The status 0, and nothing on the two streams.
    pub fn nothing(alloc: Global) -> Self {
        Wanted {
            status: 0,
            printed: String::new(alloc),
            said: String::new(alloc),
            parts: Vec::new(alloc),
        }
    }

    /// The status 0, and this on standard output.
    pub fn printed(alloc: Global, printed: String) -> Self {
        Wanted {
            printed,
            ..Wanted::nothing(alloc)
        }
    }

    /// What does not hold of what is left, if anything.
    pub fn fault_of(&self, alloc: Global, left: &Left) -> Option<String> {
        if left.status != ExitCode::from(self.status) {
            let (wanted, came, said) = (self.status, left.status, &left.said);
            let fault = format!(in alloc; "wanted status {wanted}, came {came:?} {said:?}");
            return told(alloc, fault);
        }
        let (mut is_printed_whole, mut is_said_whole) = (true, true);
        for part in &self.parts {
            if !part.holds(left) {
                return part.fault_of(alloc, left);
            }
            match part {
                Part::Said(_) => is_said_whole = false,
                _ => is_printed_whole = false,
            }
        }
        is_printed_whole |= !self.printed.is_empty();
        difference(
            alloc,
            "printed",
            is_printed_whole,
            &self.printed,
            &left.printed,
        )
        .or(difference(alloc, "said", is_said_whole, &self.said, &left.said))
    }
}

// In which line what was written differs from what was wanted, if it is compared.
fn difference(
    alloc: Global,
    what: &str,
    is_compared: bool,
    wanted: &str,
    came: &str,
) -> Option<String> {
    if !is_compared {
        return None;
    }
    let (number, wanted, came) = first_difference(wanted, came)?;
    told(
        alloc,
        format!(in alloc; "{what}, line {number}: wanted {wanted:?}, came {came:?}"),
    )
}

/// A fault with its text, or without one if memory for that was refused.
pub fn told(alloc: Global, fault: Result<String, AllocError>) -> Option<String> {
    Some(fault.unwrap_or(String::new(alloc)))
}
