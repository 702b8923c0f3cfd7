//! The texts that stand in lines of cases. There is none of a line in another form, and none if memory is refused.

use std::alloc::Global;

/// A text in which each `/` ends a line.
pub fn with_lines(alloc: Global, text: &str) -> Option<String> {
    text.replace(alloc, '/', "\n").ok()
}

/// The text of `FIRST LAST TEXT`, once for each number of these.
pub fn counted(alloc: Global, rest: &str) -> Option<String> {
    let (first, last, text) = numbers_in(rest)?;
    let (text, mut all) = (with_lines(alloc, text)?, String::new(alloc));
    for number in first..=last {
        if !add_copy(&mut all, text.as_str(), number) {
            return None;
        }
    }
    Some(all)
}

// Adds a text in which `#` stands for this number. The answer is whether there was memory.
fn add_copy(all: &mut String, text: &str, number: usize) -> bool {
    let mut is_added = true;
    for (place, part) in text.split('#').enumerate() {
        if place > 0 {
            is_added &= write!(all, "{number}").is_ok();
        }
        is_added &= all.push_str(part).is_ok();
    }
    is_added
}

fn numbers_in(rest: &str) -> Option<(usize, usize, &str)> {
    let (first, rest) = rest.split_once(' ')?;
    let (last, text) = rest.split_once(' ')?;
    match (first.parse(), last.parse()) {
        (Ok(first), Ok(last)) if first <= last => Some((first, last, text)),
        _ => None,
    }
}

/// The byte of two hexadecimal digits.
pub fn byte_of(word: &str) -> Option<u8> {
    u8::from_str_radix(word, 16).ok()
}

/// The first line in which two texts differ, with its number; of a text that has ended before, there is none.
pub fn first_difference<'a>(
    wanted: &'a str,
    came: &'a str,
) -> Option<(usize, Option<&'a str>, Option<&'a str>)> {
    let (mut number, mut lines) = (1usize, came.split('\n'));
    for line in wanted.split('\n') {
        let other = lines.next();
        if other != Some(line) {
            return Some((number, Some(line), other));
        }
        number = number.saturating_add(1);
    }
    let more = lines.next()?;
    Some((number, None, Some(more)))
}
