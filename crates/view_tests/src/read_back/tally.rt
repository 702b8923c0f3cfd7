//! How much was compared.
use super::story::Story;
use std::alloc::{AllocError, Global};
use std::fmt;

/// How much was compared.
#[derive(Drop)]
pub struct Tally {
    lines: u64,
    pub cells: u64,
    pub bars: u64,
    pub arrows: u64,
    pub names: u64,
    /// Where tasks were seen to stand.
    stands: Vec<&'static str>,
}

/// One more.
pub fn raise(count: &mut u64) {
    *count = count.saturating_add(1);
}

impl Tally {
    pub fn new(alloc: Global) -> Tally {
        Tally {
            lines: 0,
            cells: 0,
            bars: 0,
            arrows: 0,
            names: 0,
            stands: Vec::new(alloc),
        }
    }

    /// Counts a script.
    pub fn count(&mut self, story: &Story) -> Result<(), AllocError> {
        for line in &story.lines {
            raise(&mut self.lines);
            for stand in &line.stands {
                if !self.stands.contains(stand) {
                    self.stands.push(*stand)?;
                }
            }
        }
        Ok(())
    }
}

impl fmt::Display for Tally {
    fn fmt<W: fmt::Write>(&self, f: &mut fmt::Formatter<W>) -> fmt::Result {
        let (
            words,
            Tally {
                lines,
                cells,
                bars,
                arrows,
                names,
                ..
            },
        ) = (&self.stands, self);
        let steps = words.iter().filter(|word| word.starts_with("> ")).count();
        let rests = words.len().saturating_sub(steps);
        write!(
            f,
            "{lines} lines, {cells} cells, {bars} bars, {arrows} arrows, {names} names; \
            {steps} words for steps, {rests} others"
        )
    }
}
