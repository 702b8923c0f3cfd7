//! The parts of a text in SVG.
use crate::text::Text;

/// A word, with a number at its end if it has one. Neither needs escapes.
#[derive(Clone, Copy)]
pub struct Label {
    pub word: &'static str,
    pub number: Option<u64>,
}

impl Label {
    /// A label without a number.
    pub fn of(word: &'static str) -> Label {
        Label { word, number: None }
    }

    /// A label that ends with this number.
    pub fn with(word: &'static str, number: u64) -> Label {
        Label {
            word,
            number: Some(number),
        }
    }

    /// How many letters it has.
    pub fn len(self) -> usize {
        match self.number {
            None => self.word.len(),
            Some(number) => self.word.len().saturating_add(digits_of(number)),
        }
    }

    /// Draws it as a text of its own.
    pub fn draw(self, x: u64, y: u64, svg: &mut Text) {
        svg.fill("<text x='{}' y='{}'>", &[x, y]);
        svg.add(self.word);
        if let Some(number) = self.number {
            svg.show(&number);
        }
        svg.add("</text>\n");
    }
}

fn digits_of(number: u64) -> usize {
    (number.checked_ilog10().unwrap_or(0) as usize).saturating_add(1)
}

/// Draws a rectangle.
pub fn draw_box(class: &str, (x, y): (u64, u64), (width, height): (u64, u64), svg: &mut Text) {
    svg.add("<rect class='");
    svg.add(class);
    let numbers = [x, y, width, height];
    svg.fill("' x='{}' y='{}' width='{}' height='{}'/>\n", &numbers);
}
