//! The elements of a picture: of which class each is, and where it stands.
use std::alloc::{AllocError, Global};

/// An element.
#[derive(Drop)]
pub struct Shape<'a> {
    /// Its class, or its name if it has none.
    pub class: &'a str,
    /// The text in it.
    pub text: &'a str,
    /// The numbers of its other attributes, in their order.
    numbers: Vec<i64>,
}

impl Shape<'_> {
    /// The number at this place, or 0.
    pub fn number(&self, place: usize) -> i64 {
        self.numbers.get(place).copied().unwrap_or(0)
    }

    /// Where a rectangle ends at the right.
    pub fn right(&self) -> i64 {
        self.number(0).saturating_add(self.number(2))
    }

    /// The middle of a rectangle's height.
    pub fn middle(&self) -> i64 {
        self.number(1).saturating_add(self.number(3) / 2)
    }
}

/// The elements of a picture, but for its legend and what follows it.
pub fn shapes_of(alloc: Global, svg: &str) -> Result<Vec<Shape<'_>>, AllocError> {
    let mut shapes = Vec::new(alloc);
    let (body, _) = svg.split_once("<g ").unwrap_or((svg, ""));
    for element in body.split('<') {
        if let Some((tag, text)) = element.split_once('>') {
            let (class, others) = class_of(tag);
            shapes.push(Shape {
                class,
                text,
                numbers: numbers_in(alloc, others)?,
            })?;
        }
    }
    Ok(shapes)
}

/// The class of an element, and the attributes after it.
fn class_of(tag: &str) -> (&str, &str) {
    let (name, attributes) = tag.split_once(' ').unwrap_or((tag, ""));
    let class = attributes.strip_prefix("class='");
    class
        .and_then(|rest| rest.split_once('\''))
        .unwrap_or((name, attributes))
}

/// The numbers in a text, none of which has a sign.
fn numbers_in(alloc: Global, text: &str) -> Result<Vec<i64>, AllocError> {
    text.split(|letter: char| !letter.is_ascii_digit())
        .filter_map(|digits| digits.parse::<i64>().ok())
        .collect(alloc)
}
