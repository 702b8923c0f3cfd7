//! A picture's shapes as SVG.
use super::TICKS;
use super::lanes::{Lane, Lanes};
use super::legend::draw_legend;
use super::shape::{CellState, LAYERS, Shape, Span};
use super::svg::{Label, draw_box};
use crate::reading::TextLine;
use crate::text::Text;
use once_script::world::{Ran, Reply};

/// The left margin, if the names of the tasks need no more.
const LEAST_LEFT: u64 = 70;

/// The top of the cell's band.
const BAND: u64 = 40;

/// The height of the cell's band.
const BAND_HEIGHT: u64 = 16;

/// The bottom of the cell's band.
const BAND_BOTTOM: u64 = BAND + BAND_HEIGHT;

/// The top of the first lane.
const LANES: u64 = 76;

/// How many letters of the title are written at most. The least width has room for them.
const MOST_TITLE: usize = 100;

/// How many letters of a line are written below its number at most.
const MOST_LETTERS: usize = 24;

/// The least width, which the legend needs.
const LEAST_WIDTH: u64 = 780;

const HEAD: &str =
    "<svg xmlns='http://www.w3.org/2000/svg' width='{}' height='{}' viewBox='0 0 {} {}'>\n";

const STYLE: &str = "<style>text{font:11px sans-serif;fill:#222}
.light{fill:#fff}
.grid{stroke:#e4e4e4}
.life{stroke:#888}
.wait{fill:#ffe9b0;stroke:#a67c00;stroke-dasharray:3 2}
.poll{fill:#fff;stroke:#222}
.drop{fill:#fff;stroke:#222;stroke-dasharray:2 2}
.hold,.held{fill:#8fb8de;stroke:#222}
.empty{fill:#fff;stroke:#222}
.set{fill:#222;stroke:#222}
.pending{fill:#fff;stroke:#222;stroke-width:2}
.value{fill:#222;stroke:#222}
.error{fill:#b00020;stroke:#b00020}
.wake{fill:#b00020;stroke:#b00020;stroke-width:1.5}
.look{fill:#222}</style>
";

/// A line of the grid, with its number.
const LINE: &str = "<path class='grid' d='M{} {}V{}'/><text x='{}' y='{}'>{}</text>\n";

/// The answers of polls of an init.
const PENDING: &str = "<circle class='pending' cx='{}' cy='{}' r='{}'/>\n";

const VALUE: &str = "<circle class='value' cx='{}' cy='{}' r='{}'/>\n";

/// An arrow that ends with a triangle.
const ARROW: &str = "<path class='wake' d='M{} {}V{}L{} {}H{}L{} {}Z'/>\n";

/// A triangle that points to the band.
const MARK: &str = "<path class='look' d='M{} {}L{} {}H{}Z'/>\n";

/// How a script of this size is drawn.
#[derive(Clone, Copy)]
pub struct Drawing<'a> {
    title: Beginning<'a>,
    lines: &'a [TextLine<'a>],
    lanes: &'a [Lane],
    /// Where the first column begins.
    left: u64,
    /// The width of a column.
    column: u64,
    /// An eighth of the height of a lane.
    unit: u64,
    /// The height of the words of lines, below their numbers.
    below: u64,
}

impl<'a> Drawing<'a> {
    pub fn new(title: &'a str, lines: &'a [TextLine<'a>], lanes: &'a Lanes) -> Self {
        let lanes = lanes.as_slice();
        let last = lanes.iter().map(|lane| lane.task).max().unwrap_or(0);
        let name = Label::with("task ", last);
        let mut drawing = Drawing {
            title: Beginning(title, MOST_TITLE),
            lines,
            lanes,
            left: room_of(name.len()).saturating_add(8).max(LEAST_LEFT),
            column: match lines.len() {
                0..=40 => 40,
                41..=120 => 24,
                _ => 8,
            },
            unit: match lanes.len() {
                0..=20 => 4,
                21..=50 => 2,
                _ => 1,
            },
            below: 0,
        };
        if drawing.has_words() {
            let lengths = lines.iter().map(|line| words_of(*line).len());
            drawing.below = room_of(lengths.max().unwrap_or(0));
        }
        drawing
    }

    /// Draws the whole picture.
    pub fn draw(&self, shapes: &[Shape], svg: &mut Text) {
        self.draw_head(svg);
        self.draw_axis(svg);
        self.draw_words_of_lines(svg);
        self.draw_lanes(svg);
        for layer in 0..LAYERS {
            for shape in shapes {
                if shape.layer() == layer {
                    self.draw_shape(shape, svg);
                }
            }
        }
        self.draw_words_above(shapes, svg);
        self.draw_look_words(shapes, svg);
        draw_legend(self.foot().saturating_add(24), svg);
        self.draw_left_out(svg);
        svg.add("</svg>\n");
    }

    /// Whether there is room for words in the columns.
    fn has_words(&self) -> bool {
        self.column >= 24
    }

    fn x(&self, at: u64) -> u64 {
        let ticks = at.saturating_mul(self.column) / TICKS;
        ticks.saturating_add(self.left)
    }

    /// So many units below the top of a lane.
    fn y(&self, lane: u64, units: u64) -> u64 {
        let all = lane.saturating_mul(8).saturating_add(units);
        all.saturating_mul(self.unit).saturating_add(LANES)
    }

    /// The time at which the last column ends.
    fn end(&self) -> u64 {
        (self.lines.len() as u64).saturating_mul(TICKS)
    }

    fn right(&self) -> u64 {
        self.x(self.end())
    }

    /// The bottom of the last lane.
    fn bottom(&self) -> u64 {
        self.y(self.lanes.len() as u64, 0)
    }

    /// The bottom of all that is above the legend, but for the numbers of lines.
    fn foot(&self) -> u64 {
        self.bottom().saturating_add(self.below)
    }

    fn width(&self) -> u64 {
        self.right().saturating_add(30).max(LEAST_WIDTH)
    }

    fn draw_head(&self, svg: &mut Text) {
        let (width, height) = (self.width(), self.foot().saturating_add(106));
        svg.fill(HEAD, &[width, height, width, height]);
        svg.add(STYLE);
        svg.fill(
            "<rect width='{}' height='{}' fill='#fff'/>\n",
            &[width, height],
        );
        svg.add("<text x='8' y='18'>");
        self.title.draw(svg);
        svg.add("<text x='8' y='52'>the cell</text>\n");
    }

    /// The number of each column's line, or of each tenth.
    fn draw_axis(&self, svg: &mut Text) {
        let (top, bottom) = (LANES, self.bottom());
        let words = bottom.saturating_add(14);
        Label::of("line").draw(8, words, svg);
        for (column, line) in self.lines.iter().enumerate() {
            if self.has_words() || column % 10 == 0 {
                let x = self.x((column as u64).saturating_mul(TICKS));
                svg.fill(LINE, &[x, top, bottom, x, words, line.number]);
            }
        }
    }

    /// What each line says, below its number. The words run downwards, since most lines are wider than a column. If
    /// there are many columns, they are narrower than a line of text is high, so the words are left out.
    fn draw_words_of_lines(&self, svg: &mut Text) {
        if !self.has_words() {
            return;
        }
        let y = self.bottom().saturating_add(20);
        Label::of("script").draw(8, y.saturating_add(10), svg);
        for (column, line) in self.lines.iter().enumerate() {
            let x = self
                .x((column as u64).saturating_mul(TICKS))
                .saturating_add(2);
            svg.fill("<text transform='translate({} {}) rotate(90)'>", &[x, y]);
            words_of(*line).draw(svg);
        }
    }

    /// The name of each task, and a line from its making to its end.
    fn draw_lanes(&self, svg: &mut Text) {
        let end = self.end();
        for (place, lane) in self.lanes.iter().enumerate() {
            let place = place as u64;
            let (from, to) = (self.x(lane.made), self.x(lane.gone.unwrap_or(end)));
            let y = self.y(place, 3);
            svg.fill("<path class='life' d='M{} {}H{}'/>\n", &[from, y, to]);
            if self.unit > 1 || place % 2 == 0 {
                Label::with("task ", lane.task).draw(8, y.saturating_add(4), svg);
            }
        }
    }

    fn draw_shape(&self, shape: &Shape, svg: &mut Text) {
        match shape {
            Shape::Wait(span) => self.draw_span("wait", *span, (2, 2), svg),
            Shape::TaskPoll(span) => self.draw_span("poll", *span, (1, 4), svg),
            Shape::TaskDrop(span) => self.draw_span("drop", *span, (1, 4), svg),
            Shape::Hold(span) => self.draw_span("hold", *span, (5, 1), svg),
            Shape::InitPoll { lane, at, answer } => self.draw_poll(*lane, *at, *answer, svg),
            Shape::Reply { lane, at, reply } => self.draw_reply(*lane, *at, *reply, svg),
            Shape::Wake { at, caller, called } => self.draw_wake(*at, *caller, *called, svg),
            Shape::Cell { from, to, state } => self.draw_cell(*from, *to, *state, svg),
            Shape::Look { at, .. } => self.draw_mark(*at, BAND_BOTTOM, BAND_BOTTOM + 7, svg),
            Shape::Owner { at, .. } => self.draw_mark(*at, BAND, BAND - 7, svg),
        }
    }

    /// A bar, so many units below the top of its lane, and so many high.
    fn draw_span(&self, class: &str, span: Span, (top, high): (u64, u64), svg: &mut Text) {
        let (x, y) = (self.x(span.from), self.y(span.lane, top));
        let width = self.x(span.to).saturating_sub(x).max(2);
        draw_box(class, (x, y), (width, high.saturating_mul(self.unit)), svg);
    }

    fn draw_poll(&self, lane: u64, at: u64, answer: Ran, svg: &mut Text) {
        let (x, y) = (self.x(at), self.y(lane, 3));
        let radius = self.unit.max(2);
        match answer {
            Ran::Pending => svg.fill(PENDING, &[x, y, radius]),
            Ran::Value(_) => svg.fill(VALUE, &[x, y, radius]),
            Ran::Error(_) => {
                let corner = (x.saturating_sub(radius), y.saturating_sub(radius));
                let side = radius.saturating_mul(2);
                draw_box("error", corner, (side, side), svg);
            }
        }
    }

    fn draw_reply(&self, lane: u64, at: u64, reply: Reply, svg: &mut Text) {
        if !self.has_words() || self.unit < 4 {
            return;
        }
        let (x, y) = (self.x(at).saturating_add(3), self.y(lane, 4));
        let label = match reply {
            Reply::Pending => return,
            Reply::Value(value) => Label::with("v", value),
            Reply::Error(error) => Label::with("e", error),
            Reply::Memory => Label::of("memory"),
            Reply::Full => Label::of("full"),
        };
        if x.saturating_add(room_of(label.len())) <= self.width() {
            label.draw(x, y, svg);
        }
    }

    /// An arrow from one lane to another.
    fn draw_wake(&self, at: u64, caller: u64, called: u64, svg: &mut Text) {
        let (x, start) = (self.x(at), self.y(caller, 6));
        let (left, right) = (x.saturating_sub(3), x.saturating_add(3));
        let is_down = called > caller;
        let tip = self.y(called, if is_down { 2 } else { 4 });
        let back = if is_down {
            tip.saturating_sub(6)
        } else {
            tip.saturating_add(6)
        };
        svg.fill(ARROW, &[x, start, tip, left, back, right, x, tip]);
    }

    fn draw_cell(&self, from: u64, to: u64, state: CellState, svg: &mut Text) {
        let x = self.x(from);
        let width = self.x(to).saturating_sub(x);
        if width == 0 {
            return;
        }
        let class = match state {
            CellState::Empty => "empty",
            CellState::Held(_) => "held",
            CellState::Set(_) => "set",
        };
        draw_box(class, (x, BAND), (width, BAND_HEIGHT), svg);
        let label = state.label();
        if room_of(label.len()) > width {
            return;
        }
        let (x, y) = (x.saturating_add(4), BAND.saturating_add(12));
        match state {
            CellState::Set(value) => {
                let light = "<text class='light' x='{}' y='{}'>set: v{}</text>\n";
                svg.fill(light, &[x, y, value]);
            }
            CellState::Empty | CellState::Held(_) => label.draw(x, y, svg),
        }
    }

    /// A mark whose tip touches the band of the cell.
    fn draw_mark(&self, at: u64, tip: u64, back: u64, svg: &mut Text) {
        let x = self.x(at);
        let (left, right) = (x.saturating_sub(4), x.saturating_add(4));
        svg.fill(MARK, &[x, tip, left, back, right]);
    }

    /// Above the band: the owner's calls, and the holders whose names have no room in the band.
    fn draw_words_above(&self, shapes: &[Shape], svg: &mut Text) {
        let (y, mut free) = (BAND - 4, 0u64);
        for shape in shapes {
            match shape {
                Shape::Owner { at, word } => {
                    let x = self.x(*at).saturating_add(6);
                    free = self.draw_word((x, y), Label::of(word), free, svg);
                }
                Shape::Cell { from, to, state } if matches!(state, CellState::Held(_)) => {
                    let (x, word) = (self.x(*from), state.label());
                    if room_of(word.len()) > self.x(*to).saturating_sub(x) {
                        free = self.draw_word((x, y), word, free, svg);
                    }
                }
                _ => {}
            }
        }
    }

    /// What looks found, below the band.
    fn draw_look_words(&self, shapes: &[Shape], svg: &mut Text) {
        let mut free = 0u64;
        for shape in shapes {
            if let Shape::Look { at, value } = shape {
                let word = match value {
                    Some(value) => Label::with("v", *value),
                    None => Label::of("none"),
                };
                let x = self.x(*at).saturating_add(6);
                free = self.draw_word((x, BAND_BOTTOM + 11), word, free, svg);
            }
        }
    }

    /// Draws a word into a row, which is free from `free` on, if there is room. Answers from where on it is free then.
    fn draw_word(&self, (x, y): (u64, u64), word: Label, free: u64, svg: &mut Text) -> u64 {
        let end = x.saturating_add(room_of(word.len()));
        if !self.has_words() || x < free || end > self.width() {
            return free;
        }
        word.draw(x, y, svg);
        end
    }

    /// Says what a large picture leaves out.
    fn draw_left_out(&self, svg: &mut Text) {
        let y = self.foot().saturating_add(96);
        let text = match (self.has_words(), self.unit) {
            (true, 4) => return,
            (true, 2) => "Left out, since there are many tasks: what polls answer.",
            (true, _) =>
                "Left out, since there are many tasks: what polls answer, and every other name.",
            (false, 1) =>
                "Left out, since there are many lines and tasks: what lines say, polls answer, looks find and the \
                owner calls, the names of short holds, nine of ten numbers of lines, and every other name.",
            (false, _) =>
                "Left out, since there are many lines: what lines say, polls answer, looks find and the owner calls, \
                the names of short holds, and nine of ten numbers of lines.",
        };
        Label::of(text).draw(8, y, svg);
    }
}

/// The most room that a word with this many letters needs.
fn room_of(letters: usize) -> u64 {
    (letters as u64).saturating_mul(7).saturating_add(8)
}

/// A text of letters, digits and blanks, and how many of them are written at most. Two dots stand for the rest.
#[derive(Clone, Copy)]
struct Beginning<'a>(&'a str, usize);

impl Beginning<'_> {
    /// How many letters are written, with the dots.
    fn len(self) -> usize {
        if self.0.len() > self.1 {
            self.1.saturating_add(2)
        } else {
            self.0.len()
        }
    }

    /// Draws it as the words of a text, and ends that.
    fn draw(self, svg: &mut Text) {
        match self.0.get(..self.1) {
            Some(begin) if begin.len() < self.0.len() => {
                svg.add(begin);
                svg.add("..");
            }
            _ => svg.add(self.0),
        }
        svg.add("</text>\n");
    }
}

/// What is written of a line below its number.
fn words_of<'a>(line: TextLine<'a>) -> Beginning<'a> {
    Beginning(line.text, MOST_LETTERS)
}
