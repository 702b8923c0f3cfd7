//! The book of a cell. A line of its log and a page are types of a specification, so the structs here are for clauses
//! alone: nobody makes a value of them.
ghost use Rattle.std.specs.Prelude.{None, false, [], ◌∷◌};
ghost use Rattle.async_once_cell.specs.Inner.Prelude.{Entry, Look, Sheet, sheet, IsKept, Queue, desk_pages, first_desk};

use pagebook::{Opening, Pens, Rule, Seen, Slot, Word};
use std::marker::Model;

/// A line of the log: an entry of the record.
pub struct Line;

impl Model for Line {
    ghost Value = { Entry };

    ghost view = { λ _. Look None };
}

/// A page: what the door, the queue or a task has of the machine's world.
pub struct Leaf;

impl Model for Leaf {
    ghost Value = { Sheet };

    ghost view = { λ _. sheet [] (Queue false []) };
}

/// The rule of a cell's book: between any two steps it is the book of a world that tasks can reach.
pub struct CellRule;

impl Rule<Line, Leaf> for CellRule {
    ghost holds = { λ ns ss log. IsKept ns ss log };
}

impl Opening<(), Line, Leaf> for CellRule {
    ghost words = { λ _. 0 ∷ 0 ∷ 0 ∷ [] };

    ghost pages = { λ _. desk_pages first_desk };

    ghost log = { λ _. [] };
}

/// A word of a cell.
pub type CellWord = Word<Line, Leaf, CellRule>;

/// Where the value of a cell lies. `V` says what is promised of it.
pub type CellSlot<T, V> = Slot<T, Line, Leaf, CellRule, V>;

/// What was seen of a cell's log, which is the record of the machine. A clause sees its `book` and its `log`.
pub type Record = Seen<Line, Leaf, CellRule>;

/// Pens of a cell's pages.
pub type CellPens = Pens<Leaf>;
