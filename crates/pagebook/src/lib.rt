//! Ghost state behind the words that threads share: a proof can say what all threads did, in one order, and no byte of
//! it is there when the program runs.
//!
//! Threads change a few atomic words, and what a value in a word *means* lies in many places: how often one came, which
//! may write next, which of two went first. A **book** holds these meanings for the proof: the values of its words,
//! *pages* of any type, and a *log* that only grows. A **rule**, which the author states, ties them together at each
//! moment. An atomic step of a word may change and add pages and add to the log, if the rule holds again after it.
//!
//! # The model in one picture
//!
//! ```text
//!           words            pages                          log
//! book:   [ 1 ]   [ AtDesk 2 | OfVisitor true | .. ]   [ arrival 0, arrival 1 ]      the rule holds of all three
//!           ^          ^              ^                     ^
//!         Word     a pen each: whoever has it in its    Seen: "the log began so",
//!       (8 bytes)  hand (Pens) may change the page      which stays true
//! ```
//!
//! - `Word` is a shared `u64`, with the steps `load`, `store`, `swap`, `compare_exchange`, `fetch_add`, `fetch_sub`.
//! - `Word::open` makes a book. It gives `Blanks`, of which the words and slots of the book are made, in their order.
//! - `Pens` is a hand of pens. A page whose pen is in a hand says what that says, until a step with the hand changes
//!   it. Hands are put together (`append`) and cut (`split_off`), so one step can change pages of several hands.
//! - `Seen` is what a thread has seen of the log. It can be copied. Of two `Seen` of one book the one log is a
//!   beginning of the other (`agrees`), and one can learn what the other knows.
//! - `Seen::note` is a step that touches no word.
//! - `Slot` is a place for one value, whose state is a word of the book, without bytes. By the rule no put is refused,
//!   and code that has seen the put gets the value with no test. `Written` is a token that shows for good what it is.
//! - `Fits` says what is promised of a slot's value when the slot is made. Code that puts the value shows it, and code
//!   that gets the value knows it, on any thread and without a token.
//! - `KeyedMutex` is a lock whose content is of a book, as pens are, or promises something about numbers. A clause can
//!   name both, and no type has to.
//!
//! # How a structure is made of it
//!
//! `CALLING.md` tells it step by step. A whole program is `first` in the crate `pagebook_uses`: of two threads one is
//! told that it came first, and never both. The one that finds 0 in the word adds a page and has its pen, and there is
//! one such pen.
//!
//! # What is proved, and what is not said
//!
//! Each function is safe, and each but `lock` returns. The rule holds between any two steps of all threads, and each
//! step ensures its `Play`. A log that was seen is a beginning of each later one. Nothing is said of progress or of
//! time. Each step of a `Word` is sequentially consistent, and so the value of a `Slot` may be read plainly (the head
//! of `slot.rt` says why). A word cannot join a book later, and a book is never closed.
//!
//! A ghost log behind words is the idea of the kit's `logbook`, where one cell lies behind each word; here there are
//! pages of any type, several of which change in one step. A slot that is written once and read by tokens is that of
//! the kit's `boxcar`. The proofs of what a `&` is, and those of `Slot`, follow theirs closely.
#![tactic(auto)]

mod lock;
mod rule;
mod slot;
mod tied;
mod word;

pub use lock::KeyedMutex;
pub use rule::{Anything, Fits, Opening, Play, Rule};
pub use slot::{Slot, Written};
pub use tied::{Key, Keyed, LockOf, Tied};
pub use word::{Blanks, Pens, Seen, Word};
