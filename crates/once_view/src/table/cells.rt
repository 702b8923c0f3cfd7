//! The cells of a row.
use crate::listed::Listed;
use crate::text::Text;
use once_machine::step::{Place, Rest, Step};
use once_script::plain::Core;
use once_script::print::EntryLine;
use once_script::world::Entry;
use std::alloc::{AllocError, Global};

/// How many listings a cell shows at most.
const MOST_LISTINGS: usize = 20;

/// Adds the cells of a row that say what all tasks share, except for the list.
pub fn add_core(core: &Core<u64>, row: &mut Text) {
    let word = &core.word;
    row.show(&word.count());
    add_mark(word.is_quick(), "\tquick", row);
    add_mark(word.is_ready(), "\tready", row);
    match core.door {
        Some(queue) => row.fill("\tqueue {}", &[queue]),
        None => row.add("\t-"),
    }
    add_mark(core.lists.head, "\theld", row);
}

/// Adds the cell of a flag, which is shown by its word if it is set.
fn add_mark(is_set: bool, cell: &str, row: &mut Text) {
    row.add(if is_set { cell } else { "\t-" });
}

/// The listings: the ticket of each with its waker, or with the word `called` if its task was woken. A long list is
/// cut, and the cell says how many more there are.
pub fn listed_cell(alloc: Global, listed: &Listed) -> Result<String, AllocError> {
    let listings = listed.listings();
    let mut cell = Text::new(alloc);
    if listings.is_empty() {
        cell.add("-");
    }
    for (index, listing) in listings.values().take(MOST_LISTINGS).enumerate() {
        cell.add(if index == 0 { "" } else { " " });
        match listing.waker {
            Some(waker) => cell.fill("{}:{}", &[listing.ticket, waker]),
            None => cell.fill("{}:called", &[listing.ticket]),
        }
    }
    let more = listings.len().saturating_sub(MOST_LISTINGS);
    if more > 0 {
        cell.fill(" and {} more", &[more as u64]);
    }
    cell.into_string()
}

/// Where a task stands.
#[derive(Clone, Copy, PartialEq, Eq)]
pub enum Stand {
    /// It was not made yet.
    Absent,
    New,
    Waits,
    Holds,
    /// A call of it is under way, and makes this step next.
    UnderWay(&'static str),
    Gone,
}

impl Stand {
    pub fn of(step: Option<&Step<u64, u64>>) -> Stand {
        match step {
            None => Stand::Absent,
            Some(Step::Resting(Rest::Start)) => Stand::New,
            Some(Step::Resting(Rest::Wait(_, _))) => Stand::Waits,
            Some(Step::Resting(Rest::Run(_))) => Stand::Holds,
            Some(Step::UnderWay(place)) => Stand::UnderWay(place_word(place)),
            Some(Step::Finished) => Stand::Gone,
        }
    }

    /// Adds the cell of a task that stands there.
    pub fn add(self, row: &mut Text) {
        let word = match self {
            Stand::Absent => "-",
            Stand::New => "new",
            Stand::Waits => "waits",
            Stand::Holds => "holds",
            Stand::UnderWay(word) => {
                row.add("\t> ");
                row.add(word);
                return;
            }
            Stand::Gone => "gone",
        };
        row.add("\t");
        row.add(word);
    }
}

/// The step that a call makes next.
fn place_word(place: &Place<u64, u64>) -> &'static str {
    match place {
        Place::Start => "start",
        Place::TryQuick => "quick claim",
        Place::DoorGet => "get door",
        Place::DoorPut => "put door",
        Place::CountIn(_) => "count in",
        Place::WaitLoad(_, _) => "load",
        Place::Look(_, _) => "look",
        Place::List(_, _, _) => "list",
        Place::Run(_) => "poll init",
        Place::Put(_) => "put value",
        Place::Fast(_) => "fast release",
        Place::AddOne(_) => "add one",
        Place::DoorAgain(_) => "get door again",
        Place::Release(_, _) => "release",
        Place::Leave(_, _, _) => "leave",
        Place::CountOut(_) => "count out",
        Place::DoorTake(_) => "take door",
    }
}

/// Adds what a line added to the record.
pub fn add_entries(entries: &[Entry], row: &mut Text) {
    for (index, entry) in entries.iter().enumerate() {
        row.add(if index == 0 { "" } else { "; " });
        row.show(&EntryLine(entry));
    }
}
