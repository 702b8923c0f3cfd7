//! The tasks for which a part of a table has no columns: how many are new, wait, hold, and so on.
use super::cells::Stand;
use crate::text::Text;

/// How many tasks there are that are not gone.
#[derive(Clone, Copy)]
pub struct Others {
    new: u64,
    waiting: u64,
    holding: u64,
    calling: u64,
}

impl Others {
    pub fn new() -> Self {
        Others {
            new: 0,
            waiting: 0,
            holding: 0,
            calling: 0,
        }
    }

    /// Counts a task that stands there.
    pub fn add(&mut self, stand: Stand) {
        if let Some(count) = self.count_of(stand) {
            *count = count.saturating_add(1);
        }
    }

    /// Takes a task that stands there out of the count.
    pub fn take_out(&mut self, stand: Stand) {
        if let Some(count) = self.count_of(stand) {
            *count = count.saturating_sub(1);
        }
    }

    fn count_of(&mut self, stand: Stand) -> Option<&mut u64> {
        match stand {
            Stand::Absent | Stand::Gone => None,
            Stand::New => Some(&mut self.new),
            Stand::Waits => Some(&mut self.waiting),
            Stand::Holds => Some(&mut self.holding),
            Stand::UnderWay(_) => Some(&mut self.calling),
        }
    }

    pub fn is_empty(&self) -> bool {
        self.new == 0 && self.waiting == 0 && self.holding == 0 && self.calling == 0
    }

    /// Adds how many there are of each.
    pub fn show(self, text: &mut Text) {
        let mut gap = "";
        for (count, word) in &[
            (self.new, "new"),
            (self.waiting, "waiting"),
            (self.holding, "holding"),
            (self.calling, "in a call"),
        ] {
            if *count > 0 {
                text.add(gap);
                text.fill("{} ", &[*count]);
                text.add(word);
                gap = ", ";
            }
        }
    }
}
