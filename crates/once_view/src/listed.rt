//! The listings of the queue, followed from line to line.
//!
//! The list of the machine is not read whole after each line, since that takes time for each listing. What a line does
//! to it follows from the entries that it adds, and from where its task stands then.
use crate::play::Moment;
use once_machine::step::{Rest, Step};
use once_script::world::{Entry, Reply};
use std::alloc::{AllocError, Global};
use std::collections::{BTreeMap, BTreeSet};

/// A listing.
#[derive(Clone, Copy)]
pub struct Listing {
    pub ticket: u64,
    /// The task that it is of.
    pub task: u64,
    /// The waker that it was listed with, if it was not handed out since.
    pub waker: Option<u64>,
}

/// What a task that was polled has.
#[derive(Clone, Copy)]
struct Polled {
    /// The waker of its last poll.
    waker: u64,
    /// The place of its last listing. Each place is given out once.
    place: Option<u64>,
}

/// The listings of the queue.
#[derive(Drop)]
pub struct Listed {
    /// By their places, so the oldest comes first.
    listings: BTreeMap<u64, Listing>,
    /// The places of those that were not woken.
    uncalled: BTreeSet<u64>,
    /// The tasks that were polled and are not gone.
    polled: BTreeMap<u64, Polled>,
    /// The next place.
    next: u64,
}

impl Listed {
    pub fn new(alloc: Global) -> Self {
        Listed {
            listings: BTreeMap::new(alloc),
            uncalled: BTreeSet::new(alloc),
            polled: BTreeMap::new(alloc),
            next: 0,
        }
    }

    /// The listings by their places.
    pub fn listings(&self) -> &BTreeMap<u64, Listing> {
        &self.listings
    }

    /// The places of those that were not woken.
    pub fn uncalled(&self) -> &BTreeSet<u64> {
        &self.uncalled
    }

    /// The task that is listed at this place, if it is listed there with this waker.
    pub fn task_at(&self, place: u64, waker: u64) -> Option<u64> {
        match self.listings.get(&place) {
            Some(listing) if listing.waker == Some(waker) => Some(listing.task),
            _ => None,
        }
    }

    /// Takes an entry that a line adds.
    pub fn take(&mut self, entry: &Entry) -> Result<(), AllocError> {
        match entry {
            Entry::Begin(task, waker) => return self.begin(*task, *waker),
            Entry::Claim(task) => self.take_out(*task),
            Entry::Free(_, wakers) | Entry::Pass(_, wakers) if !wakers.is_empty() => {
                self.call_first()
            }
            Entry::Fill(_, _, _) => {
                self.listings.clear();
                self.uncalled.clear();
            }
            _ => {}
        }
        Ok(())
    }

    /// Takes the end of a line, after its entries: its task may be listed now, or not any more.
    pub fn settle(&mut self, moment: Moment<'_>) -> Result<(), AllocError> {
        let Some(task) = moment.task else {
            return Ok(());
        };
        let has_waited = matches!(moment.added.last(), Some(Entry::End(_, Reply::Pending)));
        match moment.world.step_of(task) {
            Some(Step::Resting(Rest::Wait(_, Some(ticket)))) if has_waited => {
                self.list(task, *ticket)
            }
            Some(Step::Finished) | None => {
                self.forget(task);
                Ok(())
            }
            Some(_) => {
                let ticket = self.listing_of(task).map(|listing| listing.ticket);
                if !moment.world.core().lists.is_listed(ticket) {
                    self.take_out(task);
                }
                Ok(())
            }
        }
    }

    /// Takes the end of an entry of a record, after the entry: its task may be listed now, or not any more. The task
    /// that holds is not. A record has no tickets, so each listing has the ticket 0.
    pub fn settle_entry(&mut self, entry: &Entry, holder: Option<u64>) -> Result<(), AllocError> {
        match entry {
            Entry::End(task, Reply::Pending) if holder != Some(*task) => self.list(*task, 0),
            Entry::End(_, Reply::Pending) => Ok(()),
            Entry::End(task, _) | Entry::DropEnd(task) => {
                self.forget(*task);
                Ok(())
            }
            _ => Ok(()),
        }
    }

    fn begin(&mut self, task: u64, waker: u64) -> Result<(), AllocError> {
        match self.polled.get_mut(&task) {
            Some(polled) => polled.waker = waker,
            None => {
                self.polled.insert(task, Polled { waker, place: None })?;
            }
        }
        Ok(())
    }

    fn place_of(&self, task: u64) -> Option<u64> {
        self.polled.get(&task)?.place
    }

    /// The listing of the task, if it has one.
    fn listing_of(&self, task: u64) -> Option<&Listing> {
        self.listings.get(&self.place_of(task)?)
    }

    /// The task waits with this ticket: it is listed at the end, unless it is already, with its waker.
    fn list(&mut self, task: u64, ticket: u64) -> Result<(), AllocError> {
        let Some(polled) = self.polled.get(&task) else {
            return Ok(());
        };
        let listing = Listing {
            ticket,
            task,
            waker: Some(polled.waker),
        };
        if let Some(before) = self.listing_of(task)
            && before.waker == listing.waker
        {
            return Ok(());
        }
        self.take_out(task);
        self.list_last(listing)
    }

    /// Adds a listing at the end.
    fn list_last(&mut self, listing: Listing) -> Result<(), AllocError> {
        let place = self.next;
        self.listings.insert(place, listing)?;
        self.uncalled.insert(place)?;
        self.next = place.saturating_add(1);
        if let Some(polled) = self.polled.get_mut(&listing.task) {
            polled.place = Some(place);
        }
        Ok(())
    }

    /// Takes the listing of the task out, if it has one.
    fn take_out(&mut self, task: u64) {
        if let Some(place) = self.place_of(task) {
            self.listings.remove(&place);
            self.uncalled.remove(&place);
        }
    }

    /// The task is gone.
    fn forget(&mut self, task: u64) {
        self.take_out(task);
        self.polled.remove(&task);
    }

    /// The first that was not woken is woken, and stays.
    fn call_first(&mut self) {
        if let Some(place) = self.uncalled.pop_first() {
            if let Some(listing) = self.listings.get_mut(&place) {
                listing.waker = None;
            }
        }
    }
}
