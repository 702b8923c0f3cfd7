//! The listings of those that wait, in their order, each found by its ticket without a search.
ghost use Rattle.std.specs.Prelude.{◌≡◌, ◌==◌, ◌<◌, ◌≤◌, ◌+◌, ◌*◌, max, ◌⊎◌, ◌++◌, ◌∷◌, [], ℕ, true, false};
ghost use Rattle.std.specs.Prelude.{if◌then◌else◌, Some, None, IsSome, IfSome, IfOk, IsOk, OnOk, length, vec_len};
ghost use Rattle.std.specs.Prelude.{vec_capacity, HoldsAt, filter, position};
ghost use Rattle.once_machine.specs.Prelude.{option_copied, option_flatten, option_map, is_distinct, is_some, member};
ghost use Rattle.once_machine.specs.Prelude.{is_marked, tickets};
ghost use Rattle.once_machine.specs.Prelude.{find_listing, take_out, first_waker, call_first, new_ticket};
ghost use Rattle.once_machine.specs.Prelude.{lent_listings, hole, is_kept, is_open, Renewed};

use crate::memory::{self, NoMemory};
use crate::waiters::{Listing, Renews};
use std::alloc::{AllocError, Global};
use std::mem;

// The ticket of a slot that its listing left.
const HOLE: u64 = u64::MAX;

/// Listings in their order, each in a slot. One that is taken out leaves a hole. If the last slot is taken when a
/// listing is to be put there, the holes are closed if they are more than half of the slots; else the room is doubled.
/// So a listing is found, taken out and put to the end without a look at the others, and listings that come and go take
/// no memory without end. The least free ticket and the first waker are looked for from where they were found last.
#[derive(Drop)]
pub struct Slots<W> {
    slots: Vec<Listing<W>>,
    // Where a listing was put, by its ticket. It is looked for there first, and no proof knows of it.
    places: Vec<usize>,
    // For each ticket that was ever given out, whether a listing has it.
    used: Vec<bool>,
    // Each ticket below has a listing.
    free: usize,
    // No listing before this slot has a waker.
    uncalled: usize,
    // How many holes were made since they were closed.
    holes: usize,
    ghost once: { is_distinct (tickets (filter is_kept slots.items)) ≡ true },
    ghost marks: { (n : ℕ) → is_marked n used.items ≡ member n (tickets (filter is_kept slots.items)) },
    ghost low: { (n : ℕ) → n < free → is_marked n used.items ≡ true },
    ghost within: { uncalled ≤ vec_len slots },
    ghost called: { (n : ℕ) → n < uncalled → HoldsAt (λ x. is_open x ≡ false) slots.items n },
    // A slot without a listing is counted as a hole.
    ghost counted: { vec_len slots ≤ holes + length (filter is_kept slots.items) },
}

impl<W: Drop> Slots<W> {
    ghost use Rattle.once_machine.specs.Slots.{HasMark, HasSlot, capacity_in, listings_in};

    /// No listing. It takes no memory.
    pub fn new(alloc: Global) -> Self
        ensures listings { listings_in result ≡ [] }
        ensures memory { capacity_in result ≡ 0 }
    {
        Slots {
            slots: Vec::new(alloc),
            places: Vec::new(alloc),
            used: Vec::new(alloc),
            free: 0,
            uncalled: 0,
            holes: 0,
        }
    }

    /// The listings, and among them holes, which have no waker.
    pub fn as_slice(&self) -> &[Listing<W>]
        ensures { listings_in self.now ≡ filter is_kept result.now }
    {
        &self.slots
    }

    /// The listings, in their order.
    pub fn listings(&self, alloc: Global) -> Result<Vec<&Listing<W>>, AllocError>
        ensures { IfOk result (λ all. lent_listings all.items ≡ listings_in self.now) }
    {
        let kept = self.slots.iter().filter(|slot| slot.ticket != HOLE);
        kept.collect(alloc)
    }

    /// For how many listings there is memory.
    pub fn capacity(&self) -> usize
        ensures { result ≡ capacity_in self.now }
    {
        self.slots.capacity()
    }

    /// How many listings there are.
    pub fn len(&self) -> usize
        ensures { result ≡ length (listings_in self.now) }
    {
        self.slots.iter().filter(|slot| slot.ticket != HOLE).count()
    }

    /// The listing with this ticket.
    pub fn find(&self, ticket: u64) -> Option<&Listing<W>>
        ensures { option_map (λ x. x.waker) (option_copied result) ≡ find_listing ticket (listings_in self.now) }
    {
        let place = self.place(ticket)?;
        Some(&self.slots[place])
    }

    /// Takes the listing with this ticket out, if one has it.
    pub fn take_out(&mut self, ticket: u64) -> Option<Listing<W>>
        ensures waker { option_map (λ x. x.waker) result ≡ find_listing ticket (listings_in self.old) }
        ensures own { IfSome result (λ x. x.ticket ≡ ticket) }
        ensures listings { listings_in self.new ≡ take_out ticket (listings_in self.old) }
        ensures none { result ≡ None → self.new ≡ self.old }
        ensures mark { IsSome result → ticket < vec_len self.new.used }
        ensures hole { IsSome result → length (listings_in self.new) < vec_len self.new.slots }
        ensures memory { capacity_in self.new ≡ capacity_in self.old }
    {
        let place = self.place(ticket)?;
        unmark(&mut self.used, ticket);
        self.free = self.free.min(ticket as usize);
        self.holes = self.holes.saturating_add(1);
        let hole = Listing {
            ticket: HOLE,
            waker: None,
        };
        Some(mem::replace(&mut self.slots[place], hole))
    }

    /// Lets the waker of the listing with this ticket be renewed, and answers whether it has one.
    pub fn renew<N: Renews<W>>(&mut self, ticket: u64, by: &mut N) -> bool
        ensures has { result ≡ is_some (option_flatten (find_listing ticket (listings_in self.old))) }
        ensures renewed { result ≡ true
            → Renewed N.renewed ticket (listings_in self.old) by.old (listings_in self.new) by.new }
        ensures not { result ≡ false → (listings_in self.new ≡ listings_in self.old) × (by.new ≡ by.old) }
        ensures memory { capacity_in self.new ≡ capacity_in self.old }
    {
        let Some(place) = self.place(ticket) else {
            return false;
        };
        if !has_waker(&self.slots[place]) {
            return false;
        }
        let Some(waker) = &mut self.slots[place].waker else {
            unreachable!()
        };
        by.renew(waker);
        true
    }

    /// The least ticket that no listing has.
    pub fn free_ticket(&mut self) -> u64
        ensures least { result ≡ new_ticket (listings_in self.old) }
        ensures new { member result (tickets (listings_in self.old)) ≡ false }
        ensures mark { result ≤ vec_len self.new.used }
        ensures listings { listings_in self.new ≡ listings_in self.old }
        ensures slot { HasSlot self.old → HasSlot self.new }
        ensures room { HasMark self.old → HasMark self.new }
        ensures memory { capacity_in self.new ≡ capacity_in self.old }
    {
        self.free = first_unmarked(&self.used, self.free);
        self.free as u64
    }

    /// Puts a listing to the end, for which there is room, and whose ticket no listing has.
    #[inline(always)]
    pub fn push(&mut self, listing: Listing<W>)
        requires new { member listing.ticket (tickets (listings_in self.old)) ≡ false }
        requires slot { HasSlot self.old }
        requires mark { (listing.ticket < vec_len self.old.used)
            ⊎ ((listing.ticket ≡ vec_len self.old.used) × HasMark self.old) }
        ensures listings { listings_in self.new ≡ listings_in self.old ++ listing ∷ [] }
        ensures memory { capacity_in self.new ≡ capacity_in self.old }
    {
        mark(&mut self.used, listing.ticket);
        note(&mut self.places, listing.ticket as usize, self.slots.len());
        self.slots.push_reserved(listing);
    }

    /// The first listing that has a waker gives it, and stays.
    pub fn call_first(&mut self) -> Option<W>
        ensures waker { result ≡ first_waker (listings_in self.old) }
        ensures listings { listings_in self.new ≡ call_first (listings_in self.old) }
        ensures memory { capacity_in self.new ≡ capacity_in self.old }
    {
        self.uncalled = self.first_open();
        if self.uncalled == self.slots.len() {
            return None;
        }
        self.slots[self.uncalled].waker.take()
    }

    /// Makes room for one more listing. If that is refused, the listings are as they were.
    #[inline(always)]
    pub fn reserve(&mut self) -> Result<(), NoMemory>
        ensures slot { OnOk result (HasSlot self.new) }
        ensures mark { OnOk result (HasMark self.new) }
        ensures succeeds { HasSlot self.old → HasMark self.old → IsOk result }
        ensures listings { listings_in self.new ≡ listings_in self.old }
        ensures memory { capacity_in self.new ≤ max (capacity_in self.old) (4 * (length (listings_in self.old) + 1)) }
    {
        if self.slots.len() == self.slots.capacity() {
            self.make_space()?;
        }
        memory::reserve(&mut self.used, 1)?;
        // Without this memory a listing is found by a search.
        let _ = self.places.reserve(1);
        Ok(())
    }

    // Closes holes if there are many, and else asks for memory. It stands apart, so that a section has only a call of
    // it.
    #[inline(never)]
    fn make_space(&mut self) -> Result<(), NoMemory>
        ensures slot { OnOk result (HasSlot self.new) }
        ensures used { self.new.used ≡ self.old.used }
        ensures listings { listings_in self.new ≡ listings_in self.old }
        ensures memory { capacity_in self.new ≤ max (capacity_in self.old) (4 * (length (listings_in self.old) + 1)) }
    {
        self.close_many_holes();
        if self.slots.len() == self.slots.capacity() {
            double(&mut self.slots)?;
        }
        Ok(())
    }

    /// Sees to it that the listing that was taken out can be put to the end again, without memory.
    pub fn make_room(&mut self)
        requires { length (listings_in self.old) < vec_len self.old.slots }
        ensures slot { HasSlot self.new }
        ensures used { self.new.used ≡ self.old.used }
        ensures listings { listings_in self.new ≡ listings_in self.old }
        ensures memory { capacity_in self.new ≤ max (capacity_in self.old) (4 * (length (listings_in self.old) + 1)) }
    {
        self.close_many_holes();
        if self.slots.len() == self.slots.capacity() && double(&mut self.slots).is_err() {
            self.close_holes();
        }
    }

    /// Takes all listings out, in their order. It takes no memory.
    pub fn take_all(&mut self) -> Vec<Listing<W>>
        ensures all { result.items ≡ listings_in self.old }
        ensures none { listings_in self.new ≡ [] }
        ensures memory { capacity_in self.new ≡ 0 }
    {
        self.uncalled = 0;
        self.slots.retain(|slot| slot.ticket != HOLE);
        self.holes = 0;
        self.places.clear();
        self.used.clear();
        self.free = 0;
        let alloc = *self.slots.allocator();
        mem::replace(&mut self.slots, Vec::new(alloc))
    }

    fn place(&self, ticket: u64) -> Option<usize>
        ensures some { IfSome result (λ i. (i < length self.now.slots.items)
            × HoldsAt (λ x. x.ticket ≡ ticket) self.now.slots.items i × ((ticket == hole) ≡ false)) }
        ensures none { result ≡ None → member ticket (tickets (listings_in self.now)) ≡ false }
    {
        if ticket == HOLE {
            return None;
        }
        match self.noted(ticket) {
            Some(place) => Some(place),
            None => self.searched(ticket),
        }
    }

    fn noted(&self, ticket: u64) -> Option<usize>
        ensures { IfSome result (λ i. (i < length self.now.slots.items)
            × HoldsAt (λ x. x.ticket ≡ ticket) self.now.slots.items i) }
    {
        let place = *self.places.get(ticket as usize)?;
        let slot = self.slots.get(place)?;
        (slot.ticket == ticket).then_some(place)
    }

    fn searched(&self, ticket: u64) -> Option<usize>
        ensures { result ≡ position (λ x. x.ticket == ticket) self.now.slots.items }
    {
        self.slots.iter().position(|slot| slot.ticket == ticket)
    }

    fn first_open(&self) -> usize
        ensures within { result ≤ vec_len self.now.slots }
        ensures before { (n : ℕ) → n < result → HoldsAt (λ x. is_open x ≡ false) self.now.slots.items n }
        ensures found { result < vec_len self.now.slots → HoldsAt (λ x. is_open x ≡ true) self.now.slots.items result }
    {
        let mut first = self.uncalled;
        while first < self.slots.len() && !has_waker(&self.slots[first]) {
            first += 1;
        }
        first
    }

    // Closes the holes, in the order of the listings, if the last slot is taken and more than half of all are holes.
    #[inline(always)]
    fn close_many_holes(&mut self)
        ensures room { HasSlot self.old → self.new ≡ self.old }
        ensures length { length (listings_in self.old) < vec_len self.old.slots
            → length (listings_in self.new) < vec_capacity self.new.slots }
        ensures few { HasSlot self.new ⊎ (vec_len self.new.slots ≤ 2 * length (listings_in self.new)) }
        ensures used { self.new.used ≡ self.old.used }
        ensures listings { listings_in self.new ≡ listings_in self.old }
        ensures memory { capacity_in self.new ≡ capacity_in self.old }
    {
        if self.slots.len() == self.slots.capacity() && self.holes > self.slots.len() / 2 {
            self.close_holes();
        }
    }

    fn close_holes(&mut self)
        ensures slots { self.new.slots.items ≡ listings_in self.old }
        ensures memory { capacity_in self.new ≡ capacity_in self.old }
        ensures used { self.new.used ≡ self.old.used }
        ensures listings { listings_in self.new ≡ listings_in self.old }
    {
        self.uncalled = 0;
        self.holes = 0;
        self.slots.retain(|slot| slot.ticket != HOLE);
        note_all(&mut self.places, &self.slots);
    }
}

// Makes room for one more: four at first, and then twice as much. It stands apart, so that a section has no more of it
// than a call.
#[cold]
#[inline(never)]
fn double<T>(slots: &mut Vec<T>) -> Result<(), NoMemory>
    ensures items { slots.new.items ≡ slots.old.items }
    ensures len { vec_len slots.new ≡ vec_len slots.old }
    ensures room { OnOk result (vec_len slots.new < vec_capacity slots.new) }
    ensures least { vec_capacity slots.old ≤ vec_capacity slots.new }
    ensures most { vec_capacity slots.new ≤ max (vec_capacity slots.old) (2 * vec_len slots.old + 4) }
{
    if slots.is_empty() {
        return memory::reserve_exact(slots, 4);
    }
    let len = slots.len();
    memory::reserve_exact(slots, len)
}

fn note_all<W>(places: &mut Vec<usize>, slots: &[Listing<W>]) {
    for (place, slot) in slots.iter().enumerate() {
        note(places, slot.ticket as usize, place);
    }
}

fn has_waker<W>(slot: &Listing<W>) -> bool
    ensures { result ≡ is_open slot.now }
{
    slot.ticket != HOLE && slot.waker.is_some()
}

// Without memory a place is not noted. A later one may then lie at the number of another, so `noted` checks it.
#[inline(always)]
fn note(places: &mut Vec<usize>, number: usize, place: usize) {
    match places.get_mut(number) {
        Some(noted) => *noted = place,
        None => {
            let _ = places.push(place);
        }
    }
}

// Marks this number, which is within the marks or the next one.
#[inline(always)]
fn mark(marks: &mut Vec<bool>, number: u64)
    requires { (number < vec_len marks.old)
        ⊎ ((number ≡ vec_len marks.old) × (vec_len marks.old < vec_capacity marks.old)) }
    ensures { (n : ℕ) → is_marked n marks.new.items ≡ (if number == n then true else is_marked n marks.old.items) }
{
    match marks.get_mut(number as usize) {
        Some(mark) => *mark = true,
        None => marks.push(true).unwrap(),
    }
}

fn unmark(marks: &mut Vec<bool>, number: u64)
    ensures marks { (n : ℕ) → is_marked n marks.new.items
        ≡ (if number == n then false else is_marked n marks.old.items) }
    ensures len { vec_len marks.new ≡ vec_len marks.old }
{
    if let Some(mark) = marks.get_mut(number as usize) {
        *mark = false;
    }
}

// The first number without a mark. Each before `from` has one.
fn first_unmarked(marks: &[bool], from: usize) -> usize
    requires { (n : ℕ) → n < from → is_marked n marks.now ≡ true }
    ensures first { is_marked result marks.now ≡ false }
    ensures before { (n : ℕ) → n < result → is_marked n marks.now ≡ true }
{
    let mut free = from;
    while free < marks.len() && marks[free] {
        free += 1;
    }
    free
}
