//! The waiters: the flag and the list under the cell's lock, and what a section does with them.
ghost use Rattle.std.specs.Prelude.{◌≡◌, ◌≢◌, ◌↔◌, ◌+◌, ◌*◌, ◌<◌, ◌≤◌, max, ◌⊎◌, [], ℕ, true, false, if◌then◌else◌};
ghost use Rattle.std.specs.Prelude.{IsSome, IfSome, IsOk, IfOk, OnOk, OnErr, All, length, Some, None, vec_len};
ghost use Rattle.std.specs.Prelude.{AllPairs, HoldsAt};
ghost use Rattle.once_machine.specs.Slots.{listings_in, HasMark, HasSlot};
ghost use Rattle.once_machine.specs.Prelude.{MatchOption, option_copied, option_flatten, option_map, is_some, member};
ghost use Rattle.once_machine.specs.Prelude.{tickets, Listing, find_listing, own_listing, take_out, list_without};
ghost use Rattle.once_machine.specs.Prelude.{first_waker, call_first, kept_ticket, ticket_for, passes_turn, next_waker};
ghost use Rattle.once_machine.specs.Prelude.{left_list, lent_listings, AreApart, HandsAll, DidLook, DidList, Releases};
ghost use Rattle.once_machine.specs.Prelude.{Renewed, ticket_in, flags_of, sees, is_free, Claims, spent_by};

use crate::memory::NoMemory;
use crate::slots::Slots;
use crate::step::Out;
use crate::word::{Sees, Word};
use std::alloc::{AllocError, Global};
use std::mem;

/// Tells whether two wakers are the same.
pub trait WakerId {
    // What each answer tells of the two wakers.
    ghost tells_same: { Self → Self → Type 0 };

    ghost tells_other: { Self → Self → Type 0 };

    /// Whether each two wakers are other, so that none has to be compared.
    fn are_all_other() -> bool
        ensures { result ≡ true → (a b : Self) → tells_other a b };

    /// Whether the two are the same waker.
    fn same(&self, other: &Self) -> bool
        ensures same { result ≡ true → tells_same self.now other.now }
        ensures other { result ≡ false → tells_other self.now other.now };
}

impl WakerId for u64 {
    ghost tells_same = { λ a b. a ≡ b };

    ghost tells_other = { λ a b. a ≢ b };

    fn are_all_other() -> bool {
        false
    }

    fn same(&self, other: &u64) -> bool {
        *self == *other
    }
}

/// Puts the task's current waker in the place of one that is listed.
pub trait Renews<W> {
    // The side that renews, and the listed waker, before the call and after it.
    ghost renewed: { Self → W → Self → W → Type 0 };

    /// Renews the waker.
    fn renew(&mut self, listed: &mut W)
        ensures { renewed self.old listed.old self.new listed.new };
}

/// A waiter's place in the list. If it has no waker any more, its task was woken.
#[derive(Debug, Drop, PartialEq, Eq)]
pub struct Listing<W> {
    /// The number by which the waiting task finds its listing again.
    pub ticket: u64,
    /// The waker of the task, until the task is woken.
    pub waker: Option<W>,
}

/// What one section under the cell's lock is to do. A `Look` and a `List` carry the ticket of the waiting task, if it
/// has one; the section leaves there the ticket that the task has after it.
#[derive(Debug, Drop, PartialEq, Eq)]
pub enum Op<W> {
    /// Claim the right if it is free, else say whether the current waker is listed.
    Look(Option<u64>),
    /// Claim the right if it is free, else list this waker.
    List(Option<u64>, Option<W>),
    /// Give the right back: with the value set, and wake all; or without, and wake one.
    Release(bool),
    /// Take the listing with this ticket out. If it was woken and nobody holds, wake the next.
    Leave(u64),
}

impl<W> Op<W> {
    /// The ticket that a `Look` or a `List` carries.
    pub fn ticket(&self) -> Option<u64>
        ensures { result ≡ ticket_in self.now }
    {
        match self {
            Op::Look(ticket) | Op::List(ticket, _) => *ticket,
            Op::Release(_) | Op::Leave(_) => None,
        }
    }
}

/// What one section answers.
#[derive(Debug, Drop, PartialEq, Eq)]
pub enum Answer<W> {
    /// The value is set.
    Ready,
    /// The right was free, and is the caller's now.
    Claimed,
    /// Another task holds the right, and the waker is listed.
    Listed,
    /// Another task holds the right, and the waker is not listed.
    Held,
    /// The list could not grow.
    Memory,
    /// The right was given back, and these are to be woken.
    Released(Out<W>),
    /// The listing is out, and the task of this waker is to be woken.
    Left(Option<W>),
    /// The queue does not stand at the door any more.
    Gone,
}

/// The flag of a holder that claimed under the lock, and the listings of those that wait. No ticket stands in the list
/// twice. On average over many calls, a look, a listing, a leave and a release without the value take the same time
/// however many are listed. A release with the value takes time in proportion to them. If two wakers may be the same, a
/// new one is compared with each, and a release with the value compares each with all before it. From the first listing
/// on there is memory for four, and at most for four times as many as were ever listed at one time.
#[derive(Drop)]
pub struct Lists<W: WakerId> {
    /// The flag: whether a task holds that claimed under the lock.
    pub head: bool,
    slots: Slots<W>,
    // Whether, since the value was last released, a waker was the same as one before it, or was renewed uncompared.
    mixed: bool,
    ghost apart: { mixed ≡ false → ∥ AllPairs (AreApart W.tells_other) (listings_in slots) ∥₁ },
}

impl<W: WakerId + Drop> Lists<W> {
    ghost use Rattle.once_machine.specs.Room.{HasSpace, capacity_of, listings_of, claimant};

    /// No holder, and nobody listed. It takes no memory.
    pub fn new(alloc: Global) -> Self
        ensures head { result.head ≡ false }
        ensures listings { listings_of result ≡ [] }
        ensures memory { capacity_of result ≡ 0 }
    {
        Lists {
            head: false,
            slots: Slots::new(alloc),
            mixed: false,
        }
    }

    /// Claims the right if the word and the flag leave it free: the own listing is taken out, and the ticket given up.
    /// Else says whether the own listing has this waker: not if it was woken, or there is no waker or ticket.
    pub fn look(&mut self, ticket: &mut Option<u64>, waker: Option<&W>, word: u64) -> Answer<W>
        ensures claims { Claims (sees (flags_of word) self.old.head)
            (claimant self.old ticket.old) result (claimant self.new ticket.new) }
        ensures held { sees (flags_of word) self.old.head ≡ Sees.Taken
            → DidLook W.tells_same W.tells_other (option_copied waker.entry)
            (own_listing ticket.old (listings_of self.old)) result }
        ensures stays { sees (flags_of word) self.old.head ≡ Sees.Taken
            → claimant self.new ticket.new ≡ claimant self.old ticket.old }
        ensures memory { capacity_of self.new ≡ capacity_of self.old }
    {
        if let Some((answer, _)) = self.claim(ticket, word) {
            return answer;
        }
        match (waker, self.own(*ticket)) {
            (Some(waker), Some(listed)) if listed.same(waker) => Answer::Listed,
            _ => Answer::Held,
        }
    }

    /// As [`look`](Self::look), but if the right is taken, says whether the own listing is there and was not woken. It
    /// compares no wakers, because each ticket of its caller stands for one. A claim answers the listed waker too.
    #[inline(always)]
    pub fn look_own(&mut self, ticket: &mut Option<u64>, word: u64) -> (Answer<W>, Option<W>)
        ensures claims { Claims (sees (flags_of word) self.old.head)
            (claimant self.old ticket.old) result.0 (claimant self.new ticket.new) }
        ensures spent { result.1
            ≡ spent_by (sees (flags_of word) self.old.head) (own_listing ticket.old (listings_of self.old)) }
        ensures held { sees (flags_of word) self.old.head ≡ Sees.Taken → result.0
            ≡ (if is_some (option_flatten (own_listing ticket.old (listings_of self.old)))
            then Answer.Listed else Answer.Held) }
        ensures stays { sees (flags_of word) self.old.head ≡ Sees.Taken
            → claimant self.new ticket.new ≡ claimant self.old ticket.old }
        ensures memory { capacity_of self.new ≡ capacity_of self.old }
    {
        if let Some(claimed) = self.claim(ticket, word) {
            return claimed;
        }
        match self.own(*ticket) {
            Some(_) => (Answer::Listed, None),
            None => (Answer::Held, None),
        }
    }

    /// As [`look`](Self::look), but if the right is taken, lists the waker at the end: with the own ticket, whose old
    /// listing is taken out, or if that has none, with the least free ticket. A waker that was not listed stays in the
    /// option. `Memory` says that the own ticket has no listing and the list, which is as it was, could not grow. A
    /// claim answers the waker of the own listing too.
    #[inline(always)]
    pub fn list(
        &mut self,
        ticket: &mut Option<u64>,
        waker: &mut Option<W>,
        word: u64,
    ) -> (Answer<W>, Option<W>)
        requires { IsSome waker.old }
        ensures claims { Claims (sees (flags_of word) self.old.head)
            (claimant self.old ticket.old) result.0 (claimant self.new ticket.new) }
        ensures spent { result.1
            ≡ spent_by (sees (flags_of word) self.old.head) (own_listing ticket.old (listings_of self.old)) }
        ensures held { sees (flags_of word) self.old.head ≡ Sees.Taken → IfSome waker.old
            (λ w. DidList ticket.old w (listings_of self.old) result.0 ticket.new waker.new (listings_of self.new)) }
        ensures head { sees (flags_of word) self.old.head ≡ Sees.Taken → self.new.head ≡ self.old.head }
        ensures waker { sees (flags_of word) self.old.head ≢ Sees.Taken → waker.new ≡ waker.old }
        ensures room { HasSpace self.old → result.0 ≢ Answer.Memory }
        ensures memory { capacity_of self.new ≤ max (capacity_of self.old) (4 * (length (listings_of self.old) + 1)) }
    {
        if let Some(claimed) = self.claim(ticket, word) {
            return claimed;
        }
        let Ok(mine) = self.ticket_to_list_by(*ticket) else {
            return (Answer::Memory, None);
        };
        *ticket = Some(mine);
        let listing = Listing {
            ticket: mine,
            waker: waker.take(),
        };
        self.mixed |= repeats(&listing, self.slots.as_slice());
        self.slots.push(listing);
        (Answer::Listed, None)
    }

    /// Lowers the flag. With the value set all listings leave; without it the first that was not woken yet gives its
    /// waker, and stays. It takes no memory.
    pub fn release(&mut self, ready: bool) -> Out<W>
        ensures listings { Releases W.tells_same W.tells_other ready
            (listings_of self.old) result (listings_of self.new) }
        ensures head { self.new.head ≡ false }
        ensures memory { capacity_of self.new ≡ (if ready then 0 else capacity_of self.old) }
    {
        self.head = false;
        if !ready {
            return Out::One(self.call_first());
        }
        let mut listings = self.slots.take_all();
        let mixed = mem::replace(&mut self.mixed, false);
        once_each(&mut listings, mixed);
        Out::All(listings)
    }

    /// Takes the listing with this ticket out. If it was woken, the value is not set and nobody holds, the first that
    /// was not woken yet gives its waker, and stays. It answers that waker, and the one that the own listing had. It
    /// takes no memory.
    pub fn leave(&mut self, ticket: u64, word: u64) -> (Option<W>, Option<W>)
        ensures waker { result.0 ≡ next_waker
            (passes_turn (is_free (sees (flags_of word) self.old.head)) ticket (listings_of self.old))
            ticket (listings_of self.old) }
        ensures own { result.1 ≡ option_flatten (find_listing ticket (listings_of self.old)) }
        ensures listings { listings_of self.new ≡ left_list
            (passes_turn (is_free (sees (flags_of word) self.old.head)) ticket (listings_of self.old))
            ticket (listings_of self.old) }
        ensures head { self.new.head ≡ self.old.head }
        ensures memory { capacity_of self.new ≡ capacity_of self.old }
    {
        let Some(Listing { ticket: _, waker }) = self.take_out(Some(ticket)) else {
            return (None, None);
        };
        match Word::from_bits(word).sees(self.head) {
            Sees::Free if waker.is_none() => (self.call_first(), None),
            _ => (None, waker),
        }
    }

    /// Makes room for one more listing. If that is refused, flag and listings are as they were.
    #[inline(always)]
    pub fn reserve(&mut self) -> Result<(), NoMemory>
        ensures room { OnOk result (HasSpace self.new) }
        ensures succeeds { HasSpace self.old → IsOk result }
        ensures head { self.new.head ≡ self.old.head }
        ensures listings { listings_of self.new ≡ listings_of self.old }
        ensures memory { capacity_of self.new ≤ max (capacity_of self.old) (4 * (length (listings_of self.old) + 1)) }
    {
        self.slots.reserve()
    }

    /// The listings, the oldest first.
    pub fn listings(&self, alloc: Global) -> Result<Vec<&Listing<W>>, AllocError>
        ensures { IfOk result (λ all. lent_listings all.items ≡ listings_of self.now) }
    {
        self.slots.listings(alloc)
    }

    /// For how many listings there is memory.
    pub fn capacity(&self) -> usize
        ensures { result ≡ capacity_of self.now }
    {
        self.slots.capacity()
    }

    /// How many are listed.
    pub fn len(&self) -> usize
        ensures { result ≡ length (listings_of self.now) }
    {
        self.slots.len()
    }

    // The right if it is free, with the waker that the own listing had, which is let go with the lock free.
    #[inline(always)]
    fn claim(&mut self, ticket: &mut Option<u64>, word: u64) -> Option<(Answer<W>, Option<W>)>
        ensures claims { IfSome result (λ r. Claims (sees (flags_of word) self.old.head)
            (claimant self.old ticket.old) r.0 (claimant self.new ticket.new)) }
        ensures spent { IfSome result (λ r. r.1
            ≡ spent_by (sees (flags_of word) self.old.head) (own_listing ticket.old (listings_of self.old))) }
        ensures held { result ≡ None ↔ sees (flags_of word) self.old.head ≡ Sees.Taken }
        ensures stays { sees (flags_of word) self.old.head ≢ Sees.Free → self.new ≡ self.old }
        ensures ticket { sees (flags_of word) self.old.head ≢ Sees.Free → ticket.new ≡ ticket.old }
        ensures memory { capacity_of self.new ≡ capacity_of self.old }
    {
        match Word::from_bits(word).sees(self.head) {
            Sees::Set => Some((Answer::Ready, None)),
            Sees::Taken => None,
            Sees::Free => {
                let spent = match self.take_out(ticket.take()) {
                    Some(Listing { ticket: _, waker }) => waker,
                    None => None,
                };
                self.head = true;
                Some((Answer::Claimed, spent))
            }
        }
    }

    /// Whether the own ticket has a listing.
    #[inline(always)]
    pub fn is_listed(&self, ticket: Option<u64>) -> bool
        ensures { result ≡ is_some (kept_ticket ticket (listings_of self.now)) }
    {
        match ticket {
            Some(ticket) => self.slots.find(ticket).is_some(),
            None => false,
        }
    }

    /// Lets the waker of the listing with this ticket be renewed, and answers whether it has one.
    pub fn renew<N: Renews<W>>(&mut self, ticket: u64, by: &mut N) -> bool
        ensures has { result ≡ is_some (option_flatten (find_listing ticket (listings_of self.old))) }
        ensures renewed { result ≡ true
            → Renewed N.renewed ticket (listings_of self.old) by.old (listings_of self.new) by.new }
        ensures not { result ≡ false → (listings_of self.new ≡ listings_of self.old) × (by.new ≡ by.old) }
        ensures head { self.new.head ≡ self.old.head }
        ensures memory { capacity_of self.new ≡ capacity_of self.old }
    {
        self.mixed |= !W::are_all_other();
        self.slots.renew(ticket, by)
    }

    fn own(&self, ticket: Option<u64>) -> Option<&W>
        ensures { option_copied result ≡ option_flatten (own_listing ticket (listings_of self.now)) }
    {
        self.slots.find(ticket?)?.waker.as_ref()
    }

    // Takes the own listing out, or makes room for one. Answers the ticket to list by.
    #[inline(always)]
    fn ticket_to_list_by(&mut self, ticket: Option<u64>) -> Result<u64, NoMemory>
        ensures ticket { IfOk result (λ n. n ≡ ticket_for ticket (listings_of self.old)) }
        ensures listings { IfOk result (λ n. listings_of self.new ≡ take_out n (listings_of self.old)) }
        ensures new { IfOk result (λ n. member n (tickets (listings_of self.new)) ≡ false) }
        ensures slot { OnOk result (HasSlot self.new.slots) }
        ensures mark { IfOk result (λ n. (n < vec_len self.new.slots.used)
            ⊎ ((n ≡ vec_len self.new.slots.used) × HasMark self.new.slots)) }
        ensures refused { OnErr result ((kept_ticket ticket (listings_of self.old) ≡ None)
            × (listings_of self.new ≡ listings_of self.old)) }
        ensures room { HasSpace self.old → IsOk result }
        ensures head { self.new.head ≡ self.old.head }
        ensures memory { capacity_of self.new ≤ max (capacity_of self.old) (4 * (length (listings_of self.old) + 1)) }
    {
        if let Some(own) = self.take_out(ticket) {
            self.slots.make_room();
            return Ok(own.ticket);
        }
        self.reserve()?;
        Ok(self.slots.free_ticket())
    }

    // Takes the own listing out.
    #[inline(always)]
    fn take_out(&mut self, ticket: Option<u64>) -> Option<Listing<W>>
        ensures waker { option_map (λ x. x.waker) result ≡ own_listing ticket (listings_of self.old) }
        ensures own { IfSome result (λ x. ticket ≡ Some x.ticket) }
        ensures listings { listings_of self.new ≡ list_without ticket (listings_of self.old) }
        ensures head { self.new.head ≡ self.old.head }
        ensures none { result ≡ None → listings_of self.new ≡ listings_of self.old }
        ensures room { result ≡ None → HasSpace self.old → HasSpace self.new }
        ensures mark { IfSome result (λ x. x.ticket < vec_len self.new.slots.used) }
        ensures hole { IsSome result → length (listings_of self.new) < vec_len self.new.slots.slots }
        ensures memory { capacity_of self.new ≡ capacity_of self.old }
    {
        self.slots.take_out(ticket?)
    }

    fn call_first(&mut self) -> Option<W>
        ensures waker { result ≡ first_waker (listings_of self.old) }
        ensures listings { listings_of self.new ≡ call_first (listings_of self.old) }
        ensures head { self.new.head ≡ self.old.head }
        ensures memory { capacity_of self.new ≡ capacity_of self.old }
    {
        self.slots.call_first()
    }
}

// Takes each waker away that is the same as one before it. Unless `mixed` is set there is none.
fn once_each<W: WakerId + Drop>(listings: &mut Vec<Listing<W>>, mixed: bool)
    requires apart { mixed ≡ false → ∥ AllPairs (AreApart W.tells_other) listings.old.items ∥₁ }
    ensures { ∥ HandsAll W.tells_same W.tells_other [] listings.old.items listings.new.items ∥₁ }
{
    if !mixed {
        return;
    }
    let mut end = listings.len();
    while end > 0 {
        end -= 1;
        if repeats(&listings[end], &listings[..end]) {
            listings[end].waker = None;
        }
    }
}

fn repeats<W: WakerId>(listing: &Listing<W>, before: &[Listing<W>]) -> bool
    ensures yes { result ≡ true → MatchOption listing.now.waker ⊥ (λ w. (k : ℕ) × (k < length before.now)
        × HoldsAt (λ x. MatchOption x.waker ⊥ (λ v. W.tells_same v w)) before.now k) }
    ensures no { result ≡ false → IfSome listing.now.waker
        (λ w. All (λ x. IfSome x.waker (λ v. W.tells_other v w)) before.now) }
{
    match &listing.waker {
        Some(waker) if !W::are_all_other() => before.iter().any(|earlier| has(earlier, waker)),
        _ => false,
    }
}

fn has<W: WakerId>(listing: &Listing<W>, waker: &W) -> bool
    ensures yes { result ≡ true → MatchOption listing.now.waker ⊥ (λ w. W.tells_same w waker.now) }
    ensures no { result ≡ false → IfSome listing.now.waker (λ w. W.tells_other w waker.now) }
{
    match &listing.waker {
        Some(mine) => mine.same(waker),
        None => false,
    }
}
