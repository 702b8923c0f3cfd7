//! What lies under the one lock of a cell, and the moments of a task that has the lock.
ghost use Rattle.std.specs.Prelude.{◌≡◌, ◌*◌, ◌⊎◌, ℕ, Bool, true, false, List, [], Option, Some, None};
ghost use Rattle.async_once_cell.specs.Inner.Hands.{own_of};
ghost use Rattle.async_once_cell.specs.Inner.Prelude.{is_some, Book, of_book, Claims, kept_ticket, HasSpace, claimant};
ghost use Rattle.async_once_cell.specs.Inner.Prelude.{listings_of, flags_of, sees, more_released, CanNote, IsLoading};
ghost use Rattle.async_once_cell.specs.Inner.Prelude.{Moment, Tells, IsWord, IsDesk, desked, IsDesked, desk_sheets};
ghost use Rattle.async_once_cell.specs.Inner.Prelude.{first_desk, DoorPut, Section as SectionCall, DoorGet, DoorTake};
ghost use Rattle.async_once_cell.specs.Inner.Prelude.{Got, PutQueue, Taken, Was, Op, call_in, queue_of, Went, numbered};
ghost use Rattle.async_once_cell.specs.Inner.Prelude.{CanRest, CanCall, DidCall, Answer, HasRenewed, KeepsOwner};

use super::book::{CellPens, CellWord, Leaf, Line};
use super::hand::{Hand, TaskWaker};
use super::shared::Inner;
use once_machine::memory::NoMemory;
use once_machine::step::Out;
use once_machine::waiters::{Answer, Lists, Op, Renews, WakerId};
use once_machine::word::{QINIT_BIT, READY_BIT, Sees, Word};
use pagebook::{Fits, Key, Keyed, Play};
use std::marker::Model;
use std::sync::Wait;

/// Whether a waker can be listed. A clause sees whether there is room.
#[derive(Drop)]
pub(super) struct Room(Result<(), NoMemory>);

impl Model for Room {
    ghost use Rattle.std.specs.Prelude.{Bool};
    ghost use Rattle.std.specs.Result.{is_ok};

    ghost Value = { Bool };

    ghost view = { λ r. is_ok r.0 };
}

impl Room {
    fn is_there(&self) -> bool
        ensures { result ≡ self.now }
    {
        self.0.is_ok()
    }
}

/// What a task does under the lock.
#[derive(Drop)]
pub(super) enum Section {
    /// Comes to its queue, which stands at the door.
    Stand,
    /// Looks at the door.
    Get,
    /// Puts a queue to the door.
    Put,
    /// Finds a queue at the door, where it would put one.
    Found,
    /// Takes the queue out of the door.
    Take,
    /// Makes the section that is the call of its place, with or without room to list its waker.
    ByTable(Room),
    /// Is at rest, and comes to its listing, which has this ticket.
    Rest(u64),
}

impl Play<Section, Line, Leaf> for Section {
    ghost then = { Tells };
}

/// The door, its queue if there is one, and the pens of both pages. A clause sees the book of these.
pub struct Desk<W: TaskWaker> {
    lists: Option<Box<Lists<W>>>,
    pens: CellPens,
}

impl<W: TaskWaker> Model for Desk<W> {
    ghost Value = { Book };

    ghost view = { λ d. d.pens.book };

    ghost invariant = { λ d. IsDesk d.pens.held × IsDesked W.whose d.lists (desked d.pens.held) };
}

impl<W: TaskWaker> Keyed for Desk<W> {
    ghost key_of = { of_book };
}

impl<W: TaskWaker + Drop> Desk<W> {
    /// No queue, and the first two pages of a new book.
    pub fn new(pens: CellPens) -> Self
        requires { pens.held ≡ desk_sheets first_desk }
        ensures { result ≡ pens.book }
    {
        Desk { lists: None, pens }
    }

    /// Whether a queue stands at the door.
    pub fn get(&mut self, hand: &mut Hand) -> bool
        requires book { self.old ≡ hand.old.seen.book }
        requires can { call_in (own_of hand.old).task.step ≡ DoorGet }
        ensures desk { self.new ≡ self.old }
        ensures book { hand.new.seen.book ≡ hand.old.seen.book }
        ensures did { (q : ℕ) × Went (own_of hand.old) (Got (numbered q result)) [] (own_of hand.new) }
    {
        note(&mut self.pens, hand, &Section::Get);
        self.lists.is_some()
    }

    /// Puts this queue to the door. If one stands there, this comes back.
    pub fn put(
        &mut self,
        has_put: &CellWord,
        hand: &mut Hand,
        queue: Box<Lists<W>>,
    ) -> Option<Box<Lists<W>>>
        requires word { IsWord has_put.now hand.old.seen.book 1 }
        requires book { self.old ≡ hand.old.seen.book }
        requires queue { (queue.value.head ≡ false) × (listings_of queue.value ≡ []) }
        requires can { call_in (own_of hand.old).task.step ≡ DoorPut }
        ensures desk { self.new ≡ self.old }
        ensures book { hand.new.seen.book ≡ hand.old.seen.book }
        ensures did { (q : ℕ) × Went (own_of hand.old) (PutQueue (Some q)) [] (own_of hand.new) }
    {
        if self.lists.is_some() {
            note(&mut self.pens, hand, &Section::Found);
            return Some(queue);
        }
        mark_put(has_put, &mut self.pens, hand);
        self.lists = Some(queue);
        None
    }

    /// Takes the queue out of the door.
    pub fn take(&mut self, hand: &mut Hand) -> Option<Box<Lists<W>>>
        requires book { self.old ≡ hand.old.seen.book }
        requires can { call_in (own_of hand.old).task.step ≡ DoorTake }
        ensures desk { self.new ≡ self.old }
        ensures book { hand.new.seen.book ≡ hand.old.seen.book }
        ensures did { (b : Bool) → Went (own_of hand.old) (Taken b) [] (own_of hand.new) }
    {
        note(&mut self.pens, hand, &Section::Take);
        self.lists.take()
    }

    /// Claims the right if it is free, else says whether the task is listed and was not woken. It also answers the
    /// waker that a claim took out of the list.
    #[inline(always)]
    pub fn look(
        &mut self,
        word: &CellWord,
        hand: &mut Hand,
        ticket: &mut Option<u64>,
    ) -> (Answer<W>, Option<W>)
        requires word { IsWord word.now hand.old.seen.book 0 }
        requires book { self.old ≡ hand.old.seen.book }
        requires can { CanCall W.whose (own_of hand.old).task.step (SectionCall tt (Op.Look ticket.old)) }
        ensures desk { self.new ≡ self.old }
        ensures book { hand.new.seen.book ≡ hand.old.seen.book }
        ensures did { DidCall W.whose (own_of hand.old)
            (Was tt (Op.Look ticket.old) result.0 (Op.Look ticket.new)) (own_of hand.new) }
    {
        note(&mut self.pens, hand, &Section::Stand);
        let Some(queue) = &mut self.lists else {
            unreachable!()
        };
        let lists = &mut **queue;
        let room = Room(Ok(())); // a look lists no waker
        let found = see(word, &mut self.pens, hand, room);
        lists.look_own(ticket, found)
    }

    /// Claims the right if it is free, else lists this waker, which is the task's. A claim's waker is answered too.
    #[inline(always)]
    pub fn list(
        &mut self,
        word: &CellWord,
        hand: &mut Hand,
        ticket: &mut Option<u64>,
        waker: &mut Option<W>,
    ) -> (Answer<W>, Option<W>)
        requires word { IsWord word.now hand.old.seen.book 0 }
        requires book { self.old ≡ hand.old.seen.book }
        requires can { CanCall W.whose (own_of hand.old).task.step (SectionCall tt (Op.List ticket.old waker.old)) }
        ensures desk { self.new ≡ self.old }
        ensures book { hand.new.seen.book ≡ hand.old.seen.book }
        ensures did { DidCall W.whose (own_of hand.old)
            (Was tt (Op.List ticket.old waker.old) result.0 (Op.List ticket.new waker.new)) (own_of hand.new) }
    {
        note(&mut self.pens, hand, &Section::Stand);
        let Some(queue) = &mut self.lists else {
            unreachable!()
        };
        let lists = &mut **queue;
        let room = room_for(lists, *ticket);
        let has_room = room.is_there();
        let found = see(word, &mut self.pens, hand, room);
        if has_room {
            return lists.list(ticket, waker, found);
        }
        (list_without_room(lists, ticket, found), None)
    }

    /// Lets the listed waker of a task at rest be renewed, if there is one. No page changes, since it stays the task's.
    pub fn renew<N: Renews<W>>(&mut self, hand: &mut Hand, ticket: u64, by: &mut N) -> bool
        requires owner { KeepsOwner W.whose N.renewed }
        requires book { self.old ≡ hand.old.seen.book }
        requires can { CanRest ticket (own_of hand.old).task.step }
        ensures desk { self.new ≡ self.old }
        ensures book { hand.new.seen.book ≡ hand.old.seen.book }
        ensures hand { own_of hand.new ≡ own_of hand.old }
        ensures renewed { result ≡ true → HasRenewed W.whose N.renewed (own_of hand.old).number by.old by.new }
        ensures not { result ≡ false → by.new ≡ by.old }
    {
        let seen = hand.seen.again();
        note(&mut self.pens, hand, &Section::Rest(ticket));
        hand.seen = seen;
        let Some(queue) = &mut self.lists else {
            return false;
        };
        let lists = &mut **queue;
        lists.renew(ticket, by)
    }

    /// Gives the right back. It wakes all if the value is set (`ready`), and else one.
    pub fn release(&mut self, word: &CellWord, hand: &mut Hand, ready: bool) -> Out<W>
        requires word { IsWord word.now hand.old.seen.book 0 }
        requires book { self.old ≡ hand.old.seen.book }
        requires can { CanCall W.whose (own_of hand.old).task.step (SectionCall tt (Op.Release ready)) }
        ensures desk { self.new ≡ self.old }
        ensures book { hand.new.seen.book ≡ hand.old.seen.book }
        ensures did { DidCall W.whose (own_of hand.old)
            (Was tt (Op.Release ready) (Answer.Released result) (Op.Release ready)) (own_of hand.new) }
    {
        note(&mut self.pens, hand, &Section::Stand);
        let Some(queue) = &mut self.lists else {
            unreachable!()
        };
        let lists = &mut **queue;
        let more = word_to_add(ready, lists.head);
        mark_release(word, &mut self.pens, hand, ready, more);
        lists.release(ready)
    }

    /// Takes the listing with this ticket out. If it was woken and nobody holds, wakes the next. It answers that
    /// waker, and the one that the own listing had.
    pub fn leave(&mut self, word: &CellWord, hand: &mut Hand, ticket: u64) -> (Option<W>, Option<W>)
        requires word { IsWord word.now hand.old.seen.book 0 }
        requires book { self.old ≡ hand.old.seen.book }
        requires can { CanCall W.whose (own_of hand.old).task.step (SectionCall tt (Op.Leave ticket)) }
        ensures desk { self.new ≡ self.old }
        ensures book { hand.new.seen.book ≡ hand.old.seen.book }
        ensures did { DidCall W.whose (own_of hand.old)
            (Was tt (Op.Leave ticket) (Answer.Left result.0) (Op.Leave ticket)) (own_of hand.new) }
    {
        note(&mut self.pens, hand, &Section::Stand);
        let Some(queue) = &mut self.lists else {
            unreachable!()
        };
        let lists = &mut **queue;
        let room = Room(Ok(())); // a leaver lists no waker
        let found = see(word, &mut self.pens, hand, room);
        lists.leave(ticket, found)
    }
}

impl<W: TaskWaker + Drop> Drop for Desk<W> {
    // Most cells are dropped without a queue. So a queue is dropped in a call of its own, and the rest is inlined.
    fn drop(self) {
        let Desk { lists, pens: _pens } = self;
        if let Some(queue) = lists {
            drop_queue(queue);
        }
    }
}

#[inline(never)]
fn drop_queue<W: TaskWaker + Drop>(queue: Box<Lists<W>>) {
    drop(queue);
}

// What a release adds to the word. The sum may wrap round.
fn word_to_add(ready: bool, head: bool) -> u64
    ensures { result ≡ more_released ready head }
{
    match (ready, head) {
        (true, true) => READY_BIT,
        (true, false) => QINIT_BIT,
        (false, true) => 0,
        (false, false) => READY_BIT + QINIT_BIT,
    }
}

// Whether a waker can be listed: the own listing is there, or there is room for one more, which is made if need be.
#[inline(always)]
fn room_for<W: WakerId + Drop>(lists: &mut Lists<W>, ticket: Option<u64>) -> Room
    ensures room { result ≡ true → (is_some (kept_ticket ticket (listings_of lists.new)) ≡ true) ⊎ HasSpace lists.new }
    ensures none { result ≡ false → is_some (kept_ticket ticket (listings_of lists.old)) ≡ false }
    ensures head { lists.new.head ≡ lists.old.head }
    ensures listings { listings_of lists.new ≡ listings_of lists.old }
{
    if lists.is_listed(ticket) {
        return Room(Ok(()));
    }
    Room(lists.reserve())
}

// Claims the right if it is free. With `look_own` in this place, a section is so large that the kit inlines none.
fn list_without_room<W: WakerId + Drop>(
    lists: &mut Lists<W>,
    ticket: &mut Option<u64>,
    word: u64,
) -> Answer<W>
    requires none { is_some (kept_ticket ticket.old (listings_of lists.old)) ≡ false }
    ensures claims { Claims (sees (flags_of word) lists.old.head)
        (claimant lists.old ticket.old) result (claimant lists.new ticket.new) }
    ensures memory { sees (flags_of word) lists.old.head ≡ Sees.Taken → result ≡ Answer.Memory }
    ensures stays { sees (flags_of word) lists.old.head ≡ Sees.Taken
        → claimant lists.new ticket.new ≡ claimant lists.old ticket.old }
{
    match Word::from_bits(word).sees(lists.head) {
        Sees::Set => Answer::Ready,
        Sees::Taken => Answer::Memory,
        Sees::Free => {
            *ticket = None;
            lists.head = true;
            Answer::Claimed
        }
    }
}

/// A moment that no word marks.
fn note(desk: &mut CellPens, hand: &mut Hand, section: &Section)
    requires book { desk.old.book ≡ hand.old.seen.book }
    requires desk { IsDesk desk.old.held }
    requires can { CanNote section.now (desked desk.old.held) (own_of hand.old).task.step }
    ensures book { (desk.new.book ≡ hand.old.seen.book) × (hand.new.seen.book ≡ hand.old.seen.book) }
    ensures desk { IsDesk desk.new.held }
    ensures told { Moment section.now 0 (desked desk.old.held) (own_of hand.old) (desked desk.new.held)
        (own_of hand.new) }
{
    desk.append(&mut hand.pens);
    hand.seen.note::<Section, Section>(desk, section);
    hand.pens = desk.split_off(2);
}

/// A moment that a load of the word marks. `room` says whether the waker of a `List` can be listed.
fn see(word: &CellWord, desk: &mut CellPens, hand: &mut Hand, room: Room) -> u64
    requires word { IsWord word.now hand.old.seen.book 0 }
    requires book { desk.old.book ≡ hand.old.seen.book }
    requires desk { IsDesk desk.old.held }
    requires can { IsLoading (call_in (own_of hand.old).task.step) }
    ensures book { (desk.new.book ≡ hand.old.seen.book) × (hand.new.seen.book ≡ hand.old.seen.book) }
    ensures desk { IsDesk desk.new.held }
    ensures told { Moment (Section.ByTable room) result (desked desk.old.held) (own_of hand.old)
        (desked desk.new.held) (own_of hand.new) }
{
    desk.append(&mut hand.pens);
    let found = word.load::<Section, Section>(&Section::ByTable(room), &mut hand.seen, desk);
    hand.pens = desk.split_off(2);
    found
}

fn mark_put(has_put: &CellWord, desk: &mut CellPens, hand: &mut Hand)
    requires word { IsWord has_put.now hand.old.seen.book 1 }
    requires book { desk.old.book ≡ hand.old.seen.book }
    requires desk { IsDesk desk.old.held }
    requires none { (desked desk.old.held).door ≡ None }
    requires can { call_in (own_of hand.old).task.step ≡ DoorPut }
    ensures book { (desk.new.book ≡ hand.old.seen.book) × (hand.new.seen.book ≡ hand.old.seen.book) }
    ensures desk { IsDesk desk.new.held }
    ensures told { (n : ℕ)
        × Moment Section.Put n (desked desk.old.held) (own_of hand.old) (desked desk.new.held) (own_of hand.new) }
{
    desk.append(&mut hand.pens);
    has_put.store::<Section, Section>(1, &Section::Put, &mut hand.seen, desk);
    hand.pens = desk.split_off(2);
}

fn mark_release(word: &CellWord, desk: &mut CellPens, hand: &mut Hand, ready: bool, more: u64)
    requires word { IsWord word.now hand.old.seen.book 0 }
    requires book { desk.old.book ≡ hand.old.seen.book }
    requires desk { IsDesk desk.old.held }
    requires can { call_in (own_of hand.old).task.step
        ≡ SectionCall (queue_of (call_in (own_of hand.old).task.step)) (Op.Release ready) }
    requires more { more ≡ more_released ready (desked desk.old.held).head }
    ensures book { (desk.new.book ≡ hand.old.seen.book) × (hand.new.seen.book ≡ hand.old.seen.book) }
    ensures desk { IsDesk desk.new.held }
    ensures told { (n : ℕ)
        × Moment (Section.ByTable true) n (desked desk.old.held) (own_of hand.old) (desked desk.new.held)
        (own_of hand.new) }
{
    desk.append(&mut hand.pens);
    let section = Section::ByTable(Room(Ok(())));
    word.fetch_add::<Section, Section>(more, &section, &mut hand.seen, desk);
    hand.pens = desk.split_off(2);
}

impl<T, W: TaskWaker + Drop, V: Fits<T>> Inner<T, W, V> {
    pub(super) fn lock_and_get<J: Key, R: Wait>(&self, rt: &R, hand: &mut Hand) -> bool
        requires key { self.now.desk ≡ J.key }
        requires book { hand.old.seen.book ≡ J.key.book }
        requires can { call_in (own_of hand.old).task.step ≡ DoorGet }
        ensures book { hand.new.seen.book ≡ hand.old.seen.book }
        ensures did { (q : ℕ) × Went (own_of hand.old) (Got (numbered q result)) [] (own_of hand.new) }
    {
        self.desk.lock::<J, R>(rt).value.get(hand)
    }

    // If a queue stood there, this comes back.
    pub(super) fn lock_and_put<J: Key, R: Wait>(
        &self,
        rt: &R,
        hand: &mut Hand,
        queue: Box<Lists<W>>,
    ) -> Option<Box<Lists<W>>>
        requires key { self.now.desk ≡ J.key }
        requires book { hand.old.seen.book ≡ J.key.book }
        requires queue { (queue.value.head ≡ false) × (listings_of queue.value ≡ []) }
        requires can { call_in (own_of hand.old).task.step ≡ DoorPut }
        ensures book { hand.new.seen.book ≡ hand.old.seen.book }
        ensures did { (q : ℕ) × Went (own_of hand.old) (PutQueue (Some q)) [] (own_of hand.new) }
    {
        self.desk
            .lock::<J, R>(rt)
            .value
            .put(&self.has_put, hand, queue)
    }

    #[inline(never)]
    pub(super) fn lock_and_take<J: Key, R: Wait>(
        &self,
        rt: &R,
        hand: &mut Hand,
    ) -> Option<Box<Lists<W>>>
        requires key { self.now.desk ≡ J.key }
        requires book { hand.old.seen.book ≡ J.key.book }
        requires can { call_in (own_of hand.old).task.step ≡ DoorTake }
        ensures book { hand.new.seen.book ≡ hand.old.seen.book }
        ensures did { (b : Bool) → Went (own_of hand.old) (Taken b) [] (own_of hand.new) }
    {
        self.desk.lock::<J, R>(rt).value.take(hand)
    }

    // Answers the waker that it took out of the list and hands to nobody, too.
    #[inline(always)]
    pub(super) fn lock_and_enter<J: Key, R: Wait>(
        &self,
        rt: &R,
        hand: &mut Hand,
        op: &mut Op<W>,
    ) -> (Answer<W>, Option<W>)
        requires key { self.now.desk ≡ J.key }
        requires book { hand.old.seen.book ≡ J.key.book }
        requires can { CanCall W.whose (own_of hand.old).task.step (SectionCall tt op.old) }
        ensures book { hand.new.seen.book ≡ hand.old.seen.book }
        ensures did { DidCall W.whose (own_of hand.old) (Was tt op.old result.0 op.new) (own_of hand.new) }
    {
        let mut tied = self.desk.lock::<J, R>(rt);
        match op {
            Op::Look(ticket) => tied.value.look(&self.word, hand, ticket),
            Op::List(ticket, waker) => tied.value.list(&self.word, hand, ticket, waker),
            Op::Release(ready) => {
                let out = tied.value.release(&self.word, hand, *ready);
                (Answer::Released(out), None)
            }
            Op::Leave(ticket) => {
                let (next, own) = tied.value.leave(&self.word, hand, *ticket);
                (Answer::Left(next), own)
            }
        }
    }

    // Whether a queue stands at the door, if the lock is free.
    pub(super) fn stands<J: Key>(&self) -> Option<bool>
        requires { self.now.desk ≡ J.key }
    {
        let tied = self.desk.try_lock::<J>()?;
        Some(tied.value.lists.is_some())
    }
}
