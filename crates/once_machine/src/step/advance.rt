//! One step: at each place its handler, whose clause is the line of the table of places.
ghost use Rattle.std.specs.Prelude.{◌≡◌, ◌<◌, Option, true};
ghost use Rattle.once_machine.specs.Prelude.{Wakes, out_of, in_call, Advances, Asks, AsksAt, Follows, Line, MayRefuse};
ghost use Rattle.once_machine.specs.Prelude.{Refuse, Refused, after_copy, left_of};

use super::{Ending, Out, Place, Polled, Progress, Rest, Side, Step};
use crate::memory;
use crate::parts::{Counted, Parts};
use crate::waiters::{Answer, Op};
use crate::word::Word;
use std::mem;

impl<W: Drop, Q: Drop> Step<W, Q> {
    /// Makes one step of the call that is under way. It asks what the place's call asks, and that the parts take
    /// whatever value the side may hand over.
    // A place with a queue is taken out whole, but of `Run` and `Put` the queue alone. Others are only looked at.
    pub fn advance<P: Parts<W, Queue = Q>, S: Side<W, Value = P::Value, Right = P::Right>>(
        &mut self,
        parts: &mut P,
        side: &mut S,
    ) -> Progress
        requires call { in_call self.old ≡ true }
        requires asks { Asks P.can S.can_run S.can_put self.old parts.old side.old }
        requires takes { (v : P.Value) → S.hands side.old v → P.takes parts.old v }
        ensures lower { left_of self.new < left_of self.old }
        ensures line { Advances P.did S.did self.old parts.old side.old result self.new parts.new side.new }
        ensures stays { S.stays side.old side.new }
    {
        match *self {
            Step::UnderWay(Place::Start) => self.start(parts, side),
            Step::UnderWay(Place::TryQuick) => self.try_quick(parts, side),
            Step::UnderWay(Place::DoorGet) => self.door_get(parts, side),
            Step::UnderWay(Place::DoorPut) => self.door_put(parts, side),
            Step::UnderWay(Place::Run(ref mut by)) => {
                let by = by.take();
                self.run(by, parts, side)
            }
            Step::UnderWay(Place::Put(ref mut by)) => {
                let by = by.take();
                self.put(by, parts, side)
            }
            Step::UnderWay(Place::Fast(ending)) => self.fast(ending, parts, side),
            Step::UnderWay(Place::AddOne(ending)) => self.add_one(ending, parts, side),
            Step::UnderWay(Place::DoorAgain(ending)) => self.door_again(ending, parts, side),
            Step::UnderWay(Place::CountOut(ending)) => self.count_out(ending, parts, side),
            Step::UnderWay(Place::DoorTake(ending)) => self.door_take(ending, parts, side),
            _ => match self.take_place() {
                Place::CountIn(queue) => self.count_in(queue, parts, side),
                Place::WaitLoad(queue, ticket) => self.wait_load(queue, ticket, parts, side),
                Place::Look(queue, ticket) => self.look(queue, ticket, parts, side),
                Place::List(queue, ticket, waker) => self.list(queue, ticket, waker, parts, side),
                Place::Release(queue, ending) => self.release(queue, ending, parts, side),
                Place::Leave(queue, ticket, ending) => self.leave(
                    queue, ticket, ending, parts, side,
                ),
                _ => unreachable!(),
            },
        }
    }

    fn take_place(&mut self) -> Place<W, Q>
        requires { in_call self.old ≡ true }
        ensures place { self.old ≡ Step.UnderWay result }
        ensures finished { self.new ≡ Step.Finished }
    {
        match mem::replace(self, Step::Finished) {
            Step::UnderWay(place) => place,
            _ => unreachable!(),
        }
    }

    fn on(&mut self, place: Place<W, Q>) -> Progress
        ensures more { result ≡ Progress.More }
        ensures step { self.new ≡ Step.UnderWay place }
    {
        self.set(Step::UnderWay(place));
        Progress::More
    }

    fn end(&mut self, ending: Ending) -> Progress
        ensures ended { result ≡ Progress.Ended ending }
        ensures step { self.new ≡ Step.Finished }
    {
        self.set(Step::Finished);
        Progress::Ended(ending)
    }

    fn rest(&mut self, rest: Rest<Q>) -> Progress
        ensures ended { result ≡ Progress.Ended Ending.Pending }
        ensures step { self.new ≡ Step.Resting rest }
    {
        self.set(Step::Resting(rest));
        Progress::Ended(Ending::Pending)
    }

    fn start<P: Parts<W, Queue = Q>, S: Side<W>>(&mut self, parts: &mut P, side: &mut S) -> Progress
        requires { AsksAt P.can S.can_run S.can_put Place.Start parts.old side.old }
        ensures line { Line P.did S.did Place.Start parts.old side.old result self.new parts.new side.new }
        ensures stays { S.stays side.old side.new }
    {
        let word = Word::from_bits(parts.load());
        if word.is_ready() {
            side.close();
            return self.end(Ending::Value);
        }
        if word.is_new() {
            return self.on(Place::TryQuick);
        }
        self.on(Place::DoorGet)
    }

    fn try_quick<P: Parts<W, Queue = Q>, S: Side<W>>(
        &mut self,
        parts: &mut P,
        side: &mut S,
    ) -> Progress
        requires { AsksAt P.can S.can_run S.can_put Place.TryQuick parts.old side.old }
        ensures line { Line P.did S.did Place.TryQuick parts.old side.old result self.new parts.new side.new }
        ensures stays { S.stays side.old side.new }
    {
        if parts.quick() {
            return self.on(Place::Run(None));
        }
        self.on(Place::DoorGet)
    }

    fn door_get<P: Parts<W, Queue = Q>, S: Side<W>>(
        &mut self,
        parts: &mut P,
        side: &mut S,
    ) -> Progress
        requires { AsksAt P.can S.can_run S.can_put Place.DoorGet parts.old side.old }
        ensures line { Line P.did S.did Place.DoorGet parts.old side.old result self.new parts.new side.new }
        ensures stays { S.stays side.old side.new }
    {
        match parts.door_get() {
            Some(queue) => self.on(Place::CountIn(queue)),
            None => self.on(Place::DoorPut),
        }
    }

    fn door_put<P: Parts<W, Queue = Q>, S: Side<W>>(
        &mut self,
        parts: &mut P,
        side: &mut S,
    ) -> Progress
        requires { AsksAt P.can S.can_run S.can_put Place.DoorPut parts.old side.old }
        ensures line { Line P.did S.did Place.DoorPut parts.old side.old result self.new parts.new side.new }
        ensures stays { S.stays side.old side.new }
    {
        match parts.door_put() {
            Some(queue) => self.on(Place::CountIn(queue)),
            None => {
                side.close();
                self.end(Ending::Memory)
            }
        }
    }

    fn count_in<P: Parts<W, Queue = Q>, S: Side<W>>(
        &mut self,
        queue: Q,
        parts: &mut P,
        side: &mut S,
    ) -> Progress
        requires { AsksAt P.can S.can_run S.can_put (Place.CountIn queue) parts.old side.old }
        ensures line { Line P.did S.did (Place.CountIn queue) parts.old side.old result self.new parts.new side.new }
        ensures stays { S.stays side.old side.new }
    {
        match parts.count_in() {
            Counted::In(word) if Word::from_bits(word).is_ready() => {
                side.close();
                self.on(Place::CountOut(Ending::Value))
            }
            Counted::In(_) => self.on(Place::WaitLoad(queue, None)),
            Counted::Full => {
                side.close();
                self.end(Ending::Full)
            }
            Counted::SeenReady => {
                side.close();
                self.end(Ending::Value)
            }
        }
    }

    fn wait_load<P: Parts<W, Queue = Q>, S: Side<W>>(
        &mut self,
        queue: Q,
        ticket: Option<u64>,
        parts: &mut P,
        side: &mut S,
    ) -> Progress
        requires { AsksAt P.can S.can_run S.can_put (Place.WaitLoad queue ticket) parts.old side.old }
        ensures line { Line P.did S.did (Place.WaitLoad queue ticket) parts.old side.old
            result self.new parts.new side.new }
        ensures stays { S.stays side.old side.new }
    {
        if Word::from_bits(parts.load()).is_ready() {
            side.close();
            return self.on(Place::CountOut(Ending::Value));
        }
        self.on(Place::Look(queue, ticket))
    }

    fn look<P: Parts<W, Queue = Q>, S: Side<W>>(
        &mut self,
        queue: Q,
        ticket: Option<u64>,
        parts: &mut P,
        side: &mut S,
    ) -> Progress
        requires { AsksAt P.can S.can_run S.can_put (Place.Look queue ticket) parts.old side.old }
        ensures line { Line P.did S.did (Place.Look queue ticket) parts.old side.old
            result self.new parts.new side.new }
        ensures stays { S.stays side.old side.new }
    {
        let mut op = Op::Look(ticket);
        match parts.section(&queue, &mut op) {
            Answer::Ready => {
                side.close();
                self.on(Place::CountOut(Ending::Value))
            }
            Answer::Claimed => self.on(Place::Run(Some(queue))),
            Answer::Listed => self.rest(Rest::Wait(queue, op.ticket())),
            _ => self.copy(queue, op.ticket(), parts, side),
        }
    }

    fn copy<P: Parts<W, Queue = Q>, S: Side<W>>(
        &mut self,
        queue: Q,
        ticket: Option<u64>,
        parts: &mut P,
        side: &mut S,
    ) -> Progress
        requires { P.can parts.old Refuse }
        ensures line { (c : Option W) × (m : S) × S.did.copy side.old c m
            × MayRefuse (λ p t. P.did p Refused t) c parts.old parts.new
            × Follows S.did.close (after_copy c queue ticket) m side.new result self.new }
        ensures stays { S.stays side.old side.new }
    {
        match memory::copied(side) {
            Ok(waker) => self.on(Place::List(queue, ticket, waker)),
            Err(why) => {
                parts.refuse(why);
                side.close();
                self.on(Place::leaving(queue, ticket, Ending::Memory))
            }
        }
    }

    fn list<P: Parts<W, Queue = Q>, S: Side<W>>(
        &mut self,
        queue: Q,
        ticket: Option<u64>,
        waker: W,
        parts: &mut P,
        side: &mut S,
    ) -> Progress
        requires { AsksAt P.can S.can_run S.can_put (Place.List queue ticket waker) parts.old side.old }
        ensures line { Line P.did S.did (Place.List queue ticket waker) parts.old side.old
            result self.new parts.new side.new }
        ensures stays { S.stays side.old side.new }
    {
        let mut op = Op::List(ticket, Some(waker));
        match parts.section(&queue, &mut op) {
            Answer::Ready => {
                side.close();
                self.on(Place::CountOut(Ending::Value))
            }
            Answer::Claimed => self.on(Place::Run(Some(queue))),
            Answer::Memory => {
                side.close();
                self.on(Place::leaving(queue, op.ticket(), Ending::Memory))
            }
            _ => self.rest(Rest::Wait(queue, op.ticket())),
        }
    }

    fn run<P: Parts<W, Queue = Q>, S: Side<W, Right = P::Right>>(
        &mut self,
        by: Option<Q>,
        parts: &mut P,
        side: &mut S,
    ) -> Progress
        requires { AsksAt P.can S.can_run S.can_put (Place.Run by) parts.old side.old }
        ensures line { Line P.did S.did (Place.Run by) parts.old side.old result self.new parts.new side.new }
        ensures stays { S.stays side.old side.new }
    {
        match parts.run(side) {
            Polled::Pending => self.rest(Rest::Run(by)),
            Polled::Value => {
                side.close();
                self.on(Place::Put(by))
            }
            Polled::Error => {
                side.close();
                self.on(Place::giving_back(by, Ending::Error))
            }
        }
    }

    fn put<P: Parts<W, Queue = Q>, S: Side<W, Value = P::Value>>(
        &mut self,
        by: Option<Q>,
        parts: &mut P,
        side: &mut S,
    ) -> Progress
        requires asks { AsksAt P.can S.can_run S.can_put (Place.Put by) parts.old side.old }
        requires takes { (v : P.Value) → S.hands side.old v → P.takes parts.old v }
        ensures line { Line P.did S.did (Place.Put by) parts.old side.old result self.new parts.new side.new }
        ensures stays { S.stays side.old side.new }
    {
        parts.put(side.put());
        self.on(Place::giving_back(by, Ending::Value))
    }

    fn fast<P: Parts<W, Queue = Q>, S: Side<W>>(
        &mut self,
        ending: Ending,
        parts: &mut P,
        side: &mut S,
    ) -> Progress
        requires { AsksAt P.can S.can_run S.can_put (Place.Fast ending) parts.old side.old }
        ensures line { Line P.did S.did (Place.Fast ending) parts.old side.old result self.new parts.new side.new }
        ensures stays { S.stays side.old side.new }
    {
        let filled = ending.is_value();
        if !parts.fast(filled) {
            return self.on(Place::AddOne(ending));
        }
        if filled {
            return self.on(Place::DoorTake(ending));
        }
        self.end(ending)
    }

    fn add_one<P: Parts<W, Queue = Q>, S: Side<W>>(
        &mut self,
        ending: Ending,
        parts: &mut P,
        side: &mut S,
    ) -> Progress
        requires { AsksAt P.can S.can_run S.can_put (Place.AddOne ending) parts.old side.old }
        ensures line { Line P.did S.did (Place.AddOne ending) parts.old side.old result self.new parts.new side.new }
        ensures stays { S.stays side.old side.new }
    {
        parts.add_one();
        self.on(Place::DoorAgain(ending))
    }

    fn door_again<P: Parts<W, Queue = Q>, S: Side<W>>(
        &mut self,
        ending: Ending,
        parts: &mut P,
        side: &mut S,
    ) -> Progress
        requires { AsksAt P.can S.can_run S.can_put (Place.DoorAgain ending) parts.old side.old }
        ensures line { Line P.did S.did (Place.DoorAgain ending) parts.old side.old result self.new parts.new side.new }
        ensures stays { S.stays side.old side.new }
    {
        match parts.door_get() {
            Some(queue) => self.on(Place::Release(queue, ending)),
            None => self.on(Place::CountOut(ending)),
        }
    }

    fn release<P: Parts<W, Queue = Q>, S: Side<W>>(
        &mut self,
        queue: Q,
        ending: Ending,
        parts: &mut P,
        side: &mut S,
    ) -> Progress
        requires { AsksAt P.can S.can_run S.can_put (Place.Release queue ending) parts.old side.old }
        ensures line { Line P.did S.did (Place.Release queue ending) parts.old side.old
            result self.new parts.new side.new }
        ensures stays { S.stays side.old side.new }
    {
        let answer = parts.section(&queue, &mut Op::Release(ending.is_value()));
        wake(answer, side);
        self.on(Place::CountOut(ending))
    }

    fn leave<P: Parts<W, Queue = Q>, S: Side<W>>(
        &mut self,
        queue: Q,
        ticket: u64,
        ending: Ending,
        parts: &mut P,
        side: &mut S,
    ) -> Progress
        requires { AsksAt P.can S.can_run S.can_put (Place.Leave queue ticket ending) parts.old side.old }
        ensures line { Line P.did S.did (Place.Leave queue ticket ending) parts.old side.old
            result self.new parts.new side.new }
        ensures stays { S.stays side.old side.new }
    {
        let answer = parts.section(&queue, &mut Op::Leave(ticket));
        wake(answer, side);
        self.on(Place::CountOut(ending))
    }

    fn count_out<P: Parts<W, Queue = Q>, S: Side<W>>(
        &mut self,
        ending: Ending,
        parts: &mut P,
        side: &mut S,
    ) -> Progress
        requires { AsksAt P.can S.can_run S.can_put (Place.CountOut ending) parts.old side.old }
        ensures line { Line P.did S.did (Place.CountOut ending) parts.old side.old result self.new parts.new side.new }
        ensures stays { S.stays side.old side.new }
    {
        if Word::from_bits(parts.count_out()).is_ready_alone() {
            return self.on(Place::DoorTake(ending));
        }
        self.end(ending)
    }

    fn door_take<P: Parts<W, Queue = Q>, S: Side<W>>(
        &mut self,
        ending: Ending,
        parts: &mut P,
        side: &mut S,
    ) -> Progress
        requires { AsksAt P.can S.can_run S.can_put (Place.DoorTake ending) parts.old side.old }
        ensures line { Line P.did S.did (Place.DoorTake ending) parts.old side.old result self.new parts.new side.new }
        ensures stays { S.stays side.old side.new }
    {
        parts.door_take();
        self.end(ending)
    }
}

#[inline(always)]
fn wake<W: Drop, S: Side<W>>(answer: Answer<W>, side: &mut S)
    ensures wakes { Wakes S.did.wake (out_of answer) side.old side.new }
    ensures stays { S.stays side.old side.new }
{
    match answer {
        Answer::Released(out) => side.wake(out),
        Answer::Left(waker) => side.wake(Out::One(waker)),
        _ => {}
    }
}
