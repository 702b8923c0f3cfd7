//! The search for a run that has what was seen.

use super::calls::{BadEvents, Call, Deed, Effect, Gathered};
use super::copies::copy_of;
use super::text::{Event, Observed};
use once_judge::{Calls, Judge, Reason};
use once_machine::record::Entry;
use std::alloc::{AllocError, Global};
use std::collections::BTreeSet;

/// What a search found.
#[derive(Debug, Drop)]
pub enum Answer {
    /// These entries are a run, and have what was seen.
    Run(Vec<Entry>),
    /// No run has what was seen.
    NoRun(Stop),
    /// The search was ended before it found one.
    GaveUp(Stop),
}

/// How far a search came.
#[derive(Clone, Copy, Debug, Drop, PartialEq, Eq)]
pub struct Stop {
    /// The event at which nothing was found that could come next.
    pub event: usize,
    /// Why the last of what was tried there could not, if it was tried.
    pub reason: Option<Reason>,
}

/// Looks for a run of the cell that has these events: all that a call did lies between its beginning and its end, in
/// its order, and whatever it did is put where an entry may come next. A call that does not end may have done more than
/// was seen.
///
/// First it looks for a run in which nobody is forgotten, and then, if that found none, for any. Each of the two
/// searches tries at most `steps` choices. So a run in which somebody is forgotten is answered if there is no other, or
/// if the first search was given up.
///
/// `BadEvents` says that memory was refused, or which event does not fit those before it.
///
/// ```
/// let Answer::Run(entries) = linearize(rt.alloc(), &observed, Calls::One, 100_000)? else {
///     return Ok(false);
/// };
/// ```
pub fn linearize(
    alloc: Global,
    observed: &Observed,
    rule: Calls,
    steps: u64,
) -> Result<Answer, BadEvents> {
    let calls = Gathered::calls_of(alloc, &observed.events, observed.are_wakes_seen)?;
    let search = Search {
        alloc,
        observed,
        calls: &calls,
        rule,
        is_strict: true,
    };
    if let Answer::Run(entries) = search.run(steps)? {
        return Ok(Answer::Run(entries));
    }
    let less = Search {
        is_strict: false,
        ..search
    };
    Ok(less.run(steps)?)
}

// What is searched for.
#[derive(Clone, Copy)]
struct Search<'a> {
    alloc: Global,
    observed: &'a Observed,
    calls: &'a [Call],
    // Whom a release without a value wakes.
    rule: Calls,
    // Whether nobody may be forgotten.
    is_strict: bool,
}

// What may be done next.
#[derive(Clone, Copy)]
enum Choice {
    // The next event comes.
    GoOn,
    // This call does not do what it may have done.
    Leave(usize),
    // This call does this next, and wakes so.
    Do(usize, Deed, Woken),
}

// Whom a call wakes.
#[derive(Clone, Copy)]
enum Woken {
    // Those that were seen, or nobody.
    Seen,
    // The one with this waker.
    One(u64),
    // All that are listed.
    Listed,
    // All that are due.
    Due,
}

// How many a call may wake.
#[derive(Clone, Copy)]
enum Wakes {
    // Those that were seen, or nobody.
    Seen,
    // Nobody or one.
    One,
    // All that are listed, or all that are due.
    All,
}

// Where a search is.
#[derive(Drop)]
struct State<'a> {
    search: Search<'a>,
    // It is gone while it takes an entry, and for good if memory was refused then.
    judge: Option<Judge>,
    // How much of each call was done.
    done: Vec<usize>,
    // The calls before this one are over.
    first: usize,
    // How many events are past.
    past: usize,
    // Whether nothing may come next: somebody is forgotten, or the search was here before.
    is_dead: bool,
}

// The choices that led to a state, and what was tried before them.
#[derive(Drop)]
struct Path {
    // Each choice, and its place among those that could be made there.
    made: Vec<(usize, Choice)>,
    // The digests of the states that were reached.
    known: BTreeSet<Vec<u64>>,
    // The place of the choice that is tried next.
    next: usize,
    // How far the search came.
    stop: Stop,
}

// How a search ended.
#[derive(Clone, Copy)]
enum End {
    Run,
    NoRun,
    GaveUp,
}

impl<'a> Search<'a> {
    // Tries choices one after another, so many at most.
    fn run(self, steps: u64) -> Result<Answer, AllocError> {
        let mut state = State::first(self)?;
        let mut path = Path::new(self.alloc);
        let end = path.walk(&mut state, steps)?;
        state.answer(end, path.stop)
    }

    // How many this may wake.
    fn wakes(self, deed: Deed) -> Wakes {
        if self.observed.are_wakes_seen {
            return Wakes::Seen;
        }
        match (deed, self.rule) {
            (Deed::Told(_) | Deed::Claim, _) => Wakes::Seen,
            (Deed::Free, Calls::One) | (Deed::Pass, _) => Wakes::One,
            (Deed::Free, Calls::All) | (Deed::Fill(_), _) => Wakes::All,
        }
    }
}

impl Path {
    fn new(alloc: Global) -> Self {
        Path {
            made: Vec::new(alloc),
            known: BTreeSet::new(alloc),
            next: 0,
            stop: Stop::FIRST,
        }
    }

    // Goes so many steps at most, from the state after the choices so far.
    fn walk(&mut self, state: &mut State<'_>, steps: u64) -> Result<End, AllocError> {
        for _ in 0..steps {
            if state.is_over() {
                return Ok(End::Run);
            }
            if !self.step(state)? {
                return Ok(End::NoRun);
            }
        }
        Ok(End::GaveUp)
    }

    // Tries the next choice. If there is none, the last one is taken back. Answers whether there was one.
    fn step(&mut self, state: &mut State<'_>) -> Result<bool, AllocError> {
        match state.choice(self.next)? {
            Some(choice) => self.go_on(state, choice),
            None => self.go_back(state),
        }
    }

    // Tries a choice.
    fn go_on(&mut self, state: &mut State<'_>, choice: Choice) -> Result<bool, AllocError> {
        let event = state.past;
        match state.make(choice)? {
            Made::Yes => self.note(state, choice)?,
            Made::No(reason) => {
                self.stop = self.stop.farther(event, reason);
                self.next = self.next.saturating_add(1);
            }
        }
        Ok(true)
    }

    // This choice led to this state.
    fn note(&mut self, state: &mut State<'_>, choice: Choice) -> Result<(), AllocError> {
        self.made.push((self.next, choice))?;
        self.next = 0;
        let is_new = self.known.insert(state.digest()?)?;
        state.is_dead |= !is_new;
        Ok(())
    }

    // Takes the last choice back, if there is one, so that the one after it is tried next.
    fn go_back(&mut self, state: &mut State<'_>) -> Result<bool, AllocError> {
        let Some((place, _)) = self.made.pop() else {
            return Ok(false);
        };
        self.next = place.saturating_add(1);
        *state = State::first(state.search)?;
        for (_, choice) in &self.made {
            state.make(*choice)?;
        }
        Ok(true)
    }
}

impl Stop {
    const FIRST: Stop = Stop {
        event: 0,
        reason: None,
    };

    // The one of the two that is farther, or else the later.
    fn farther(self, event: usize, reason: Option<Reason>) -> Stop {
        if event < self.event {
            self
        } else {
            Stop { event, reason }
        }
    }
}

// Whether a choice was made, or why it may not be.
#[derive(Clone, Copy)]
enum Made {
    Yes,
    No(Option<Reason>),
}

// The choice at a place, which is sought among those that can be made.
#[derive(Clone, Copy)]
struct Pick {
    place: usize,
    // How many there were so far.
    count: usize,
    found: Option<Choice>,
}

impl Pick {
    // Sees the next choice.
    fn see(&mut self, choice: Choice) {
        if self.count == self.place {
            self.found = Some(choice);
        }
        self.count = self.count.saturating_add(1);
    }
}

impl<'a> State<'a> {
    // Where a search begins.
    fn first(search: Search<'a>) -> Result<State<'a>, AllocError> {
        let done = vec![in search.alloc; 0; search.calls.len()]?;
        let (kind, limit) = (&search.observed.kind, search.observed.limit);
        Ok(State {
            search,
            judge: Some(Judge::new(search.alloc, kind, limit, search.rule)?),
            done,
            first: 0,
            past: 0,
            is_dead: false,
        })
    }

    fn is_over(&self) -> bool {
        self.past >= self.search.observed.events.len() && self.first >= self.search.calls.len()
    }

    // What a search found that ended here. The judge took each entry of a run.
    fn answer(self, end: End, stop: Stop) -> Result<Answer, AllocError> {
        match (end, self.judge) {
            (End::Run, Some(judge)) => Ok(Answer::Run(judge.into_taken())),
            (End::NoRun, Some(_)) => Ok(Answer::NoRun(stop)),
            (End::GaveUp, Some(_)) => Ok(Answer::GaveUp(stop)),
            (_, None) => Err(AllocError),
        }
    }

    fn judge(&self) -> Result<&Judge, AllocError> {
        self.judge.as_ref().ok_or(AllocError)
    }

    // Numbers that tell all of what may come from here on.
    fn digest(&self) -> Result<Vec<u64>, AllocError> {
        let mut numbers = self.judge()?.digest(self.search.alloc)?;
        self.add_place(&mut numbers)?;
        Ok(numbers)
    }

    // Adds how many events are past, and how much was done of each call that is under way.
    fn add_place(&self, numbers: &mut Vec<u64>) -> Result<(), AllocError> {
        numbers.push(self.past as u64)?;
        for call in self.first..self.begun() {
            let done = self.done.get(call).copied().unwrap_or(0);
            numbers.extend_from_slice(&[call as u64, done as u64])?;
        }
        Ok(())
    }

    // How many calls have begun.
    fn begun(&self) -> usize {
        let calls = self.search.calls;
        calls.partition_point(|call| call.from <= self.past)
    }

    // What this call does next, if that may be here.
    fn next_of(&self, call: usize) -> Option<Effect> {
        let done = *self.done.get(call)?;
        let effect = *self.search.calls.get(call)?.effects.get(done)?;
        if effect.from <= self.past {
            Some(effect)
        } else {
            None
        }
    }

    // The choice at this place of those that can be made here, in the order in which they are tried. What has to be
    // done before the next event comes first; if there is no such thing, the next event does; and then what may be done
    // later too.
    fn choice(&self, place: usize) -> Result<Option<Choice>, AllocError> {
        let mut pick = Pick {
            place,
            count: 0,
            found: None,
        };
        if !self.is_dead {
            self.see_choices(&self.listed()?, &mut pick);
        }
        Ok(pick.found)
    }

    // The wakers of which a call may wake one, unless wakes were seen.
    fn listed(&self) -> Result<Vec<u64>, AllocError> {
        if self.search.observed.are_wakes_seen {
            return Ok(Vec::new(self.search.alloc));
        }
        self.judge()?.listed(self.search.alloc, false)
    }

    fn see_choices(&self, listed: &[u64], pick: &mut Pick) {
        self.see_deeds(true, listed, pick);
        if pick.count == 0 {
            pick.see(Choice::GoOn);
        }
        self.see_deeds(false, listed, pick);
    }

    // What calls may do: either all that has to be done before the next event comes, or all that has not.
    fn see_deeds(&self, is_due: bool, listed: &[u64], pick: &mut Pick) {
        for call in self.first..self.begun() {
            if let Some(effect) = self.next_of(call)
                && (effect.to <= self.past) == is_due
            {
                self.see_ways(call, effect, listed, pick);
            }
        }
    }

    // The ways in which a call may do this.
    fn see_ways(&self, call: usize, effect: Effect, listed: &[u64], pick: &mut Pick) {
        let deed = effect.deed;
        if !effect.is_sure {
            pick.see(Choice::Leave(call));
        }
        match self.search.wakes(deed) {
            Wakes::Seen => pick.see(Choice::Do(call, deed, Woken::Seen)),
            Wakes::One => {
                pick.see(Choice::Do(call, deed, Woken::Seen));
                for waker in listed {
                    pick.see(Choice::Do(call, deed, Woken::One(*waker)));
                }
            }
            Wakes::All => {
                pick.see(Choice::Do(call, deed, Woken::Listed));
                pick.see(Choice::Do(call, deed, Woken::Due));
            }
        }
    }

    // Makes a choice, if it may be made. Else the state is as before.
    fn make(&mut self, choice: Choice) -> Result<Made, AllocError> {
        match choice {
            Choice::GoOn => self.past = self.past.saturating_add(1),
            Choice::Leave(call) => self.one_more(call),
            Choice::Do(call, deed, woken) => return self.act(call, deed, woken),
        }
        Ok(Made::Yes)
    }

    // Does this in a call, if that may come here. Else the state is as before.
    fn act(&mut self, call: usize, deed: Deed, woken: Woken) -> Result<Made, AllocError> {
        if let Deed::Told(event) = deed
            && self.is_refuted(event)
        {
            return Ok(Made::No(None));
        }
        let refused = match self.entry(call, deed, woken)? {
            Some(entry) => self.take(entry)?,
            None => None,
        };
        if refused.is_some() {
            return Ok(Made::No(refused));
        }
        self.one_more(call);
        Ok(Made::Yes)
    }

    // Has the judge take an entry. Tells why it may not come here, if it may not.
    fn take(&mut self, entry: Entry) -> Result<Option<Reason>, AllocError> {
        match self.judge.take() {
            Some(judge) => {
                let (judge, refused) = judge.take(entry)?;
                self.go_on_with(judge);
                Ok(refused)
            }
            None => Err(AllocError),
        }
    }

    // This judge is back from an entry.
    fn go_on_with(&mut self, judge: Judge) {
        self.is_dead = self.search.is_strict && judge.forgotten().is_some();
        self.judge = Some(judge);
    }

    // Whether this event tells that a task was woken, and it was not.
    fn is_refuted(&self, event: usize) -> bool {
        match (self.search.observed.events.get(event), &self.judge) {
            (Some(Event::Woken(task)), Some(judge)) => !judge.was_woken(*task),
            _ => false,
        }
    }

    // One more thing of this call is done.
    fn one_more(&mut self, call: usize) {
        if let Some(done) = self.done.get_mut(call) {
            *done = done.saturating_add(1);
        }
        for call in self.first..self.search.calls.len() {
            if !self.is_call_over(call) {
                return;
            }
            self.first = call.saturating_add(1);
        }
    }

    fn is_call_over(&self, call: usize) -> bool {
        match (self.search.calls.get(call), self.done.get(call)) {
            (Some(call), Some(done)) => *done >= call.effects.len(),
            _ => true,
        }
    }

    // The entry of what a call does, if it is one.
    fn entry(&self, call: usize, deed: Deed, woken: Woken) -> Result<Option<Entry>, AllocError> {
        if let Deed::Told(event) = deed {
            return self.told_entry(event);
        }
        match self.search.calls.get(call) {
            Some(call) => Ok(entry_of(call.task, deed, self.wakers(call, woken)?)),
            None => Ok(None),
        }
    }

    // A copy of the entry that this event tells, if it tells one.
    fn told_entry(&self, event: usize) -> Result<Option<Entry>, AllocError> {
        match self.search.observed.events.get(event) {
            Some(Event::Entry(entry)) => Ok(Some(copy_of(self.search.alloc, entry)?)),
            _ => Ok(None),
        }
    }

    // The wakers that a call wakes so.
    fn wakers(&self, call: &Call, woken: Woken) -> Result<Vec<u64>, AllocError> {
        let alloc = self.search.alloc;
        match woken {
            Woken::Seen => Vec::from_slice(alloc, &call.wakers),
            Woken::One(waker) => Vec::from_slice(alloc, &[waker]),
            Woken::Listed => self.judge()?.listed(alloc, false),
            Woken::Due => self.judge()?.listed(alloc, true),
        }
    }
}

// The entry of what a task does, which wakes these wakers, unless an event tells it.
fn entry_of(task: u64, deed: Deed, wakers: Vec<u64>) -> Option<Entry> {
    match deed {
        Deed::Told(_) => None,
        Deed::Claim => Some(Entry::Claim(task)),
        Deed::Free => Some(Entry::Free(task, wakers)),
        Deed::Fill(value) => Some(Entry::Fill(task, value, wakers)),
        Deed::Pass => Some(Entry::Pass(task, wakers)),
    }
}
