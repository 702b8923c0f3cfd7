//! What the world says at each line of a script, in the words of docs/SCRIPTS.md.
ghost use Rattle.std.specs.Prelude.{OnOk};
ghost use Rattle.once_script.specs.Reached.{IsReached};

use super::words::{stand_word, ticket_of};
use once_script::parse::{Line as ScriptLine, RUN_STEPS};
use once_script::print::EntryLine;
use once_script::world::{Call, Entry, Input, Kind, World};
use std::alloc::{AllocError, Global};
use std::test::Fail;

/// How many listings a table shows at most.
const SHOWN_LISTINGS: usize = 20;

/// What the world says after a line.
#[derive(Drop)]
pub struct Line {
    pub number: u64,
    pub text: String,
    /// The count, the two flags, the queue, its flag and its listings, with a bar between two.
    pub shared: String,
    /// Where each task stands, of those that were made by then.
    pub stands: Vec<&'static str>,
    /// What the line added to the record, or why it was passed over.
    pub record: String,
    /// The place of the task that the line names, if it lived before the line or since then.
    pub named: Option<usize>,
    /// What the cell is.
    pub cell: String,
}

/// A task: its number, and at which lines it was made and left.
#[derive(Clone, Copy)]
pub struct Task {
    pub number: u64,
    pub made: usize,
    pub gone: Option<usize>,
}

/// Something of a task that lasted, from one line to another or to the end: a poll, a drop, a wait or a hold, by the
/// class of its shape.
#[derive(Clone, Copy)]
pub struct Bar {
    pub lane: usize,
    pub class: &'static str,
    pub from: usize,
    pub to: Option<usize>,
}

/// A task woke one of these others at a line.
#[derive(Drop)]
pub struct Arrow {
    pub line: usize,
    pub caller: usize,
    pub called: Vec<usize>,
}

/// A task that is listed and was not woken: its place, and its waker.
type Waiting = (usize, u64);

/// All that the world said.
#[derive(Drop)]
pub struct Story {
    alloc: Global,
    /// That of the script.
    pub seed: u64,
    is_lazy: bool,
    pub tasks: Vec<Task>,
    pub lines: Vec<Line>,
    pub bars: Vec<Bar>,
    pub arrows: Vec<Arrow>,
    holder: Option<u64>,
    value: u64,
}

impl Story {
    /// Nothing was said yet of a cell of this kind.
    pub fn new(alloc: Global, seed: u64, kind: &Kind) -> Story {
        Story {
            alloc,
            seed,
            is_lazy: matches!(kind, Kind::Lazy(_) | Kind::LazyWith(_)),
            tasks: Vec::new(alloc),
            lines: Vec::new(alloc),
            bars: Vec::new(alloc),
            arrows: Vec::new(alloc),
            holder: None,
            value: match kind {
                Kind::OnceWith(value) | Kind::LazyWith(value) => *value,
                Kind::Once | Kind::Lazy(_) => 0,
            },
        }
    }

    /// The place of a task.
    pub fn place(&self, number: u64) -> Option<usize> {
        self.tasks.iter().position(|task| task.number == number)
    }

    /// The world takes a line with this number and this text.
    pub fn take(
        &mut self,
        world: &mut World,
        number: u64,
        text: String,
        line: ScriptLine,
    ) -> Result<(), Fail>
        requires reached { IsReached world.old }
        ensures reached { OnOk result (IsReached world.new) }
    {
        let (input, times) = match line {
            ScriptLine::Single(input) => (input, 1),
            ScriptLine::Run(task, answer, is_granted) => {
                (Input::Go(task, answer, is_granted), RUN_STEPS)
            }
        };
        let reason = self.reason(world, &input);
        let first = world.entries().len();
        for _ in 0..times {
            self.step(world, &input)?;
        }
        let record = match reason {
            Some(reason) => told(self.alloc, reason)?,
            None => self.record(world, first)?,
        };
        let named = match reason {
            Some(_) => living(world, named_by(&input)),
            None => named_by(&input),
        };
        self.note_line(world, number, text, record, named)
    }

    fn step(&mut self, world: &mut World, input: &Input) -> Result<(), Fail>
        requires reached { IsReached world.old }
        ensures reached { OnOk result (IsReached world.new) }
    {
        let before = self.waiting(world)?;
        let done = world.entries().len();
        world.take(input)?;
        let after = self.waiting(world)?;
        for entry in world.entries().get(done..).unwrap_or(&[]) {
            self.note(world, entry, &before, &after)?;
        }
        Ok(())
    }

    /// The tasks that are listed and were not woken.
    fn waiting(&self, world: &World) -> Result<Vec<Waiting>, AllocError> {
        let mut all = Vec::new(self.alloc);
        for listing in &world.core().lists.listings(self.alloc)? {
            let of = |task: &Task| ticket_of(world.step_of(task.number)) == Some(listing.ticket);
            if let (Some(lane), Some(waker)) = (self.tasks.iter().position(of), listing.waker) {
                all.push((lane, waker))?;
            }
        }
        Ok(all)
    }

    /// Notes what the world says after a line that names this task, if it names one.
    pub fn note_line(
        &mut self,
        world: &World,
        number: u64,
        text: String,
        record: String,
        named: Option<u64>,
    ) -> Result<(), Fail> {
        let mut stands = Vec::new(self.alloc);
        for task in &self.tasks {
            stands.push(stand_word(world.step_of(task.number)))?;
        }
        let line = Line {
            number,
            text,
            shared: self.shared(world)?,
            stands,
            record,
            named: named.and_then(|task| self.place(task)),
            cell: self.cell(world)?,
        };
        self.lines.push(line)?;
        Ok(())
    }

    /// What was added to the record since it had so many entries.
    fn record(&self, world: &World, first: usize) -> Result<String, AllocError> {
        let mut record = String::new(self.alloc);
        for entry in world.entries().get(first..).unwrap_or(&[]) {
            let gap = if record.is_empty() { "" } else { "; " };
            write!(record, "{gap}{}", EntryLine(entry))?;
        }
        Ok(record)
    }

    fn shared(&self, world: &World) -> Result<String, AllocError> {
        let (core, alloc) = (world.core(), self.alloc);
        let quick = if core.word.is_quick() { "quick" } else { "-" };
        let ready = if core.word.is_ready() { "ready" } else { "-" };
        let flag = if core.lists.head { "held" } else { "-" };
        let (count, listed) = (core.word.count(), self.listed(world)?);
        let door = match core.door {
            Some(queue) => format!(in alloc; "queue {queue}")?,
            None => String::from_str(alloc, "-")?,
        };
        format!(in alloc; "{count}|{quick}|{ready}|{door}|{flag}|{listed}")
    }

    fn listed(&self, world: &World) -> Result<String, AllocError> {
        let listings = world.core().lists.listings(self.alloc)?;
        let mut text = String::new(self.alloc);
        for listing in listings.iter().take(SHOWN_LISTINGS) {
            let gap = if text.is_empty() { "" } else { " " };
            match listing.waker {
                Some(waker) => write!(text, "{gap}{}:{waker}", listing.ticket)?,
                None => write!(text, "{gap}{}:called", listing.ticket)?,
            }
        }
        match listings.len().saturating_sub(SHOWN_LISTINGS) {
            0 if text.is_empty() => text.push_str("-")?,
            0 => {}
            more => write!(text, " and {more} more")?,
        }
        Ok(text)
    }

    /// What the cell is. The record and the flags have to agree on it.
    fn cell(&self, world: &World) -> Result<String, Fail> {
        let (core, alloc) = (world.core(), self.alloc);
        if self.holder.is_some() != (core.word.is_quick() || core.lists.head) {
            return Err(Fail::new("the record and the flags differ on who holds"));
        }
        Ok(match self.holder {
            Some(task) => format!(in alloc; "held by {task}")?,
            None if core.word.is_ready() => format!(in alloc; "set: v{}", self.value)?,
            None => String::from_str(alloc, "empty")?,
        })
    }
}

/// Why an input is passed over: a text, in which `#` stands for this task.
type Reason = (&'static str, u64);

fn told(alloc: Global, (text, task): Reason) -> Result<String, AllocError> {
    let task = format!(in alloc; "{task}")?;
    format!(in alloc;
        "(passed over: {})",
        text.replace(alloc, '#', task.as_str())?
    )
}

impl Story {
    fn reason(&self, world: &World, input: &Input) -> Option<Reason> {
        let (task, is_step) = match input {
            Input::Look => return None,
            Input::Own(call) => return self.owner_reason(world, call),
            Input::Make(task) => {
                world.step_of(*task)?;
                return Some(("task # was made before", *task));
            }
            Input::Poll(task, _) | Input::Drop(task) => (*task, false),
            Input::Go(task, _, _) => (*task, true),
        };
        match (stand_word(world.step_of(task)), is_step) {
            ("-", _) => Some(("task # was not made", task)),
            ("new" | "waits" | "holds", false) => None,
            ("gone", false) => Some(("task # is gone", task)),
            (_, false) => Some(("a call of task # is under way", task)),
            ("new" | "waits" | "holds" | "gone", true) => {
                Some(("no call of task # is under way", task))
            }
            (_, true) => None,
        }
    }

    fn owner_reason(&self, world: &World, call: &Call) -> Option<Reason> {
        match (call, self.is_lazy) {
            (Call::Take, true) => Some(("a lazy cell has no call `take`", 0)),
            (Call::Parts, false) => Some(("a once cell has no call `parts`", 0)),
            (Call::ReplaceValue(_) | Call::ReplaceAnswers(_), false) => {
                Some(("a once cell has no call `replace`", 0))
            }
            _ => {
                let living = |task: &&Task| stand_word(world.step_of(task.number)) != "gone";
                let task = self.tasks.iter().find(living)?;
                Some(("task # is not gone", task.number))
            }
        }
    }
}

/// What an entry adds to a picture.
impl Story {
    fn note(
        &mut self,
        world: &World,
        entry: &Entry,
        before: &[Waiting],
        after: &[Waiting],
    ) -> Result<(), AllocError> {
        match entry {
            Entry::Made(task) => self.make(*task)?,
            Entry::Begin(task, _) => self.begin(*task, "poll")?,
            Entry::DropBegin(task) => self.begin(*task, "drop")?,
            Entry::Claim(task) => {
                self.holder = Some(*task);
                self.open(*task, "hold")?;
            }
            Entry::Free(task, wakers) | Entry::Pass(task, wakers) => {
                self.call(*task, wakers, before, after)?;
            }
            Entry::Fill(task, value, wakers) => {
                self.value = *value;
                self.call(*task, wakers, before, after)?;
            }
            Entry::End(task, _) | Entry::DropEnd(task) => self.end(world, *task)?,
            Entry::Own(Call::Write(value) | Call::ReplaceValue(value), _) => self.value = *value,
            Entry::Ran(_, _) | Entry::Look(_) | Entry::Own(_, _) => {}
        }
        Ok(())
    }

    /// The place of the line that is being played.
    fn now(&self) -> usize {
        self.lines.len()
    }

    fn make(&mut self, number: u64) -> Result<(), AllocError> {
        let made = self.now();
        self.tasks.push(Task {
            number,
            made,
            gone: None,
        })?;
        Ok(())
    }

    /// Something of this class begins of a task.
    fn open(&mut self, number: u64, class: &'static str) -> Result<(), AllocError> {
        let from = self.now();
        if let Some(lane) = self.place(number) {
            self.bars.push(Bar {
                lane,
                class,
                from,
                to: None,
            })?;
        }
        Ok(())
    }

    /// What of these classes is open of a task ends. The answer is whether something did.
    fn close(&mut self, number: u64, classes: &[&'static str]) -> bool {
        let (now, lane, mut is_closed) = (self.now(), self.place(number), false);
        for bar in &mut self.bars {
            if Some(bar.lane) == lane && bar.to.is_none() && classes.contains(&bar.class) {
                bar.to = Some(now);
                is_closed = true;
            }
        }
        is_closed
    }

    fn begin(&mut self, number: u64, class: &'static str) -> Result<(), AllocError> {
        self.close(number, &["wait"]);
        self.open(number, class)
    }

    /// A call ends, and with it perhaps its task.
    fn end(&mut self, world: &World, number: u64) -> Result<(), AllocError> {
        self.close(number, &["poll", "drop"]);
        let now = self.now();
        match stand_word(world.step_of(number)) {
            "waits" => self.open(number, "wait")?,
            "gone" => {
                if let Some(task) = self.tasks.iter_mut().find(|task| task.number == number) {
                    task.gone = Some(now);
                }
            }
            _ => {}
        }
        Ok(())
    }

    /// The task gives the right back, if it had it, and hands out wakers. Whom each wakes was listed with it
    /// before, and is not after.
    fn call(
        &mut self,
        number: u64,
        wakers: &[u64],
        before: &[Waiting],
        after: &[Waiting],
    ) -> Result<(), AllocError> {
        if self.close(number, &["hold"]) {
            self.holder = None;
        }
        let (line, Some(caller)) = (self.now(), self.place(number)) else {
            return Ok(());
        };
        for waker in wakers {
            let mut called = Vec::new(self.alloc);
            for one in before {
                if one.1 == *waker && one.0 != caller && !after.contains(one) {
                    called.push(one.0)?;
                }
            }
            self.arrows.push(Arrow {
                line,
                caller,
                called,
            })?;
        }
        Ok(())
    }
}

/// This task, unless it is gone: a line that is passed over names none that is.
fn living(world: &World, named: Option<u64>) -> Option<u64> {
    match named {
        Some(task) if stand_word(world.step_of(task)) == "gone" => None,
        _ => named,
    }
}

/// The task that an input names.
fn named_by(input: &Input) -> Option<u64> {
    match input {
        Input::Make(task) | Input::Poll(task, _) | Input::Drop(task) | Input::Go(task, _, _) => {
            Some(*task)
        }
        Input::Look | Input::Own(_) => None,
    }
}
