//! Scripts at random, from a seed.
ghost use Rattle.once_script.specs.Reached.{IsReached};

use super::story::Story;
use super::words::stand_word;
use once_script::parse::{Opening, parse_line, parse_opening};
use once_script::world::World;
use script_doubles::chance::Chance;
use std::alloc::{AllocError, Global};
use std::test::Fail;

/// A script, and what the world says at each of its lines.
#[derive(Drop)]
pub struct Played {
    pub script: String,
    pub story: Story,
}

/// How often something happens in a script: once in so many times.
#[derive(Clone, Copy)]
struct Odds {
    drop: u64,
    value: u64,
    error: u64,
    refusal: u64,
    /// A whole call at once.
    run: u64,
    /// A large number.
    large: u64,
    /// All tasks go.
    end: u64,
}

/// A script that grows.
#[derive(Drop)]
struct Growing {
    alloc: Global,
    chance: Chance,
    odds: Odds,
    /// The number of the task at each of the places.
    tasks: Vec<u64>,
    /// Whether all tasks are to go.
    is_ending: bool,
    /// The number of the last line.
    number: u64,
    script: String,
}

/// Plays the script of a seed.
pub fn play(alloc: Global, seed: u64) -> Result<Played, Fail> {
    let mut growing = Growing::new(alloc, seed)?;
    let first = growing.first_line()?;
    let Some(Opening { kind, limit }) = parse_opening(alloc, first.as_str())? else {
        return Err(Fail::new(first));
    };
    let mut story = Story::new(alloc, seed, &kind);
    let mut world = World::new(alloc, kind, limit);
    let number = growing.write(first.as_str())?;
    story.note_line(&world, number, first, String::new(alloc), None)?;
    play_on(&mut growing, &mut world, &mut story)?;
    let script = growing.script;
    Ok(Played { script, story })
}

/// Plays all lines after the first.
fn play_on(growing: &mut Growing, world: &mut World, story: &mut Story) -> Result<(), Fail>
    requires reached { IsReached world.old }
{
    for _ in 0..growing.length() {
        let text = growing.next(world)?;
        let Some(line) = parse_line(growing.alloc, text.as_str())? else {
            return Err(Fail::new(text));
        };
        let number = growing.write(text.as_str())?;
        story.take(world, number, text, line)?;
    }
    Ok(())
}

/// A line of these words, with these numbers at its end.
fn numbered(alloc: Global, words: &str, numbers: &[u64]) -> Result<String, AllocError> {
    let mut line = String::from_str(alloc, words)?;
    for number in numbers {
        write!(line, " {number}")?;
    }
    Ok(line)
}

impl Growing {
    fn new(alloc: Global, seed: u64) -> Result<Growing, AllocError> {
        let mut chance = Chance::new(seed);
        let odds = Odds {
            drop: chance.draw(12).saturating_add(4),
            value: chance.draw(40).saturating_add(8),
            error: chance.draw(8).saturating_add(2),
            refusal: chance.draw(40).saturating_add(4),
            run: chance.draw(6).saturating_add(2),
            large: chance.draw(8).saturating_add(2),
            end: chance.draw(90).saturating_add(20),
        };
        let many = match chance.draw(20) {
            0 => 24,
            1 => 54,
            _ => chance.draw(6).saturating_add(2),
        };
        let mut growing = Growing {
            alloc,
            chance,
            odds,
            tasks: Vec::new(alloc),
            is_ending: false,
            number: 0,
            script: String::new(alloc),
        };
        for _ in 0..many {
            let task = growing.another();
            growing.tasks.push(task)?;
        }
        Ok(growing)
    }

    /// How many lines it has after the first.
    fn length(&mut self) -> u64 {
        if self.chance.happens(12) {
            return self.chance.draw(80).saturating_add(100);
        }
        let least = self.tasks.len() as u64;
        self.chance.draw(70).saturating_add(least)
    }

    /// Writes a line, and perhaps some before it that say nothing. Answers its number.
    fn write(&mut self, text: &str) -> Result<u64, AllocError> {
        for silent in ["# nothing", ""] {
            if self.chance.happens(20) {
                self.push(silent)?;
            }
        }
        self.push(text)?;
        Ok(self.number)
    }

    fn push(&mut self, text: &str) -> Result<(), AllocError> {
        self.number = self.number.saturating_add(1);
        self.script.push_str(text)?;
        self.script.push_str("\n")
    }

    /// The first line. The limit is small now and then.
    fn first_line(&mut self) -> Result<String, AllocError> {
        let (value, kind) = (self.chance.number(self.odds.large), self.chance.draw(8));
        let answers = match kind {
            2 | 3 => self.answers()?,
            _ => String::new(self.alloc),
        };
        let limit = match self.chance.draw(8) {
            0 => 1u64,
            1 => 2,
            _ => 100,
        };
        match kind {
            0 => format!(in self.alloc; "once {limit} with {value}"),
            1 => format!(in self.alloc; "lazy {limit} with {value}"),
            2 | 3 => format!(in self.alloc; "lazy {limit}{answers}"),
            _ => numbered(self.alloc, "once", &[limit]),
        }
    }

    /// Some answers of a lazy cell's init, each behind a blank.
    fn answers(&mut self) -> Result<String, AllocError> {
        let answers = " p".repeat(self.alloc, self.chance.draw(4) as usize)?;
        if self.chance.happens(4) {
            return Ok(answers);
        }
        format!(in self.alloc; "{answers} v{}", self.chance.number(self.odds.large))
    }

    /// The number of another task.
    fn another(&mut self) -> u64 {
        if self.chance.happens(self.odds.large) {
            self.chance.number(1)
        } else {
            self.chance.draw(60)
        }
    }

    /// The next line.
    fn next(&mut self, world: &World) -> Result<String, AllocError> {
        if self.chance.happens(self.odds.end) {
            self.is_ending = true;
        }
        let place = self.chance.draw(self.tasks.len() as u64) as usize;
        let task = self.tasks.get(place).copied().unwrap_or(0);
        if self.chance.happens(12) {
            return self.any_line(task);
        }
        match stand_word(world.step_of(task)) {
            "-" if self.is_ending => self.ended(world, task),
            "-" => self.line("make", &[task]),
            "new" | "waits" | "holds" => self.resting(task),
            "gone" => {
                let other = self.another();
                if let Some(task) = self.tasks.get_mut(place) {
                    *task = other;
                }
                if self.is_ending {
                    return self.ended(world, task);
                }
                self.line("make", &[other])
            }
            _ => self.calling(task),
        }
    }

    fn line(&self, words: &str, numbers: &[u64]) -> Result<String, AllocError> {
        numbered(self.alloc, words, numbers)
    }

    /// All tasks are to go: the owner calls, a look, or a task that lives is dropped.
    fn ended(&mut self, world: &World, task: u64) -> Result<String, AllocError> {
        let living = |it: &&u64| { !matches!(stand_word(world.step_of(**it)), "-" | "gone") };
        let first = self.tasks.iter().find(living).copied();
        if let Some(first) = first {
            return match stand_word(world.step_of(first)) {
                "new" | "waits" | "holds" => self.line("drop", &[first]),
                _ => self.calling(first),
            };
        }
        if self.chance.happens(3) {
            self.is_ending = false;
            return self.line("make", &[task]);
        }
        self.owner_line()
    }

    fn resting(&mut self, task: u64) -> Result<String, AllocError> {
        if self.is_ending || self.chance.happens(self.odds.drop) {
            return self.line("drop", &[task]);
        }
        let waker = if self.chance.happens(self.odds.large.saturating_mul(4)) {
            self.chance.number(1)
        } else {
            self.chance.draw(4)
        };
        self.line("poll", &[task, waker])
    }

    fn calling(&mut self, task: u64) -> Result<String, AllocError> {
        let (letter, number) = if self.chance.happens(self.odds.value) {
            ("v", Some(self.chance.number(self.odds.large)))
        } else if self.chance.happens(self.odds.error) {
            ("e", Some(self.chance.number(self.odds.large)))
        } else {
            ("p", None)
        };
        let is_refused = self.chance.happens(self.odds.refusal);
        let is_whole = self.chance.happens(self.odds.run);
        let refused = if is_refused { " x" } else { "" };
        let word = if is_whole { "run" } else { "go" };
        match number {
            Some(number) => format!(in self.alloc; "{word} {task} {letter}{number}{refused}"),
            None => format!(in self.alloc; "{word} {task} {letter}{refused}"),
        }
    }

    /// Any line, that may be passed over.
    fn any_line(&mut self, task: u64) -> Result<String, AllocError> {
        match self.chance.draw(6) {
            0 => self.line("make", &[task]),
            1 => self.line("drop", &[task]),
            2 => self.calling(task),
            3 => self.owner_line(),
            _ => self.line("look", &[]),
        }
    }

    fn owner_line(&mut self) -> Result<String, AllocError> {
        let value = self.chance.number(self.odds.large);
        match self.chance.draw(6) {
            0 => self.line("take", &[]),
            1 => self.line("parts", &[]),
            2 => self.line("replace with", &[value]),
            3 => {
                let answers = self.answers()?;
                format!(in self.alloc; "replace{answers}")
            }
            4 => self.line("look", &[]),
            _ => self.line("write", &[value]),
        }
    }
}
