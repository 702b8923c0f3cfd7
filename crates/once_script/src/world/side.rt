//! The side of a replayed task: its init answers as the inputs or the kind say.
ghost use Rattle.std.specs.Prelude.{◌≡◌};

use super::Ran;
use once_machine::step::{Out, Polled, Side};

#[derive(Drop)]
pub(super) struct ReplaySide {
    pub lazy: bool,
    /// What a lazy init will still answer, the next one last.
    pub answers: Vec<Option<u64>>,
    pub value: u64,
    // What the task brings to a step, and what its init gave.
    pub answer: Ran,
    pub granted: bool,
    pub waker: u64,
    pub kept: Ran,
    // What was seen in this step.
    pub ran: Option<Ran>,
    pub handed: Option<Out<u64>>,
}

impl ReplaySide {
    ghost use Rattle.once_machine.specs.Cell.{rest_of};
    ghost use Rattle.once_script.specs.Side.{answers_in, next_of};

    fn next_answer(&mut self) -> Ran
        ensures answer { result ≡ next_of self.old }
        ensures answers { answers_in self.new ≡ rest_of (answers_in self.old) }
        ensures others { self.new ≡ record self.old { answers = self.new.answers } }
    {
        // A cell that is not lazy has none.
        match self.answers.pop() {
            _ if !self.lazy => self.answer,
            Some(Some(v)) => Ran::Value(v),
            _ => Ran::Pending,
        }
    }
}

impl Side<u64> for ReplaySide {
    ghost use Rattle.std.proofs.Common.{rules};
    ghost use Rattle.once_script.specs.Side.{DidRun, DidClose, DidPut, DidCopy, DidWake, Stays};

    type Value = ();

    type Right = ();

    ghost did = { record { run = DidRun; close = DidClose; put = DidPut; copy = DidCopy; wake = DidWake } };

    ghost stays = { Stays };

    fn run(&mut self, _right: &mut ()) -> Polled {
        let answer = self.next_answer();
        self.ran = Some(answer);
        match answer {
            Ran::Pending => Polled::Pending,
            Ran::Value(_) => {
                self.kept = answer;
                Polled::Value
            }
            Ran::Error(_) => {
                self.kept = answer;
                Polled::Error
            }
        }
    }

    fn close(&mut self) {}

    fn put(&mut self) {
        if let Ran::Value(v) = self.kept {
            self.value = v;
        }
    }

    fn copy(&mut self) -> Option<u64> {
        if self.granted { Some(self.waker) } else { None }
    }

    fn wake(&mut self, out: Out<u64>)
        ensures did { DidWake self.old out self.new }
        ensures stays { Stays self.old self.new }
    {
        self.handed = Some(out);
    }

    ghost stays_same = { λ a. Prim.search rules };

    ghost stays_on = { λ a b c p q. Prim.search rules };
}
