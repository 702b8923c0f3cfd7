//! A side of one's own.
ghost use Rattle.async_once_cell.specs.Inner.Sides.{HasWoken, sided_tells};

use async_once_cell::inner::{Hand, TaskSide, TaskWaker};
use async_once_cell::queue::{Out, Renews};
use once_machine::step::{Polled, Side};

/// A side that passes each call on to another. It tells of each what a task of a cell has to know of its side.
#[derive(Drop)]
pub struct Passing<S> {
    side: S,
}

impl<W: TaskWaker + Drop, S: TaskSide<W>> Side<W> for Passing<S> {
    type Value = S::Value;

    type Right = Hand;

    ghost did = { sided_tells W.whose (λ s. S.state s.side) };

    ghost can_run = { λ s. S.can_run s.side };

    ghost can_put = { λ s. S.can_put s.side };

    ghost hands = { λ s v. S.hands s.side v };

    ghost handed = { λ s v. S.handed s.side v };

    ghost stays = { λ s t. S.stays s.side t.side };

    fn run(&mut self, right: &mut Hand) -> Polled {
        self.side.run(right)
    }

    fn close(&mut self) {
        self.side.close();
    }

    fn put(&mut self) -> S::Value {
        self.side.put()
    }

    fn copy(&mut self) -> Option<W> {
        self.side.copy()
    }

    fn wake(&mut self, out: Out<W>)
        ensures did { HasWoken W.whose (S.state self.old.side) out (S.state self.new.side) }
        ensures stays { S.stays self.old.side self.new.side }
    {
        self.side.wake(out);
    }

    ghost stays_same = { λ s. S.stays_same s.side };

    ghost stays_on = { λ s t u. S.stays_on s.side t.side u.side };
}

impl<W: TaskWaker, S: TaskSide<W>> Renews<W> for Passing<S> {
    ghost renewed = { λ s v t w. S.renewed s.side v t.side w };

    fn renew(&mut self, listed: &mut W) {
        self.side.renew(listed);
    }
}
