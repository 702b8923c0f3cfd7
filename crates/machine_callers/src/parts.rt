//! Parts of one's own.

use once_machine::memory::NoCopy;
use once_machine::parts::{Counted, Parts};
use once_machine::step::{Polled, Side};
use once_machine::waiters::{Answer, Op, WakerId};
use once_script::plain::Core;

/// Parts that pass each call on to a core, so each call asks and tells what the core's does.
#[derive(Drop)]
pub struct Passing<W: WakerId> {
    core: Core<W>,
}

impl<W: WakerId + Drop> Parts<W> for Passing<W> {
    ghost use Rattle.once_script.specs.Core.{state_of, CanCall, DidCall};

    type Queue = u64;

    type Value = ();

    type Right = ();

    ghost can = { λ s c. CanCall s.core c };

    ghost did = { λ s e t. DidCall W.tells_same W.tells_other (state_of s.core) e (state_of t.core) };

    fn load(&mut self) -> u64 {
        self.core.load()
    }

    fn quick(&mut self) -> bool {
        self.core.quick()
    }

    fn fast(&mut self, ready: bool) -> bool {
        self.core.fast(ready)
    }

    fn count_in(&mut self) -> Counted {
        self.core.count_in()
    }

    fn add_one(&mut self) {
        self.core.add_one();
    }

    fn count_out(&mut self) -> u64 {
        self.core.count_out()
    }

    fn door_get(&mut self) -> Option<u64> {
        self.core.door_get()
    }

    fn door_put(&mut self) -> Option<u64> {
        self.core.door_put()
    }

    fn door_take(&mut self) -> bool {
        self.core.door_take()
    }

    fn section(&mut self, queue: &u64, op: &mut Op<W>) -> Answer<W> {
        self.core.section(queue, op)
    }

    fn refuse(&mut self, why: NoCopy) {
        self.core.refuse(why);
    }

    fn run<S: Side<W, Right = ()>>(&mut self, side: &mut S) -> Polled {
        self.core.run(side)
    }

    fn put(&mut self, value: ()) {
        self.core.put(value);
    }
}
