//! The waker of a waiting task, as it lies in the list of the cell.
ghost use Rattle.std.specs.Prelude.{◌≡◌, ◌∷◌, [], ⊤};
ghost use Rattle.std.specs.Option.{ForSome};
ghost use Rattle.futures.specs.Task.{IsArmed, Keeps};
ghost use Rattle.async_once_cell.specs.Waking.{WakesNamed, polled_task};

use crate::inner::{Mark, TaskWaker};
use boxcar::tag::{Names, Tag};
use futures::task::{Context, Poll, Source, Waker};
use once_machine::waiters::WakerId;

/// The waker of a task, with its number. Two are never compared, since a task is listed once. It wakes its task when it
/// is let go, so a task whose waker is handed out is woken when the answer is dropped, and no listed waker is lost. By
/// its type it wakes no task of the executor but the one that was polled when it was made or renewed.
#[derive(Drop)]
pub struct ListedWaker {
    // None if no waker could be made. Then the task asked for another poll.
    waker: Option<Waker>,
    tag: Tag,
    // The executor's task that was polled by the last `register`, so a clause can say whom the waker wakes.
    polled: Tag,
    ghost wakes: { ForSome waker (WakesNamed polled.numbers) },
}

struct Number;

impl Names<Mark> for Number {
    ghost numbers = { λ mark. mark ∷ [] };
}

struct Polled;

impl Names<Context<'_>> for Polled {
    ghost numbers = { polled_task };
}

impl WakerId for ListedWaker {
    ghost tells_same = { λ _ _. ⊥ };

    ghost tells_other = { λ _ _. ⊤ };

    fn are_all_other() -> bool {
        true
    }

    fn same(&self, _other: &ListedWaker) -> bool {
        false
    }
}

impl TaskWaker for ListedWaker {
    ghost use Rattle.async_once_cell.specs.Listed.{number_on};

    ghost whose = { λ s. number_on s.tag.numbers };

    ghost apart = { λ a b e. e };
}

impl ListedWaker {
    ghost use Rattle.async_once_cell.specs.Listed.{NamesTask, WakesTask, whose};

    /// The waker of the task that is polled here, to be listed under this number.
    pub fn new(mark: &Mark, cx: &mut Context<'_>) -> ListedWaker
        ensures whose { whose result ≡ mark.now }
        ensures wakes { WakesTask result cx.new }
        ensures names { NamesTask result cx.new }
        ensures armed { IsArmed cx.new }
        ensures kept { Keeps cx.old cx.new }
    {
        let mut listed = ListedWaker {
            waker: None,
            tag: Tag::of::<Mark, Number>(mark),
            polled: Tag::empty(),
        };
        listed.register(cx);
        listed
    }

    /// Puts the waker of the task that is polled here in the place of the one that was there. Another task's is woken.
    pub(crate) fn register(&mut self, cx: &mut Context<'_>)
        ensures whose { whose self.new ≡ whose self.old }
        ensures wakes { WakesTask self.new cx.new }
        ensures names { NamesTask self.new cx.new }
        ensures armed { IsArmed cx.new }
        ensures kept { Keeps cx.old cx.new }
    {
        let _: Poll<()> = cx.register(&Source::new(), &mut self.waker);
        self.polled = Tag::of::<Context<'_>, Polled>(&*cx);
    }
}
