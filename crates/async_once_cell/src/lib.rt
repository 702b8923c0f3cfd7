//! Cells that are filled once, by a future.
//!
//! A cell is empty or has one value. Tasks that need the value ask the cell for it: one of them makes
//! it, and the others wait. So settings are read once, and a table fetches each key once.
//!
//! - A [`OnceCell`] is asked with an init: a future that gives the value or an error. Each caller
//!   brings its own, and the first that gives a value fills the cell.
//! - A [`Lazy`] is made with the future that will fill it. Tasks that ask for its value drive that future on.
//!
//! A poll is Pending, or it answers the value, the error of its own init, or that it was [`Refused`].
//!
//! ```
//! let cell = OnceCell::new();
//! let first = cell.get_or_init(rt, ready(4)).wait()?; // Ok(&4)
//! let second = cell.get_or_init(rt, ready(5)).wait()?; // Ok(&4): this init is not polled
//!
//! let lazy = Lazy::new(ready(3));
//! let third = lazy.get(rt).wait()?; // Ok(&3)
//! ```
//!
//! # How it works
//!
//! **The right.** One task at a time has the right to run its init: the holder. It keeps it while its init is Pending.
//!
//! **The word.** The tasks of a cell share one number, the word. Its low 62 bits are the count: how many tasks are
//! counted in. The next bit is the quick bit: a quick holder has the right. The top bit is the ready bit: the value is
//! set. The word of a new cell is 0.
//!
//! **The quick claim.** A task that finds the word 0 tries to exchange it for the quick bit. If that is
//! done, the task has the right, and is called a quick holder. This takes no memory and no lock.
//!
//! **The door and the queue.** A task that finds neither the value nor the right goes to the door, which is the place
//! of the cell's queue. If it has none, the task puts one there. Both lie behind one lock. A queue is a flag and a
//! list. The flag says that a task holds which claimed under this lock. The list has a listing for each task that
//! waits: a ticket, by which the task finds it again, and a waker.
//!
//! **Counting in.** A task that has found the queue counts in: the count grows by one. The quick claim needs the word
//! 0, and the fast release (below) needs the quick bit alone. So neither is done while anybody is counted.
//!
//! **Waiting.** A task that is counted loads the word again, and then looks under the lock. If the value is set, it
//! counts out and answers the value. If nobody holds, it raises the flag and has the right. Else it makes a waker,
//! looks again, and lists the waker at the end. From the door on that is one hold of the lock, or two if the task has
//! to bring the queue. Now its poll is Pending: the task waits. At its next poll it looks again. If it was not woken,
//! its waker there becomes that of this poll, and else it is listed anew.
//!
//! **The release.** A holder whose init gave a value puts it into the cell, and takes the lock. It gives the right
//! back, sets the ready bit, and takes all listings out. Their tasks are woken with the lock free. A holder whose init
//! failed, or that is dropped, gives the right back without a value, and one waiter is woken. The first listing that
//! still has a waker gives it, and stays in the list. Its task has the turn.
//!
//! **The fast release.** A quick holder is not counted. It first tries to exchange the quick bit for the
//! ready bit, or for 0 if it has no value. If that is done, nobody is counted, and there is nobody to
//! wake. Else it counts in, finds the queue at the door, and releases as above.
//!
//! **Leaving.** A waiter that is dropped or refused memory takes its listing out. If it was woken and
//! the cell is empty, it passes its turn on: the first listing that has a waker gives it.
//!
//! **The end of the queue.** When a task that is counted is done, it counts out. If the value is set and
//! nobody is counted any more, it takes the queue out of the door. So does a holder that set the value
//! by the fast release, since a task that was dropped may have left a queue there.
//!
//! # What is proved
//!
//! What all tasks did with a cell is its record, which has no bytes, and only grows. Whatever threads do, it is a run
//! of a cell that is empty, held by one task or set. Besides, at each of its beginnings somebody was woken if somebody
//! had to be, so no waiter is forgotten. A clause sees what a future or a token has seen of the record. After a
//! `poll` the newest entry seen is its answer. A token's look finds a value exactly if the cell is set then.
//!
//! Only a task that holds polls an init, and the record has what that answered. In the record each `poll` or `leave` of
//! a future has one beginning, after all that the future had seen, one end, and what it did between them.
//!
//! This says nothing of a call that does not return, of fairness, progress or time. Tests alone show that a task polls
//! its own init, or the future of its lazy cell, that a waker which is handed out wakes its task, and that each value
//! and init is dropped. Futures and tokens say which value was set, see [`Initializing::tell`] and [`Known`]. The
//! definitions in `specs/` and the kit have to be trusted. `docs/PROVED.md` of the repository says what no clause says,
//! and `docs/THREADS.md` what is proved of threads.
#![tactic(auto)]

mod attempt;
mod error;
pub mod inner;
pub mod lazy;
pub mod once;
mod waker;

pub use error::{Failure, InitError, Refused};
pub use inner::{Failed, Gives, Init, Yields};
pub use lazy::{Lazy, LazyFuturePin, LazyFutureUnpin};
pub use once::{InitFuture, Initializing, Known, OnceCell, Parker, Told, TryInitFuture};
pub use once_machine::{laws, record, step};

/// The waiters: the flag and the list under the cell's lock, and what a section does with them.
pub mod queue {
    pub use once_machine::step::Out;
    pub use once_machine::waiters::{Answer, Listing, Lists, Op, Renews, WakerId};
    pub use once_machine::word::{MAX_WAITERS, NEW, QINIT_BIT, READY_BIT};
}
