//! A lock whose content knows of which book it is and what it promises, while no type names the book.
//!
//! What lies under a lock may own pens of a book, or know what was seen of it. Code that takes a lock has to know that
//! this is the book of its words and tokens. If a type parameter named the book, every struct around the lock would
//! have it, and nobody could make a book while a program runs. So its name is a value here: a clause sees a
//! `KeyedMutex` as the `LockKey` of its content, and the locks of two books have one type. Besides the `book`, a key
//! has `about`, the numbers about which the content promises something, as a `Slot` has. `of_book` and `of_numbers` of
//! `specs/Pages.antt` make a key of one of the two.
//!
//! ```text
//! pub struct Desk { entered: u64, pens: Pens<Page> }
//! impl Keyed for Desk { ghost key_of = { λ d. of_book d.pens.book }; }        // which book a desk is of
//!
//! pub struct Hall { word: Word<Entry, Page, Law>, desk: KeyedMutex<Desk>, ghost same: { desk.book ≡ word.book } }
//!
//! fn locked<J: Key, R: Wait>(rt: &R, hall: &Hall) requires { hall.now.desk ≡ J.key } {
//!     let mut held = hall.desk.lock::<J, R>(rt);      // held.value is a Desk, and its pens are of the book J.key.book
//! }
//! ```
//!
//! `J` is a name that stands in one call alone. CALLING.md says how its caller picks it.
ghost use Rattle.std.specs.Prelude.{◌≡◌};
ghost use Rattle.pagebook.specs.LockRows.{lock_owns, lock_shares};
ghost use Rattle.pagebook.specs.Prelude.{LockKey, lock_key_coded};

use crate::tied::{Key, Keyed, LockOf, Tied, opened, sealed};
use core::mem::replace_with;
use std::fmt;
use std::marker::{Brand, Move, Owns};
use std::sync::{Mutex, MutexGuard, Wait};

/// A lock, as `std::sync::Mutex`. A clause sees the key that its content has.
pub struct KeyedMutex<T: Keyed> {
    lock: Mutex<Tied<T, Brand>>,
}

impl<T: Keyed> Owns for KeyedMutex<T> {
    ghost Value = { LockKey };

    ghost coded = { lock_key_coded };

    ghost shr_at = { λ k p κ. lock_shares T.row T.key_of k p κ };
}

impl<T: Keyed> Move for KeyedMutex<T> {
    ghost own_val = { λ k vs. lock_owns T.row T.key_of k vs };
}

impl<T: Keyed> KeyedMutex<T> {
    /// A lock with this content. Its key is the content's.
    pub fn new(value: T) -> KeyedMutex<T>
        ensures { result ≡ T.key_of value }
    {
        KeyedMutex {
            lock: sealed::<T, Brand>(value),
        }
    }

    /// The content, which has the lock's key.
    pub fn into_inner(self) -> T
        ensures { T.key_of result ≡ self }
    {
        let KeyedMutex { lock } = self;
        opened::<T, Brand>(lock)
    }

    /// Waits for the lock, whose key is `J`. The content has that key, and has to have it when the guard is let go.
    #[inline(always)]
    pub fn lock<J: Key, R: Wait>(&self, rt: &R) -> MutexGuard<'_, Tied<T, J>>
        requires { self.now ≡ J.key }
    {
        let lock = &self.get::<J>().lock;
        // `lock` begins with this too, but is a call.
        match lock.try_lock() {
            Some(held) => held,
            None => lock.lock(rt),
        }
    }

    /// Takes the lock if it is free.
    pub fn try_lock<J: Key>(&self) -> Option<MutexGuard<'_, Tied<T, J>>>
        requires { self.now ≡ J.key }
    {
        self.get::<J>().lock.try_lock()
    }

    /// The owner changes the content without the lock: it becomes what `change` makes of it and of `about`.
    pub fn get_mut<X, U, F: FnOnce(T, X) -> (T, U)>(&mut self, about: X, change: F) -> U
        requires takes { (t : T) → T.key_of t ≡ self.old → F.pre change t about }
        requires keeps { (t : T) (r : T × U) → T.key_of t ≡ self.old → F.post change t about r
            → T.key_of r.0 ≡ self.old }
        ensures key { self.new ≡ self.old }
        ensures changed { (t s : T) × (T.key_of t ≡ self.old) × F.post change t about (s, result) }
    {
        let lock = self;
        replace_with(
            lock,
            (about, change),
            |lock, pair|
                requires takes { (t : T) → T.key_of t ≡ lock → F.pre pair.1 t pair.0 }
                requires keeps { (t : T) (r : T × U) → T.key_of t ≡ lock → F.post pair.1 t pair.0 r
                    → T.key_of r.0 ≡ lock }
                ensures { (result.0 ≡ lock) × ((t s : T) × (T.key_of t ≡ lock) × F.post pair.1 t pair.0 (s, result.1)) }
            {
                let (about, change) = pair;
                let (value, answer) = change(lock.into_inner(), about);
                (KeyedMutex::new(value), answer)
            },
        )
    }

    fn get<J: Key>(&self) -> &LockOf<T, J>
        requires { self.now ≡ J.key }
    {
        unsafe { &*(self as *const KeyedMutex<T> as *const LockOf<T, J>) }
    }
}

impl<T: Keyed + Drop> Drop for KeyedMutex<T> {
    fn drop(self) {
        drop(self.into_inner());
    }
}

/// Shows the content, or `<locked>` if somebody has the lock. It holds the lock while it writes.
impl<T: Keyed + fmt::Debug> fmt::Debug for KeyedMutex<T> {
    fn fmt<W: fmt::Write>(&self, f: &mut fmt::Formatter<W>) -> fmt::Result {
        shown::<T, Brand, W>(self, f)
    }
}

fn shown<T: Keyed + fmt::Debug, J: Key, W: fmt::Write>(
    lock: &KeyedMutex<T>,
    f: &mut fmt::Formatter<W>,
) -> fmt::Result
    requires { lock.now ≡ J.key }
{
    match lock.try_lock::<J>() {
        Some(held) => f
            .debug_struct("KeyedMutex")
            .field("data", &held.value)
            .finish_non_exhaustive(),
        None => f
            .debug_struct("KeyedMutex")
            .field("data", &"<locked>")
            .finish_non_exhaustive(),
    }
}

unsafe impl<T: Keyed + Send> Send for KeyedMutex<T> {}

unsafe impl<T: Keyed + Send> Sync for KeyedMutex<T> {}
