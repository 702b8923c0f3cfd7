//! A value that is known to have a key, and a lock of one.
ghost use Rattle.std.specs.Prelude.{◌≡◌, []};
ghost use Rattle.pagebook.specs.Prelude.{IsKey, LockKey, of_numbers};

use std::marker::{Brand, PhantomData};
use std::sync::Mutex;

/// A key: the name of a book, and numbers. A function that takes a lock has one as a parameter, and its caller's proof
/// picks it.
pub trait Key {
    ghost key: { LockKey };
}

// What callers write if their proof picks the key. The key that stands here is of no book that is ever made.
impl Key for Brand {
    ghost key = { of_numbers [] };
}

/// A value that has a key: it is of a book, and may promise something about some numbers.
pub trait Keyed {
    ghost key_of: { Self → LockKey };
}

/// A value that has the key `J`. A guard leads to one, and code that changes the value leaves it with that key.
#[derive(Drop)]
pub struct Tied<T: Keyed, J: Key> {
    /// The value itself.
    pub value: T,
    /// Names the key in the type. It has no bytes.
    pub of: PhantomData<J>,
    pub ghost book_is: { (T.key_of value).book ≡ J.key.book },
    pub ghost about_is: { (T.key_of value).about ≡ J.key.about },
}

/// A lock whose type names the key: what a `KeyedMutex` is to code that knows its key.
#[derive(Drop)]
pub struct LockOf<T: Keyed, J: Key> {
    /// The lock. A guard of it leads to the value and its key.
    pub lock: Mutex<Tied<T, J>>,
}

pub(crate) fn sealed<T: Keyed, J: Key>(value: T) -> Mutex<Tied<T, J>>
    requires { IsKey (T.key_of value) J.key }
{
    Mutex::new(Tied {
        value,
        of: PhantomData,
    })
}

pub(crate) fn opened<T: Keyed, J: Key>(lock: Mutex<Tied<T, J>>) -> T
    ensures { IsKey (T.key_of result) J.key }
{
    lock.into_inner().value
}
