//! A table with one fetch a key.
ghost use Rattle.std.specs.Prelude.{◌≡◌, ◌↔◌, ℕ, IsSome, IsNone, IfSome, IfOk, Contains};
ghost use Rattle.std.specs.Option.{ForSome, option_copied, option_map};
ghost use Rattle.async_once_cell.specs.Tokens.{Learns};
ghost use Rattle.memo_table.specs.Memo.{IsAbout, cell_of};

use async_once_cell::OnceCell;
use async_once_cell::once::Known;
use boxcar::tag::{Names, Tag};
use pagebook::{Anything, Fits};
use std::alloc::{AllocError, Global};
use std::collections::BTreeMap;
use std::marker::Model;

/// A table of values that are fetched once: it has a cell for each of its keys.
///
/// The keys are given when the table is made. Each caller that asks for a key brings a fetch of its
/// own; the first fills the key's cell, and all others get that value. Threads may share a table if
/// they may share its cells.
///
/// ```
/// let memo = Memo::new(alloc, vec![in alloc; 1, 2]?)?;
/// let cell = memo.cell(1).unwrap();
/// let first = block_on(rt, cell.get_or_init(rt, ready(10)))?; // Ok(&10)
/// let second = block_on(rt, cell.get_or_init(rt, ready(11)))?; // Ok(&10): this fetch is not polled
/// ```
///
/// `V` says what is promised of each value, by its key, see [`Memo::promised`].
#[derive(Drop)]
pub struct Memo<T, V: Fits<T> = Anything> {
    cells: BTreeMap<u64, OnceCell<T, V>>,
}

/// What a promise is about: the key.
pub struct Key;

impl Names<u64> for Key {
    ghost use Rattle.std.specs.Prelude.{[], ◌∷◌};

    ghost numbers = { λ key. key ∷ [] };
}

/// A clause sees a table as its keys, each with its cell.
impl<T, V: Fits<T>> Model for Memo<T, V> {
    ghost use Rattle.std.specs.Prelude.{ℕ, List};
    ghost use Rattle.async_once_cell.specs.Views.{CellView};
    ghost use Rattle.memo_table.specs.Memo.{AreAboutKeys};

    ghost Value = { List (ℕ × CellView T) };

    ghost view = { λ memo. memo.cells.entries };

    ghost invariant = { λ memo. AreAboutKeys memo.cells.entries };
}

impl<T> Memo<T> {
    /// A table with an empty cell for each of these keys. A key that is given again has the cell of
    /// its first place. If memory is refused, all is given back. It waits for nobody.
    ///
    /// ```
    /// let memo = Memo::<u64>::new(alloc, vec![in alloc; 7, 5, 7]?)?; // cells for 5 and 7
    /// ```
    pub fn new(alloc: Global, keys: Vec<u64>) -> Result<Self, AllocError>
    where
        T: Drop,
        ensures keys { IfOk result
            (λ memo. (key : ℕ) → IsSome (cell_of memo key) ↔ Contains keys.items key) }
    {
        Memo::promised(alloc, keys)
    }
}

impl<T, V: Fits<T>> Memo<T, V> {
    /// A table as by [`new`](Memo::new), each of whose values is promised: it fits its key, as `V` says. A fetch of
    /// a key gives no other value, and a caller that asks for the key knows that of what is answered. If memory is
    /// refused, all is given back. It waits for nobody.
    ///
    /// ```
    /// let keys = Vec::from_array(rt.alloc(), KEYS)?;
    /// let memo = Memo::<u64, TenTimes>::promised(rt.alloc(), keys)?;
    /// ```
    pub fn promised(alloc: Global, keys: Vec<u64>) -> Result<Self, AllocError>
    where
        T: Drop,
        ensures keys { IfOk result
            (λ memo. (key : ℕ) → IsSome (cell_of memo key) ↔ Contains keys.items key) }
    {
        let mut cells = BTreeMap::new(alloc);
        for key in keys {
            if !cells.contains_key(&key) {
                cells.insert(key, OnceCell::promised(&Tag::of::<u64, Key>(&key)))?;
            }
        }
        Ok(Memo { cells })
    }

    /// The cell of a key; None if the table was made without the key. What the cell promises is about the key. It
    /// waits for nobody.
    ///
    /// ```
    /// let value = memo.cell(7).and_then(|cell| cell.get()); // None until a fetch gave a value
    /// ```
    pub fn cell(&self, key: u64) -> Option<&OnceCell<T, V>>
        ensures cell { option_copied result ≡ cell_of self.now key }
        ensures about { IfSome result (λ cell. IsAbout key cell.now) }
    {
        self.cells.get(&key)
    }

    /// A token of a key's cell, which knows nothing yet; None if the table was made without the
    /// key. It takes no memory, and waits for nobody.
    ///
    /// ```
    /// let token = memo.token(7); // Some
    /// let missing = memo.token(6); // None
    /// ```
    pub fn token(&self, key: u64) -> Option<Known<'_, T, V>>
        ensures cell { option_map (λ token. token.cell) result ≡ cell_of self.now key }
        ensures knows { IfSome result (λ token. token.value ≡ None) }
    {
        Some(self.cell(key)?.token())
    }

    /// The value of a key, if it was fetched, and the token learns it. A token that knows a value
    /// gets that value, always. None if the key has no value yet, or if the table was made
    /// without the key; the token is then as it was. The token is of the key's cell. It waits for
    /// nobody.
    ///
    /// ```
    /// let mut token = memo.token(7).unwrap();
    /// let early = memo.get_as(7, &mut token); // None
    /// let _ = block_on(rt, memo.cell(7).unwrap().get_or_init(rt, ready(70)))?; // Ok(&70)
    /// let value = memo.get_as(7, &mut token); // Some(&70), and so at each later call
    /// ```
    pub fn get_as<'a>(&'a self, key: u64, token: &mut Known<'a, T, V>) -> Option<&'a T>
        requires token_of_this_cell { ForSome (cell_of self.now key) (λ cell. token.old.cell ≡ cell) }

        // A key of the table.
        ensures cell { token.new.cell ≡ token.old.cell }
        ensures value { IsSome (cell_of self.now key)
            → Learns token.old.value token.new.value result }

        // Any other key.
        ensures absent { IsNone (cell_of self.now key) → IsNone result }
        ensures unchanged { IsNone (cell_of self.now key) → token.new ≡ token.old }
    {
        self.cell(key)?.get_as(token)
    }
}
