//! What a caller takes to the owner of its cell.
ghost use Rattle.std.specs.Prelude.{◌≡◌, MatchOption, None, Some};
ghost use Rattle.async_once_cell.specs.Prelude.{Owned};

use async_once_cell::{Known, OnceCell, Told};
use pagebook::Fits;

/// What a token knew before a look, for the owner: nothing that the look found.
pub fn told_before_look<'a, T, V: Fits<T>>(
    cell: &'a OnceCell<T, V>,
    token: &mut Known<'a, T, V>,
) -> Option<Told<T, V>>
    requires token_of_this_cell { token.old.cell ≡ cell.now }
    ensures { MatchOption result (token.old.value ≡ None)
        (λ told. (told.cell ≡ cell.now) × (token.old.value ≡ Some told.value)) }
{
    let told = token.told();
    cell.get_as(token);
    told
}

/// The owner gets the value that it was told, and writes another in its place.
pub fn written<V: Fits<u64>>(cell: &mut OnceCell<u64, V>, told: &Told<u64, V>, value: u64)
    requires told_of_this_cell { told.now.cell ≡ cell.old }
    ensures { cell.new ≡ Owned value }
{
    cell.own_as(told);
    if let Some(place) = cell.get_mut() {
        *place = value;
    }
}
