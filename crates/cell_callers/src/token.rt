//! Tokens of one cell, and what they tell each other.
ghost use Rattle.std.specs.Prelude.{◌≡◌, IsSome, IsTrue, Some};
ghost use Rattle.async_once_cell.specs.Prelude.{IsPrefix, IsSetIn};

use async_once_cell::{Known, OnceCell};
use pagebook::Fits;

/// Whether both tokens know a value. Then it is one value.
pub fn know_one_value<'a, T, V: Fits<T>>(one: &Known<'a, T, V>, other: &Known<'a, T, V>) -> bool
    requires one_cell { one.now.cell ≡ other.now.cell }
    ensures { IsTrue result → IsSome one.now.value × (one.now.value ≡ other.now.value) }
{
    Known::compare(one, other)
}

/// Who was told that there is no value was told so before it was set: the record that one token saw, in which the cell
/// is not set, is a beginning of that which the other saw, in which it is.
pub fn told_before<'a, T, V: Fits<T>>(without: &Known<'a, T, V>, with: &Known<'a, T, V>)
    requires one_cell { without.now.cell ≡ with.now.cell }
    requires unset { IsSetIn without.now.cell without.now.log → ⊥ }
    requires set { IsSetIn with.now.cell with.now.log }
    ensures { IsPrefix without.now.log with.now.log }
{
    Known::compare_records(without, with);
}

/// A look with what another token knows. It gives the value that this one knows, and the token has still seen all that
/// it had seen.
pub fn looked_after<'a, T, V: Fits<T>>(
    cell: &'a OnceCell<T, V>,
    token: &mut Known<'a, T, V>,
    other: &Known<'a, T, V>,
) -> &'a T
    requires token_of_this_cell { token.old.cell ≡ cell.now }
    requires other_of_this_cell { other.now.cell ≡ cell.now }
    requires knows { IsSome other.now.value }
    ensures value { other.now.value ≡ Some result.now }
    ensures seen { IsPrefix token.old.log token.new.log }
{
    token.learn_from(other);
    cell.get_as(token).unwrap()
}
