//! Looks with a token.
ghost use Rattle.std.specs.Prelude.{◌≡◌, IfSome, IsSomeAnd};

use async_once_cell::{Known, OnceCell};
use pagebook::Fits;

/// Two looks. What the first finds the second finds too, and it is the same value.
pub fn looked_twice<'a, T, V: Fits<T>>(
    cell: &'a OnceCell<T, V>,
    token: &mut Known<'a, T, V>,
) -> (Option<&'a T>, Option<&'a T>)
    requires token_of_this_cell { token.old.cell ≡ cell.now }
    ensures { IfSome result.0 (λ first. IsSomeAnd result.1 (λ second. second.now ≡ first.now)) }
{
    let first = cell.get_as(token);
    (first, cell.get_as(token))
}

/// The same if the first look finds a value. Then the second never answers None, so it is unwrapped.
pub fn got_twice<'a, T, V: Fits<T>>(
    cell: &'a OnceCell<T, V>,
    token: &mut Known<'a, T, V>,
) -> Option<(&'a T, &'a T)>
    requires token_of_this_cell { token.old.cell ≡ cell.now }
    ensures { IfSome result (λ both. both.0.now ≡ both.1.now) }
{
    let first = cell.get_as(token)?;
    let second = cell.get_as(token).unwrap();
    Some((first, second))
}
