//! What a section under the lock does with the waiters.
ghost use Rattle.std.specs.Prelude.{◌≡◌, ◌≢◌, Some};
ghost use Rattle.std.specs.Option.{is_some, option_flatten};
ghost use Rattle.once_machine.specs.Prelude.{flags_of, sees, is_free, Releases};
ghost use Rattle.once_machine.specs.Listings.{ticket_for, list_with, passes_turn, next_waker, find_listing};
ghost use Rattle.once_machine.specs.Room.{HasSpace, listings_of};
ghost use Rattle.once_machine.specs.declared.word.Sees.{Sees};
ghost use Rattle.once_machine.specs.declared.waiters.Answer.{Answer};

use once_machine::step::Out;
use once_machine::waiters::{Answer, Lists, Renews, WakerId};

/// A task asks for the right, with room made before. If nobody holds, it claims the right. If another task does, it
/// stands at the end of the list, once, with this waker and with the ticket that it is left.
pub fn ask<W: WakerId + Drop>(
    lists: &mut Lists<W>,
    ticket: &mut Option<u64>,
    waker: W,
    word: u64,
) -> Answer<W>
    requires room { HasSpace lists.old }
    ensures claims { sees (flags_of word) lists.old.head ≡ Sees.Free → result ≡ Answer.Claimed }
    ensures waits { sees (flags_of word) lists.old.head ≡ Sees.Taken → result ≡ Answer.Listed }
    ensures ticket { sees (flags_of word) lists.old.head ≡ Sees.Taken
        → ticket.new ≡ Some (ticket_for ticket.old (listings_of lists.old)) }
    ensures listed { sees (flags_of word) lists.old.head ≡ Sees.Taken → listings_of lists.new
        ≡ list_with (ticket_for ticket.old (listings_of lists.old)) waker (listings_of lists.old) }
{
    lists.list(ticket, &mut Some(waker), word).0
}

/// A holder gives the right back. With the value all that wait are woken, and equal wakers once; without it the first
/// is. The clause is that of `Lists::release`, for wakers that are numbers.
pub fn give_back(lists: &mut Lists<u64>, ready: bool) -> Out<u64>
    ensures { Releases (λ a b. a ≡ b) (λ a b. a ≢ b) ready
        (listings_of lists.old) result (listings_of lists.new) }
{
    lists.release(ready)
}

/// A task that waits renews its waker. It is told so exactly if its listing is there, with a waker.
pub fn renew<W: WakerId + Drop, N: Renews<W>>(lists: &mut Lists<W>, ticket: u64, by: &mut N) -> bool
    ensures { result ≡ is_some (option_flatten (find_listing ticket (listings_of lists.old))) }
{
    lists.renew(ticket, by)
}

/// A waiter leaves. If it was woken and the right is free, the turn is the next one's, who is to be woken.
pub fn leave<W: WakerId + Drop>(lists: &mut Lists<W>, ticket: u64, word: u64) -> Option<W>
    ensures { result ≡ next_waker
        (passes_turn (is_free (sees (flags_of word) lists.old.head)) ticket (listings_of lists.old))
        ticket (listings_of lists.old) }
{
    lists.leave(ticket, word).0
}
