// Numbers that threads draw, as tickets at a counter: no number is drawn twice. A page is the list of the numbers
// that a thread drew. That is a list of a specification, which no type of the program is, so pages have no bytes
// and no bounds.
ghost use Rattle.std.specs.Prelude.{◌≡◌, ℕ, List, [], ◌∷◌, IfSome, IfNone};
ghost use Rattle.pagebook.specs.Pages.{Book};
ghost use Rattle.pagebook_uses.specs.Tickets.{NoCommon};

mod page;

pub use page::Drawn;
use pagebook::{Opening, Pens, Play, Rule, Seen, Word};
use std::marker::Model;
use std::thread::{Threads, join};

/// The rule: the word is the next number, and each number before it stands on one page at most. Nothing is logged.
pub struct NoneTwice;

impl Rule<(), Drawn> for NoneTwice {
    ghost use Rattle.pagebook_uses.specs.Tickets.{IsDealt};

    ghost holds = { λ ns ps log. IsDealt ns ps };
}

impl Opening<(), (), Drawn> for NoneTwice {
    ghost use Rattle.std.specs.Prelude.{[], ◌∷◌};

    ghost words = { λ x. 0 ∷ [] };

    ghost pages = { λ x. [] };

    ghost log = { λ x. [] };
}

struct Joins;

impl Play<(), (), Drawn> for Joins {
    ghost use Rattle.pagebook_uses.specs.Tickets.{Joined};

    ghost then = { λ x. Joined };
}

struct Looks;

impl Play<(), (), Drawn> for Looks {
    ghost use Rattle.pagebook_uses.specs.Tickets.{Looked};

    ghost then = { λ x. Looked };
}

struct Draws;

impl Play<u64, (), Drawn> for Draws {
    ghost use Rattle.pagebook_uses.specs.Tickets.{Drew};

    ghost then = { Drew };
}

struct Compares;

impl Play<(), (), Drawn> for Compares {
    ghost use Rattle.pagebook_uses.specs.Tickets.{Compared};

    ghost then = { λ x. Compared };
}

/// The counter, which threads share.
#[derive(Drop)]
pub struct Counter {
    pub next: Word<(), Drawn, NoneTwice>,
    pub front: Seen<(), Drawn, NoneTwice>,
    pub ghost word_is: { next.key ≡ 0 },
    pub ghost front_is: { front.book ≡ next.book },
}

/// One that draws. A clause sees the book of its page, and the numbers that it drew, the last one first.
#[derive(Drop)]
pub struct Drawer {
    pens: Pens<Drawn>,
    seen: Seen<(), Drawn, NoneTwice>,
}

impl Model for Drawer {
    ghost use Rattle.std.specs.Prelude.{◌≡◌, ℕ, List, [], ◌∷◌};
    ghost use Rattle.pagebook.specs.Pages.{Book};
    ghost use Rattle.pagebook_uses.specs.Tickets.{numbers_in};
    ghost use Rattle.pagebook_uses.specs.declared.tickets.page.Drawn.{Drawn};

    ghost Value = { Book × List ℕ };

    ghost view = { λ d. (d.pens.book, numbers_in d.pens.held) };

    ghost invariant = { λ d. (d.seen.book ≡ d.pens.book) × ((k : ℕ) × (p : Drawn) × (d.pens.held ≡ (k, p) ∷ [])) };
}

impl Counter {
    /// A counter whose first number is 0.
    pub fn new() -> Counter {
        let (mut blanks, front, _) = Word::open::<(), NoneTwice>(&());
        let next = Word::new(0, &mut blanks);
        Counter { next, front }
    }

    /// One more that draws, and has no number yet.
    pub fn drawer(&self) -> Drawer
        ensures { (result.0 ≡ self.now.next.book) × (result.1 ≡ []) }
    {
        let mut seen = self.front.again();
        let mut pens = seen.no_pens();
        seen.note::<(), Joins>(&mut pens, &());
        Drawer { pens, seen }
    }
}

impl Drawer {
    /// Draws the next number: None if another drew it in the meantime, or if numbers have run out.
    ///
    /// Asked for: the counter is of its book.
    pub fn draw(&mut self, counter: &Counter) -> Option<u64>
        requires { self.old.0 ≡ counter.now.next.book }
        ensures book { self.new.0 ≡ self.old.0 }
        ensures drawn { IfSome result (λ x. self.new.1 ≡ x ∷ self.old.1) }
        ensures none { IfNone result (self.new.1 ≡ self.old.1) }
    {
        let next = counter
            .next
            .load::<(), Looks>(&(), &mut self.seen, &mut self.pens);
        if next == u64::MAX {
            return None;
        }
        let found = counter
            .next
            .compare_exchange::<u64, Draws>(next, next + 1, &next, &mut self.seen, &mut self.pens);
        if found == next { Some(next) } else { None }
    }

    /// Draws a number, with so many tries.
    pub fn draw_within(&mut self, counter: &Counter, tries: u32) -> Option<u64>
        requires { self.old.0 ≡ counter.now.next.book }
        ensures book { self.new.0 ≡ self.old.0 }
        ensures drawn { IfSome result (λ x. self.new.1 ≡ x ∷ self.old.1) }
        ensures none { IfNone result (self.new.1 ≡ self.old.1) }
    {
        for _ in 0..tries {
            if let Some(number) = self.draw(counter) {
                return Some(number);
            }
        }
        None
    }
}

/// Two that drew have no number in common. It does nothing: the pens of both are put into one hand, and a note says
/// what the rule says of them.
///
/// Asked for: they drew at one counter.
pub fn compare(first: Drawer, second: Drawer)
    requires { second.0 ≡ first.0 }
    ensures { NoCommon first.1 second.1 }
{
    let Drawer { mut pens, mut seen } = first;
    let Drawer {
        pens: mut others,
        seen: _,
    } = second;
    pens.append(&mut others);
    seen.note::<(), Compares>(&mut pens, &());
}

/// Two numbers, and the one that drew them.
#[derive(Drop)]
pub struct Pair {
    pub first: u64,
    pub second: u64,
    pub drawer: Drawer,
    pub ghost numbers: { drawer.1 ≡ second ∷ first ∷ [] },
}

/// Two threads draw two numbers each at a new counter, with so many tries for each: all four numbers, of which no
/// number of the one is one of the other. None if one of them could not draw.
pub fn draw_apart<R: Threads>(rt: &R, tries: u32) -> Option<(u64, u64, u64, u64)>
    ensures { IfSome result (λ r. NoCommon (r.1 ∷ r.0 ∷ []) (r.3 ∷ r.2 ∷ [])) }
{
    let counter = Counter::new();
    let (one, two) = draw_both(rt, &counter, tries);
    Some(all_four(one?, two?))
}

fn draw_both<R: Threads>(rt: &R, counter: &Counter, tries: u32) -> (Option<Pair>, Option<Pair>)
    ensures first { IfSome result.0 (λ p. p.drawer.0 ≡ counter.now.next.book) }
    ensures second { IfSome result.1 (λ p. p.drawer.0 ≡ counter.now.next.book) }
{
    join(
        rt,
        || -> Option<Pair>
            ensures { IfSome result (λ p. p.drawer.0 ≡ counter.entry.now.next.book) }
        { draw_two(counter, tries) },
        || -> Option<Pair>
            ensures { IfSome result (λ p. p.drawer.0 ≡ counter.entry.now.next.book) }
        { draw_two(counter, tries) },
    )
}

fn draw_two(counter: &Counter, tries: u32) -> Option<Pair>
    ensures { IfSome result (λ p. p.drawer.0 ≡ counter.now.next.book) }
{
    let mut drawer = counter.drawer();
    let first = drawer.draw_within(counter, tries)?;
    let second = drawer.draw_within(counter, tries)?;
    Some(Pair {
        first,
        second,
        drawer,
    })
}

fn all_four(one: Pair, two: Pair) -> (u64, u64, u64, u64)
    requires { two.drawer.0 ≡ one.drawer.0 }
    ensures { NoCommon (result.1 ∷ result.0 ∷ []) (result.3 ∷ result.2 ∷ []) }
{
    let Pair {
        first,
        second,
        drawer,
    } = one;
    let Pair {
        first: third,
        second: fourth,
        drawer: other,
    } = two;
    compare(drawer, other);
    (first, second, third, fourth)
}
