// Of two threads one is told that it came first, and never both. The one that finds 0 in the word adds a page and has
// its pen, and there is one such pen.
ghost use Rattle.std.specs.Prelude.{◌≡◌, true, [], ◌∷◌, IfSome};
ghost use Rattle.pagebook_uses.specs.First.{medal};

use pagebook::{Opening, Pens, Play, Rule, Seen, Word};
use std::thread::{Threads, join};

/// The page of the one that comes first.
pub struct Medal;

/// The rule: the word says how many medals there are, and that is one at most.
pub struct OneMedal;

impl Rule<(), Medal> for OneMedal {
    ghost use Rattle.pagebook_uses.specs.First.{IsGiven};

    ghost holds = { λ ns ps log. IsGiven ns ps };
}

impl Opening<(), (), Medal> for OneMedal {
    ghost use Rattle.std.specs.Prelude.{[], ◌∷◌};

    ghost words = { λ x. 0 ∷ [] };

    ghost pages = { λ x. [] };

    ghost log = { λ x. [] };
}

struct Comes;

impl Play<(), (), Medal> for Comes {
    ghost use Rattle.pagebook_uses.specs.First.{Came};

    ghost then = { λ x. Came };
}

struct Clashes;

impl Play<(), (), Medal> for Clashes {
    ghost then = { λ x v n w. ⊥ };
}

/// The line that threads come to.
#[derive(Drop)]
pub struct Line {
    pub medals: Word<(), Medal, OneMedal>,
    pub front: Seen<(), Medal, OneMedal>,
    pub ghost word_is: { medals.key ≡ 0 },
    pub ghost front_is: { front.book ≡ medals.book },
}

/// The one that came first.
#[derive(Drop)]
pub struct Winner {
    pub pens: Pens<Medal>,
    pub seen: Seen<(), Medal, OneMedal>,
    pub ghost held_is: { pens.held ≡ (0, medal) ∷ [] },
    pub ghost book_is: { seen.book ≡ pens.book },
}

impl Line {
    /// A line that nobody came to.
    pub fn new() -> Line {
        let (mut blanks, front, _) = Word::open::<(), OneMedal>(&());
        let medals = Word::new(0, &mut blanks);
        Line { medals, front }
    }

    /// Comes to the line: Some for the one that comes first.
    pub fn come(&self) -> Option<Winner>
        ensures { IfSome result (λ w. w.pens.book ≡ self.now.medals.book) }
    {
        let mut seen = self.front.again();
        let mut pens = seen.no_pens();
        let found = self.medals.swap::<(), Comes>(1, &(), &mut seen, &mut pens);
        if found == 0 {
            Some(Winner { pens, seen })
        } else {
            None
        }
    }
}

/// There are no two that came first at one line. It does nothing: one hand cannot have two pens of one page.
///
/// Asked for: both came to one line.
pub fn never_both(first: Winner, second: Winner)
    requires { second.pens.book ≡ first.pens.book }
    ensures { ⊥ }
{
    let Winner { mut pens, mut seen } = first;
    let Winner {
        pens: mut others,
        seen: _,
    } = second;
    pens.append(&mut others);
    seen.note::<(), Clashes>(&mut pens, &());
}

/// Two threads come to a new line: whether each was told that it came first. Not both were.
pub fn race<R: Threads>(rt: &R) -> (bool, bool)
    ensures { result.0 ≡ true → result.1 ≡ true → ⊥ }
{
    let line = Line::new();
    let (one, two) = come_both(rt, &line);
    match (one, two) {
        (Some(first), Some(second)) => {
            never_both(first, second);
            (true, true)
        }
        (Some(_), None) => (true, false),
        (None, Some(_)) => (false, true),
        (None, None) => (false, false),
    }
}

fn come_both<R: Threads>(rt: &R, line: &Line) -> (Option<Winner>, Option<Winner>)
    ensures first { IfSome result.0 (λ w. w.pens.book ≡ line.now.medals.book) }
    ensures second { IfSome result.1 (λ w. w.pens.book ≡ line.now.medals.book) }
{
    join(
        rt,
        || -> Option<Winner>
            ensures { IfSome result (λ w. w.pens.book ≡ line.entry.now.medals.book) }
        { line.come() },
        || -> Option<Winner>
            ensures { IfSome result (λ w. w.pens.book ≡ line.entry.now.medals.book) }
        { line.come() },
    )
}
