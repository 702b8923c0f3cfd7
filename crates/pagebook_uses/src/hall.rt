// A hall that visitors enter and leave. A word counts those inside, by additions, so nobody waits to leave; the
// desk at the door counts those that came in, under a lock.
ghost use Rattle.std.specs.Prelude.{◌≡◌, ℕ, Bool, ◌+◌, ◌-◌, ◌<◌, ◌^◌, true, false, List, [], ◌∷◌, length};
ghost use Rattle.pagebook.specs.Pages.{Book, of_book};
ghost use Rattle.pagebook_uses.specs.Hall.{IsKept};
ghost use Rattle.pagebook_uses.specs.declared.hall.Page.{Page};
ghost use Rattle.pagebook_uses.specs.declared.hall.Page.TheVariants.{AtDesk};

use pagebook::{Key, Keyed, KeyedMutex, Opening, Pens, Play, Rule, Seen, Word};
use std::marker::{Brand, Model};
use std::sync::Wait;
use std::thread::{Threads, join};

/// An entry of the log: somebody came in, as the visitor with this number.
#[derive(Clone, Copy)]
pub struct Arrival {
    pub number: u64,
}

/// A page: how many came in, which the desk keeps, or whether a visitor is inside, which the visitor keeps.
#[derive(Clone, Copy)]
pub enum Page {
    AtDesk(u64),
    OfVisitor(bool),
}

/// The rule: the word counts the visitors inside, and the log has an entry for each that came in.
pub struct HallRule;

impl Rule<Arrival, Page> for HallRule {
    ghost use Rattle.pagebook_uses.specs.Hall.{IsKept};

    ghost holds = { λ ns ps log. IsKept ns ps log };
}

impl Opening<(), Arrival, Page> for HallRule {
    ghost use Rattle.std.specs.Prelude.{[], ◌∷◌};
    ghost use Rattle.pagebook_uses.specs.declared.hall.Page.TheVariants.{AtDesk};

    ghost words = { λ x. 0 ∷ [] };

    ghost pages = { λ x. AtDesk 0 ∷ [] };

    ghost log = { λ x. [] };
}

struct Arrives;

impl Play<(), Arrival, Page> for Arrives {
    ghost use Rattle.pagebook_uses.specs.Hall.{Arrived};

    ghost then = { λ x. Arrived };
}

struct Enters;

impl Play<Arrival, Arrival, Page> for Enters {
    ghost use Rattle.pagebook_uses.specs.Hall.{Entered};

    ghost then = { Entered };
}

struct Leaves;

impl Play<(), Arrival, Page> for Leaves {
    ghost use Rattle.pagebook_uses.specs.Hall.{Left};

    ghost then = { λ x. Left };
}

struct Audits;

impl Play<u64, Arrival, Page> for Audits {
    ghost use Rattle.pagebook_uses.specs.Hall.{Audited};

    ghost then = { Audited };
}

/// What lies under the lock: the desk's page is its own to change.
#[derive(Drop)]
pub struct Desk {
    pub entered: u64,
    pub pens: Pens<Page>,
    pub ghost held_is: { pens.held ≡ (0, AtDesk entered) ∷ [] },
}

impl Keyed for Desk {
    ghost key_of = { λ d. of_book d.pens.book };
}

/// The hall, which threads share.
#[derive(Drop)]
pub struct Hall {
    pub inside: Word<Arrival, Page, HallRule>,
    pub desk: KeyedMutex<Desk>,
    pub front: Seen<Arrival, Page, HallRule>,
    pub ghost word_is: { inside.key ≡ 0 },
    pub ghost desk_is: { desk.book ≡ inside.book },
    pub ghost front_is: { front.book ≡ inside.book },
}

/// A visitor, who alone changes its page. A clause sees whether it is inside, and which book its page is in.
#[derive(Drop)]
pub struct Visitor {
    inside: bool,
    pens: Pens<Page>,
    seen: Seen<Arrival, Page, HallRule>,
}

impl Model for Visitor {
    ghost use Rattle.std.specs.Prelude.{◌≡◌, ℕ, Bool, [], ◌∷◌};
    ghost use Rattle.pagebook.specs.Pages.{Book};
    ghost use Rattle.pagebook_uses.specs.declared.hall.Page.TheVariants.{OfVisitor};

    ghost Value = { Bool × Book };

    ghost view = { λ v. (v.inside, v.pens.book) };

    ghost invariant = { λ v. (v.seen.book ≡ v.pens.book) × ((k : ℕ) × (v.pens.held ≡ (k, OfVisitor v.inside) ∷ [])) };
}

impl Visitor {
    /// Comes in: one addition changes the word, this visitor's page and the desk's, and adds an entry.
    ///
    /// Asked for: it is not inside, the desk can count one more, and hall and desk are of its book.
    pub fn enter(&mut self, hall: &Hall, desk: &mut Desk)
        requires out { self.old.0 ≡ false }
        requires room { desk.old.entered < 2 ^ 64 - 1 }
        requires hall { self.old.1 ≡ hall.now.inside.book }
        requires desk { desk.old.pens.book ≡ hall.now.inside.book }
        ensures inside { (self.new.0 ≡ true) × (self.new.1 ≡ self.old.1) }
        ensures desk { (desk.new.entered ≡ desk.old.entered + 1) × (desk.new.pens.book ≡ desk.old.pens.book) }
    {
        let arrival = Arrival {
            number: desk.entered,
        };
        self.pens.append(&mut desk.pens);
        hall.inside
            .fetch_add::<Arrival, Enters>(1, &arrival, &mut self.seen, &mut self.pens);
        let mut back = self.pens.split_off(1);
        desk.pens.append(&mut back);
        self.inside = true;
        desk.entered += 1;
    }

    /// Goes out: one subtraction changes the word and this visitor's page. The desk is not asked.
    ///
    /// Asked for: it is inside, and the hall is of its book.
    pub fn leave(&mut self, hall: &Hall)
        requires inside { self.old.0 ≡ true }
        requires hall { self.old.1 ≡ hall.now.inside.book }
        ensures { (self.new.0 ≡ false) × (self.new.1 ≡ self.old.1) }
    {
        hall.inside
            .fetch_sub::<(), Leaves>(1, &(), &mut self.seen, &mut self.pens);
        self.inside = false;
    }
}

impl Hall {
    /// A hall with nobody in it, and a desk that counted nobody.
    pub fn new() -> Hall {
        let (mut blanks, front, pens) = Word::open::<(), HallRule>(&());
        let inside = Word::new(0, &mut blanks);
        let desk = KeyedMutex::new(Desk { entered: 0, pens });
        Hall {
            inside,
            desk,
            front,
        }
    }

    /// A new visitor, who is not inside: its page is added by a note, which touches no word.
    pub fn arrive(&self) -> Visitor
        ensures { (result.0 ≡ false) × (result.1 ≡ self.now.inside.book) }
    {
        let mut seen = self.front.again();
        let mut pens = seen.no_pens();
        seen.note::<(), Arrives>(&mut pens, &());
        Visitor {
            inside: false,
            pens,
            seen,
        }
    }

    /// A visitor comes in at the desk, and goes out past it. It does nothing if the desk cannot count one more.
    pub fn visit(&self, rt: &impl Wait) {
        visit_as::<Brand, _>(rt, self)
    }

    /// Closes the hall: how many are inside, how many came in, and the log, which has an entry for each of these.
    pub fn close(self) -> (u64, u64, Seen<Arrival, Page, HallRule>)
        ensures counted { length result.2.log ≡ result.1 }
        ensures rule { (ps : List Page) × IsKept (result.0 ∷ []) ps result.2.log }
    {
        let Hall {
            inside,
            desk,
            mut front,
        } = self;
        let mut desk = desk.into_inner();
        let now = desk.audit(&inside, &mut front);
        (now, desk.entered, front)
    }
}

impl Desk {
    /// How many are inside at this moment, with a log that has an entry for each that came in.
    ///
    /// Asked for: word and log are of the desk's book, and the word is its first.
    pub fn audit(
        &mut self,
        inside: &Word<Arrival, Page, HallRule>,
        seen: &mut Seen<Arrival, Page, HallRule>,
    ) -> u64
        requires word { (inside.now.key ≡ 0) × (self.old.pens.book ≡ inside.now.book) }
        requires seen { seen.old.book ≡ inside.now.book }
        ensures counted { (self.new.entered ≡ self.old.entered) × (length seen.new.log ≡ self.new.entered) }
        ensures rule { (ps : List Page) × IsKept (result ∷ []) ps seen.new.log }
    {
        let entered = self.entered;
        inside.load::<u64, Audits>(&entered, seen, &mut self.pens)
    }
}

// The same as `visit`, for a caller whose proof names the book.
fn visit_as<J: Key, R: Wait>(rt: &R, hall: &Hall)
    requires { hall.now.desk ≡ J.key }
{
    let mut visitor = hall.arrive();
    let mut held = hall.desk.lock::<J, R>(rt);
    if held.value.entered == u64::MAX {
        return;
    }
    visitor.enter(hall, &mut held.value);
    drop(held);
    visitor.leave(hall);
}

/// Two threads visit a new hall at once, so many times each, and the hall is closed: how many are inside, how many came
/// in, and the log.
pub fn visits<R: Threads + Wait + Sync>(
    rt: &R,
    times: u32,
) -> (u64, u64, Seen<Arrival, Page, HallRule>)
    ensures counted { length result.2.log ≡ result.1 }
    ensures rule { (ps : List Page) × IsKept (result.0 ∷ []) ps result.2.log }
{
    let hall = Hall::new();
    join(
        rt,
        || visit_often(rt, &hall, times),
        || visit_often(rt, &hall, times),
    );
    hall.close()
}

fn visit_often(rt: &impl Wait, hall: &Hall, times: u32) {
    for _ in 0..times {
        hall.visit(rt);
    }
}
