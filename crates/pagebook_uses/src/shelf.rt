// A shelf for one value: it is put once, and then a bit is set. A thread that finds the bit has the value, with no test
// and no lock, and a token that shows for good which value it is. What was promised of the value when the shelf was
// made is known without any token (`memo`).
ghost use Rattle.std.specs.Prelude.{◌≡◌, ℕ, [], ◌∷◌, IfSome};
ghost use Rattle.std.specs.declared.option.Option.TheVariants.{Some};
ghost use mathlib.Core.List.{IsPrefix};
ghost use Rattle.pagebook_uses.specs.Shelf.{filled};
ghost use Rattle.pagebook_uses.specs.declared.shelf.Stage.TheVariants.{Empty};

use boxcar::tag::Tag;
use pagebook::{Anything, Fits, Opening, Pens, Play, Rule, Seen, Slot, Word, Written};
use std::thread::{Threads, join};

/// An entry of the log: the value was put.
#[derive(Clone, Copy)]
pub struct Filled;

/// The one page: how far the put of the value has come.
#[derive(Clone, Copy)]
pub enum Stage {
    Empty,
    Writing,
    Full,
    Open,
}

/// The rule: bit, slot and log are what the stage says.
pub struct OneFill;

impl Rule<Filled, Stage> for OneFill {
    ghost use Rattle.pagebook_uses.specs.Shelf.{IsShelf};

    ghost holds = { λ ns ps log. IsShelf ns ps log };
}

impl Opening<(), Filled, Stage> for OneFill {
    ghost use Rattle.std.specs.Prelude.{[], ◌∷◌};
    ghost use Rattle.pagebook_uses.specs.declared.shelf.Stage.TheVariants.{Empty};

    ghost words = { λ x. 0 ∷ 0 ∷ [] };

    ghost pages = { λ x. Empty ∷ [] };

    ghost log = { λ x. [] };
}

struct Begins;

impl Play<(), Filled, Stage> for Begins {
    ghost use Rattle.pagebook_uses.specs.Shelf.{Came};
    ghost use Rattle.pagebook_uses.specs.declared.shelf.Stage.TheVariants.{Writing};

    ghost then = { λ x. Came Writing };
}

struct Fills;

impl Play<(), Filled, Stage> for Fills {
    ghost use Rattle.pagebook_uses.specs.Shelf.{Came};
    ghost use Rattle.pagebook_uses.specs.declared.shelf.Stage.TheVariants.{Full};

    ghost then = { λ x. Came Full };
}

struct Opens;

impl Play<(), Filled, Stage> for Opens {
    ghost use Rattle.pagebook_uses.specs.Shelf.{Came};
    ghost use Rattle.pagebook_uses.specs.declared.shelf.Stage.TheVariants.{Open};

    ghost then = { λ x. Came Open };
}

struct Looks;

impl Play<(), Filled, Stage> for Looks {
    ghost use Rattle.pagebook_uses.specs.Shelf.{Looked};

    ghost then = { λ x. Looked };
}

/// The bit and the value, which threads share. `V` says what is promised of the value.
#[derive(Drop)]
pub struct Shelf<T, V: Fits<T> = Anything> {
    pub ready: Word<Filled, Stage, OneFill>,
    pub slot: Slot<T, Filled, Stage, OneFill, V>,
    pub ghost ready_is: { ready.key ≡ 0 },
    pub ghost slot_is: { (slot.key ≡ 1) × (slot.book ≡ ready.book) },
}

/// The right to put the value, which is used up by that.
#[derive(Drop)]
pub struct Filler {
    pub seen: Seen<Filled, Stage, OneFill>,
    pub pens: Pens<Stage>,
    pub ghost book_is: { seen.book ≡ pens.book },
    pub ghost held_is: { pens.held ≡ (0, Empty) ∷ [] },
}

impl<T> Shelf<T> {
    /// An empty shelf of whose value nothing is promised, and the right to fill it.
    pub fn new() -> (Shelf<T>, Filler)
        ensures { result.1.pens.book ≡ result.0.ready.book }
    {
        Shelf::promised(&Tag::empty())
    }
}

impl<T, V: Fits<T>> Shelf<T, V> {
    /// An empty shelf, and the right to fill it. What `V` promises of the value is about the numbers of the tag.
    pub fn promised(tag: &Tag) -> (Shelf<T, V>, Filler)
        ensures book { result.1.pens.book ≡ result.0.ready.book }
        ensures about { result.0.slot.about ≡ tag.now.numbers }
    {
        let (mut blanks, seen, pens) = Word::open::<(), OneFill>(&());
        (
            Shelf {
                ready: Word::new(0, &mut blanks),
                slot: Slot::promised(&mut blanks, tag),
            },
            Filler { seen, pens },
        )
    }

    /// Puts the value and sets the bit. Nothing can refuse it.
    ///
    /// Asked for: the right is to this shelf, and the value is as promised.
    pub fn fill(&self, value: T, filler: Filler) -> (Written<T>, Seen<Filled, Stage, OneFill>)
        requires filler { filler.pens.book ≡ self.now.ready.book }
        requires fits { V.fits self.now.slot.about value }
        ensures written { (result.0.of ≡ self.now.slot.id) × (result.0.value ≡ value) }
        ensures seen { (result.1.book ≡ self.now.ready.book) × (result.1.log ≡ filled ∷ []) }
    {
        let Filler { mut seen, mut pens } = filler;
        let written = self
            .slot
            .put::<(), Begins, Fills>(value, &(), &mut seen, &mut pens);
        self.ready.store::<(), Opens>(1, &(), &mut seen, &mut pens);
        (written, seen)
    }

    /// The value, if the bit is set, with a token that shows which it is.
    ///
    /// Asked for: what was seen is of this shelf.
    pub fn look<'a>(
        &'a self,
        seen: &mut Seen<Filled, Stage, OneFill>,
    ) -> Option<(&'a T, Written<T>)>
        requires { seen.old.book ≡ self.now.ready.book }
        ensures seen { (seen.new.book ≡ seen.old.book) × IsPrefix seen.old.log seen.new.log }
        ensures found { IfSome result (λ r. (r.0.now ≡ r.1.value) × (r.1.of ≡ self.now.slot.id)) }
        ensures fits { IfSome result (λ r. V.fits self.now.slot.about r.0.now) }
    {
        let mut none = seen.no_pens();
        if self.ready.load::<(), Looks>(&(), seen, &mut none) == 1 {
            Some(self.slot.get(seen))
        } else {
            None
        }
    }
}

impl<T, V: Fits<T>> Shelf<T, V> {
    /// The value, for the owner of the shelf, if there is one. It is as promised.
    pub fn take(self) -> Option<T>
        ensures { IfSome result (V.fits self.slot.about) }
    {
        let Shelf { ready, slot } = self;
        drop(ready);
        slot.into_inner()
    }

    /// The value, for the owner of the shelf, who has a token of it.
    ///
    /// Asked for: the token is of this shelf.
    pub fn into_value(self, written: &Written<T>) -> T
        requires { written.now.of ≡ self.slot.id }
        ensures { result ≡ written.now.value }
    {
        let Shelf { ready, slot } = self;
        drop(ready);
        slot.into_value(written)
    }
}

// What a look finds, copied, with its token.
fn copied(shelf: &Shelf<u64>, front: &Seen<Filled, Stage, OneFill>) -> Option<(u64, Written<u64>)>
    requires { front.now.book ≡ shelf.now.ready.book }
    ensures { IfSome result (λ r. (r.0 ≡ r.1.value) × (r.1.of ≡ shelf.now.slot.id)) }
{
    let mut seen = front.again();
    match shelf.look(&mut seen) {
        Some((value, written)) => Some((*value, written)),
        None => None,
    }
}

/// Two threads look. If both find a value, it is the same.
///
/// Asked for: what was seen is of this shelf.
pub fn two_looks<R: Threads>(
    rt: &R,
    shelf: &Shelf<u64>,
    front: &Seen<Filled, Stage, OneFill>,
) -> (Option<u64>, Option<u64>)
    requires { front.now.book ≡ shelf.now.ready.book }
    ensures { (x y : ℕ) → result.0 ≡ Some x → result.1 ≡ Some y → x ≡ y }
{
    let (one, two) = join(
        rt,
        ||
            requires { front.now.book ≡ shelf.now.ready.book }
        { copied(shelf, front) },
        ||
            requires { front.now.book ≡ shelf.now.ready.book }
        { copied(shelf, front) },
    );
    match (one, two) {
        (Some((x, of_x)), Some((y, of_y))) => {
            of_x.agrees(&of_y);
            (Some(x), Some(y))
        }
        (Some((x, _)), None) => (Some(x), None),
        (None, Some((y, _))) => (None, Some(y)),
        (None, None) => (None, None),
    }
}

/// One thread fills the shelf while another looks: it finds nothing, or that value.
///
/// Asked for: the right is to this shelf, and what was seen is of it.
pub fn fill_and_look<R: Threads>(
    rt: &R,
    shelf: &Shelf<u64>,
    filler: Filler,
    front: &Seen<Filled, Stage, OneFill>,
    value: u64,
) -> Option<u64>
    requires filler { filler.pens.book ≡ shelf.now.ready.book }
    requires front { front.now.book ≡ shelf.now.ready.book }
    ensures { IfSome result (λ x. x ≡ value) }
{
    let (put, found) = join(
        rt,
        move ||
            requires { filler.pens.book ≡ shelf.now.ready.book }
        { shelf.fill(value, filler) },
        ||
            requires { front.now.book ≡ shelf.now.ready.book }
        { copied(shelf, front) },
    );
    let (written, _) = put;
    match found {
        Some((x, token)) => {
            written.agrees(&token);
            Some(x)
        }
        None => None,
    }
}
