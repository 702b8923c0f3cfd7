// What the author of a structure says about its book: the rule, how it begins, and what a step tells.
ghost use Rattle.core.specs.Prelude.{ℕ, List, ⊤};
ghost use Rattle.pagebook.specs.Prelude.{View};

/// The rule of a book, on a type of the author's that never has a value. `E` is an entry, and `P` what a page says.
pub trait Rule<E, P> {
    // What holds between any two steps, of the values of all words, all pages, and the whole log.
    ghost holds: { List ℕ → List P → List E → Type 0 };
}

/// What a new book begins with, by data of the caller's: the numbers in its words, its first pages, and its first log.
pub trait Opening<X, E, P> {
    ghost words: { X → List ℕ };

    ghost pages: { X → List P };

    ghost log: { X → List E };
}

/// What a step tells its caller. `X` is data of the caller's, which a step is told about.
pub trait Play<X, E, P> {
    // Of the caller's data, the view before, the number that was found in the word, and the view after. A note finds 0.
    ghost then: { X → View E P → ℕ → View E P → Type 0 };
}

/// What is promised of a slot's value, by the numbers about which it was promised when the slot was made.
pub trait Fits<T> {
    ghost fits: { List ℕ → T → Type 0 };
}

/// No promise: any value fits.
pub struct Anything;

impl<T> Fits<T> for Anything {
    ghost fits = { λ _ _. ⊤ };
}
