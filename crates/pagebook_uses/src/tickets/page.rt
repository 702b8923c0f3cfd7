// The pages of the counter. A struct whose ghost field is of a specification stands in a file of its own, since
// the rule is about it.
ghost use Rattle.std.specs.Prelude.{ℕ, List};
ghost use base.Stored.{coded_list, coded_ℕ};
ghost use base.Fml.{ftrue};

use std::marker::Model;

/// A page: the numbers that a thread drew, the last one first. It has no bytes, and no value of it is made.
pub struct Drawn {
    pub ghost numbers: { List ℕ } by { coded_list coded_ℕ },
}

impl Model for Drawn {
    ghost also_owns = { λ _. ftrue };
}
