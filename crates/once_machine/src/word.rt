//! The word of a cell: how many tasks are counted in, and two bits.
ghost use Rattle.std.specs.Prelude.{◌≡◌, false};
ghost use Rattle.once_machine.specs.Prelude.{Flags, flags_of, flags_alone, is_zero, is_ready_bit, sees};

use std::marker::Model;

/// The word of a cell that is neither set nor held by a quick holder, and in which nobody is counted.
pub const NEW: u64 = 0;

/// The quick bit of the word: a quick holder has the right.
pub const QINIT_BIT: u64 = 0x4000_0000_0000_0000;

/// The ready bit of the word: the value is set.
pub const READY_BIT: u64 = 0x8000_0000_0000_0000;

/// At this count `count_in` counts nobody in any more.
pub const MAX_WAITERS: u64 = QINIT_BIT - 2;

/// What a cell's word and the flag beside the list say of the right.
#[derive(Clone, Copy, Debug, PartialEq, Eq)]
pub enum Sees {
    /// The value is set.
    Set,
    /// The value is not set, and nobody holds.
    Free,
    /// The value is not set, and some task holds.
    Taken,
}

/// A word: how many tasks are counted in, and the two bits.
#[derive(Drop)]
pub struct Word {
    bits: u64,
}

impl Model for Word {
    ghost Value = { Flags };

    ghost view = { λ w. flags_of w.bits };
}

impl Word {
    /// The word of a new cell, which is made with a value or not. Nobody is counted in.
    pub fn new(ready: bool) -> Self
        ensures { result ≡ flags_alone false ready }
    {
        Word {
            bits: if ready { READY_BIT } else { NEW },
        }
    }

    /// The word that this number stands for.
    pub fn from_bits(bits: u64) -> Self
        ensures { result ≡ flags_of bits }
    {
        Word { bits }
    }

    /// The word as a number.
    pub fn bits(&self) -> u64
        ensures { flags_of result ≡ self.now }
    {
        self.bits
    }

    /// How many tasks are counted in.
    pub fn count(&self) -> u64
        ensures { result ≡ self.now.count }
    {
        self.bits % QINIT_BIT
    }

    /// Whether the ready bit is set: the cell has its value.
    pub fn is_ready(&self) -> bool
        ensures { result ≡ self.now.ready }
    {
        self.bits >= READY_BIT
    }

    /// Whether the quick bit is set: a quick holder has the right.
    pub fn is_quick(&self) -> bool
        ensures { result ≡ self.now.quick }
    {
        self.bits % READY_BIT >= QINIT_BIT
    }

    /// What the word and the flag beside the list, `head`, say of the right.
    #[inline(always)]
    pub fn sees(&self, head: bool) -> Sees
        ensures { result ≡ sees self.now head }
    {
        if self.is_ready() {
            return Sees::Set;
        }
        if self.is_quick() || head {
            return Sees::Taken;
        }
        Sees::Free
    }

    /// Whether the word is `NEW`.
    pub fn is_new(&self) -> bool
        ensures { result ≡ is_zero self.now }
    {
        self.bits == NEW
    }

    /// Whether the word is exactly the ready bit: the cell has its value, and nobody is counted in.
    pub fn is_ready_alone(&self) -> bool
        ensures { result ≡ is_ready_bit self.now }
    {
        self.bits == READY_BIT
    }
}
