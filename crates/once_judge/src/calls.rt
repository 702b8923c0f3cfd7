//! Whom a release without a value wakes.
ghost use Rattle.std.specs.Prelude.{ℕ, List};
ghost use Rattle.once_machine.specs.Record.{Kind, Entry};
ghost use Rattle.once_judge.specs.Calls.{IsRunBy, CalledOne, CalledAll};

/// Whom a release without a value wakes: the rule in which cells differ that are otherwise alike.
#[derive(Clone, Copy, Debug, Drop, PartialEq, Eq)]
pub enum Calls {
    /// One task that waits, as the cells of this repository do.
    One,
    /// Each task that waits, as the cell of the Rust crate does.
    All,
}

/// In which records the two rules say the same. This function does nothing: its contract is the law.
///
/// A run by one rule is a run by the other too, if each of its releases without a value does what the other asks: hands
/// out one waker at most, or every waker that is due. That is all in which they differ, since each run does what its
/// own rule asks. In the contract the newest entry stands first.
pub fn one_or_all()
    ensures one { (kind : Kind) (limit : ℕ) (h : List Entry) → IsRunBy Calls.One kind limit h → CalledOne h }
    ensures all { (kind : Kind) (limit : ℕ) (h : List Entry) → IsRunBy Calls.All kind limit h → CalledAll kind h }
    ensures to_one { (kind : Kind) (limit : ℕ) (h : List Entry) → IsRunBy Calls.All kind limit h
        → CalledOne h → IsRunBy Calls.One kind limit h }
    ensures to_all { (kind : Kind) (limit : ℕ) (h : List Entry) → IsRunBy Calls.One kind limit h
        → CalledAll kind h → IsRunBy Calls.All kind limit h }
{}
