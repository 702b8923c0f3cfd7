//! Laws of every run of a cell, for those who build on it. These functions do nothing: the contract of each is a law
//! that follows from "the record is a run", which `replay` ensures, and all but `somebody_goes_on` from that alone. In
//! them the newest entry stands first.
ghost use Rattle.std.specs.Prelude.{◌≡◌, ◌≢◌, ◌≤◌, ◌⊎◌, ℕ, true, false, List, [], ◌∷◌, Some, None, length};
ghost use Rattle.once_machine.specs.Prelude.{Answer, RanError, RanPending, Kind, Reply, Value, Error, Memory, Full};
ghost use Rattle.once_machine.specs.Prelude.{Pending, Entry, Claim, Ran, Free, Pass, End, DropEnd, is_own, Empty};
ghost use Rattle.once_machine.specs.Prelude.{Held, SetTo, cell, answers_left, Dropping, Holding, Gone, Waiting, status};
ghost use Rattle.once_machine.specs.Prelude.{is_under_way, last_call, IsDue, IsOpen, times_opened, times_handed, Since};
ghost use Rattle.once_machine.specs.Prelude.{OtherActs, OtherHolds, AreWaiting, HasFreed, AtEvery, IsRun};
ghost use Rattle.once_machine.specs.Prelude.{NobodyForgotten, SomebodyCalled, CanGoOn, times_filled, times_given};

/// At most one task holds the right, whether it rests or is in a call. A task that claims finds the
/// cell empty, and an init is polled by the task that holds.
pub fn one_task_holds()
    ensures holder { (kind : Kind) (t u : ℕ) (h : List Entry) → cell kind h ≡ Held t → cell kind h ≡ Held u → t ≡ u }
    ensures rests { (kind : Kind) (limit t : ℕ) (h : List Entry) → IsRun kind limit h
        → status kind t h ≡ Holding → cell kind h ≡ Held t }
    ensures claims { (kind : Kind) (limit t : ℕ) (h : List Entry) → IsRun kind limit (Claim t ∷ h)
        → (cell kind h ≡ Empty) × (cell kind (Claim t ∷ h) ≡ Held t) }
    ensures one { (kind : Kind) (limit t u : ℕ) (h : List Entry) → IsRun kind limit h
        → status kind t h ≡ Holding → status kind u h ≡ Holding → t ≡ u }
    ensures runner { (kind : Kind) (limit t : ℕ) (a : Answer) (h : List Entry)
        → IsRun kind limit (Ran t a ∷ h) → cell kind h ≡ Held t }
{}

/// Until the owner replaces the cell, it is filled once at most, and an init gives a value once at most.
pub fn filled_once()
    ensures filled { (kind : Kind) (limit : ℕ) (h : List Entry) → IsRun kind limit h → times_filled h ≤ 1 }
    ensures given { (kind : Kind) (limit : ℕ) (h : List Entry) → IsRun kind limit h → times_given h ≤ 1 }
{}

/// A poll that ends with a value answers the one that is set, which lasts until the owner changes it.
pub fn value_set_is_answered()
    ensures answered { (kind : Kind) (limit t v : ℕ) (h : List Entry)
        → IsRun kind limit (End t (Value v) ∷ h) → cell kind h ≡ SetTo v }
    ensures lasts { (kind : Kind) (limit : ℕ) (e : Entry) (h : List Entry) (v : ℕ)
        → IsRun kind limit (e ∷ h) → is_own e ≡ false → cell kind h ≡ SetTo v → cell kind (e ∷ h) ≡ SetTo v }
{}

/// A poll ends Pending only if another task holds then, or if its own init was polled in it and is pending.
pub fn pending_has_a_reason()
    ensures { (kind : Kind) (limit t : ℕ) (h : List Entry) → IsRun kind limit (End t Pending ∷ h)
        → OtherHolds kind t h ⊎ ((last_call kind t h).ran ≡ Some RanPending) }
{}

/// A poll that ends with an error ends with the one that its own init gave, after it gave the right
/// back. That was after the poll began, and left the cell empty.
pub fn error_is_ones_own()
    ensures own { (kind : Kind) (limit t e : ℕ) (h : List Entry) → IsRun kind limit (End t (Error e) ∷ h)
        → ((last_call kind t h).ran ≡ Some (RanError e)) × ((last_call kind t h).freed ≡ true) }
    ensures empty { (kind : Kind) (limit t e : ℕ) (h : List Entry)
        → IsRun kind limit (End t (Error e) ∷ h) → Since t (HasFreed kind t) h }
{}

/// While a holder is dropped, the cell stays held or becomes empty, and a lazy init keeps the answers that it has left.
/// When the drop ends the task does not hold.
pub fn dropped_holder_frees()
    ensures ended { (kind : Kind) (limit t : ℕ) (h : List Entry) → IsRun kind limit (DropEnd t ∷ h)
        → cell kind (DropEnd t ∷ h) ≢ Held t }
    ensures during { (kind : Kind) (limit t : ℕ) (e : Entry) (h : List Entry)
        → IsRun kind limit (e ∷ h) → status kind t h ≡ Dropping → cell kind h ≡ Held t
        → (answers_left kind (e ∷ h) ≡ answers_left kind h)
        × ((cell kind (e ∷ h) ≡ Held t) ⊎ (cell kind (e ∷ h) ≡ Empty)) }
{}

/// A poll that begins when the value is set answers it, and does not poll its init.
pub fn set_value_is_answered_at_once()
    ensures { (kind : Kind) (limit t : ℕ) (r : Reply) (h : List Entry)
        → IsRun kind limit (End t r ∷ h) → (last_call kind t h).set_then ≡ true
        → ((last_call kind t h).ran ≡ None) × ((v : ℕ) × (cell kind h ≡ SetTo v) × (r ≡ Value v)) }
{}

/// A poll ends for want of memory only if another task held or was in a call since it began. If none did, it ends as
/// full only if at least `limit` other tasks waited at a moment since it began.
pub fn refusals_need_others()
    ensures memory { (kind : Kind) (limit t : ℕ) (h : List Entry)
        → IsRun kind limit (End t Memory ∷ h) → Since t (OtherActs kind t) h }
    ensures full { (kind : Kind) (limit t : ℕ) (h : List Entry) → IsRun kind limit (End t Full ∷ h)
        → (Since t (OtherActs kind t) h → ⊥) → Since t (AreWaiting kind limit t) h }
{}

/// While the value is set no waiter is forgotten: the waker of each was handed out since its last poll ended.
pub fn set_value_calls_all()
    ensures { (kind : Kind) (limit : ℕ) (h : List Entry) → IsRun kind limit h → AtEvery (NobodyForgotten kind) h }
{}

/// Nobody waits in vain: whenever a task waits, there is one that can go on. It is in a poll or a drop, or it rests
/// with the right, or it waits and was woken. This asks, beside a run, that some task was woken if the cell is empty.
/// `replay` and each cell that threads share promise that of every moment, in the form that `promised` asks for.
pub fn somebody_goes_on()
    ensures called { (kind : Kind) (limit u : ℕ) (h : List Entry) → IsRun kind limit h → SomebodyCalled kind h
        → status kind u h ≡ Waiting → (t : ℕ) × CanGoOn kind t h }
    ensures promised { (kind : Kind) (limit u : ℕ) (h : List Entry) → IsRun kind limit h
        → AtEvery (SomebodyCalled kind) h → status kind u h ≡ Waiting → (t : ℕ) × CanGoOn kind t h }
{}

/// A release without a value hands out one waker at most, and not those of all waiters. If some task waits and was not
/// woken since its last poll ended, it hands out one, which is open.
pub fn failed_release_calls_one()
    ensures at_most_one { (kind : Kind) (limit t : ℕ) (X : List ℕ) (h : List Entry)
        → IsRun kind limit (Free t X ∷ h) → length X ≤ 1 }
    ensures somebody { (kind : Kind) (limit t d : ℕ) (X : List ℕ) (h : List Entry)
        → IsRun kind limit (Free t X ∷ h) → IsDue kind d h → (w : ℕ) × (X ≡ w ∷ []) × IsOpen kind w h }
{}

/// A task that passes its turn on finds the cell empty and hands out one waker, which is open. It does so once in its
/// call, which claims nothing later and is its last. If the call is a poll, it ends for want of memory.
pub fn leaver_passes_its_turn_on()
    ensures to_one { (kind : Kind) (limit t : ℕ) (X : List ℕ) (h : List Entry) → IsRun kind limit (Pass t X ∷ h)
        → (cell kind h ≡ Empty) × ((w : ℕ) × (X ≡ w ∷ []) × IsOpen kind w h) }
    ensures once { (kind : Kind) (limit t : ℕ) (X : List ℕ) (h : List Entry)
        → IsRun kind limit (Pass t X ∷ h) → (last_call kind t h).passed ≡ false }
    ensures unclaimed { (kind : Kind) (limit t : ℕ) (h : List Entry)
        → IsRun kind limit (Claim t ∷ h) → (last_call kind t h).passed ≡ false }
    ensures refused { (kind : Kind) (limit t : ℕ) (r : Reply) (h : List Entry)
        → IsRun kind limit (End t r ∷ h) → (last_call kind t h).passed ≡ true → r ≡ Memory }
    ensures leaves { (kind : Kind) (limit t : ℕ) (h : List Entry) → IsRun kind limit h
        → (last_call kind t h).passed ≡ true → (is_under_way (status kind t h) ≡ true) ⊎ (status kind t h ≡ Gone) }
{}

/// No waker is handed out more often than tasks waited with it. Since the owner last replaced the
/// cell it is handed out at most once for each poll that began with it and ended Pending while another task held.
pub fn wakes_answer_waits()
    ensures { (kind : Kind) (limit w : ℕ) (h : List Entry) → IsRun kind limit h
        → times_handed w h ≤ times_opened kind w h }
{}
