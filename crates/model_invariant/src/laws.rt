//! Laws of the definitions alone.

ghost use Rattle.std.specs.Prelude.{◌≡◌, ℕ, ◌≤◌, ◌↔◌, false, List};
ghost use Rattle.model_catalogue.specs.declared.rows.Quota.{Quota};
ghost use Rattle.model_rows.specs.declared.rows.OrderPos.{OrderPos};
ghost use Rattle.model_rows.specs.Lists.{Lists, State};
ghost use Rattle.model_invariant.specs.Positions.{CountFrom, by_positionid};
ghost use Rattle.model_invariant.specs.Shown.{AreEachOnce};
ghost use Rattle.model_invariant.specs.Shown.{HaveUnlikeSecrets};
ghost use Rattle.model_invariant.specs.Sound.{IsSound};
ghost use Rattle.model_rows.specs.Total.{total};
ghost use Rattle.model_rows.specs.Usage.{usage_of};

/// Time alone raises no usage.
pub fn time_lowers()
    ensures { (state : State) (quota : Quota) (at later : ℕ) →
        IsSound state → state.moment ≤ at → at ≤ later →
        total (usage_of state.lists later quota) ≤ total (usage_of state.lists at quota) }
{}

/// In a sound box office no two order positions have one secret.
pub fn secrets_are_unlike()
    ensures { (state : State) → IsSound state → HaveUnlikeSecrets state.lists.positions }
{}

/// By number positions count on from 1 exactly where their numbers are 1 to their count, each once.
pub fn numbers_are_each_once()
    ensures { (positions : List OrderPos) →
        CountFrom 1 (by_positionid positions) ↔ AreEachOnce positions }
{}

/// Whoever has gone out of a quota is among those who have paid for it. A quota that keeps its places has none of them.
pub fn exited_are_paid()
    ensures paid { (lists : Lists) (at : ℕ) (quota : Quota) →
        (usage_of lists at quota).exited ≤ (usage_of lists at quota).paid }
    ensures kept { (lists : Lists) (at : ℕ) (quota : Quota) →
        quota.release_after_exit ≡ false → (usage_of lists at quota).exited ≡ 0 }
{}
