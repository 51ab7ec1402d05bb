//! Laws of moments as texts.

ghost use Rattle.std.specs.Prelude.{◌≡◌, ◌≤◌, ℕ, Ok};
ghost use Rattle.base_values.specs.Moments.{last_moment};
ghost use Rattle.base_dates.specs.Civil.{moment_text};
ghost use Rattle.base_dates.specs.Moments.{moment_of};

/// The text of a moment reads as that moment.
pub fn moments_read_back()
    ensures { (second : ℕ) → second ≤ last_moment → moment_of (moment_text second) ≡ Ok second }
{}
