//! Laws of kept answers.

ghost use Rattle.std.specs.Prelude.{◌≡◌, ℕ, List, IsPermutation};
ghost use Rattle.model_answers.specs.declared.kept.Kept.{Kept};
ghost use Rattle.model_answers.specs.KeptAnswers.{AreOneForEachKey, told_by};

/// Where no token has a key twice, what was told under a key is found in whatever order the answers stand.
pub fn the_order_of_answers_does_not_matter()
    ensures { (token : ℕ) (key : List ℕ) (now : ℕ) (ks js : List Kept) →
        AreOneForEachKey ks → IsPermutation ks js →
        told_by token key now js ≡ told_by token key now ks }
{}
