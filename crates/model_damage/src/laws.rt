//! Laws of the rules.

ghost use Rattle.std.specs.Prelude.{◌≡◌};
ghost use Rattle.base_values.specs.Slugs.{IsSlug};
ghost use Rattle.model_invariant.specs.Sound.{IsSound};
ghost use Rattle.model_damage.specs.declared.rule.Rule.{Rule};
ghost use Rattle.model_damage.specs.Rules.{File, IsCounted, Keeps};

/// A file that keeps all rules tells a sound box office.
pub fn what_keeps_the_rules_is_sound()
    ensures { (file : File) → ((rule : Rule) → Keeps rule file) → IsSound file.state }
{}

/// The file of a sound box office keeps all rules, where its slugs are slugs and its counters are counted afresh.
pub fn a_sound_office_keeps_the_rules()
    ensures { (file : File) (rule : Rule) →
        IsSlug file.organizer → IsSlug file.event → IsSound file.state → IsCounted file →
        Keeps rule file }
{}
