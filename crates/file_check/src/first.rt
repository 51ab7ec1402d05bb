//! The least rule that rows break, of those that are tested before a book is built of them.

ghost use Rattle.std.specs.Prelude.{◌≤◌, IfNone, IfSome};
ghost use Rattle.model_damage.specs.Numbers.{number};
ghost use Rattle.model_damage.specs.Rules.{IsLeastBroken};
ghost use Rattle.model_damage.specs.Told.{file_of};
ghost use Rattle.file_check.specs.Last.{KeepsFirst};

use crate::head::keeps_head;
use crate::ids::keeps_ids;
use crate::limits::keeps_limits;
use model_damage::{FileRows, Rule};

/// The least rule that is broken of the first three: 1 the shop's row, 2 limits, 3 ids. None where the rows keep these three.
pub fn first_broken(rows: &FileRows) -> Option<Rule>
    ensures kept { IfNone result (KeepsFirst (file_of rows.now)) }
    ensures broken { IfSome result (λ rule. IsLeastBroken rule (file_of rows.now)) }
    ensures first { IfSome result (λ rule. number rule ≤ 3) }
{
    if !keeps_head(rows) {
        return Some(Rule::Shop);
    }
    if !keeps_limits(rows) {
        return Some(Rule::Limits);
    }
    if !keeps_ids(rows) {
        return Some(Rule::Ids);
    }
    None
}
