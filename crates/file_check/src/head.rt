//! The test of the shop's row.

ghost use Rattle.std.specs.Prelude.{◌≡◌, ◌↔◌, IsTrue};
ghost use Rattle.model_damage.specs.Rules.{IsHeaded};
ghost use Rattle.model_damage.specs.Told.{file_of};

use model_damage::FileRows;
use model_invariant::next_ids::are_next_ids;

/// Whether the slugs are slugs, and the moment and the next ids are in range. Of the slugs and the moment their types
/// promise it.
pub fn keeps_head(rows: &FileRows) -> bool
    ensures { IsTrue result ↔ IsHeaded (file_of rows.now) }
{
    let _organizer = rows.organizer.as_str();
    let _event = rows.event.as_str();
    let _moment = rows.moment.get();
    are_next_ids(&rows.next)
}
