//! What a usage costs, and what it is, where a voucher ends while a cart position that names it lives; and what it is where a
//! ticket goes out.

ghost use Rattle.std.specs.Prelude.{◌≡◌, ◌+◌};
ghost use Rattle.tests_books.specs.Ending.{most_steps, start, five_places, ending, ending_usage};
ghost use Rattle.tests_books.specs.Exited.{evening, releasing, keeping, inside, outside, back, late, door, places};
ghost use Rattle.model_rows.specs.declared.rows.Status.TheVariants.{Pending, Paid, Expired};
ghost use Rattle.model_rows.specs.Total.{total};
ghost use Rattle.model_rows.specs.Usage.{usage_of};

/// A book that stands at the start is asked at the voucher's last second: it takes one step. A second later it takes at most
/// three: one for the voucher, one for the cart position that names it, and one more. Once that second is the book's own, it
/// takes one again.
pub fn an_ended_voucher_is_counted_once()
    ensures last { most_steps start (start + 600) ending ≡ 1 }
    ensures later { most_steps start (start + 601) ending ≡ 3 }
    ensures passed { most_steps (start + 601) (start + 601) ending ≡ 1 }
{}

/// Up to its last second the voucher blocks its places, one of which is the cart position's. Then that position counts by
/// itself, until it ends.
#[tactic(auto, unfolding(model_rows::specs::Usage::usage_of, model_rows::specs::Usage::blocked_by))]
pub fn an_ended_voucher_uncovers_its_cart()
    ensures last { usage_of ending (start + 600) five_places ≡ ending_usage 2 0 }
    ensures later { usage_of ending (start + 601) five_places ≡ ending_usage 0 1 }
    ensures held { usage_of ending (start + 1800) five_places ≡ ending_usage 0 1 }
    ensures ended { usage_of ending (start + 1801) five_places ≡ ending_usage 0 0 }
{}

/// A paid ticket takes its place while it is in. Once it has gone out, by whatever list, it is still paid and takes none, until
/// it comes back.
#[tactic(auto, unfolding(model_rows::specs::Usage::usage_of, model_rows::specs::Passages::is_out, model_rows::specs::Passages::later))]
pub fn an_exit_releases_a_place()
    ensures inside { usage_of (door Paid inside) evening releasing ≡ places 1 0 0 }
    ensures outside { usage_of (door Paid outside) evening releasing ≡ places 1 0 1 }
    ensures back { usage_of (door Paid back) evening releasing ≡ places 1 0 0 }
    ensures taken { total (usage_of (door Paid inside) evening releasing) ≡ 1 }
    ensures released { total (usage_of (door Paid outside) evening releasing) ≡ 0 }
{}

/// An exit that is told late, and was before the entry, releases nothing: the last check-in is the one of the greatest moment, not
/// the one that was stored last.
#[tactic(auto, unfolding(model_rows::specs::Usage::usage_of, model_rows::specs::Passages::is_out, model_rows::specs::Passages::later))]
pub fn an_exit_before_the_entry_releases_none()
    ensures usage { usage_of (door Paid late) evening releasing ≡ places 1 0 0 }
    ensures total { total (usage_of (door Paid late) evening releasing) ≡ 1 }
{}

/// Neither is a place released of a quota that keeps them, nor that of an order which isn't paid: it is taken while the order is
/// pending, and then it isn't taken at all.
#[tactic(auto, unfolding(model_rows::specs::Usage::usage_of, model_rows::specs::Passages::is_out, model_rows::specs::Passages::later))]
pub fn no_other_place_is_released()
    ensures kept { usage_of (door Paid outside) evening keeping ≡ places 1 0 0 }
    ensures taken { total (usage_of (door Paid outside) evening keeping) ≡ 1 }
    ensures pending { usage_of (door Pending outside) evening releasing ≡ places 0 1 0 }
    ensures expired { usage_of (door Expired outside) evening releasing ≡ places 0 0 0 }
{}
