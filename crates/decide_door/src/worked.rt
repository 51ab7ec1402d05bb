//! Worked cases of the rules at the door, over one order with one position.

ghost use Rattle.std.specs.Prelude.{◌≡◌, [], ◌∷◌, None};
ghost use Rattle.model_rows.specs.declared.rows.Status.TheVariants.{Pending, Paid, Cancelled};
ghost use Rattle.model_rows.specs.declared.rows.CheckinKind.TheVariants.{Entry, Exit};
ghost use Rattle.model_commands.specs.declared.doors.DoorRefusal.TheVariants.{Invalid, Canceled, Unpaid, AlreadyRedeemed};
ghost use Rattle.model_commands.specs.declared.doors.Ticket.TheVariants.{Position};
ghost use Rattle.decide_door.specs.Scanned.{ticket_scanned};
ghost use Rattle.decide_door.specs.Status.{status_of, tickets_of};
ghost use Rattle.decide_door.specs.Worked.{plain, pending_list, return_list, seat, by_id, by_secret, house, nonce, scan, entry_with, lenient_entry, forced_entry, ticket_passed, first_in, then_out, elsewhere_in, in_at, out_at, Admits, Refuses};

/// A ticket enters with a nonce: one row. The same scan again adds none; one with another nonce finds the ticket
/// redeemed; it may leave; and it enters again only where the list allows that after an exit.
pub fn a_ticket_enters_once()
    ensures enters { Admits plain Paid [] by_id (entry_with 1) (first_in ∷ []) }
    ensures again { Admits plain Paid (first_in ∷ []) by_id (entry_with 1) (first_in ∷ []) }
    ensures another { Refuses plain Paid (first_in ∷ []) by_secret (entry_with 2) AlreadyRedeemed }
    ensures leaves { Admits plain Paid (first_in ∷ []) by_secret (scan Exit (nonce 3))
        (first_in ∷ then_out ∷ []) }
    ensures stays_out { Refuses plain Paid (first_in ∷ then_out ∷ []) by_id (entry_with 4)
        AlreadyRedeemed }
    ensures comes_back { Admits return_list Paid (first_in ∷ then_out ∷ []) by_id (entry_with 4)
        (first_in ∷ then_out ∷ ticket_passed 3 1 Entry (nonce 4) 1000 ∷ []) }
    ensures unknown { ticket_scanned 1 (Position 9) (scan Entry None) (house Paid plain [])
        ≡ Err Invalid }
{}

/// An exit of an earlier moment that is stored later isn't the last: the ticket is inside. Of one moment the greater id
/// is the last. On the list's page the check-ins stand by id.
pub fn the_last_goes_by_its_moment()
    ensures uploaded { status_of plain (house Paid plain (in_at 1100 ∷ out_at 1050 ∷ [])).lists
        ≡ record { positions = 1; entered = 1; inside = 1 } }
    ensures together { status_of plain (house Paid plain (in_at 1100 ∷ out_at 1100 ∷ [])).lists
        ≡ record { positions = 1; entered = 1; inside = 0 } }
    ensures page { tickets_of plain (house Paid plain (in_at 1100 ∷ out_at 1050 ∷ [])).lists
        ≡ record { position = seat; checkins = in_at 1100 ∷ out_at 1050 ∷ [] } ∷ [] }
{}

/// A pending order is unpaid, also where its list includes pending ones, unless the scan ignores that; where the list
/// doesn't include them it has to be forced. A nonce of another list is none here. A cancelled order's ticket isn't let
/// through, even with a nonce that is stored. A forced entry is a second one.
pub fn orders_have_to_be_paid()
    ensures pending { Refuses pending_list Pending [] by_id (scan Entry None) Unpaid }
    ensures ignored { Admits pending_list Pending [] by_id lenient_entry (in_at 1000 ∷ []) }
    ensures not_included { Refuses plain Pending [] by_id lenient_entry Unpaid }
    ensures forced { Admits plain Pending [] by_id forced_entry (in_at 1000 ∷ []) }
    ensures other_list { Admits plain Paid (elsewhere_in ∷ []) by_id (entry_with 1)
        (elsewhere_in ∷ ticket_passed 2 1 Entry (nonce 1) 1000 ∷ []) }
    ensures cancelled { Refuses plain Cancelled (first_in ∷ []) by_id (entry_with 1) Canceled }
    ensures twice { Admits plain Paid (in_at 1000 ∷ []) by_id forced_entry
        (in_at 1000 ∷ ticket_passed 2 1 Entry None 1000 ∷ []) }
{}
