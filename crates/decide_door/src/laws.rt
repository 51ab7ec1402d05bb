//! Laws of the decisions at the door.

ghost use Rattle.std.specs.Prelude.{◌≡◌, ℕ, ◌+◌, ◌≤◌, true, false, List, Some, Ok, is_some};
ghost use Rattle.model_catalogue.specs.declared.rows.Quota.{Quota};
ghost use Rattle.model_rows.specs.declared.rows.CheckinList.{CheckinList};
ghost use Rattle.model_rows.specs.declared.rows.Checkin.{Checkin};
ghost use Rattle.model_rows.specs.Lists.{State, checkin_list_at};
ghost use Rattle.model_rows.specs.Passages.{is_entry, is_exit};
ghost use Rattle.model_rows.specs.Takes.{places_used};
ghost use Rattle.model_invariant.specs.Checkins.{AreOnce};
ghost use Rattle.model_invariant.specs.Sound.{IsSound};
ghost use Rattle.model_commands.specs.FitRequests.{IsFitCheckinList, IsFitScan};
ghost use Rattle.model_commands.specs.declared.doors.NewCheckinList.{NewCheckinList};
ghost use Rattle.model_commands.specs.declared.doors.Scan.{Scan};
ghost use Rattle.decide_door.specs.Last.{IsLast, checkins_of, last_of};
ghost use Rattle.decide_door.specs.LetThrough.{LetThrough};
ghost use Rattle.decide_door.specs.ListAdded.{list_added};
ghost use Rattle.decide_door.specs.Places.{has_gone, IsReleasing};
ghost use Rattle.decide_door.specs.Scanned.{ticket_scanned};
ghost use Rattle.decide_door.specs.Valid.{IsStillGood};
ghost use Rattle.decide_door.specs.Verdict.{shown_by, is_stored};

/// A sound box office stays sound where a check-in list is added and where a ticket is scanned.
pub fn doors_keep_sound()
    ensures added { (new : NewCheckinList) (before after : State) (row : CheckinList) →
        IsFitCheckinList new → IsSound before → list_added new before ≡ Ok (after, row) →
        IsSound after }
    ensures scanned { (s : LetThrough) → IsFitScan s.scan → IsSound s.before
        → IsSound s.after }
{}

/// A new check-in list leaves what is used of each quota, and in a sound box office so does a scan of a quota that keeps the
/// places of tickets that went out. Of another quota an exit raises nothing; an entry raises it by at most one place, and only
/// where its ticket had gone out: where its last check-in, by whatever list, was an exit.
pub fn scans_move_only_released_places()
    ensures added { (new : NewCheckinList) (before after : State) (row : CheckinList)
        (quota : Quota) → list_added new before ≡ Ok (after, row)
        → places_used after quota ≡ places_used before quota }
    ensures kept { (s : LetThrough) (quota : Quota) → IsSound s.before →
        quota.release_after_exit ≡ false → places_used s.after quota ≡ places_used s.before quota }
    ensures exits { (s : LetThrough) (quota : Quota) → IsSound s.before →
        is_exit s.scan.kind ≡ true → places_used s.after quota ≤ places_used s.before quota }
    ensures entries { (s : LetThrough) (quota : Quota) → IsSound s.before →
        is_entry s.scan.kind ≡ true → places_used s.after quota ≤ places_used s.before quota + 1 }
    ensures inside { (s : LetThrough) (quota : Quota) → IsSound s.before →
        is_entry s.scan.kind ≡ true → has_gone s.position s.before ≡ false →
        places_used s.after quota ≡ places_used s.before quota }
{}

/// In a sound box office, a paid ticket that goes out sets one place free in each quota of its product that releases places: it
/// was in, and its last check-in is an exit. When it comes in again it takes the place back. After an exit and the entry behind it
/// what is used of each quota is what it was before both.
pub fn who_goes_out_sets_a_place_free()
    ensures freed { (s : LetThrough) (quota : Quota) → IsSound s.before
        → IsReleasing quota s.position s.before.lists → has_gone s.position s.before ≡ false
        → has_gone s.position s.after ≡ true
        → places_used s.after quota + 1 ≡ places_used s.before quota }
    ensures taken_back { (s : LetThrough) (quota : Quota) → IsSound s.before
        → IsReleasing quota s.position s.before.lists → has_gone s.position s.before ≡ true
        → has_gone s.position s.after ≡ false
        → places_used s.after quota ≡ places_used s.before quota + 1 }
    ensures both { (s next : LetThrough) (quota : Quota) → IsFitScan s.scan → IsSound s.before →
        next.before ≡ s.after → next.position ≡ s.position →
        has_gone s.position next.after ≡ has_gone s.position s.before →
        places_used next.after quota ≡ places_used s.before quota }
{}

/// In a box office that is sound before it, a scan leaves no list with a nonce twice for a position.
pub fn a_nonce_is_stored_once()
    ensures { (s : LetThrough) → IsFitScan s.scan → IsSound s.before →
        AreOnce s.after.lists.checkins }
{}

/// A scan with a nonce that is let through leaves a check-in with it, and further scans leave it there. The scan is let
/// through again and changes nothing, whatever came between, as long as its list and its position stand, the check-in is
/// stored, and its order stands as it did, or is paid.
pub fn a_scan_again_adds_nothing()
    ensures stores { (s : LetThrough) → is_some s.scan.nonce ≡ true →
        is_stored s.list s.position.id s.scan.nonce s.after.lists.checkins ≡ true }
    ensures stays { (s : LetThrough) (list position : ℕ) (scan : Scan) → IsSound s.before →
        is_stored list position scan.nonce s.before.lists.checkins ≡ true →
        is_stored list position scan.nonce s.after.lists.checkins ≡ true }
    ensures again { (s : LetThrough) (later : State) →
        checkin_list_at s.list later.lists ≡ checkin_list_at s.list s.before.lists →
        shown_by s.ticket later.lists ≡ Some s.position →
        IsStillGood s.position.order s.before.lists later.lists →
        is_stored s.list s.position.id s.scan.nonce later.lists.checkins ≡ true →
        ticket_scanned s.list s.ticket s.scan later ≡ Ok (later, s.position) }
{}

/// The last check-in of a position by a list is one of them, and none of them is later.
pub fn the_last_is_the_greatest()
    ensures { (list position : ℕ) (checkins : List Checkin) →
        IsLast (last_of list position checkins) (checkins_of list position checkins) }
{}
