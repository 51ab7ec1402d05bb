//! Laws of the routes, of the pages of lists, of keys, and of statuses.

ghost use Rattle.std.specs.Prelude.{◌≡◌, ◌∷◌, ◌++◌, ◌<◌, ◌^◌, true, false, Bool, List, [], ℕ, Option, Some, None, codes};
ghost use Rattle.std.specs.List.{AllByRecursion};
ghost use Rattle.base_values.specs.declared.answer.Answer.{Answer};
ghost use Rattle.base_values.specs.declared.answer.Methods.{Methods};
ghost use Rattle.model_commands.specs.declared.requests.Resource.{Resource};
ghost use Rattle.web_http.specs.Messages.{Header, Message, same_word};
ghost use Rattle.web_http.specs.Text.{answer_text, fault_status, text};
ghost use Rattle.web_http.specs.declared.fault.FrameFault.{FrameFault};
ghost use Rattle.web_responses.specs.Pages.{page_path};
ghost use Rattle.web_responses.specs.Statuses.{is_given};
ghost use Rattle.web_api.specs.Call.{call};
ghost use Rattle.web_api.specs.Key.{key_name, key_of};
ghost use Rattle.web_api.specs.Page.{IsNamed, page_of};
ghost use Rattle.web_api.specs.Path.{in_shop, target_by, target_of, ticket_named};
ghost use Rattle.web_api.specs.Routes.{route_of};
ghost use Rattle.web_api.specs.Statuses.{IsRefusedByGiven, status_of};
ghost use Rattle.web_api.specs.Table.{IsInTable, IsName, IsSegment, has, path_with};

use crate::path::Target;
use crate::routes::Route;

/// Each row of the table is a pattern that the router reads, and stands in the table with its route: none is dropped.
pub fn no_route_is_dropped()
    ensures { (route : Route) → IsInTable route }
{}

/// A path made of a row's pattern, with any text in the place of its id or code and any in that of a ticket, has the
/// route of that row.
pub fn each_path_has_its_route()
    ensures { (route : Route) (text ticket : List ℕ) → IsName text → IsSegment ticket →
        route_of (path_with text ticket route) ≡ Some route }
{}

/// In the shop of these slugs such a path names what its route says with that text, whatever query follows.
pub fn each_path_names_its_target()
    ensures alone { (organizer event text ticket : List ℕ) (route : Route) →
        IsName text → IsSegment ticket → has 63 organizer ≡ false → has 63 event ≡ false →
        target_of organizer event (in_shop organizer event (path_with text ticket route))
        ≡ target_by (Some text) route }
    ensures with_query { (organizer event text ticket query : List ℕ) (route : Route) →
        IsName text → IsSegment ticket → has 63 organizer ≡ false → has 63 event ≡ false →
        target_of organizer event
        (in_shop organizer event (path_with text ticket route) ++ 63 ∷ query)
        ≡ target_by (Some text) route }
{}

/// In the shop of these slugs the path of a scan names the ticket that stands in its place, whatever query follows.
pub fn each_scan_names_its_ticket()
    ensures alone { (organizer event text ticket : List ℕ) →
        IsName text → IsSegment ticket → has 63 organizer ≡ false → has 63 event ≡ false →
        ticket_named organizer event (in_shop organizer event (path_with text ticket Route.Redeem))
        ≡ Some ticket }
    ensures with_query { (organizer event text ticket query : List ℕ) →
        IsName text → IsSegment ticket → has 63 organizer ≡ false → has 63 event ≡ false →
        ticket_named organizer event
        (in_shop organizer event (path_with text ticket Route.Redeem) ++ 63 ∷ query)
        ≡ Some ticket }
{}

/// Paths that no row has: without a slash at the end or in front, with a name too few or too many, of other words.
pub fn other_paths_have_no_route()
    ensures empty { route_of [] ≡ None }
    ensures slash { route_of (codes "/") ≡ None }
    ensures no_last_slash { route_of (codes "/items") ≡ None }
    ensures no_first_slash { route_of (codes "items/") ≡ None }
    ensures no_id { route_of (codes "/items//") ≡ None }
    ensures no_slash_behind_id { route_of (codes "/items/1") ≡ None }
    ensures too_deep { route_of (codes "/items/1/2/") ≡ None }
    ensures other_case { route_of (codes "/Items/") ≡ None }
    ensures other_word { route_of (codes "/orders/A0001/pay/") ≡ None }
{}

/// The path of a page, as `next` and `previous` write it, reads back as that page of that list.
pub fn pages_read_back()
    ensures page { (organizer event : List ℕ) (resource : Resource) (number : ℕ) →
        IsNamed resource → has 63 organizer ≡ false → has 63 event ≡ false → number < 10 ^ 18 →
        page_of (page_path organizer event resource number) ≡ Some number }
    ensures list { (organizer event : List ℕ) (resource : Resource) (number : ℕ) →
        IsNamed resource → has 63 organizer ≡ false → has 63 event ≡ false →
        target_of organizer event (page_path organizer event resource number)
        ≡ Some (Target.All resource) }
{}

/// The first of a message's key fields counts, whatever follows it, and in whatever case its name is written. A message
/// without such a field has no key.
pub fn the_first_key_counts()
    ensures first { (m : Message) (before after : List Header) (field : Header)
        → AllByRecursion (λ h. same_word h.0 key_name ≡ false) before
        → same_word field.0 key_name ≡ true
        → m.fields ≡ before ++ field ∷ after → key_of m ≡ field.1 }
    ensures none { (m : Message) → AllByRecursion (λ h. same_word h.0 key_name ≡ false) m.fields
        → key_of m ≡ [] }
    ensures any_case { same_word (codes "X-IDEMPOTENCY-Key") key_name ≡ true }
    ensures other_word { same_word (codes "Idempotency-Key") key_name ≡ false }
{}

/// Every answer has one of twelve statuses: a reply has, and so have a request that is refused before it is read as one (400,
/// 401, 404, 405), a framing fault, and 503. The text of an answer has its status.
pub fn statuses_are_few()
    ensures calls { (organizer event : List ℕ) (m : Message) (known : Option ℕ) →
        IsRefusedByGiven (call organizer event m known) }
    ensures faults { (fault : FrameFault) → is_given (fault_status fault) ≡ true }
    ensures unavailable { is_given (status_of Answer.Unavailable) ≡ true }
    ensures texts { (answer : Answer) (closes : Bool) →
        (allow : Option Methods) × (body : List ℕ)
        × (text answer closes ≡ answer_text (status_of answer) allow body closes) }
{}
