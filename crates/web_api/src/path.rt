//! What a target's path names, and its query.

ghost use Rattle.std.specs.Prelude.{◌≡◌, ◌<◌, length, option_map, IfSome};
ghost use Rattle.web_api.specs.Path.{bytes_of, mark_of, path_of, query_of, after, within, segment, id_in, one_in, order_named, order_in, target_by, target_of, ticket_named};
ghost use Rattle.web_api.specs.Routes.{all_routes, route_of};

use crate::routes::{Route, route_of};
use base_values::{number_of, read_code};
use matchit::Router;
use model_commands::Resource;
use web_bodies::MoveName;

/// What a path names, with the ids that stand in it.
#[derive(Clone, Copy, PartialEq, Eq)]
pub enum Target {
    /// The list of all rows of a kind.
    All(Resource),
    /// The row of a kind with this id.
    One(Resource, u64),
    /// The variations of the item with this id.
    Variations(u64),
    /// What is left of the quota with this id.
    Availability(u64),
    /// Many cart positions in one call.
    Bulk,
    /// The order with this number; none where the path has no order's code.
    Order(Option<u64>),
    /// A move of the order with this number; none where the path has no order's code.
    Moved(Option<u64>, MoveName),
    /// The sending of a voucher to the entry of the waiting list with this id.
    Sending(u64),
    /// Periodic work.
    Periodic,
    /// The numbers of the check-in list with this id.
    Status(u64),
    /// A ticket at the check-in list with this id; which ticket it is stands in the path too.
    Redeem(u64),
}

/// Where the first question mark stands.
fn mark_of(target: &[u8]) -> Option<usize>
    ensures target { result ≡ mark_of target.now }
    ensures within { IfSome result (λ at. at < length target.now) }
{
    target.iter().position(|b| *b == b'?')
}

/// The bytes of a target before the first question mark.
fn path_of(target: &[u8]) -> &[u8]
    ensures { result.now ≡ path_of target.now }
{
    match mark_of(target) {
        None => target,
        Some(at) => &target[..at],
    }
}

/// The bytes of a target behind the first question mark.
pub(crate) fn query_of(target: &[u8]) -> &[u8]
    ensures { result.now ≡ query_of target.now }
{
    match mark_of(target) {
        None => b"",
        Some(at) => &target[at + 1..],
    }
}

/// What follows a text, where the path begins with it.
fn after<'p>(front: &[u8], path: &'p [u8]) -> Option<&'p [u8]>
    ensures { option_map bytes_of result ≡ after front.now path.now }
{
    path.strip_prefix(front)
}

/// The part of a path behind the slugs, where they are these.
#[tactic(auto, unfolding(crate::specs::Path::within))]
fn within<'p>(organizer: &str, event: &str, path: &'p [u8]) -> Option<&'p [u8]>
    ensures { option_map bytes_of result ≡ within organizer.now event.now path.now }
{
    let path = after(b"/api/v1/organizers/", path)?;
    let path = after(organizer.as_bytes(), path)?;
    let path = after(b"/events/", path)?;
    after(event.as_bytes(), path)
}

/// The nth of the texts between the slashes.
fn segment<'p>(n: usize, path: &'p [u8]) -> Option<&'p [u8]>
    ensures { option_map bytes_of result ≡ segment n path.now }
{
    path.split(|b| *b == b'/').nth(n)
}

/// The id behind the first name of a path.
fn id_in(path: &[u8]) -> Option<u64>
    ensures { result ≡ id_in (segment 2 path.now) }
{
    number_of(segment(2, path)?)
}

/// A row by the id in the path.
fn one_in(path: &[u8], resource: Resource) -> Option<Target>
    ensures { result ≡ one_in (segment 2 path.now) resource }
{
    Some(Target::One(resource, id_in(path)?))
}

/// The number of the order with this code, 1 to 17,210,367; none where it is no order's code.
fn order_named(code: &[u8]) -> Option<u64>
    ensures { result ≡ order_named code.now }
{
    match str::from_utf8(code) {
        Ok(text) => Some(u64::from(read_code(text).ok()?)),
        Err(_) => None,
    }
}

/// The number of the order whose code stands behind the first name of a path.
fn order_in(path: &[u8]) -> Option<u64>
    ensures { result ≡ order_in (segment 2 path.now) }
{
    order_named(segment(2, path)?)
}

/// What a path of that route names.
fn target_by(path: &[u8], route: Route) -> Option<Target>
    ensures { result ≡ target_by (segment 2 path.now) route }
{
    match route {
        Route::Items => Some(Target::All(Resource::Items)),
        Route::Item => one_in(path, Resource::Items),
        Route::Variations => Some(Target::Variations(id_in(path)?)),
        Route::Quotas => Some(Target::All(Resource::Quotas)),
        Route::Quota => one_in(path, Resource::Quotas),
        Route::Availability => Some(Target::Availability(id_in(path)?)),
        Route::Vouchers => Some(Target::All(Resource::Vouchers)),
        Route::Voucher => one_in(path, Resource::Vouchers),
        Route::CartPositions => Some(Target::All(Resource::Carts)),
        Route::CartPosition => one_in(path, Resource::Carts),
        Route::BulkCreate => Some(Target::Bulk),
        Route::Orders => Some(Target::All(Resource::Orders)),
        Route::Order => Some(Target::Order(order_in(path))),
        Route::Move(name) => Some(Target::Moved(order_in(path), name)),
        Route::WaitingEntries => Some(Target::All(Resource::WaitingEntries)),
        Route::WaitingEntry => one_in(path, Resource::WaitingEntries),
        Route::SendVoucher => Some(Target::Sending(id_in(path)?)),
        Route::Periodic => Some(Target::Periodic),
        Route::CheckinLists => Some(Target::All(Resource::CheckinLists)),
        Route::CheckinList => one_in(path, Resource::CheckinLists),
        Route::Status => Some(Target::Status(id_in(path)?)),
        Route::Tickets => Some(Target::All(Resource::Tickets(id_in(path)?))),
        Route::Redeem => Some(Target::Redeem(id_in(path)?)),
    }
}

/// What a target names, in the shop of these slugs.
#[tactic(auto, unfolding(crate::specs::Path::target_of))]
pub fn target_of(
    router: &Router<Route>,
    organizer: &str,
    event: &str,
    target: &[u8],
) -> Option<Target>
    requires { router.now ≡ all_routes }
    ensures { result ≡ target_of organizer.now event.now target.now }
{
    let path = within(organizer, event, path_of(target))?;
    let route = route_of(router, path)?;
    target_by(path, route)
}

/// The text in a path's place of a ticket, in the shop of these slugs.
#[tactic(auto, unfolding(crate::specs::Path::ticket_named))]
pub fn ticket_named<'p>(organizer: &str, event: &str, target: &'p [u8]) -> Option<&'p [u8]>
    ensures { option_map bytes_of result ≡ ticket_named organizer.now event.now target.now }
{
    segment(4, within(organizer, event, path_of(target))?)
}
