//! The routes of the shop.

ghost use Rattle.std.specs.Prelude.{◌≡◌, IfOk, OnOk};
ghost use Rattle.web_api.specs.Routes.{with_route, catalogue_routes, sale_routes, order_routes, waiting_routes, door_routes, all_routes, route_of, route_found};
ghost use Rattle.matchit.specs.Seek.{first};

use matchit::{InsertError, Router};
use std::alloc::Global;
use web_bodies::MoveName;

/// A path of the table, whatever ids and codes stand in it.
#[derive(Clone, Copy, Drop, PartialEq, Eq)]
pub enum Route {
    Items,
    Item,
    Variations,
    Quotas,
    Quota,
    Availability,
    Vouchers,
    Voucher,
    CartPositions,
    CartPosition,
    BulkCreate,
    Orders,
    Order,
    Move(MoveName),
    WaitingEntries,
    WaitingEntry,
    SendVoucher,
    Periodic,
    CheckinLists,
    CheckinList,
    Status,
    Tickets,
    Redeem,
}

/// Adds a route.
fn add(router: &mut Router<Route>, text: &str, route: Route) -> Result<(), InsertError>
    ensures { OnOk result (router.new ≡ with_route text.now route router.old) }
{
    router.insert(text, route)
}

/// The routes of items and quotas.
#[tactic(auto, unfolding(crate::specs::Routes::catalogue_routes))]
fn add_catalogue(router: &mut Router<Route>) -> Result<(), InsertError>
    ensures { OnOk result (router.new ≡ catalogue_routes router.old) }
{
    add(router, "/items/", Route::Items)?;
    add(router, "/items/{id}/", Route::Item)?;
    add(router, "/items/{id}/variations/", Route::Variations)?;
    add(router, "/quotas/", Route::Quotas)?;
    add(router, "/quotas/{id}/", Route::Quota)?;
    add(router, "/quotas/{id}/availability/", Route::Availability)?;
    Ok(())
}

/// The routes of vouchers and cart positions.
#[tactic(auto, unfolding(crate::specs::Routes::sale_routes))]
fn add_sale(router: &mut Router<Route>) -> Result<(), InsertError>
    ensures { OnOk result (router.new ≡ sale_routes router.old) }
{
    add(router, "/vouchers/", Route::Vouchers)?;
    add(router, "/vouchers/{id}/", Route::Voucher)?;
    add(router, "/cartpositions/", Route::CartPositions)?;
    add(router, "/cartpositions/{id}/", Route::CartPosition)?;
    add(router, "/cartpositions/bulk_create/", Route::BulkCreate)?;
    Ok(())
}

/// The route of a move, whose path ends with that name.
fn add_move(router: &mut Router<Route>, text: &str, name: MoveName) -> Result<(), InsertError>
    ensures { OnOk result (router.new ≡ with_route text.now (Route.Move name) router.old) }
{
    add(router, text, Route::Move(name))
}

/// The routes of orders.
#[tactic(auto, unfolding(crate::specs::Routes::order_routes))]
fn add_orders(router: &mut Router<Route>) -> Result<(), InsertError>
    ensures { OnOk result (router.new ≡ order_routes router.old) }
{
    add(router, "/orders/", Route::Orders)?;
    add(router, "/orders/{code}/", Route::Order)?;
    add_move(router, "/orders/{code}/mark_paid/", MoveName::MarkPaid)?;
    add_move(
        router,
        "/orders/{code}/mark_pending/",
        MoveName::MarkPending,
    )?;
    add_move(
        router,
        "/orders/{code}/mark_expired/",
        MoveName::MarkExpired,
    )?;
    add_move(
        router,
        "/orders/{code}/mark_canceled/",
        MoveName::MarkCanceled,
    )?;
    add_move(router, "/orders/{code}/extend/", MoveName::Extend)?;
    Ok(())
}

/// The routes of the waiting list and of periodic work.
#[tactic(auto, unfolding(crate::specs::Routes::waiting_routes))]
fn add_waiting(router: &mut Router<Route>) -> Result<(), InsertError>
    ensures { OnOk result (router.new ≡ waiting_routes router.old) }
{
    add(router, "/waitinglistentries/", Route::WaitingEntries)?;
    add(router, "/waitinglistentries/{id}/", Route::WaitingEntry)?;
    add(
        router,
        "/waitinglistentries/{id}/send_voucher/",
        Route::SendVoucher,
    )?;
    add(router, "/periodic/", Route::Periodic)?;
    Ok(())
}

/// The routes of the doors.
#[tactic(auto, unfolding(crate::specs::Routes::door_routes))]
fn add_doors(router: &mut Router<Route>) -> Result<(), InsertError>
    ensures { OnOk result (router.new ≡ door_routes router.old) }
{
    add(router, "/checkinlists/", Route::CheckinLists)?;
    add(router, "/checkinlists/{id}/", Route::CheckinList)?;
    add(router, "/checkinlists/{id}/status/", Route::Status)?;
    add(router, "/checkinlists/{id}/positions/", Route::Tickets)?;
    add(
        router,
        "/checkinlists/{id}/positions/{pos}/redeem/",
        Route::Redeem,
    )?;
    Ok(())
}

/// The router of all routes. It fails where there is no memory.
#[tactic(auto, unfolding(crate::specs::Routes::all_routes))]
pub fn routes(alloc: Global) -> Result<Router<Route>, InsertError>
    ensures { IfOk result (λ r. r ≡ all_routes) }
{
    let mut router = Router::new(alloc);
    add_catalogue(&mut router)?;
    add_sale(&mut router)?;
    add_orders(&mut router)?;
    add_waiting(&mut router)?;
    add_doors(&mut router)?;
    Ok(router)
}

/// The route that a text matches.
fn route_found(router: &Router<Route>, path: &str) -> Option<Route>
    ensures { result ≡ route_found (first router.now path.now) }
{
    match router.at(path) {
        Ok(found) => Some(*found.value),
        Err(_) => None,
    }
}

/// The route of a path behind the slugs.
pub fn route_of(router: &Router<Route>, path: &[u8]) -> Option<Route>
    requires { router.now ≡ all_routes }
    ensures { result ≡ route_of path.now }
{
    match str::from_utf8(path) {
        Ok(text) => route_found(router, text),
        Err(_) => None,
    }
}
