//! Queries of one row, and how each row is shown.

ghost use Rattle.std.specs.Prelude.{◌≡◌, ◌≤◌};
ghost use Rattle.model_commands.specs.declared.requests.Query.{Query};
ghost use Rattle.office_other.specs.Machine.{answer, one_of, show_item, show_voucher, show_order};
ghost use Rattle.office_commands.specs.Told.{IfOkIs};

use crate::office::Office;
use base_values::Moment;
use book_usage::{Book, availability};
use model_catalogue::{CatalogueRefusal, Item};
use model_commands::{
    Kind, OrderRefusal, Refusal, Reply, Resource, Shown, VoucherRefusal, WaitingRefusal,
};
use model_invariant::numbers::by_positionid;
use model_rows::{Order, OrderRows, Voucher};
use office_other::show_voucher;
use std::alloc::{AllocError, Global};

impl<B: Book> Office<B> {
    // An item with its variations.
    pub(crate) fn shown_item(&self, alloc: Global, item: &Item) -> Result<Shown, AllocError>
        ensures { IfOkIs result (show_item self.now.state.lists item.now) }
    {
        Ok(Shown::Item(self.book().catalogue().with_variations(alloc, item)?))
    }

    // A copy of a voucher as it is shown.
    pub(crate) fn shown_voucher(
        &self,
        alloc: Global,
        voucher: &Voucher,
    ) -> Result<Shown, AllocError>
        ensures { IfOkIs result (show_voucher self.now.state.lists voucher.now) }
    {
        Ok(show_voucher(self.book(), voucher.copy(alloc)?))
    }

    // An order with its positions, by their numbers.
    pub(crate) fn shown_order(&self, alloc: Global, order: &Order) -> Result<Shown, AllocError>
        ensures { IfOkIs result (show_order self.now.state.lists order.now) }
    {
        Ok(Shown::Order(OrderRows {
            order: order.copy(alloc)?,
            positions: by_positionid(alloc, self.book().positions_of(alloc, order.id)?)?,
        }))
    }

    // Answers with a single row.
    pub(crate) fn one(
        &self,
        alloc: Global,
        resource: Resource,
        id: u64,
    ) -> Result<Reply, AllocError>
        ensures { IfOkIs result (one_of resource id self.now.state.lists) }
    {
        match resource {
            Resource::Items => self.one_item(alloc, id),
            Resource::Quotas => self.one_quota(alloc, id),
            Resource::Vouchers => self.one_voucher(alloc, id),
            Resource::Carts => self.one_cart(alloc, id),
            Resource::Orders => self.one_order(alloc, id),
            Resource::WaitingEntries => self.one_waiting(alloc, id),
            Resource::CheckinLists => self.one_checkin_list(alloc, id),
            Resource::Tickets(list) => self.one_ticket(alloc, list, id),
        }
    }

    fn one_item(&self, alloc: Global, id: u64) -> Result<Reply, AllocError>
        ensures { IfOkIs result (one_of Resource.Items id self.now.state.lists) }
    {
        match self.book().catalogue().item(id) {
            None => Ok(none(Refusal::Catalogue(CatalogueRefusal::NoItem))),
            Some(item) => Ok(Reply::Found(self.shown_item(alloc, item)?)),
        }
    }

    fn one_quota(&self, alloc: Global, id: u64) -> Result<Reply, AllocError>
        ensures { IfOkIs result (one_of Resource.Quotas id self.now.state.lists) }
    {
        match self.book().catalogue().quota(id) {
            None => Ok(none(Refusal::Catalogue(CatalogueRefusal::NoQuota))),
            Some(quota) => Ok(Reply::Found(Shown::Quota(quota.copy(alloc)?))),
        }
    }

    fn one_voucher(&self, alloc: Global, id: u64) -> Result<Reply, AllocError>
        ensures { IfOkIs result (one_of Resource.Vouchers id self.now.state.lists) }
    {
        match self.book().voucher(id) {
            None => Ok(none(Refusal::Voucher(VoucherRefusal::NoVoucher))),
            Some(voucher) => Ok(Reply::Found(self.shown_voucher(alloc, voucher)?)),
        }
    }

    fn one_cart(&self, alloc: Global, id: u64) -> Result<Reply, AllocError>
        ensures { IfOkIs result (one_of Resource.Carts id self.now.state.lists) }
    {
        match self.book().cart(id) {
            None => Ok(none(Refusal::Order(OrderRefusal::NoPosition))),
            Some(cart) => Ok(Reply::Found(Shown::Cart(cart.copy(alloc)?))),
        }
    }

    fn one_order(&self, alloc: Global, number: u64) -> Result<Reply, AllocError>
        ensures { IfOkIs result (one_of Resource.Orders number self.now.state.lists) }
    {
        match self.book().order(number) {
            None => Ok(none(Refusal::Order(OrderRefusal::NoOrder))),
            Some(order) => Ok(Reply::Found(self.shown_order(alloc, order)?)),
        }
    }

    fn one_waiting(&self, alloc: Global, id: u64) -> Result<Reply, AllocError>
        ensures { IfOkIs result (one_of Resource.WaitingEntries id self.now.state.lists) }
    {
        match self.book().entry(id) {
            None => Ok(none(Refusal::Waiting(WaitingRefusal::NoEntry))),
            Some(entry) => Ok(Reply::Found(Shown::Waiting(entry.copy(alloc)?))),
        }
    }

    // What is left of a quota.
    pub(crate) fn availability(&self, at: Moment, id: u64) -> Reply
        requires { self.now.state.moment ≤ at }
        ensures { result ≡ answer (Query.Availability id) at self.now.state }
    {
        match self.book().catalogue().quota(id) {
            None => Reply::Refused(
                Kind::Availability,
                Refusal::Catalogue(CatalogueRefusal::NoQuota),
            ),
            Some(quota) => Reply::Availability(availability(self.book(), quota, at)),
        }
    }
}

// There is no such row.
fn none(refusal: Refusal) -> Reply
    ensures { result ≡ Reply.Refused Kind.One refusal }
{
    Reply::Refused(Kind::One, refusal)
}
