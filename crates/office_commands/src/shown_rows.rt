//! How lists show their rows.

ghost use Rattle.model_commands.specs.declared.replies.Shown.{Shown};
ghost use Rattle.model_rows.specs.Lists.{Lists};
ghost use Rattle.office_other.specs.Machine.{show_item, show_quota, show_voucher, show_cart, show_order, show_waiting, show_checkin_list};
ghost use Rattle.office_commands.specs.Told.{IfOkIs};

use crate::office::Office;
use book_usage::Book;
use model_catalogue::{Item, Quota};
use model_commands::Shown;
use model_rows::{CartPos, CheckinList, Order, Voucher, Waiting};
use std::alloc::{AllocError, Global};

/// A row that a list shows.
pub(crate) trait ShownRow {
    /// How it is shown among the rows of a box office.
    ghost show: { Lists → Self → Shown };

    /// How it is shown in this office.
    fn shown<B: Book>(&self, office: &Office<B>, alloc: Global) -> Result<Shown, AllocError>
        ensures { IfOkIs result (show office.now.state.lists self.now) };
}

impl ShownRow for Item {
    ghost show = { λ lists item. show_item lists item };

    fn shown<B: Book>(&self, office: &Office<B>, alloc: Global) -> Result<Shown, AllocError> {
        office.shown_item(alloc, self)
    }
}

impl ShownRow for Quota {
    ghost show = { λ lists quota. show_quota quota };

    fn shown<B: Book>(&self, _office: &Office<B>, alloc: Global) -> Result<Shown, AllocError> {
        Ok(Shown::Quota(self.copy(alloc)?))
    }
}

impl ShownRow for Voucher {
    ghost show = { λ lists voucher. show_voucher lists voucher };

    fn shown<B: Book>(&self, office: &Office<B>, alloc: Global) -> Result<Shown, AllocError> {
        office.shown_voucher(alloc, self)
    }
}

impl ShownRow for CartPos {
    ghost show = { λ lists cart. show_cart cart };

    fn shown<B: Book>(&self, _office: &Office<B>, alloc: Global) -> Result<Shown, AllocError> {
        Ok(Shown::Cart(self.copy(alloc)?))
    }
}

impl ShownRow for Order {
    ghost show = { λ lists order. show_order lists order };

    fn shown<B: Book>(&self, office: &Office<B>, alloc: Global) -> Result<Shown, AllocError> {
        office.shown_order(alloc, self)
    }
}

impl ShownRow for Waiting {
    ghost show = { λ lists entry. show_waiting entry };

    fn shown<B: Book>(&self, _office: &Office<B>, alloc: Global) -> Result<Shown, AllocError> {
        Ok(Shown::Waiting(self.copy(alloc)?))
    }
}

impl ShownRow for CheckinList {
    ghost show = { λ lists list. show_checkin_list list };

    fn shown<B: Book>(&self, _office: &Office<B>, alloc: Global) -> Result<Shown, AllocError> {
        Ok(Shown::CheckinList(self.copy(alloc)?))
    }
}
