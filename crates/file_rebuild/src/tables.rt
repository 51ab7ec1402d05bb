//! Each table of a book.

ghost use Rattle.model_rows.specs.declared.changes.Change.TheVariants.{PutItem, PutVariation, PutQuota, PutVoucher, PutCart, PutOrder, PutPosition, PutWaiting, PutCheckinList, PutCheckin};

use crate::put::Put;
use model_catalogue::{Item, Quota, Variation};
use model_rows::{CartPos, Change, Checkin, CheckinList, Order, OrderPos, Voucher, Waiting};

impl Put for Item {
    ghost change = { PutItem };

    fn into_change(self) -> Change {
        Change::PutItem(self)
    }
}

impl Put for Variation {
    ghost change = { PutVariation };

    fn into_change(self) -> Change {
        Change::PutVariation(self)
    }
}

impl Put for Quota {
    ghost change = { PutQuota };

    fn into_change(self) -> Change {
        Change::PutQuota(self)
    }
}

impl Put for Voucher {
    ghost change = { PutVoucher };

    fn into_change(self) -> Change {
        Change::PutVoucher(self)
    }
}

impl Put for CartPos {
    ghost change = { PutCart };

    fn into_change(self) -> Change {
        Change::PutCart(self)
    }
}

impl Put for Order {
    ghost change = { PutOrder };

    fn into_change(self) -> Change {
        Change::PutOrder(self)
    }
}

impl Put for OrderPos {
    ghost change = { PutPosition };

    fn into_change(self) -> Change {
        Change::PutPosition(self)
    }
}

impl Put for Waiting {
    ghost change = { PutWaiting };

    fn into_change(self) -> Change {
        Change::PutWaiting(self)
    }
}

impl Put for CheckinList {
    ghost change = { PutCheckinList };

    fn into_change(self) -> Change {
        Change::PutCheckinList(self)
    }
}

impl Put for Checkin {
    ghost change = { PutCheckin };

    fn into_change(self) -> Change {
        Change::PutCheckin(self)
    }
}
