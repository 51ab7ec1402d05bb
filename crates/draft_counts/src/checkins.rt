//! What a new check-in brings to the quotas whose places go free when a ticket goes out, and what it takes from them.

ghost use Rattle.std.specs.Prelude.{◌≡◌, OnOk, OnErr, None};
ghost use Rattle.model_rows.specs.declared.changes.Change.TheVariants.{PutCheckin};
ghost use Rattle.model_rows.specs.Change.{after_change};
ghost use Rattle.model_rows.specs.Lists.{checkin_at};
ghost use Rattle.model_rows.specs.Passages.{is_out};
ghost use Rattle.draft_overlay.specs.Logs.{rows_of};
ghost use Rattle.book_tally.specs.Amounts.{nothing};
ghost use Rattle.draft_counts.specs.Counts.{IsMore};
ghost use Rattle.draft_counts.specs.CountDelta.{once, is_free_in, checkin_come, checkin_gone};

use crate::count_base::CountBase;
use crate::share::{Share, Shares, count_each};
use crate::touched::touch_product;
use book_tally::{Amount, Tally};
use book_usage::rules::is_paid;
use book_usage::{Book, Catalogue, Exits, LookUps};
use draft_overlay::Overlay;
use model_catalogue::{Product, Quota};
use model_rows::passages::{is_exit_if, later};
use model_rows::{Checkin, Passage, Usage};
use std::alloc::{AllocError, Global};

// A paid place whose ticket is scanned: whether it has gone out then, and whether it had before.
#[derive(Drop)]
struct CheckinTurn {
    product: Product,
    come: bool,
    gone: bool,
}

impl Share for CheckinTurn {
    ghost come = { λ t q. record nothing { exited = once (is_free_in q t.product t.come) } };

    ghost gone = { λ t q. record nothing { exited = once (is_free_in q t.product t.gone) } };

    fn shares(&self, quota: &Quota) -> Shares {
        Shares {
            come: exited(is_free_in(quota, self.product, self.come)),
            gone: exited(is_free_in(quota, self.product, self.gone)),
        }
    }

    fn touch(
        &self,
        alloc: Global,
        catalogue: &Catalogue,
        ids: &mut Vec<u64>,
    ) -> Result<(), AllocError> {
        touch_product(alloc, catalogue, self.product, ids)
    }
}

/// Whether a place of the product is in the quota and set free there, where its ticket has gone out.
pub fn is_free_in(quota: &Quota, product: Product, out: bool) -> bool
    ensures { result ≡ is_free_in quota.now product out }
{
    quota.has(product) && (quota.release_after_exit && out)
}

// A usage with a ticket that is released, or none.
fn exited(is: bool) -> Usage
    ensures { result ≡ record nothing { exited = once is } }
{
    Usage {
        exited: u64::from(is),
        ..Usage::none()
    }
}

/// Counts a new check-in, where its position is of a paid order and goes out with it or comes back.
pub fn with_checkin<B: Book>(
    count_base: &CountBase<'_, '_, B>,
    counts: &mut Tally<Usage>,
    row: &Checkin,
) -> Result<(), AllocError>
    requires new { checkin_at row.now.id (rows_of count_base.now.overlay.now) ≡ None }
    ensures more { OnOk result (IsMore
        (checkin_come (rows_of count_base.now.overlay.now) row.now)
        (checkin_gone (rows_of count_base.now.overlay.now) row.now)
        count_base.now.catalogue.now.lists.quotas counts.old counts.new) }
    ensures err { OnErr result (counts.new ≡ counts.old) }
{
    let Some(position) = count_base.overlay.position(row.position) else {
        return Ok(());
    };
    if !is_paid(count_base.overlay.order(position.order)) {
        return Ok(());
    }
    let come = is_out_after(count_base.overlay, row);
    let gone = count_base.overlay.is_out(row.position);
    if !come && !gone {
        return Ok(());
    }
    count_each(
        counts,
        count_base.alloc,
        count_base.catalogue,
        &CheckinTurn {
            product: position.product,
            come,
            gone,
        },
    )
}

// Whether the position of a new check-in has gone out with it.
fn is_out_after<B: Book>(overlay: &Overlay<'_, B>, row: &Checkin) -> bool
    requires { checkin_at row.now.id (rows_of overlay.now) ≡ None }
    ensures { result ≡ is_out row.now.position
        (after_change (PutCheckin row.now) (rows_of overlay.now)).checkins }
{
    let last = overlay.last_at(row.position);
    is_exit_if(Some(later(last, Passage::of(row))))
}
