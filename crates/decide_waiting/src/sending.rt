//! Sending a voucher to an entry of the waiting list.

ghost use Rattle.std.specs.Prelude.{◌≡◌, ◌≢◌, ◌<◌, Ok, Some, None, IfOk, IfErr};
ghost use Rattle.model_commands.specs.declared.waiting.WaitingRefusal.TheVariants.{Memory};
ghost use Rattle.draft_changes.specs.Decides.{Logs, RefusesBy, DecidesBy};
ghost use Rattle.draft_changes.specs.DraftState.{now, Extends};
ghost use Rattle.model_rows.specs.Lists.{waiting_at};
ghost use Rattle.model_invariant.specs.Sound.{IsSound};
ghost use Rattle.decide_waiting.specs.Places.{first_closed};
ghost use Rattle.decide_waiting.specs.Sending.{sent_voucher, with_its_voucher, with_sent, sent_changes, sent_to, voucher_sent};
ghost use Rattle.decide_waiting.specs.Steps.{CanSend};

use crate::places::first_closed;
use crate::rows::with_voucher;
use base_values::{Draw, PriceMode, Text, Uses};
use book_usage::{Book, LookUps};
use draft_changes::Draft;
use model_catalogue::{CatalogueRefusal, Product};
use model_commands::WaitingRefusal;
use model_invariant::made_codes::made_code;
use model_rows::{Voucher, Waiting};
use std::alloc::{AllocError, Global};

// How long a voucher that is sent can be used: two days.
const SENT_FOR: u64 = 172_800;

/// Sends a voucher to the waiting entry of an id, in a draft that has changed none of the waiting list, and answers a
/// copy of the entry with it. A refusal leaves the draft as it was.
/// Refusals, in this order: 32 `NoEntry`; 31 `AlreadySent`; 15 `Inactive`; 18 `NotSold`; 28 `SoldOut` with the least
/// quota of the product that has no place left but for those who wait; 16 `Full`. 6 `Memory` may come anywhere.
#[tactic(auto, unfolding(crate::specs::Sending::voucher_sent))]
pub fn send<B: Book>(
    draft: &mut Draft<'_, B>,
    alloc: Global,
    draw: Draw,
    id: u64,
) -> Result<Waiting, WaitingRefusal>
    requires sound { IsSound (now draft.old) }
    requires waiting { (now draft.old).lists.waiting ≡ draft.old.log.base.waiting }
    ensures { DecidesBy Memory (voucher_sent id draw) (sent_changes draw (now draft.old))
        draft.old draft.new result }
{
    let entry = match draft.rows().entry(id) {
        None => return Err(WaitingRefusal::NoEntry),
        Some(entry) => entry.copy(alloc)?,
    };
    let closed = first_closed(draft, entry.product);
    let mark = draft.mark();
    let sent = send_to(draft, alloc, draw, entry, closed);
    draft.end_attempt(mark, sent)
}

/// Sends a voucher to an entry that stands, where `closed` is the least quota of its product without a place.
/// It is for a caller that can go back itself: without memory the voucher may be put, and the entry not.
/// No other refusal changes the draft.
#[tactic(auto, unfolding(crate::specs::Sending::sent_to))]
pub(crate) fn send_to<B: Book>(
    draft: &mut Draft<'_, B>,
    alloc: Global,
    draw: Draw,
    entry: Waiting,
    closed: Option<u64>,
) -> Result<Waiting, WaitingRefusal>
    requires can { CanSend (now draft.old) }
    requires closed { closed ≡ first_closed (now draft.old) entry.product }
    ensures done { IfOk result (λ r. sent_to draw entry (now draft.old) ≡ Ok (now draft.new, r)) }
    ensures refused { RefusesBy Memory (sent_to draw entry (now draft.old)) result }
    ensures extends { Extends draft.old draft.new }
    ensures same { IfErr result (λ e. e ≢ WaitingRefusal.Memory → draft.new ≡ draft.old) }
    ensures changes { IfOk result (λ row.
        Logs (sent_changes draw (now draft.old) row) draft.old draft.new) }
{
    if entry.voucher.is_some() {
        return Err(WaitingRefusal::AlreadySent);
    }
    if !draft.rows().catalogue().is_active(entry.product) {
        return Err(WaitingRefusal::Catalogue(CatalogueRefusal::Inactive));
    }
    if !draft.rows().catalogue().is_sold(entry.product) {
        return Err(WaitingRefusal::Catalogue(CatalogueRefusal::NotSold));
    }
    if let Some(quota) = closed {
        return Err(WaitingRefusal::SoldOut(quota));
    }
    if !draft.takes_voucher() {
        return Err(WaitingRefusal::Catalogue(CatalogueRefusal::Full));
    }
    Ok(put_sent(draft, alloc, draw, entry)?)
}

// Puts the voucher, and the entry with it.
fn put_sent<B: Book>(
    draft: &mut Draft<'_, B>,
    alloc: Global,
    draw: Draw,
    entry: Waiting,
) -> Result<Waiting, AllocError>
    requires can { CanSend (now draft.old) }
    requires room { (now draft.old).next.voucher < 9007199254740992 }
    ensures after { IfOk result (λ row. now draft.new ≡ with_sent draw entry (now draft.old)) }
    ensures row { IfOk result (λ row. row ≡ with_its_voucher (now draft.old) entry) }
    ensures extends { Extends draft.old draft.new }
    ensures changes { IfOk result (λ row.
        Logs (sent_changes draw (now draft.old) row) draft.old draft.new) }
{
    let voucher = new_voucher(draft, alloc, draw, entry.product)?;
    let row = with_voucher(entry, voucher.id);
    let sent = row.copy(alloc)?;
    draft.put_voucher(alloc, voucher)?;
    draft.use_voucher_id();
    draft.put_waiting(alloc, row)?;
    Ok(sent)
}

// The voucher that is sent for a product.
#[tactic(auto, using(crate::proofs::SentTexts::no_text))]
fn new_voucher<B: Book>(
    draft: &Draft<'_, B>,
    alloc: Global,
    draw: Draw,
    product: Product,
) -> Result<Voucher, AllocError>
    ensures { IfOk result (λ row. row ≡ sent_voucher draw (now draft.now) product) }
{
    let id = draft.next_voucher();
    Ok(Voucher {
        id,
        code: made_code(alloc, draw, id)?,
        max_usages: Uses::new(1),
        valid_until: Some(draft.moment().later(SENT_FOR)),
        block_quota: true,
        allow_ignore_quota: false,
        price_mode: PriceMode::None,
        value: None,
        item: Some(product.item),
        variation: product.variation,
        quota: None,
        tag: Text::copy_of(alloc, "waiting-list")?,
        comment: Text::copy_of(alloc, "")?,
        budget: None,
    })
}
