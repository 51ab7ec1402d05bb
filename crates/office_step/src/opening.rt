//! How a command begins, how it ends or is refused, and how a voucher is shown.

ghost use Rattle.std.specs.Prelude.{◌≡◌, ℕ, [], Ok, IfOk};
ghost use Rattle.model_commands.specs.declared.replies.Reply.{Reply};
ghost use Rattle.office_step.specs.Drafts.{now};
ghost use Rattle.model_rows.specs.Lists.{Lists};
ghost use Rattle.model_invariant.specs.Sound.{IsSound};
ghost use Rattle.office_step.specs.IsStep.{AreOfCatalogue, CanBegin, HasCountDeltas, IsClosed};
ghost use Rattle.office_step.specs.ShownRows.{show_voucher};
ghost use Rattle.office_step.specs.Step.{no_change};

use base_values::Moment;
use book_tally::Drafted;
use decide_orders::{Book, Draft};
use model_commands::{Kind, Refusal, Reply, Shown};
use model_rows::{Changes, Voucher};
use std::alloc::{AllocError, Global};

/// A draft of the book at a moment.
pub fn open<B: Book>(book: &B, alloc: Global, at: Moment) -> Result<Draft<'_, B>, AllocError>
    requires { CanBegin at (B.state book.now) }
    ensures draft { IfOk result (λ d. d ≡ record {
      log = record { base = (B.state book.now).lists; changes = [] };
      next = (B.state book.now).next;
      moment = at;
    }) }
    ensures sound { IfOk result (λ d. IsSound (now d)) }
{
    Draft::new(alloc, book, at)
}

/// The changes of a draft of the book, and what they shift of the counts, with what is answered, unless there was no
/// memory for it.
pub fn close<B: Book>(
    book: &B,
    alloc: Global,
    at: Moment,
    draft: Draft<'_, B>,
    reply: Result<Reply, AllocError>,
) -> Result<(Drafted, Reply), AllocError>
    requires base { draft.log.base ≡ (B.state book.now).lists }
    requires moment { draft.moment ≡ at }
    ensures { IfOk result (IsClosed at (B.state book.now).lists draft.entry reply) }
{
    match reply {
        Ok(reply) => Ok((draft.finish(alloc)?, reply)),
        Err(error) => Err(error),
    }
}

/// No change, and a refusal.
pub fn refused<B: Book>(book: &B, alloc: Global, kind: Kind, refusal: Refusal) -> (Drafted, Reply)
    ensures changes { result.0.changes ≡ no_change (B.state book.now) }
    ensures reply { result.1 ≡ Reply.Refused kind refusal }
    ensures deltas { (at : ℕ) → HasCountDeltas at (B.state book.now).lists result.0 }
{
    let changes = Changes::new(Vec::new(alloc), book.next_ids());
    (
        Drafted::plain(alloc, changes),
        Reply::Refused(kind, refusal),
    )
}

/// Changes of what is for sale, which shift no count, with what is answered.
pub fn offered(alloc: Global, changes: Changes, reply: Reply) -> (Drafted, Reply)
    requires { AreOfCatalogue changes.list }
    ensures changes { result.0.changes ≡ changes }
    ensures reply { result.1 ≡ reply }
    ensures deltas { (at : ℕ) (lists : Lists) → HasCountDeltas at lists result.0 }
{
    (Drafted::plain(alloc, changes), reply)
}

/// A voucher as it is shown.
#[tactic(auto, unfolding(crate::specs::ShownRows::show_voucher))]
pub fn show_voucher<B: Book>(book: &B, row: Voucher) -> Shown
    ensures { result ≡ show_voucher (B.state book.now).lists row }
{
    let redeemed = book.redeemed(row.id);
    Shown::Voucher(row, redeemed)
}
