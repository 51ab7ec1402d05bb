//! Rows are looked up by other columns than their number.

ghost use Rattle.std.specs.Prelude.{◌≡◌, ◌==◌, OnOk};
ghost use Rattle.sqlite.specs.State.{KeepsCommit};
ghost use Rattle.file_schema.specs.Clean.{WhileClean, LeavesNoMore};
ghost use Rattle.file_rows.specs.Changes.{Changes};
ghost use Rattle.file_rows.specs.Fit.{IsFitKept, IsFitToken};
ghost use Rattle.file_rows.specs.Rows.{kept_row, token_row};
ghost use Rattle.file_rows.specs.Written.{WhileInside};
ghost use Rattle.file_reads.specs.Lookups.{is_under, has_digest, FindsAll, TellsDamage, FindsRows};
ghost use Rattle.file_reads.specs.Select.{IsSelectByOwner};

use crate::loaded::{Loaded, rows_of};
use file_rows::{Column, KeptRow, Member, QuotaItem, QuotaVariation, Token};
use file_schema::RowError;
use sqlite::{Alter, Transaction};
use sqlite_value::value::ValueRef;
use std::alloc::Global;

/// The answers that are kept under a key of a token, past ones too. Nothing changes. Refusals: 6, 60, 62, 63.
pub fn find_kept<S: Alter>(
    alloc: Global,
    tx: &mut Transaction<'_, S>,
    token: u64,
    key: &[u8],
) -> Result<Vec<KeptRow>, RowError>
    ensures { FindsRows S.Store tx.old tx.new
        (λ t. t.kept) (is_under token key.now) kept_row IsFitKept 24 result }
{
    let id = token.bind()?;
    rows_of(
        alloc,
        tx,
        "SELECT rowid, token_id, request_key, first_moment, status, allow, body FROM kept WHERE token_id = ?1 AND request_key = ?2",
        &[id, ValueRef::Blob(key)],
    )
}

/// The token of a digest, if there is one. Nothing changes. Refusals: 6, 60, 62, 63.
pub fn find_token<S: Alter>(
    alloc: Global,
    tx: &mut Transaction<'_, S>,
    digest: &[u8; 32],
) -> Result<Vec<Token>, RowError>
    ensures { FindsRows S.Store tx.old tx.new
        (λ t. t.tokens) (has_digest digest.now) token_row IsFitToken 22 result }
{
    rows_of(
        alloc,
        tx,
        "SELECT id, digest FROM tokens WHERE digest = ?1",
        &[ValueRef::Blob(digest)],
    )
}

/// Members that are looked up by their owner.
pub trait FindByOwner: Loaded + Member {
    /// The SELECT of all columns of an owner's members.
    fn select_by_owner() -> &'static str
        ensures { IsSelectByOwner result.now Self.tree Self.as_row Self.owner_of Self.rows };
}

impl FindByOwner for QuotaItem {
    #[tactic(auto, using(crate::proofs::QuotaItemsLemmas::by_owner_is))]
    fn select_by_owner() -> &'static str {
        "SELECT rowid, quota_id, item_id FROM quota_items WHERE quota_id = ?1"
    }
}

impl FindByOwner for QuotaVariation {
    #[tactic(auto, using(crate::proofs::QuotaVariationsLemmas::by_owner_is))]
    fn select_by_owner() -> &'static str {
        "SELECT rowid, quota_id, variation_id FROM quota_variations WHERE quota_id = ?1"
    }
}

/// The rows of an owner's members, in some order. Nothing changes. Refusals: 6, 60, 62, 63.
pub fn members_of<S: Alter, T: FindByOwner>(
    alloc: Global,
    tx: &mut Transaction<'_, S>,
    owner: u64,
) -> Result<Vec<T>, RowError>
    ensures same { tx.new.conn.ghost_name ≡ tx.old.conn.ghost_name }
    ensures found { FindsAll S.Store tx.old tx.new T.rows (λ r. T.owner_of r == owner) result }
    ensures refused { TellsDamage S.Store tx.old tx.new T.as_row T.fits T.tree result }
    ensures still { WhileInside S.Store tx.old tx.new (λ old new.
        OnOk result (Changes (λ t. t) old new)) }
    ensures kept { WhileClean S.Store tx.old.conn.now tx.new.conn.now KeepsCommit }
    ensures crash { LeavesNoMore S.Store tx.old.conn.now tx.new.conn.now }
{
    let id = owner.bind()?;
    rows_of(alloc, tx, T::select_by_owner(), &[id])
}
