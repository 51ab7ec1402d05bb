//! Numbers by which check-ins with nonces are told apart.

ghost use Rattle.std.specs.Prelude.{◌≡◌, ◌==◌, IfOk, true, length};
ghost use Rattle.std.specs.List.{filter_map};
ghost use Rattle.base_tables.specs.Rising.{rising};
ghost use Rattle.model_invariant.specs.Checkins.{AreOnce};
ghost use Rattle.file_check.specs.Keys.{nonce_key};

use base_tables::Ids;
use book_indexes::digest;
use model_rows::Checkin;
use std::alloc::{AllocError, Global};

// The digest of a check-in's list, position and nonce, where it has one.
fn nonce_key(alloc: Global, row: &Checkin) -> Result<Option<u64>, AllocError>
    ensures { IfOk result (λ key. key ≡ nonce_key row.now) }
{
    let Some(nonce) = &row.nonce else {
        return Ok(None);
    };
    let list = row.list;
    let position = row.position;
    let chars = nonce.as_str();
    let text = format!(in alloc; "{list}z{position}z{chars}")?;
    Ok(Some(digest(text.as_str())))
}

// The digests of all check-ins with a nonce.
fn nonce_keys(alloc: Global, rows: &[Checkin]) -> Result<Vec<u64>, AllocError>
    ensures { IfOk result (λ keys. keys.items ≡ filter_map nonce_key rows.now) }
{
    let mut keys = Vec::new(alloc);
    for row in rows {
        if let Some(key) = nonce_key(alloc, row)? {
            keys.push(key)?;
        }
    }
    Ok(keys)
}

// Whether none of them is there twice.
fn are_apart(keys: Vec<u64>) -> bool
    ensures { result ≡ (length (rising keys.items) == length keys.items) }
{
    let count = keys.len();
    let ids = Ids::sorted(keys);
    ids.as_slice().len() == count
}

/// Whether no two check-ins have one digest: then no two have one list, position and nonce.
pub(crate) fn have_own_keys(alloc: Global, rows: &[Checkin]) -> Result<bool, AllocError>
    ensures { IfOk result (λ own. own ≡ true → AreOnce rows.now) }
{
    let keys = nonce_keys(alloc, rows)?;
    let own = are_apart(keys);
    Ok(own)
}
