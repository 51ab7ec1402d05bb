//! The table `kept`.

ghost use Rattle.file_rows.specs.Changes.{Changes, ChangesFit, with_kept};
ghost use Rattle.file_rows.specs.Written.{WritesInside};
ghost use Rattle.file_writes.specs.Removed.{AreApart, without_past};

use base_values::Moment;
use file_rows::Column;
use file_rows::methods::bind_methods;
use file_schema::{RowError, run};
use model_answers::{A_DAY, Kept};
use sqlite::{Alter, Transaction};

/// Keeps an answer, in a row whose number has to be new.
pub fn keep<S: Alter>(tx: &mut Transaction<'_, S>, number: u64, kept: &Kept) -> Result<(), RowError>
    ensures { WritesInside S.Store tx.old tx.new
        (Changes (with_kept (record { rowid = number; kept = kept.now }))) result }
{
    let rowid = number.bind()?;
    let token_id = kept.token.bind()?;
    let request_key = kept.key.bind()?;
    let first_moment = kept.at.bind()?;
    let status = kept.response.status.bind()?;
    let allow = bind_methods(&kept.response.allow);
    let body = kept.response.body.bind()?;
    run(
        tx,
        "INSERT INTO kept (rowid, token_id, request_key, first_moment, status, allow, body) VALUES (?1, ?2, ?3, ?4, ?5, ?6, ?7)",
        &[
            rowid,
            token_id,
            request_key,
            first_moment,
            status,
            allow,
            body,
        ],
    )?;
    Ok(())
}

/// Removes the answers that are past at a moment, 86,400 seconds or more after their own.
pub fn forget<S: Alter>(tx: &mut Transaction<'_, S>, at: Moment) -> Result<(), RowError>
    ensures { WritesInside S.Store tx.old tx.new
        (ChangesFit (λ t. AreApart (λ r. r.rowid) t.kept) (without_past at)) result }
{
    let now = at.get();
    if now < A_DAY {
        return Ok(());
    }
    let last = now - A_DAY;
    let since = last.bind()?;
    run(tx, "DELETE FROM kept WHERE first_moment <= ?1", &[since])?;
    Ok(())
}
