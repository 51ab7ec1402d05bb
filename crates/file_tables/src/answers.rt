//! Kept answers.

ghost use Rattle.std.specs.Prelude.{◌≡◌, List, IfOk};
ghost use Rattle.file_schema.specs.Clean.{WhileClean, LeavesNoMore};
ghost use Rattle.file_schema.specs.Outcomes.{OnOkWhileClean, WasOpen};
ghost use Rattle.model_answers.specs.KeptAnswers.{told_by};
ghost use Rattle.model_answers.specs.declared.kept.Kept.{Kept};
ghost use Rattle.file_reads.specs.Lookups.{is_under};
ghost use Rattle.file_schema.specs.Whole.{IsStill};
ghost use Rattle.file_tables.specs.Held.{AreAllOfShop, KeepsAnswers};

use base_values::{Moment, Response};
use file_reads::find_kept;
use file_rows::KeptRow;
use file_schema::{Lookup, RowError, look_up};
use sqlite::{Alter, Connection, Transaction};
use std::alloc::Global;

// The answers under a key of a token, past ones too.
#[derive(Drop)]
struct Under<'a> {
    token: u64,
    key: &'a [u8],
}

impl Lookup<KeptRow> for Under<'_> {
    ghost finds = { λ what. AreAllOfShop (λ t. t.kept) (is_under what.token what.key.now) };

    fn look<S: Alter>(
        &self,
        alloc: Global,
        tx: &mut Transaction<'_, S>,
    ) -> Result<Vec<KeptRow>, RowError> {
        find_kept(alloc, tx, self.token, self.key)
    }
}

/// What was told under a key of a token that is still kept at a moment. Nothing changes. Refusals: 6, 60, 62, and 63 where a
/// transaction is open, or the token has the key twice.
pub(crate) fn find_answer<S: Alter>(
    alloc: Global,
    connection: &mut Connection<S>,
    token: u64,
    key: &[u8],
    at: Moment,
) -> Result<Option<Response>, RowError>
    ensures found { WhileClean S.Store connection.old connection.new (λ old _. (ks : List Kept)
        → KeepsAnswers old.now ks → IfOk result (λ told. told ≡ told_by token key.now at ks)) }
    ensures open { OnOkWhileClean S.Store connection.old connection.new WasOpen result }
    ensures still { WhileClean S.Store connection.old connection.new IsStill }
    ensures crash { LeavesNoMore S.Store connection.old connection.new }
{
    let mut rows = look_up(alloc, connection, &Under { token, key })?;
    let Some(row) = rows.pop() else {
        return Ok(None);
    };
    if !rows.is_empty() {
        return Err(RowError::Store);
    }
    if !row.kept.is_for(token, key, at) {
        return Ok(None);
    }
    Ok(Some(row.kept.response))
}
