//! The table `checkin_lists`.

ghost use Rattle.file_rows.specs.Rows.{list_row};
ghost use Rattle.file_rows.specs.Changes.{head_of_list, with_list, without_list};

use crate::bound::run_bound;
use crate::stored::{Statements, Stored};
use file_rows::Column;
use file_schema::RowError;
use model_rows::CheckinList;
use sqlite::{Alter, Transaction};

impl Stored for CheckinList {
    ghost key = { λ r. r.id };

    ghost as_row = { λ w. list_row (head_of_list w) };

    ghost with_row = { with_list };

    ghost without_row = { without_list };

    #[tactic(auto, using(crate::proofs::CheckinListsLemmas::statements_are))]
    fn statements() -> Statements {
        Statements {
            insert: "INSERT INTO checkin_lists (id, name, all_products, include_pending, multiple, after_exit) VALUES (?1, ?2, ?3, ?4, ?5, ?6)",
            update: "UPDATE checkin_lists SET name = ?2, all_products = ?3, include_pending = ?4, multiple = ?5, after_exit = ?6 WHERE id = ?1",
            remove: "DELETE FROM checkin_lists WHERE id = ?1",
        }
    }

    #[tactic(auto, using(crate::proofs::BoundLemmas::runs_with))]
    fn run<S: Alter>(&self, tx: &mut Transaction<'_, S>, sql: &str) -> Result<usize, RowError> {
        let columns = [
            self.id.bind(),
            self.name.bind(),
            self.all_products.bind(),
            self.include_pending.bind(),
            self.allow_multiple_entries.bind(),
            self.allow_entry_after_exit.bind(),
        ];
        run_bound(tx, sql, &columns)
    }
}
