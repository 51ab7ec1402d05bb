//! The table `voucher_budget`.

ghost use Rattle.file_rows.specs.Rows.{budget_row};
ghost use Rattle.file_rows.specs.Fit.{IsFitBudget};
ghost use Rattle.file_reads.specs.Texts.{budgets_text};

use crate::columns::Columns;
use crate::loaded::Loaded;
use file_rows::BudgetRow;
use file_schema::RowError;
use sqlite::Row;
use std::alloc::Global;

impl Loaded for BudgetRow {
    ghost as_row = { budget_row };

    ghost fits = { IsFitBudget };

    ghost text = { budgets_text };

    ghost tree = { 29 };

    ghost since = { 3 };

    #[tactic(auto, using(crate::proofs::BudgetsLemmas::select_since, crate::proofs::BudgetsLemmas::reads_only, crate::proofs::BudgetsLemmas::alone_since))]
    fn statement() -> &'static str {
        "SELECT voucher_id, budget FROM voucher_budget ORDER BY voucher_id"
    }

    fn read(alloc: Global, row: &Row) -> Result<BudgetRow, RowError> {
        match Columns::read_from(alloc, row, 0) {
            Ok((voucher_id, (budget, ()))) => Ok(BudgetRow { voucher_id, budget }),
            Err(error) => Err(error),
        }
    }
}
