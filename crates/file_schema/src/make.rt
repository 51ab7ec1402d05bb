//! The tables of a shop are made.

ghost use Rattle.std.specs.Prelude.{◌≡◌, map};
ghost use Rattle.file_schema.specs.Inside.{StaysInside};
ghost use Rattle.file_schema.specs.Tables.{schema};
ghost use Rattle.file_schema.specs.Grown.{GrowsInside};
ghost use Rattle.file_schema.specs.Versions.{schema_after, schema_of_version, statement_texts, statements_of};

use crate::{RowError, run};
use sqlite::{Alter, Transaction};

/// The version of a shop's tables that this program reads and writes.
pub const VERSION: u64 = 3;

// What makes the tables of a shop, each behind those to which it refers.
const STATEMENTS: [&str; 23] = [
    // The shop itself: one row.
    "CREATE TABLE shop (id INTEGER PRIMARY KEY CHECK (id = 1), version INTEGER NOT NULL, organizer TEXT NOT NULL, event TEXT NOT NULL, moment INTEGER NOT NULL, next_item INTEGER NOT NULL, next_variation INTEGER NOT NULL, next_quota INTEGER NOT NULL, next_voucher INTEGER NOT NULL, next_cart INTEGER NOT NULL, next_order INTEGER NOT NULL, next_position INTEGER NOT NULL, next_waiting INTEGER NOT NULL, next_list INTEGER NOT NULL, next_checkin INTEGER NOT NULL, next_token INTEGER NOT NULL) STRICT",
    // What is sold.
    "CREATE TABLE items (id INTEGER PRIMARY KEY, name TEXT NOT NULL, default_price INTEGER NOT NULL, active INTEGER NOT NULL CHECK (active IN (0, 1)), varied INTEGER NOT NULL CHECK (varied IN (0, 1))) STRICT",
    // Kinds of items.
    "CREATE TABLE variations (id INTEGER PRIMARY KEY, item_id INTEGER NOT NULL REFERENCES items ON DELETE RESTRICT, name TEXT NOT NULL, default_price INTEGER, active INTEGER NOT NULL CHECK (active IN (0, 1))) STRICT",
    // Quotas, without their members.
    "CREATE TABLE quotas (id INTEGER PRIMARY KEY, name TEXT NOT NULL, size INTEGER) STRICT",
    // The items of quotas.
    "CREATE TABLE quota_items (quota_id INTEGER NOT NULL REFERENCES quotas ON DELETE RESTRICT, item_id INTEGER NOT NULL REFERENCES items ON DELETE RESTRICT, PRIMARY KEY (quota_id, item_id)) STRICT",
    // The variations of quotas.
    "CREATE TABLE quota_variations (quota_id INTEGER NOT NULL REFERENCES quotas ON DELETE RESTRICT, variation_id INTEGER NOT NULL REFERENCES variations ON DELETE RESTRICT, PRIMARY KEY (quota_id, variation_id)) STRICT",
    // Vouchers, each with how often it is redeemed.
    "CREATE TABLE vouchers (id INTEGER PRIMARY KEY, code TEXT NOT NULL UNIQUE, max_usages INTEGER NOT NULL, valid_until INTEGER, block_quota INTEGER NOT NULL CHECK (block_quota IN (0, 1)), allow_ignore_quota INTEGER NOT NULL CHECK (allow_ignore_quota IN (0, 1)), price_mode TEXT NOT NULL, amount INTEGER, item_id INTEGER REFERENCES items ON DELETE RESTRICT, variation_id INTEGER REFERENCES variations ON DELETE RESTRICT, quota_id INTEGER REFERENCES quotas ON DELETE RESTRICT, tag TEXT NOT NULL, comment TEXT NOT NULL, redeemed INTEGER NOT NULL) STRICT",
    // Places that are held in carts.
    "CREATE TABLE cart_positions (id INTEGER PRIMARY KEY, cart_id TEXT NOT NULL, item_id INTEGER NOT NULL REFERENCES items ON DELETE RESTRICT, variation_id INTEGER REFERENCES variations ON DELETE RESTRICT, price INTEGER NOT NULL, made_at INTEGER NOT NULL, expires INTEGER NOT NULL, voucher_id INTEGER REFERENCES vouchers ON DELETE RESTRICT) STRICT",
    // Orders, by number.
    "CREATE TABLE orders (id INTEGER PRIMARY KEY, email TEXT, status TEXT NOT NULL, made_at INTEGER NOT NULL, expires INTEGER NOT NULL) STRICT",
    // The tickets of orders.
    "CREATE TABLE order_positions (id INTEGER PRIMARY KEY, order_id INTEGER NOT NULL REFERENCES orders ON DELETE RESTRICT, positionid INTEGER NOT NULL, item_id INTEGER NOT NULL REFERENCES items ON DELETE RESTRICT, variation_id INTEGER REFERENCES variations ON DELETE RESTRICT, price INTEGER NOT NULL, voucher_id INTEGER REFERENCES vouchers ON DELETE RESTRICT, secret TEXT NOT NULL UNIQUE, UNIQUE (order_id, positionid)) STRICT",
    // The waiting list.
    "CREATE TABLE waiting (id INTEGER PRIMARY KEY, email TEXT NOT NULL, item_id INTEGER NOT NULL REFERENCES items ON DELETE RESTRICT, variation_id INTEGER REFERENCES variations ON DELETE RESTRICT, priority INTEGER NOT NULL, created INTEGER NOT NULL, voucher_id INTEGER REFERENCES vouchers ON DELETE RESTRICT) STRICT",
    // Lists by which doors check tickets in, without their items.
    "CREATE TABLE checkin_lists (id INTEGER PRIMARY KEY, name TEXT NOT NULL, all_products INTEGER NOT NULL CHECK (all_products IN (0, 1)), include_pending INTEGER NOT NULL CHECK (include_pending IN (0, 1)), multiple INTEGER NOT NULL CHECK (multiple IN (0, 1)), after_exit INTEGER NOT NULL CHECK (after_exit IN (0, 1))) STRICT",
    // The items of check-in lists.
    "CREATE TABLE list_items (list_id INTEGER NOT NULL REFERENCES checkin_lists ON DELETE RESTRICT, item_id INTEGER NOT NULL REFERENCES items ON DELETE RESTRICT, PRIMARY KEY (list_id, item_id)) STRICT",
    // Who came in and went out.
    "CREATE TABLE checkins (id INTEGER PRIMARY KEY, list_id INTEGER NOT NULL REFERENCES checkin_lists ON DELETE RESTRICT, position_id INTEGER NOT NULL REFERENCES order_positions ON DELETE RESTRICT, kind TEXT NOT NULL, at INTEGER NOT NULL, nonce TEXT, UNIQUE (list_id, position_id, nonce)) STRICT",
    // What uses each quota.
    "CREATE TABLE quota_count (quota_id INTEGER PRIMARY KEY REFERENCES quotas ON DELETE RESTRICT, paid INTEGER NOT NULL, pending INTEGER NOT NULL, blocked INTEGER NOT NULL, carts INTEGER NOT NULL, waiting INTEGER NOT NULL) STRICT",
    // The digests of tokens.
    "CREATE TABLE tokens (id INTEGER PRIMARY KEY, digest BLOB NOT NULL UNIQUE) STRICT",
    // Kept answers.
    "CREATE TABLE kept (token_id INTEGER NOT NULL REFERENCES tokens ON DELETE RESTRICT, request_key BLOB NOT NULL, first_moment INTEGER NOT NULL, status INTEGER NOT NULL, allow TEXT NOT NULL, body BLOB NOT NULL, PRIMARY KEY (token_id, request_key)) STRICT",
    // The index of kept answers by their moment.
    "CREATE INDEX kept_by_moment ON kept (first_moment)",
    // The quotas that release the places of tickets that went out.
    "CREATE TABLE quota_release (quota_id INTEGER PRIMARY KEY REFERENCES quotas ON DELETE RESTRICT) STRICT",
    // How many tickets of each quota are out.
    "CREATE TABLE quota_exited (quota_id INTEGER PRIMARY KEY REFERENCES quotas ON DELETE RESTRICT, exited INTEGER NOT NULL) STRICT",
    // The budgets of vouchers.
    "CREATE TABLE voucher_budget (voucher_id INTEGER PRIMARY KEY REFERENCES vouchers ON DELETE RESTRICT, budget INTEGER NOT NULL) STRICT",
    // How much of each voucher is spent.
    "CREATE TABLE voucher_spent (voucher_id INTEGER PRIMARY KEY REFERENCES vouchers ON DELETE RESTRICT, spent INTEGER NOT NULL) STRICT",
    // What was taken off the prices of tickets.
    "CREATE TABLE position_discount (position_id INTEGER PRIMARY KEY REFERENCES order_positions ON DELETE RESTRICT, discount INTEGER NOT NULL) STRICT",
];

// How many of these make the tables of a version; of 0 there is none.
fn statements_of(version: u64) -> usize
    ensures { result ≡ statements_of version }
{
    match version {
        0 => 0,
        1 => 18,
        2 => 20,
        _ => STATEMENTS.len(),
    }
}

// Runs the statements from one on, over the schema that those before it make, whose tables keep their rows.
fn run_from<S: Alter>(
    tx: &mut Transaction<'_, S>,
    statements: &[&str],
    from: usize,
) -> Result<(), RowError>
    requires { map (λ s. s.now) statements.now ≡ statement_texts }
    ensures inside { StaysInside S.Store tx.old.conn tx.new.conn }
    ensures grown { GrowsInside S.Store tx.old tx.new (schema_after from) schema result }
{
    'statements: for at in from..statements.len() {
        run(tx, statements[at], &[])?;
    }
    Ok(())
}

/// Makes the tables that this version has and an earlier one hasn't, inside a transaction over those of the earlier one; 0 has none. The
/// tables that stood keep their rows, and the new ones have none. Refusals: 6, 63 where the store refuses a statement.
pub fn add_tables<S: Alter>(tx: &mut Transaction<'_, S>, from: u64) -> Result<(), RowError>
    ensures inside { StaysInside S.Store tx.old.conn tx.new.conn }
    ensures grown { GrowsInside S.Store tx.old tx.new (schema_of_version from) schema result }
{
    let statements: [&str; 23] = STATEMENTS;
    run_from(tx, statements.as_slice(), statements_of(from))
}
