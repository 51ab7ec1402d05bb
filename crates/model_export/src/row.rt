//! A line of an export.

use base_values::{Cents, Text};
use model_rows::Status;

/// A line of an export: an order position, with the status of its order and the code of its voucher.
#[derive(Drop)]
pub struct ExportRow {
    /// The number of its order.
    pub order: u64,
    /// Its number in its order, from 1.
    pub positionid: u32,
    /// The status of its order.
    pub status: Status,
    /// The item that it is for.
    pub item: u64,
    /// The variation, where the item has some.
    pub variation: Option<u64>,
    /// What it costs.
    pub price: Cents,
    /// The code of its voucher, where it has one.
    pub voucher: Option<Text>,
    /// The secret of its ticket.
    pub secret: Text,
}
