//! How is each row of the house written as values in the file, and read back?
#![tactic(auto)]

pub mod bytes;
pub mod column;
pub mod members;
pub mod methods;
pub mod numbers;
pub mod rows;
pub mod table_rows;
pub mod words;

pub use column::Column;
pub use members::{Member, Numbered};
pub use rows::{
    BudgetRow, CountRow, DiscountRow, ExitRow, KeptRow, ListItem, ListRow, PositionRow, QuotaItem,
    QuotaRow, QuotaVariation, ReleaseRow, ShopRow, SpentRow, Token, VoucherHead, VoucherRow,
};
pub use table_rows::{CatalogueRows, DoorRows, OtherRows, SaleRows, TableRows};
