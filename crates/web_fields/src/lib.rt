//! What does each field of a body say, and which one is the first that is wrong?
#![tactic(auto)]

pub mod error;
pub mod kinds;
pub mod lacking;
pub mod lists;
pub mod modes;
pub mod patched;

pub use error::{BodyFault, ReadError};
pub use kinds::{
    end, id, loose_text, moment, money, name, price_mode, signed_number, text, truth, whole,
};
pub use lacking::{
    ids_or_none, optional_id, optional_loose_text, optional_moment, optional_money, optional_text,
    price_mode_or, signed_or, text_or_empty, texts_or_none, truth_or, whole_or,
};
pub use lists::{Reading, entries, entry_object, first_entries, ids, list, texts};
pub use modes::{maybe, nullable, optional, present, required_value};
pub use patched::{
    patched_id_or_null, patched_loose_text, patched_moment_or_null, patched_money,
    patched_money_or_null, patched_name, patched_price_mode, patched_signed, patched_text,
    patched_truth, patched_whole, patched_whole_or_null,
};
