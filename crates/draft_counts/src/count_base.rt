//! By what changes are counted.

use base_values::Moment;
use book_usage::{Book, Catalogue};
use draft_overlay::Overlay;
use std::alloc::Global;

/// By what a change is counted: the rows that it changes, the moment, and the quotas of the catalogue.
#[derive(Drop)]
pub struct CountBase<'o, 'a, B: Book> {
    pub overlay: &'o Overlay<'a, B>,
    pub alloc: Global,
    pub at: Moment,
    pub catalogue: &'o Catalogue,
}
