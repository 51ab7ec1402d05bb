//! What hears of the rows that are read, while they are.

/// What hears of each row that a query gives, as soon as it was taken. No clause says what it does with that.
pub trait Progress {
    /// Hears that a row more was taken.
    fn row(&mut self);
}

/// Nobody hears of them.
#[derive(Clone, Copy)]
pub struct Quiet;

impl Progress for Quiet {
    fn row(&mut self) {}
}
