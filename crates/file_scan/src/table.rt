//! A table of the file, all of whose rows can be read.

ghost use Rattle.std.specs.Prelude.{◌≡◌, ◌≢◌, ◌++◌, ◌∷◌, [], false, All};
ghost use Rattle.file_rows.specs.Unread.{IsUnread};
ghost use Rattle.file_reads.specs.Damage.{HasMeaning, HasNoMeaning};
ghost use Rattle.file_scan.specs.Reading.{ReadsTables, HoldsTable, IsDamagedTable};

use crate::each::{Taker, each_row};
use crate::progress::Progress;
use file_reads::Loaded;
use file_schema::RowError;
use sqlite::{Alter, Connection, Row};
use std::alloc::Global;

// The rows that were read so far.
#[derive(Drop)]
struct Gathered<T> {
    all: Vec<T>,
}

impl<T: Loaded> Taker<RowError> for Gathered<T> {
    ghost takes = { λ old row new. (w : T) × (row ≡ T.Loaded.as_row w) × T.Loaded.fits w
        × (new.all.items ≡ old.all.items ++ w ∷ []) };

    ghost stops = { λ old row e new. IsUnread
        ((w : T) → T.Loaded.fits w → row ≢ T.Loaded.as_row w) e };

    fn take(&mut self, alloc: Global, row: &Row) -> Result<(), RowError> {
        match T::read(alloc, row) {
            Ok(item) => match self.all.push(item) {
                Ok(()) => Ok(()),
                Err(_) => Err(RowError::Memory),
            },
            Err(error) => Err(error),
        }
    }
}

/// The rows of a table, by their numbers, of which the store holds some at a time. The connection stays as it is. Refusals: 6, 60, 62, 63.
pub(crate) fn rows_in<S: Alter, T: Loaded, P: Progress>(
    alloc: Global,
    conn: &mut Connection<S>,
    progress: &mut P,
) -> Result<Vec<T>, RowError>
    requires { conn.old.in_transaction ≡ false }
    ensures { ReadsTables T.since (λ trees all. HoldsTable T.as_row T.tree trees all.items)
        (λ all. All T.fits all.items) (λ s. HasMeaning s T.text) (λ s. HasNoMeaning s T.text)
        (IsDamagedTable T.as_row T.fits T.tree) S.Store conn.old conn.new result }
{
    let mut gathered: Gathered<T> = Gathered {
        all: Vec::new(alloc),
    };
    let taken = match each_row(alloc, conn, T::statement(), &mut gathered, progress) {
        Ok(taken) => taken,
        Err(error) => return Err(error),
    };
    match taken {
        Ok(()) => Ok(gathered.all),
        Err(refusal) => Err(refusal),
    }
}
