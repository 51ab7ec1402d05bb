//! What became of a command, with the connection that it was given.

ghost use Rattle.std.specs.Prelude.{◌≡◌};

use book_usage::Book;
use file_tables::SqlTables;
use sqlite::{Alter, Connection};
use web_cli::RunFault;
use web_handler::Office;

/// What became of a command on a shop's database, and the connection, which is handed back.
#[derive(Drop)]
pub struct Filed<S: Alter, T: Drop> {
    /// The connection, as the command left it.
    pub connection: Connection<S>,
    /// What was made or told, or why it wasn't.
    pub outcome: Result<T, RunFault>,
}

/// A shop that was opened: its tables, and the office that they hold.
#[derive(Drop)]
pub(crate) struct Opened<S: Alter, B: Book> {
    pub(crate) tables: SqlTables<S>,
    pub(crate) office: Office<B>,
}

/// The connection of a shop that was opened, whose office is let go.
pub(crate) fn connection_of<S: Alter, B: Book + Drop>(opened: Opened<S, B>) -> Connection<S>
    ensures { result ≡ opened.tables.connection }
{
    opened.tables.into_connection()
}
