//! A shop is made in a database.

ghost use Rattle.app_files.specs.Came.{CameTo};
ghost use Rattle.app_files.specs.Filed.{MakesShopIn};

use crate::faults::fault_of_making;
use crate::filed::Filed;
use base_values::Slug;
use file_tables::{HandedBack, create};
use sqlite::{Alter, Connection};
use std::alloc::Global;

/// `init`: makes a shop in a database that has no table, for this organizer and this event: no rows, no answers, no tokens. All of it is
/// made or nothing, in a crash too. Faults: 60 where the database has a table, and only there, 6, and 63.
pub fn make_new_shop<S: Alter + Drop>(
    alloc: Global,
    connection: Connection<S>,
    organizer: Slug,
    event: Slug,
) -> Filed<S, ()>
    ensures { CameTo S.Store (MakesShopIn S.Store organizer event) connection result }
{
    match create(alloc, connection, organizer, event) {
        Ok(tables) => Filed {
            connection: tables.into_connection(),
            outcome: Ok(()),
        },
        Err(HandedBack { connection, error }) => Filed {
            connection,
            outcome: Err(fault_of_making(error)),
        },
    }
}
