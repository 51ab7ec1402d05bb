//! The shop in a database is brought to this program's version.

ghost use Rattle.app_files.specs.Came.{CameTo};
ghost use Rattle.app_files.specs.Migrated.{MigratesShopIn};

use crate::faults::fault_of_opening;
use crate::filed::Filed;
use crate::progress::Shown;
use crate::reporting::version_of;
use base_values::Body;
use file_open::migrate;
use file_schema::VERSION;
use file_tables::HandedBack;
use sqlite::{Alter, Connection};
use std::alloc::Global;
use web_cli::Console;

/// `migrate`: brings the shop in a database to this program's version, and tells the version. A shop of an earlier one is looked at whole
/// first. All of it is done or nothing, in a crash too. Faults: 60 and 62 where the database holds no shop that is whole, each for its cause
/// alone, 61 where its version is none of ours, 63 and 6. Beside a fault but 6 nothing has changed.
pub fn migrate_shop<O: Console, S: Alter + Drop>(
    rt: &O,
    alloc: Global,
    connection: Connection<S>,
) -> Filed<S, Body>
    ensures { CameTo S.Store (MigratesShopIn S.Store) connection result }
{
    let mut shown = Shown::opening(rt);
    let migrated = migrate(alloc, connection, &mut shown);
    shown.end();
    match migrated {
        Ok((connection, _)) => Filed {
            connection,
            outcome: version_of(alloc, VERSION),
        },
        Err(HandedBack { connection, error }) => Filed {
            connection,
            outcome: Err(fault_of_opening(error)),
        },
    }
}
