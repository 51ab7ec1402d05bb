//! The periodic work of the shop in a database is done.

ghost use Rattle.web_server.specs.Clock.{IsRead};
ghost use Rattle.app_files.specs.Came.{CameTo, OrUnopened};
ghost use Rattle.app_files.specs.Stored.{stored_meaning};
ghost use Rattle.app_files.specs.Worked.{IsOpenedAndWorked};

use crate::acting::act_opened;
use crate::filed::Filed;
use crate::opening::open_shop;
use crate::words::WorkWords;
use base_values::Body;
use model_commands::Command;
use sqlite::{Alter, Connection};
use std::alloc::Global;
use web_cli::Console;
use web_server::System;

/// `periodic`: opens the shop in a database and does its periodic work, as an arrival without key, at what the system's clock shows with a
/// draw of the system; tells what was done, `expired E, deleted D, sent S`. Faults: 60, 61 and 62 where the database holds no shop that is
/// whole, each for its cause alone, 63 where the store refused the work or memory ran out within it, 85 where there is no clock or no
/// draw, and 6. Beside a fault nothing has changed.
pub fn work_shop<R: System + Console, S: Alter + Drop>(
    rt: &R,
    alloc: Global,
    connection: Connection<S>,
) -> Filed<S, Body>
    ensures { CameTo S.Store (OrUnopened S.Store
        (IsOpenedAndWorked (IsRead R.shows R.gives) S.Store (stored_meaning S.Store))) connection
        result }
{
    match open_shop(rt, alloc, connection) {
        Ok(opened) => act_opened(rt, alloc, opened, WorkWords, Command::Periodic),
        Err(filed) => filed,
    }
}
