//! Callers who are there at once, over memory, in every order of what two of them do.

ghost use Rattle.base_devices.specs.Blanks.{IsBlankOf};

use crate::case::moments;
use crate::listed::Listed;
use app_run::open_memory;
use base_values::{Moment, Steps};
use book_usage::Dues;
use model_answers::Tables;
use std::alloc::Global;
use std::fs;
use std::marker::Brand;
use std::sync::ledger::{Blank, Ledger};
use tests_callers::{Houses, Next, Party, TogetherError, together_told};
use web_connection::Handler;
use web_handler::{Office, ShopHandler};

/// What makes a shop in SQLite's memory, each time anew.
#[derive(Clone, Copy)]
struct NewShops;

// What callers are told at a handler, with a ledger for the failures of the clock.
fn run_together_with<M: Ledger, K: Handler>(
    alloc: Global,
    party: &Party<'_>,
    order: &[Next],
    moments: &[Moment],
    handler: &mut K,
    blank: Blank,
) -> Result<Vec<Vec<u8>>, TogetherError>
    requires { IsBlankOf M.Ledger blank }
{
    let mut ticks = Listed {
        moments,
        reported: 0,
        failures: Steps::<M>::new(blank),
    };
    party.serve(alloc, order, &mut ticks, handler)
}

// What callers are told at a handler.
fn run_together<K: Handler>(
    alloc: Global,
    party: &Party<'_>,
    order: &[Next],
    handler: &mut K,
) -> Result<Vec<Vec<u8>>, TogetherError> {
    let Ok((moments, _)) = moments(alloc, party.moments()) else {
        return Err(TogetherError::Unread);
    };
    run_together_with::<Brand, K>(
        alloc,
        party,
        order,
        moments.as_slice(),
        handler,
        Blank::new(1),
    )
}

// What callers are told by the shop of an office, over the tables that were opened with it.
fn run_shop_together<T: Tables + Drop, B: Dues + Drop>(
    alloc: Global,
    party: &Party<'_>,
    order: &[Next],
    opened: (T, Office<B>),
) -> Result<Vec<Vec<u8>>, TogetherError> {
    let (tables, office) = opened;
    let mut handler = ShopHandler::over(alloc, tables, office)?;
    run_together(alloc, party, order, &mut handler)
}

impl Houses for NewShops {
    fn serve(
        &self,
        alloc: Global,
        party: &Party<'_>,
        order: &[Next],
    ) -> Result<Vec<Vec<u8>>, TogetherError> {
        match open_memory(alloc) {
            Ok(opened) => run_shop_together(alloc, party, order, opened),
            Err(_) => Err(TogetherError::Memory),
        }
    }
}

// Prints what comes of some callers.
fn show(rt: &HostRuntime, name: &str) -> anyhow::Result<()> {
    let path = format!(in rt.alloc(); "{name}.together")?;
    let text = fs::read_to_string(rt, path.as_str())?;
    let reported = together_told(rt.alloc(), &NewShops, name, text.as_str())?;
    rt.write_all(reported.as_slice())?;
    Ok(())
}

/// Prints what comes of the callers of each file whose name a file lists.
pub(crate) fn show_together(rt: &HostRuntime) -> anyhow::Result<()> {
    let names = fs::read_to_string(rt, "together")?;
    for name in names.lines() {
        show(rt, name)?;
    }
    Ok(())
}
