//! Order positions that are exported one at a time, from a shop in SQLite's memory, to writers of which some take too little.

ghost use Rattle.std.specs.Prelude.{◌≡◌, []};
ghost use Rattle.base_devices.specs.Blanks.{IsBlankOf};

use app_export::write_positions;
use app_run::open_memory;
use file_scan::Quiet;
use file_tables::SqlTables;
use sqlite::{Alter, Connection, MemStore};
use std::alloc::Global;
use std::io;
use std::io::Write;
use std::marker::Brand;
use std::sync::ledger::{Blank, Ledger};
use web_cli::counted;

/// Three orders of two positions, whose numbers there fall while their ids rise, one of them with a voucher.
static ROWS: &str = "INSERT INTO items VALUES (1, 'Stalls', 2300, 1, 0);
INSERT INTO vouchers VALUES (1, 'A,1', 9, NULL, 0, 0, 'none', NULL, NULL, NULL, NULL, '', '', 1);
INSERT INTO orders VALUES (1, NULL, 'p', 0, 0), (2, NULL, 'n', 0, 0), (3, NULL, 'c', 0, 0);
INSERT INTO order_positions VALUES (1, 3, 2, 1, NULL, 2300, NULL, 's1'), (2, 3, 1, 1, NULL, 2300, NULL, 's2'), (3, 1, 2, 1, NULL, 2300, 1, 's3'),
(4, 1, 1, 1, NULL, 2300, NULL, 's4'), (5, 2, 2, 1, NULL, 50, NULL, 's5'), (6, 2, 1, 1, NULL, 0, NULL, 's6')";

/// Takes so many bytes in all, and then no more.
#[derive(Drop)]
struct ShortWriter {
    taken: Vec<u8>,
    left: usize,
}

impl ShortWriter {
    // Nothing taken yet, where so many bytes are taken.
    fn new(alloc: Global, left: usize) -> ShortWriter
        ensures taken { result.taken.items ≡ [] }
        ensures left { result.left ≡ left }
    {
        ShortWriter {
            taken: Vec::new(alloc),
            left,
        }
    }

    // What was taken.
    fn into_taken(self) -> Vec<u8>
        ensures { result ≡ self.taken }
    {
        let ShortWriter { taken, left: _ } = self;
        taken
    }
}

impl Write for ShortWriter {
    fn write(&mut self, buf: &[u8]) -> io::Result<usize> {
        let n = buf.len().min(self.left);
        self.taken.extend_from_slice(&buf[..n])?;
        self.left -= n;
        Ok(n)
    }

    fn flush(&mut self) -> io::Result<()> {
        Ok(())
    }
}

/// What an export came to: 0 or the number of its fault, and what was taken.
#[derive(Drop)]
struct Came {
    fault: u8,
    taken: Vec<u8>,
}

/// What four exports came to, one after another: of no order, of three, of three to a writer that takes 100 bytes, and of three again.
#[derive(Drop)]
struct FourExports {
    none: Came,
    all: Came,
    cut: Came,
    again: Came,
}

// Exports to a writer that takes so many bytes, with a ledger for each count of the device.
fn exported<A: Ledger, B: Ledger>(
    alloc: Global,
    connection: &mut Connection<MemStore>,
    most: usize,
    calls: Blank,
    failures: Blank,
) -> Came
    requires calls { IsBlankOf A.Ledger calls }
    requires failures { IsBlankOf B.Ledger failures }
{
    let mut writer = counted::<ShortWriter, A, B>(ShortWriter::new(alloc, most), calls, failures);
    let fault = match write_positions(alloc, connection, &mut writer, &mut Quiet) {
        Ok(()) => 0,
        Err(fault) => fault.number(),
    };
    Came {
        fault,
        taken: writer.inner.into_taken(),
    }
}

// Exports to a writer that takes so many bytes.
fn export(alloc: Global, connection: &mut Connection<MemStore>, most: usize) -> Came {
    exported::<Brand, Brand>(alloc, connection, most, Blank::new(1), Blank::new(1))
}

// The connection of tables that were opened together with something else, which is let go as a whole: an office that goes part by part is dear
// to prove.
fn connection_of<S: Alter, O: Drop>(opened: (SqlTables<S>, O)) -> Connection<S> {
    opened.0.into_connection()
}

// The database of a shop in memory that has no rows yet.
fn empty_shop(alloc: Global) -> anyhow::Result<Connection<MemStore>> {
    Ok(connection_of(open_memory(alloc)?))
}

// Puts the orders into it.
fn put_orders(connection: &mut Connection<MemStore>) -> anyhow::Result<()> {
    connection.execute_batch(ROWS)?;
    Ok(())
}

// Exports from a shop, before and after it gets its orders.
fn export_four(alloc: Global) -> anyhow::Result<FourExports> {
    let mut connection = empty_shop(alloc)?;
    let none = export(alloc, &mut connection, usize::MAX);
    put_orders(&mut connection)?;
    Ok(FourExports {
        none,
        all: export(alloc, &mut connection, usize::MAX),
        cut: export(alloc, &mut connection, 100),
        again: export(alloc, &mut connection, usize::MAX),
    })
}

/// Exports no order, then three, then three to a writer that takes 100 bytes, and then again.
pub(crate) fn show_exports(rt: &HostRuntime) -> anyhow::Result<()> {
    let it = export_four(rt.alloc())?;
    rt.write_all(it.none.taken.as_slice())?;
    rt.write_all(it.all.taken.as_slice())?;
    println!(rt;
        "ended with {}, {}, {} and {}",
        it.none.fault, it.all.fault, it.cut.fault, it.again.fault
    )?;
    println!(rt;
        "a writer of 100 bytes has {}, a beginning: {}; then all: {}",
        it.cut.taken.len(),
        it.all.taken.starts_with(it.cut.taken.as_slice()),
        it.again.taken.as_slice() == it.all.taken.as_slice()
    )?;
    Ok(())
}
