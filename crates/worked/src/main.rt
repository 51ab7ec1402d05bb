//! Do the worked cases come out as they were worked out by hand?
//!
//! Each stream of requests under `data/` is answered by a box office of its own, once in one piece and once byte by byte.
//! Printed are its name, how it ends, and what is written. Behind them comes what is read of clocks; what callers are told
//! who are there at once (`cases/together.py`); shops whose files are in memory (`cases/files.py`): closed and opened,
//! damaged, imported into and reported on, of version 1 (`cases/versions.py`), and stopped or refused at each of their
//! calls (`cases/trials.py`); order positions that are exported (`cases/exports.txt`); and what comes of command lines, one
//! of them over devices that fail (`cases/devices.txt`): all in the same program, since a second one would have to read all
//! libraries again.
//!
//! A case file begins with a line of moments, one for each whole request, with a space between two. What follows are the
//! bytes of the stream. `data/names` has the names of the cases, one a line. `cases/write.py` writes them, and `stdout`, from the
//! texts of the requests and of their answers.
#![tactic(auto)]

mod case;
mod clock;
mod cut;
mod deeds;
mod devices;
mod endless;
mod exports;
mod failing;
mod files;
mod lines;
mod listed;
mod shop;
mod together;
mod tried;

use crate::case::answered;
use crate::clock::show_clocks;
use crate::devices::show_devices;
use crate::exports::show_exports;
use crate::files::show_files;
use crate::together::show_together;
use std::fs;

// Answers each case, and prints what is written.
fn show_cases(rt: &HostRuntime) -> anyhow::Result<()> {
    let names = fs::read_to_string(rt, "names")?;
    for name in names.lines() {
        let path = format!(in rt.alloc(); "{name}.case")?;
        let case = fs::read(rt, path.as_str())?;
        let whole = answered(rt.alloc(), case.as_slice(), 65536)?;
        let cut = answered(rt.alloc(), case.as_slice(), 1)?;
        if whole == cut {
            print!(rt; "== {name}: ")?;
        } else {
            print!(rt; "== {name}, which the cut changes: ")?;
        }
        rt.write_all(whole.as_slice())?;
        println!(rt)?;
    }
    Ok(())
}

fn main(rt: HostRuntime) -> anyhow::Result<()> {
    show_cases(&rt)?;
    println!(rt; "== clocks_of_a_system: what is read of each")?;
    show_clocks(&rt)?;
    println!(rt; "== callers_at_once: two over memory, in every interleaving of what they do")?;
    show_together(&rt)?;
    show_files(&rt)?;
    println!(rt;
        "== positions_are_exported: none, three orders of two, and to a writer that fails"
    )?;
    show_exports(&rt)?;
    println!(rt)?;
    println!(rt; "== devices_that_fail: each in turn, and lines")?;
    show_devices(&rt)
}
