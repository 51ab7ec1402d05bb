//! Command lines of which each comes to something else.

use crate::failing::FailingReader;
use crate::tried::{run_line, words};
use web_cli::LineEnd;

/// The lines, each with its words.
static LINES: [&str; 47] = [
    "boxoffice feed --from 2027-01-31T23:00:00Z --step 3600",
    "boxoffice feed --step=0 --from=1970-01-01T00:00:00Z",
    "boxoffice feed --from noon --step 60",
    "boxoffice feed --from 2026-05-01T10:00:00Z --step -1",
    "boxoffice feed --from 2026-05-01T10:00:00Z --step 31536001",
    "boxoffice feed --from 2026-05-01T10:00:00Z",
    "boxoffice feed --from 2026-05-01T10:00:00Z --step 60 more",
    "boxoffice fed",
    "boxoffice",
    "boxoffice init new.db --organizer house --event hall",
    "boxoffice init hall.db --organizer house --event hall",
    "boxoffice init new.db --organizer house --event hall/1",
    "boxoffice init --event=hall new.db",
    "boxoffice token-add hall.db secret",
    "boxoffice token-add new.db secret",
    "boxoffice token-add hall.db caf\u{e9}",
    "boxoffice serve hall.db --listen 127.0.0.1:8080",
    "boxoffice serve hall.db --listen=[::1]:80 --connections=1000000",
    "boxoffice serve new.db --listen 127.0.0.1:8080",
    "boxoffice serve hall.db --listen localhost:8080",
    "boxoffice serve hall.db --listen 127.0.0.1",
    "boxoffice serve hall.db --listen 127.0.0.1:8080 --connections 1000001",
    "boxoffice serve hall.db --listen 127.0.0.1:8080 --connections -1",
    "boxoffice serve hall.db",
    "boxoffice serve --listen 127.0.0.1:8080",
    "boxoffice periodic hall.db",
    "boxoffice periodic new.db",
    "boxoffice periodic",
    "boxoffice report hall.db sales",
    "boxoffice report new.db sales",
    "boxoffice report hall.db doors",
    "boxoffice report hall.db door --list 1",
    "boxoffice report hall.db door --list=2",
    "boxoffice report hall.db door --list -1",
    "boxoffice report hall.db door",
    "boxoffice report hall.db",
    "boxoffice export hall.db",
    "boxoffice export new.db",
    "boxoffice export",
    "boxoffice import-vouchers hall.db codes.csv",
    "boxoffice import-vouchers new.db codes.csv",
    "boxoffice import-vouchers hall.db other.csv",
    "boxoffice import-vouchers hall.db",
    "boxoffice migrate hall.db",
    "boxoffice migrate new.db",
    "boxoffice migrate",
    "boxoffice --help",
];

// The number of the fault with which a line ended, or 0.
fn number(ended: LineEnd) -> u8 {
    match ended {
        LineEnd::Failed(fault) => fault.number(),
        _ => 0,
    }
}

/// Runs each line over the requests, and prints its status, its fault, and what it writes. Help is printed before its line.
pub(crate) fn show_lines(rt: &HostRuntime, requests: &[u8]) -> anyhow::Result<()> {
    for line in LINES.as_slice() {
        let words = words(rt.alloc(), line)?;
        let reader = FailingReader::new(requests, usize::MAX);
        let tried = run_line(rt, words.as_slice(), reader, usize::MAX);
        println!(rt;
            "{line}: status {}, fault {}, {} bytes written",
            tried.ended.status(),
            number(tried.ended),
            tried.written.len()
        )?;
        rt.write_all(tried.written.as_slice())?;
        println!(rt)?;
    }
    Ok(())
}
