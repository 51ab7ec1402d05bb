//! Shops' files, as the commands that make and change one ask for them.

ghost use Rattle.std.specs.Prelude.{ℕ, List, Result};
ghost use Rattle.std.specs.declared.net.socket_addr.SocketAddr.{SocketAddr};
ghost use Rattle.base_values.specs.Slugs.{IsSlug};
ghost use Rattle.web_cli.specs.Saying.{ExportsFile, OnPage, TellsListening};
ghost use Rattle.web_cli.specs.Values.{IsToken};
ghost use Rattle.web_cli.specs.declared.fault.RunFault.{RunFault};
ghost use Rattle.web_cli.specs.declared.values.Report.{Report};

use crate::fault::RunFault;
use crate::values::Report;
use base_devices::Drain;
use base_values::Body;
use std::alloc::Global;
use std::net::SocketAddr;

/// Where a shop is served, and how long.
#[derive(Clone, Copy)]
pub struct ServeOptions<'a> {
    /// The address that is listened at.
    pub addr: SocketAddr,
    /// Its text, as it was given.
    pub text: &'a str,
    /// How many connections are answered; 0 is without end.
    pub connections: u64,
    /// Whether each request and each connection's end is told on standard error.
    pub log: bool,
}

/// What the commands on a shop's file ask for, each by the file's name. What a file holds no clause can say: what becomes of it is the
/// implementor's to say (`made`, `added`, `served`, `worked`, `reported`, `exported`, `imported`), and what becomes of its tables `app_files` and `web_server` say.
pub trait HouseFiles {
    // what it may come to that a shop is made in the file of this name, for this organizer and this event
    ghost made: { List ℕ → List ℕ → List ℕ → Result (Unit {0}) RunFault → Type 0 };

    // what it may come to that the shop in the file of this name gets this token, with the token's number
    ghost added: { List ℕ → List ℕ → Result ℕ RunFault → Type 0 };

    // what it may come to that the shop in the file of this name is served at this address, for so many connections
    ghost served: { List ℕ → SocketAddr → ℕ → Result (Unit {0}) RunFault → Type 0 };

    // what it may come to that periodic work is done in the file of this name, with a text of what was done
    ghost worked: { List ℕ → Result (List ℕ) RunFault → Type 0 };

    // what it may come to that this report is asked for on the shop in the file of this name, with its text
    ghost reported: { List ℕ → Report → Result (List ℕ) RunFault → Type 0 };

    // what it may come to that the order positions of the shop in the file of this name are exported: what is written, and how that ends
    ghost exported: { List ℕ → List ℕ → Result (Unit {0}) RunFault → Type 0 };

    // what it may come to that the shop in the file of this name gets the vouchers of the CSV file of this name, with a text of what
    // became of each row
    ghost imported: { List ℕ → List ℕ → Result (List ℕ) RunFault → Type 0 };

    /// Makes a shop in a new file. Faults: 60 where the file stands already, 80 where it can't be made, 6 and 63.
    fn make(&self, alloc: Global, file: &str, organizer: &str, event: &str) -> Result<(), RunFault>
        requires organizer { IsSlug organizer.now }
        requires event { IsSlug event.now }
        ensures { made file.now organizer.now event.now result };

    /// Adds a token to the shop in a file, and tells the token's number. Faults: 80 where the file can't be opened, 60 to 63 where it
    /// isn't a shop's that is whole, 16 where the shop has all the tokens that it may have, and 6.
    fn add_token(&self, alloc: Global, file: &str, token: &str) -> Result<u64, RunFault>
        requires { IsToken token.now }
        ensures { added file.now token.now result };

    /// Serves the shop in a file: says that it listens once callers can come, and then answers them, many at once.
    /// Faults: 80 where the file can't be opened, 60 to 63 where it isn't a shop's that is whole, 81 where the address can't be listened
    /// at or takes no callers any more, 83 where the writer fails, and 6.
    fn serve<W: Drain>(
        &self,
        alloc: Global,
        file: &str,
        options: &ServeOptions<'_>,
        writer: &mut W,
    ) -> Result<(), RunFault>
        ensures served { served file.now options.now.addr options.now.connections result }
        ensures said { OnPage W.Drain
            (TellsListening options.now.text.now) writer.old writer.new result };

    /// Does the periodic work of the shop in a file at the system's moment, and tells what was done: `expired E, deleted D, sent S`. Faults:
    /// 80 where the file can't be opened, 60 to 63 where it isn't a shop's that is whole, or what was done couldn't be written, 85 where
    /// there is no clock or no draw, and 6.
    fn work(&self, alloc: Global, file: &str) -> Result<Body, RunFault>
        ensures { worked file.now result };

    /// A report on the shop in a file. It leaves the file as it is, but for `Report::Version`, which first brings its tables to this program's
    /// version. Faults: 80 where the file can't be opened, 60 to 63 where it isn't a shop's that is whole or couldn't be brought there, 50
    /// where the shop has no check-in list of that number, and 6.
    fn report(&self, alloc: Global, file: &str, report: Report) -> Result<Body, RunFault>
        ensures { reported file.now report result };

    /// Writes the order positions of the shop in a file as CSV while it reads them, and leaves the file as it is. Faults: 80 where the file
    /// can't be opened, 60 to 63 where it isn't a shop's that is whole or the store fails, 73 where the writer fails, and 6; then a beginning
    /// was written, perhaps nothing.
    fn export<W: Drain>(&self, alloc: Global, file: &str, writer: &mut W) -> Result<(), RunFault>
        ensures { OnPage W.Drain (ExportsFile exported file.now) writer.old writer.new result };

    /// Adds the vouchers of a CSV file to the shop in a file, and tells of each row what became of it: its code, and `added`, `same`, `other`
    /// or `refused N`. Faults, in this order: those of the shop's file, 80 where it can't be opened and 60 to 63 where it isn't a shop's that
    /// is whole; those of the CSV file, 80 where it can't be read, and 70 to 74 for what it says; 85 where there is no clock or no draw; 63 where what was done
    /// couldn't be written; and 6. Beside a fault nothing has changed.
    fn import(&self, alloc: Global, file: &str, csv: &str) -> Result<Body, RunFault>
        ensures { imported file.now csv.now result };
}
