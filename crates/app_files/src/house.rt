//! The commands on shops' files.

ghost use Rattle.std.specs.Prelude.{◌≡◌, true, false, IfOk, IfErr};
ghost use Rattle.base_values.specs.Slugs.{IsSlug};
ghost use Rattle.app_files.specs.Filed.{MakesShopIn};
ghost use Rattle.app_files.specs.Shelved.{IsGiven, IsMissing, OverNewFile};

use crate::adding::add_shop_token;
use crate::exporting::export_shop;
use crate::filed::Filed;
use crate::importing::import_shop;
use crate::making::make_new_shop;
use crate::migrating::migrate_shop;
use crate::reporting::report_shop;
use crate::serving::serve_shop;
use crate::shelf::Shelf;
use crate::working::work_shop;
use base_devices::Drain;
use base_values::{Body, Slug};
use sqlite::{Alter, Connection};
use std::alloc::{AllocError, Global};
use std::marker::PhantomData;
use std::net::{Net, TcpListener, TcpStream};
use std::time::Clock;
use web_cli::{Console, HouseFiles, Report, RunFault, ServeOptions};
use web_server::{Log, System};

/// The commands on shops' files: over the files of a shelf, on a system with a clock, chance and a network. Each opens its file, does what
/// it has to with the shop in it, and closes the file.
#[derive(Drop)]
pub struct House<'a, R, S, F> {
    rt: &'a R,
    shelf: F,
    base: PhantomData<S>,
}

// Both names as texts of their own.
fn both_slugs(alloc: Global, organizer: &str, event: &str) -> Result<(Slug, Slug), AllocError>
    requires organizer { IsSlug organizer.now }
    requires event { IsSlug event.now }
    ensures { IfOk result (λ both. (both.0 ≡ organizer.now) × (both.1 ≡ event.now)) }
{
    Ok((
        Slug::copy_of(alloc, organizer)?,
        Slug::copy_of(alloc, event)?,
    ))
}

impl<'a, R, S: Alter + Drop, F: Shelf<Connection<S>>> House<'a, R, S, F> {
    /// The commands over this system and the files of this shelf.
    pub fn over(rt: &'a R, shelf: F) -> House<'a, R, S, F>
        ensures rt { result.rt.now ≡ rt.now }
        ensures shelf { result.shelf ≡ shelf }
    {
        House {
            rt,
            shelf,
            base: PhantomData,
        }
    }

    // The file of this name, which has to be there.
    fn found(&self, file: &str) -> Result<Connection<S>, RunFault>
        ensures given { IfOk result (IsGiven F.stood F.gives true file.now) }
        ensures refused { IfErr result (IsMissing F.stood F.refuses file.now) }
    {
        if self.shelf.stands(file) {
            self.shelf.open(file)
        } else {
            Err(RunFault::File)
        }
    }

    // A shop for this organizer and this event, in a file of this name that wasn't there.
    fn made(&self, alloc: Global, file: &str, organizer: Slug, event: Slug) -> Result<(), RunFault>
        ensures { F.stood file.now false → OverNewFile S.Store F.stood F.gives F.refuses
            (MakesShopIn S.Store organizer event) file.now result }
    {
        match self.shelf.open(file) {
            Ok(connection) => self.ended(make_new_shop(alloc, connection, organizer, event)),
            Err(fault) => Err(fault),
        }
    }

    // What became of a command, whose connection is closed.
    fn ended<T: Drop>(&self, filed: Filed<S, T>) -> Result<T, RunFault>
        ensures { result ≡ filed.outcome }
    {
        let Filed {
            connection,
            outcome,
        } = filed;
        self.shelf.close(connection);
        outcome
    }
}

impl<
    R: Net<Listener = TcpListener, Stream = TcpStream> + Clock + System + Console,
    S: Alter + Drop,
    F: Shelf<Connection<S>>,
> HouseFiles for House<'_, R, S, F> {
    ghost use Rattle.std.specs.Prelude.{◌≡◌, true, [], Result};
    ghost use Rattle.sqlite.specs.Held.{state};
    ghost use Rattle.sha2.specs.Sha256.{sha256};
    ghost use Rattle.web_cli.specs.declared.fault.RunFault.{RunFault};
    ghost use Rattle.web_server.specs.Clock.{IsRead};
    ghost use Rattle.app_files.specs.Came.{OrUnopened};
    ghost use Rattle.app_files.specs.Exported.{IsExported};
    ghost use Rattle.app_files.specs.Filed.{AddsTokenIn, MakesShopIn};
    ghost use Rattle.app_files.specs.Imported.{IsOpenedAndImported};
    ghost use Rattle.app_files.specs.Asked.{TellsOf};
    ghost use Rattle.app_files.specs.Served.{IsOpenedAndServed};
    ghost use Rattle.app_files.specs.Shelved.{IsGiven, IsMissing, IsShelved, IsSource, OverFile, OverNewFile};
    ghost use Rattle.app_files.specs.Stored.{stored_meaning};
    ghost use Rattle.app_files.specs.Worked.{IsOpenedAndWorked};

    ghost made = { λ file organizer event outcome. OverNewFile S.Store F.stood F.gives F.refuses
        (MakesShopIn S.Store organizer event) file outcome };

    ghost added = { λ file token outcome. OverFile S.Store F.stood F.gives F.refuses
        (AddsTokenIn S.Store (sha256 token)) file outcome };

    ghost served = { λ file addr most outcome. OverFile S.Store F.stood F.gives F.refuses
        (OrUnopened S.Store
        (IsOpenedAndServed (IsRead R.shows R.gives) S.Store (stored_meaning S.Store) most)) file
        outcome };

    ghost worked = { λ file outcome. OverFile S.Store F.stood F.gives F.refuses
        (OrUnopened S.Store
        (IsOpenedAndWorked (IsRead R.shows R.gives) S.Store (stored_meaning S.Store))) file
        outcome };

    ghost reported = { λ file report outcome. OverFile S.Store F.stood F.gives F.refuses
        (TellsOf S.Store report) file outcome };

    ghost exported = { λ file text outcome. IsShelved (IsGiven F.stood F.gives true)
        (λ file fault. IsMissing F.stood F.refuses file fault × (text ≡ []))
        (λ connection left came. IsExported S.Store text (state S.Store connection) left came) file
        outcome };

    ghost imported = { λ file csv outcome. OverFile S.Store F.stood F.gives F.refuses
        (λ old left came. (source : Result _ RunFault) × IsSource F.held csv source
        × OrUnopened S.Store
        (IsOpenedAndImported (IsRead R.shows R.gives) S.Store (stored_meaning S.Store) source) old
        left came) file outcome };

    fn make(
        &self,
        alloc: Global,
        file: &str,
        organizer: &str,
        event: &str,
    ) -> Result<(), RunFault> {
        if self.shelf.stands(file) {
            return Err(RunFault::NotAShop);
        }
        match both_slugs(alloc, organizer, event) {
            Ok((organizer, event)) => self.made(alloc, file, organizer, event),
            Err(_) => Err(RunFault::Memory),
        }
    }

    fn add_token(&self, alloc: Global, file: &str, token: &str) -> Result<u64, RunFault> {
        let connection = self.found(file)?;
        self.ended(add_shop_token(self.rt, alloc, connection, token))
    }

    fn serve<W: Drain>(
        &self,
        alloc: Global,
        file: &str,
        options: &ServeOptions<'_>,
        writer: &mut W,
    ) -> Result<(), RunFault> {
        let log = Log::new(self.rt, alloc, file, options.log);
        let connection = self.found(file)?;
        self.ended(serve_shop(self.rt, alloc, connection, &log, options, writer))
    }

    fn work(&self, alloc: Global, file: &str) -> Result<Body, RunFault> {
        let connection = self.found(file)?;
        self.ended(work_shop(self.rt, alloc, connection))
    }

    fn report(&self, alloc: Global, file: &str, report: Report) -> Result<Body, RunFault> {
        let connection = self.found(file)?;
        match report {
            Report::Version => self.ended(migrate_shop(self.rt, alloc, connection)),
            _ => self.ended(report_shop(self.rt, alloc, connection, report)),
        }
    }

    fn export<W: Drain>(&self, alloc: Global, file: &str, writer: &mut W) -> Result<(), RunFault> {
        match self.found(file) {
            Ok(connection) => self.ended(export_shop(self.rt, alloc, connection, writer)),
            Err(fault) => Err(fault),
        }
    }

    fn import(&self, alloc: Global, file: &str, csv: &str) -> Result<Body, RunFault> {
        let connection = self.found(file)?;
        self.ended(import_shop(self.rt, alloc, connection, self.shelf.bytes(csv)))
    }
}
