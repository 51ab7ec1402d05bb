//! Shops' files, by their names.

ghost use Rattle.std.specs.Prelude.{ℕ, Bool, List, Result, IfOk, IfErr};
ghost use Rattle.web_cli.specs.declared.fault.RunFault.{RunFault};
ghost use Rattle.app_files.specs.Shelved.{IsRefused, IsSource};

use base_values::Body;
use web_cli::RunFault;

/// What has shops' files, by their names, and gives connections to them. What a file holds no clause can say, nor whether there is one: what
/// is known of that, of a connection, and of why there is none, is the implementor's to say (`stood`, `held`, `gives`, `refuses`).
pub trait Shelf<C> {
    // what is known where it is told whether there is a file of this name
    ghost stood: { List ℕ → Bool → Type 0 };

    // what is known of the bytes of the voucher file of this name, or of why they can't be had
    ghost held: { List ℕ → Result (List ℕ) RunFault → Type 0 };

    // what is known of a connection to the file of this name
    ghost gives: { List ℕ → C → Type 0 };

    // what is known where a connection to the file of this name is refused, for this fault
    ghost refuses: { List ℕ → RunFault → Type 0 };

    /// Whether there is a file, or something else, of this name.
    fn stands(&self, file: &str) -> bool
        ensures { stood file.now result };

    /// A connection to the file of this name, which is made where there is none, for its owner alone. Faults: 80 where it can't be opened or
    /// has a second name, 60 where its bytes show that it is no shop's, and then it stays as it is, 63 and 6.
    fn open(&self, file: &str) -> Result<C, RunFault>
        ensures given { IfOk result (λ connection. gives file.now connection) }
        ensures refused { IfErr result (λ fault. IsRefused refuses file.now fault) };

    /// The bytes of the voucher file of this name. Faults: 80 where it can't be read, as that of this file, and 6.
    fn bytes(&self, file: &str) -> Result<Body, RunFault>
        ensures { IsSource held file.now result };

    /// Closes a connection. What was committed stands in the file and its log, also where that fails.
    fn close(&self, connection: C);
}
