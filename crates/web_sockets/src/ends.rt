//! The two directions of a connection, neither of which waits.

ghost use Rattle.std.specs.Prelude.{◌≡◌, ℕ, ◌≤◌, List, [], Option, length, IfOk, OnErr};
ghost use Rattle.base_devices.specs.Reported.{Adds, AddsSoMany};
ghost use Rattle.web_sockets.specs.Reads.{Reads};

use base_devices::Refused;

/// What a read gave.
#[derive(Clone, Copy, Drop, PartialEq, Eq)]
pub enum Came {
    /// So many bytes, at least one.
    Bytes(usize),
    /// Nothing, and nothing will come.
    End,
    /// Nothing yet.
    Later,
}

/// What a connection is to have before its next turn is worth while.
#[derive(Clone, Copy, Drop, PartialEq, Eq)]
pub enum Awaited {
    /// Bytes to be read.
    Bytes,
    /// Room for bytes to be written.
    Room,
}

/// The two directions of a connection, neither of which waits. They are one value, since a read may change what is known of the writing side.
pub trait Ends: Drop {
    // the bytes that are still to come, where they are known
    ghost left: { Self → Option (List ℕ) };

    // the bytes that were taken, where they are known
    ghost taken: { Self → Option (List ℕ) };

    /// Reads what is there.
    fn read(&mut self, buffer: &mut [u8]) -> Result<Came, Refused>
        ensures reads { Reads result (left self.old) (left self.new) buffer.new }
        ensures size { length buffer.new ≡ length buffer.old }
        ensures same { taken self.new ≡ taken self.old };

    /// Takes as many of the bytes as there is room for, perhaps none.
    fn write(&mut self, bytes: &[u8]) -> Result<usize, Refused>
        ensures fits { IfOk result (λ n. n ≤ length bytes.now) }
        ensures taken { AddsSoMany result (taken self.old) bytes.now (taken self.new) }
        ensures kept { OnErr result (Adds (taken self.old) [] (taken self.new)) }
        ensures same { left self.new ≡ left self.old };

    /// Wakes its server once the connection has what is awaited, also where it has it now.
    fn wait_for(&mut self, awaited: Awaited) -> Result<(), Refused>
        ensures left { left self.new ≡ left self.old }
        ensures taken { taken self.new ≡ taken self.old };
}
