//! Entries: a key and an id as one number, so that they stand in order of key and then of id.

ghost use Rattle.std.specs.Prelude.{◌≡◌};
ghost use Rattle.base_index.specs.Entries.{entry, id_of};

/// 2^64.
const KEYS: u128 = 18_446_744_073_709_551_616;

/// The entry of a key and an id.
pub fn entry(key: u64, id: u64) -> u128
    ensures { result ≡ entry key id }
{
    u128::from(key) * KEYS + u128::from(id)
}

/// The id of an entry.
pub fn id_of(entry: u128) -> u64
    ensures { result ≡ id_of entry }
{
    (entry % KEYS) as u64
}
