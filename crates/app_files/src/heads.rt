//! Whether a file can be a shop's, by its bytes.

ghost use Rattle.std.specs.Prelude.{◌≡◌, ◌+◌, ◌-◌, ◌<◌, ◌≤◌, ℕ, false, List, length, take, drop, IfOk, IsTrue};
ghost use Rattle.app_files.specs.Heads.{HasMarkAt, IsBehind, TellsMark, begins_as_database};
ghost use Rattle.std.specs.Io.KnownBytes.{IsAtEnd};
ghost use Rattle.base_devices.specs.Reported.{Gives};

use std::io;
use std::io::Read;

// How many bytes are looked at once.
const PIECE: usize = 16_384;

// Of a mark that lies in two pieces, the first has at most so many bytes.
const KEPT: usize = 12;

// What SQLite's list of tables has of the table `shop`: what it is, its name, and whose it is.
const MARK: &[u8; 13] = b"tableshopshop";

/// Whether a file's bytes begin as each SQLite file does.
pub fn begins_as_database(bytes: &[u8]) -> bool
    ensures { result ≡ begins_as_database bytes.now }
{
    bytes.starts_with(b"SQLite format 3\0")
}

/// Whether bytes have, somewhere, what SQLite's list of tables has of a table `shop`.
pub fn has_mark(bytes: &[u8]) -> bool
    ensures found { IsTrue result → (at : ℕ) × HasMarkAt bytes.now at }
    ensures nowhere { result ≡ false → (at : ℕ) → at < length bytes.now
        → ¬ (HasMarkAt bytes.now at) }
{
    for at in 0..bytes.len() {
        if bytes[at..].starts_with(MARK) {
            return true;
        }
    }
    false
}

// Moves the last bytes of a piece to its front: as many as may begin a mark that ends in the next piece. How many these are.
fn keep_last(piece: &mut [u8], seen: usize) -> usize
    requires { seen ≤ length piece.old }
    ensures most { result ≤ 12 }
    ensures same { length piece.new ≡ length piece.old }
    ensures last { take result piece.new ≡ drop (seen - 12) (take seen piece.old) }
{
    let from = seen.saturating_sub(KEPT);
    let kept = seen - from;
    let mut last = [0; KEPT];
    last[..kept].copy_from_slice(&piece[from..seen]);
    piece[..kept].copy_from_slice(&last[..kept]);
    kept
}

// Reads bytes into a piece, behind those that were kept. How many are in it then, and how many of them are new.
fn read_behind<R: Read>(reader: &mut R, piece: &mut [u8], kept: usize) -> io::Result<usize>
    requires { kept ≤ length piece.old }
    ensures same { length piece.new ≡ length piece.old }
    ensures inside { IfOk result (λ n. kept + n ≤ length piece.new) }
    ensures behind { IfOk result (λ n. IsBehind (take kept piece.old) (take (kept + n) piece.new)
        (R.remaining reader.old) (R.remaining reader.new)) }
    ensures ended { IfOk result
        (λ n. n ≡ 0 → kept < length piece.old → IsAtEnd (R.remaining reader.new)) }
{
    match reader.read(&mut piece[kept..]) {
        Ok(n) => Ok(n),
        Err(error) => Err(error),
    }
}

/// Whether the bytes that a reader still has, from where it stands, have the mark of a table `shop`. It reads up to the piece with the mark,
/// or to the end.
pub fn finds_mark<R: Read>(reader: &mut R) -> io::Result<bool>
    ensures { IfOk result (λ found. (bytes : List ℕ)
        × Gives (R.remaining reader.old) bytes (R.remaining reader.new)
        × TellsMark found bytes (R.remaining reader.new)) }
{
    let mut piece = [0; PIECE];
    let mut kept = 0;
    for _ in 0..u64::MAX {
        let n = read_behind(reader, &mut piece, kept)?;
        let seen = kept + n;
        if has_mark(&piece[..seen]) {
            return Ok(true);
        }
        if n == 0 {
            return Ok(false);
        }
        kept = keep_last(&mut piece, seen);
    }
    Err(io::ErrorKind::FileTooLarge.into())
}
