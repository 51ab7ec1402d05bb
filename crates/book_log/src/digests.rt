//! Numbers by which the codes of vouchers are found.

ghost use Rattle.std.specs.Prelude.{◌≡◌};
ghost use Rattle.book_log.specs.Keys.{digest, code_key};

use model_rows::Change;

/// A number that is no text's.
const NO_CODE: u64 = 4093;

/// A number below 4,093 by which a text is found. Other texts may have it too.
#[tactic(auto, unfolding(crate::specs::Keys::digest_from))]
pub fn digest(text: &str) -> u64
    ensures { result ≡ digest text.now }
{
    let mut h: u64 = 0;
    let bytes = text.as_bytes();
    for b in bytes {
        h = (h * 257 + u64::from(*b)) % 4093;
    }
    h
}

/// The key of a change: the digest of the code that it gives a voucher.
pub fn code_key(change: &Change) -> u64
    ensures { result ≡ code_key change.now }
{
    match change {
        Change::PutVoucher(row) => digest(row.code.as_str()),
        _ => NO_CODE,
    }
}
