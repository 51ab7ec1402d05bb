//! Numbers by which texts and pairs of ids are found.

ghost use Rattle.std.specs.Prelude.{◌≡◌};
ghost use Rattle.book_indexes.specs.Digests.{digest, pair};

/// All digests are below this one.
const DIGESTS: u64 = 36_028_797_018_963_968;

/// The number below 2^55 by which a text is found. Other texts may have it too.
#[tactic(auto, unfolding(crate::specs::Digests::digest_from))]
pub fn digest(text: &str) -> u64
    ensures { result ≡ digest text.now }
{
    let mut h: u64 = 0;
    let bytes = text.as_bytes();
    for b in bytes {
        h = (h * 257 + u64::from(*b)) % DIGESTS;
    }
    h
}

/// The number below 2^55 by which two ids are found together. Others may have it too.
pub fn pair(a: u64, b: u64) -> u64
    ensures { result ≡ pair a b }
{
    ((u128::from(a) * 257 + u128::from(b)) % u128::from(DIGESTS)) as u64
}
