//! The 64-bit FNV-1a hash: <http://www.isthe.com/chongo/tech/comp/fnv/>.
ghost use Rattle.std.specs.Prelude.{◌≡◌, ◌↔◌, IsTrue};
ghost use Rattle.sst_blocks.specs.Words as spec;

const BASIS: u64 = 0xcbf2_9ce4_8422_2325;

const PRIME: u64 = 0x0100_0000_01b3;

// PRIME * INVERSE is 1 modulo 2^64.
const INVERSE: u64 = 0xce96_5057_aff6_957b;

/// A running FNV-1a hash.
#[derive(Clone, Copy, Debug, PartialEq, Eq)]
pub struct Fnv1a(u64);

impl Fnv1a {
    /// Returns the hash of no bytes.
    pub fn new() -> Fnv1a
        ensures { result.0 ≡ spec.fnv_basis }
    {
        Fnv1a(BASIS)
    }

    /// Hashes more bytes.
    pub fn update(&mut self, bytes: &[u8])
        ensures { self.new.0 ≡ spec.fnv_from self.old.0 bytes.now }
    {
        let mut hash = self.0;
        for byte in bytes {
            hash = step(hash, *byte);
        }
        self.0 = hash;
    }

    /// Returns the hash of the bytes so far.
    pub fn finish(self) -> u64
        ensures { result ≡ self.0 }
    {
        self.0
    }
}

/// Updates two hashes, in one loop over the length of the shorter run.
///
/// Each step waits for the one before it, so two hashes in one loop cost no more than one.
pub fn update_both(first: &mut Fnv1a, first_bytes: &[u8], second: &mut Fnv1a, second_bytes: &[u8])
    ensures first { first.new.0 ≡ spec.fnv_from first.old.0 first_bytes.now }
    ensures second { second.new.0 ≡ spec.fnv_from second.old.0 second_bytes.now }
{
    let both = first_bytes.len().min(second_bytes.len());
    let mut one = first.0;
    let mut other = second.0;
    for i in 0..both {
        one = step(one, first_bytes[i]);
        other = step(other, second_bytes[i]);
    }
    *first = Fnv1a(one);
    *second = Fnv1a(other);
    first.update(&first_bytes[both..]);
    second.update(&second_bytes[both..]);
}

/// Returns the FNV-1a hashes of four runs of bytes.
///
/// One loop covers the length of the shortest run. There it costs little more than one hash.
pub fn hash_four(first: &[u8], second: &[u8], third: &[u8], fourth: &[u8]) -> (u64, u64, u64, u64)
    ensures first { result.0 ≡ spec.fnv_from spec.fnv_basis first.now }
    ensures second { result.1 ≡ spec.fnv_from spec.fnv_basis second.now }
    ensures third { result.2 ≡ spec.fnv_from spec.fnv_basis third.now }
    ensures fourth { result.3 ≡ spec.fnv_from spec.fnv_basis fourth.now }
{
    let two = first.len().min(second.len());
    let others = third.len().min(fourth.len());
    let all = two.min(others);
    let mut a = BASIS;
    let mut b = BASIS;
    let mut c = BASIS;
    let mut d = BASIS;
    for i in 0..all {
        a = step(a, first[i]);
        b = step(b, second[i]);
        c = step(c, third[i]);
        d = step(d, fourth[i]);
    }
    (
        hash_on(a, &first[all..]),
        hash_on(b, &second[all..]),
        hash_on(c, &third[all..]),
        hash_on(d, &fourth[all..]),
    )
}

// Continues a hash with more bytes.
fn hash_on(hash: u64, bytes: &[u8]) -> u64
    ensures { result ≡ spec.fnv_from hash bytes.now }
{
    let mut hash = Fnv1a(hash);
    hash.update(bytes);
    hash.finish()
}

#[inline(always)]
fn step(hash: u64, byte: u8) -> u64
    ensures { result ≡ spec.fnv_step hash byte }
{
    (hash ^ u64::from(byte)).wrapping_mul(PRIME)
}

#[inline(always)]
fn step_back(hash: u64, byte: u8) -> u64
    ensures { result ≡ spec.fnv_back hash byte }
{
    hash.wrapping_mul(INVERSE) ^ u64::from(byte)
}

/// Returns whether some bytes have this FNV-1a hash, in about half the time of [`hash`].
///
/// A step can be undone. One loop hashes the front half and undoes the back half from `sum`. The
/// hash matches if both meet.
pub fn has_hash(bytes: &[u8], sum: u64) -> bool
    ensures { IsTrue result ↔ (spec.fnv1a bytes.now ≡ sum) }
{
    leads(BASIS, bytes, sum)
}

/// Tests two hashes as [`has_hash`], in one loop over the length of the shorter run.
pub fn have_hashes(first: &[u8], first_sum: u64, second: &[u8], second_sum: u64) -> (bool, bool)
    ensures first { IsTrue result.0 ↔ (spec.fnv1a first.now ≡ first_sum) }
    ensures second { IsTrue result.1 ↔ (spec.fnv1a second.now ≡ second_sum) }
{
    // Two bytes from each end per iteration: with one, loop overhead would delay the
    // multiplications.
    let twos = first.len().min(second.len()) / 4;
    let mut front = BASIS;
    let mut back = first_sum;
    let mut other_front = BASIS;
    let mut other_back = second_sum;
    for i in 0..twos {
        let at = 2 * i;
        front = step(front, first[at]);
        front = step(front, first[at + 1]);
        back = step_back(back, first[first.len() - 1 - at]);
        back = step_back(back, first[first.len() - 2 - at]);
        other_front = step(other_front, second[at]);
        other_front = step(other_front, second[at + 1]);
        other_back = step_back(other_back, second[second.len() - 1 - at]);
        other_back = step_back(other_back, second[second.len() - 2 - at]);
    }
    let both = 2 * twos;
    (
        leads(front, &first[both..first.len() - both], back),
        leads(other_front, &second[both..second.len() - both], other_back),
    )
}

// Returns whether hashing the bytes after `from` results in `to`.
fn leads(from: u64, bytes: &[u8], to: u64) -> bool
    ensures { IsTrue result ↔ (spec.fnv_from from bytes.now ≡ to) }
{
    let half = bytes.len() / 2;
    let mut front = from;
    let mut back = to;
    for i in 0..half {
        front = step(front, bytes[i]);
        back = step_back(back, bytes[bytes.len() - 1 - i]);
    }
    hash_on(front, &bytes[half..bytes.len() - half]) == back
}

/// Returns the FNV-1a hash of some bytes; filters use it for keys.
pub fn hash(bytes: &[u8]) -> u64
    ensures { result ≡ spec.fnv_from spec.fnv_basis bytes.now }
{
    let mut hash = Fnv1a::new();
    hash.update(bytes);
    hash.finish()
}
