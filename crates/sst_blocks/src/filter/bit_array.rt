//! Bit arrays, and the probes of a hash.
ghost use Rattle.std.specs.Prelude.{◌≡◌, ◌+◌, ◌*◌, ◌%◌, ◌^◌, ◌==◌, ◌||◌, ◌<◌, length, true};
ghost use Rattle.std.specs.Prelude.{List, ℕ};
ghost use Rattle.sst_blocks.specs.Words as spec;

// The distance between the probes of a hash.
#[inline(always)]
fn stride(hash: u64) -> u64
    ensures { result ≡ spec.stride hash }
{
    (hash >> 32) | 1
}

#[inline(always)]
fn has_bit(bits: &[u8], place: u64) -> bool
    requires { place < 8 * length bits.now }
    ensures { result ≡ spec.is_set bits.now place }
{
    (bits[(place / 8) as usize] >> (place % 8)) & 1 == 1
}

#[inline(always)]
fn set_bit(bits: &mut [u8], place: u64)
    requires { place < 8 * length bits.old }
    ensures length { length bits.new ≡ length bits.old }
    ensures bits { (p : ℕ) → p < 8 * length bits.old →
        spec.is_set bits.new p ≡ (spec.is_set bits.old p || (place == p)) }
{
    bits[(place / 8) as usize] |= 1 << (place % 8);
}

// The next probe, and its bit index. A modulo, the dearest operation, is needed only if the sum
// exceeds `u64::MAX`.
#[inline(always)]
fn next_probe(probe: u64, place: u64, stride: u64, step: u64, len: u64) -> (u64, u64)
    requires some { 0 < len }
    requires short { len < 2 ^ 63 }
    requires place { place ≡ probe % len }
    requires step { step ≡ stride % len }
    ensures probe { result.0 ≡ (probe + stride) % 2 ^ 64 }
    ensures place { result.1 ≡ result.0 % len }
{
    let (next, wraps) = probe.overflowing_add(stride);
    if wraps {
        return (next, next % len);
    }
    let place = place + step;
    // Below `len` the difference wraps, and is the greater. A branch would be taken at random.
    (next, place.min(place.wrapping_sub(len)))
}

/// Sets the bits of a hash.
pub(crate) fn set_probes(bits: &mut [u8], count: u8, hash: u64)
    requires some { 0 < length bits.old }
    requires short { length bits.old < 2 ^ 60 }
    ensures length { length bits.new ≡ length bits.old }
    ensures bits { (p : ℕ) → p < 8 * length bits.old →
        spec.is_set bits.new p ≡
        (spec.is_set bits.old p || spec.is_in p (spec.probes (8 * length bits.old) hash count)) }
{
    let len = bits.len() as u64 * 8;
    let stride = stride(hash);
    let step = stride % len;
    let mut probe = hash;
    let mut place = hash % len;
    for _ in 0..count {
        set_bit(bits, place);
        (probe, place) = next_probe(probe, place, stride, step, len);
    }
}

/// Returns whether all bits of a hash are set.
fn has_probes(bits: &[u8], count: u8, hash: u64) -> bool
    requires some { 0 < length bits.now }
    requires short { length bits.now < 2 ^ 60 }
    ensures { result ≡ spec.list_all (spec.is_set bits.now)
        (spec.probes (8 * length bits.now) hash count) }
{
    let len = bits.len() as u64 * 8;
    let stride = stride(hash);
    let step = stride % len;
    let mut probe = hash;
    let mut place = hash % len;
    for _ in 0..count {
        if !has_bit(bits, place) {
            return false;
        }
        (probe, place) = next_probe(probe, place, stride, step, len);
    }
    true
}

#[inline(always)]
fn admits(payload: &[u8], hash: u64) -> bool
    requires some { 1 < length payload.now }
    requires short { length payload.now < 2 ^ 60 }
    ensures { result ≡ spec.admits (spec.filter_in payload.now) hash }
{
    has_probes(&payload[1..], payload[0], hash)
}

/// Returns whether a filter's payload admits a hash: all bits of the hash are set.
///
/// The payload is one byte with the number of probes, then the bits. It must have at least 2 bytes
/// and fewer than 2^60. The call does not allocate.
#[inline]
pub fn contains_hash(payload: &[u8], hash: u64) -> bool
    requires some { 1 < length payload.now }
    requires short { length payload.now < 2 ^ 60 }
    ensures admits { result ≡ spec.admits (spec.filter_in payload.now) hash }
    // A hash that was set is admitted.
    ensures yes { (hashes : List ℕ) → spec.IsFilterOf (spec.filter_in payload.now) hashes →
        spec.is_in hash hashes ≡ true → result ≡ true }
{
    admits(payload, hash)
}
