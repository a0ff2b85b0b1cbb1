//! Little-endian integers.
ghost use Rattle.std.specs.Prelude.{◌≡◌, ◌++◌, ◌<◌, ◌≤◌, ◌^◌, length, OnOk, OnErr, IfErr};
ghost use Rattle.sst_blocks.specs.Words as spec;

use crate::TableVersion;
use byteorder::{ByteOrder, LittleEndian};
use sst_entries::Error;
use std::alloc::Allocator;

/// Reads a little-endian `u16` from the first 2 bytes, which must exist.
#[inline]
#[tactic(auto, unfolding(crate::specs::Number::num2))]
pub fn u16_at(bytes: &[u8]) -> u16
    requires { 2 ≤ length bytes.now }
    ensures { result ≡ spec.num2 bytes.now }
{
    LittleEndian::read_u16(bytes)
}

/// Reads a little-endian `u32` from the first 4 bytes, which must exist.
#[inline]
#[tactic(auto, unfolding(crate::specs::Number::num4))]
pub fn u32_at(bytes: &[u8]) -> u32
    requires { 4 ≤ length bytes.now }
    ensures { result ≡ spec.num4 bytes.now }
{
    LittleEndian::read_u32(bytes)
}

/// Reads a little-endian `u64` from the first 8 bytes, which must exist.
#[inline]
#[tactic(auto, unfolding(crate::specs::Number::num8))]
pub fn u64_at(bytes: &[u8]) -> u64
    requires { 8 ≤ length bytes.now }
    ensures { result ≡ spec.num8 bytes.now }
{
    LittleEndian::read_u64(bytes)
}

/// Returns the size of an encoded key length, in bytes.
#[inline]
pub fn key_width(version: TableVersion) -> usize
    ensures { result ≡ spec.key_width version }
{
    match version {
        TableVersion::V3 => 2,
        TableVersion::V4 => 4,
    }
}

/// Reads the key length of a version from the first bytes, which must exist.
#[inline]
pub fn key_len_at(version: TableVersion, bytes: &[u8]) -> usize
    requires { spec.key_width version ≤ length bytes.now }
    ensures value { result ≡ spec.key_len_at version bytes.now }
    ensures short { result < 2 ^ 32 }
{
    match version {
        TableVersion::V3 => usize::from(u16_at(bytes)),
        TableVersion::V4 => u32_at(bytes) as usize,
    }
}

/// Appends a `u32`, low byte first.
///
/// # Errors
///
/// Fails only with [`Error::OutOfMemory`]; `buf` is then unchanged.
#[tactic(auto, unfolding(crate::specs::Number::le4))]
pub fn put_u32<A: Allocator>(buf: &mut Vec<u8, A>, n: u32) -> Result<(), Error>
    ensures ok { OnOk result (buf.new.items ≡ buf.old.items ++ spec.le4 n) }
    ensures unchanged { OnErr result (buf.new.items ≡ buf.old.items) }
    ensures err { IfErr result (λ e. e ≡ spec.OutOfMemory) }
{
    buf.extend_from_slice(&n.to_le_bytes())?;
    Ok(())
}

/// Appends a `u64`, low byte first.
///
/// # Errors
///
/// Fails only with [`Error::OutOfMemory`]; `buf` is then unchanged.
#[tactic(auto, unfolding(crate::specs::Number::le8))]
pub fn put_u64<A: Allocator>(buf: &mut Vec<u8, A>, n: u64) -> Result<(), Error>
    ensures ok { OnOk result (buf.new.items ≡ buf.old.items ++ spec.le8 n) }
    ensures unchanged { OnErr result (buf.new.items ≡ buf.old.items) }
    ensures err { IfErr result (λ e. e ≡ spec.OutOfMemory) }
{
    buf.extend_from_slice(&n.to_le_bytes())?;
    Ok(())
}
