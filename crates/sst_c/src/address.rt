//! The address of bytes.
ghost use Rattle.std.specs.Prelude.{◌≡◌};
ghost use Rattle.sst_c.specs.Words as spec;

/// Returns the address of `bytes`.
pub(crate) fn address_of(bytes: &[u8]) -> *const u8
    ensures { result ≡ spec.as_ptr bytes.entry }
{
    bytes.as_ptr()
}
