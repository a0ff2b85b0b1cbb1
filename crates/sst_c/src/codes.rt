//! Codes that calls return: 0, an error code of the library, or one of these.
ghost use Rattle.std.specs.Prelude.{◌≡◌};

/// An allocation failed. The library has the same code.
pub(crate) const NO_MEMORY: u32 = 1;

/// The handle is closed.
pub(crate) const CLOSED: u32 = 100;

/// The handle to be filled is open.
pub(crate) const OPEN: u32 = 101;

/// The handle holds another kind of object.
pub(crate) const OTHER_KIND: u32 = 102;

/// The room is too small for the bytes to be copied.
pub(crate) const NO_ROOM: u32 = 103;

/// An entry is not in order after the one before it, or two keys are out of order.
pub(crate) const OUT_OF_ORDER: u32 = 104;

/// An index, offset, kind or option is out of range, or lengths do not add up.
pub(crate) const NO_SUCH: u32 = 105;

/// The last read found nothing.
pub(crate) const NOTHING: u32 = 106;

/// A verification found a fault.
pub(crate) const FAULTY: u32 = 107;

/// The version of the C interface. A header with another version may declare other calls.
const VERSION: u32 = 4;

/// Returns the version of the C interface.
#[unsafe(no_mangle)]
pub extern "C" fn sst_version() -> u32
    ensures { result ≡ 4 }
{
    VERSION
}
