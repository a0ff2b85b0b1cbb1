//! Tests that paths are free.
ghost use Rattle.std.specs.Prelude.{◌≡◌, IfErr, IfSome, OnOk, false};
ghost use Rattle.sst_tool.specs.files.Words as spec;

use crate::files::{FileFault, Place};

/// Tests that nothing has a path, not even a link.
///
/// # Errors
///
/// Fails with `taken` if something has the path, and with the error of the system if it cannot be
/// looked up.
pub fn check_free<P: Place>(place: &P, path: &str, taken: FileFault) -> Result<(), FileFault>
    ensures free { OnOk result
        (IfSome (P.there place.now path.now) (λ there. there ≡ false)) }
    ensures found { IfErr result (spec.TellsFound taken (P.there place.now path.now)) }
{
    match place.look(path)? {
        Some(_) => Err(taken),
        None => Ok(()),
    }
}
