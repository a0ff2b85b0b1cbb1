//! Verifying a table by steps.
ghost use Rattle.std.specs.Prelude.{◌≡◌, ◌⊎◌, true, IsSomeAnd, None, Some};
ghost use Rattle.sst_c.specs.Words as spec;

use crate::codes::{CLOSED, OPEN, OTHER_KIND};
use crate::handle::Handle;
use crate::held::{Held, What};
use crate::verifier::{ProgressReport, Verifier, no_progress};
use crate::verify::{VerifyReport, nothing};
use lsm_readers::Table;
use std::alloc::Global;

// Puts a verification of a table into a closed handle.
fn begin(alloc: Global, held: &Held, verification: &mut Handle) -> u32
    requires { verification.old.boxed.value ≡ None }
    ensures begins { spec.OpensNew spec.is_table held.now.what verification.new.boxed.value result }
    ensures memory { spec.is_table held.now.what ≡ true → (result ≡ 0) ⊎ (result ≡ 1) }
    ensures begun { result ≡ 0 →
        IsSomeAnd verification.new.boxed.value (λ k. spec.VerifiesHeld held.now.what k.what) }
{
    let What::Table(table) = &held.what else {
        return OTHER_KIND;
    };
    match Verifier::of(table) {
        Ok(verifier) => verification.begin(alloc, What::Verification(verifier)),
        Err(error) => u32::from(error.number()),
    }
}

/// Opens a verification of a table by steps.
///
/// `verification` must be closed. Nothing is read yet. The verification holds a reference to the
/// table, which may be closed before it.
///
/// # Errors
///
/// - 101: `verification` is open.
/// - 100: `table` is closed.
/// - 102: `table` holds no table.
/// - 1: out of memory.
///
/// On error, both handles are unchanged.
#[unsafe(no_mangle)]
pub extern "C" fn sst_verification_open(
    alloc: Global,
    table: &mut Handle,
    verification: &mut Handle,
) -> u32
    ensures opens { spec.OpensFrom spec.is_table table.old.boxed.value table.new.boxed.value
        verification.old.boxed.value verification.new.boxed.value result }
    ensures memory { (h : spec.HeldValue) → verification.old.boxed.value ≡ None →
        table.old.boxed.value ≡ Some h → spec.is_table h.what ≡ true → (result ≡ 0) ⊎ (result ≡ 1) }
    // It verifies the table, and has read nothing yet.
    ensures begun { spec.MakesFrom table.old.boxed.value result verification.new.boxed.value
        spec.VerifiesHeld }
{
    if verification.is_open() {
        return OPEN;
    }
    let Some(held) = table.take(alloc) else {
        return CLOSED;
    };
    let code = begin(alloc, &held, verification);
    table.put(held);
    code
}

// Steps the held object, if it is a verification.
fn step(held: &mut Held, progress: &mut ProgressReport, returned: &mut VerifyReport) -> u32
    requires progress { progress.old ≡ spec.no_progress }
    requires returned { returned.old ≡ spec.no_finding }
    ensures steps { spec.StepsVerification held.old.what result progress.new returned.new
        held.new.what }
    ensures found { spec.found_by held.new ≡ spec.found_by held.old }
{
    match &mut held.what {
        What::Verification(verifier) => verifier.step(progress, returned),
        _ => OTHER_KIND,
    }
}

/// Makes a step of a verification: reads the next block.
///
/// `progress` gets the number of bytes of data blocks read. If no block is left, it also reports
/// the end, and `returned` gets the result of `sst_table_verify`.
///
/// # Errors
///
/// - 107: the table has a fault. `returned` gets the first one and its position.
/// - 100: the handle is closed.
/// - 102: the handle holds no verification.
/// - 1: out of memory. Nothing is known about the table then.
///
/// With 100 and 102, `progress` and `returned` are zero. At the end and on error, the verification
/// is unchanged, so the step can be repeated.
#[unsafe(no_mangle)]
pub extern "C" fn sst_verification_step(
    alloc: Global,
    verification: &mut Handle,
    progress: &mut ProgressReport,
    returned: &mut VerifyReport,
) -> u32
    ensures shut { verification.old.boxed.value ≡ None → (result ≡ 100) ×
        (progress.new ≡ spec.no_progress) × (returned.new ≡ spec.no_finding) ×
        (verification.new.boxed.value ≡ None) }
    ensures steps { (h : spec.HeldValue) → verification.old.boxed.value ≡ Some h →
        IsSomeAnd verification.new.boxed.value (λ k.
        spec.StepsVerification h.what result progress.new returned.new k.what) }
    // The entry found by the last read is unchanged.
    ensures found { (h : spec.HeldValue) → verification.old.boxed.value ≡ Some h →
        IsSomeAnd verification.new.boxed.value (λ k. spec.found_by k ≡ spec.found_by h) }
{
    *progress = no_progress();
    *returned = nothing();
    let Some(mut held) = verification.take(alloc) else {
        return CLOSED;
    };
    let code = step(&mut held, progress, returned);
    verification.put(held);
    code
}
