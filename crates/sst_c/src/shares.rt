//! Further handles of one table.
ghost use Rattle.std.specs.Prelude.{◌≡◌, ◌⊎◌, true, IsSomeAnd, None, Some};
ghost use Rattle.sst_c.specs.Words as spec;

use crate::codes::{CLOSED, NO_MEMORY, OPEN, OTHER_KIND};
use crate::handle::Handle;
use crate::held::{Held, What};
use std::alloc::Global;

fn share(alloc: Global, held: &Held, other: &mut Handle) -> u32
    requires { other.old.boxed.value ≡ None }
    ensures begins { spec.OpensNew spec.is_table held.now.what other.new.boxed.value result }
    ensures memory { spec.is_table held.now.what ≡ true → (result ≡ 0) ⊎ (result ≡ 1) }
    ensures shared { result ≡ 0 → IsSomeAnd other.new.boxed.value (λ k. k.what ≡ held.now.what) }
{
    let What::Table(table) = &held.what else {
        return OTHER_KIND;
    };
    let Ok(share) = table.clone() else {
        return NO_MEMORY;
    };
    other.begin(alloc, What::Table(share))
}

/// Opens a further handle of a table.
///
/// `other` must be closed. The entry found through one handle is independent of the other.
///
/// # Errors
///
/// - 101: `other` is open.
/// - 100: `table` is closed.
/// - 102: `table` holds no table.
/// - 1: out of memory.
///
/// On error, both handles are unchanged.
#[unsafe(no_mangle)]
pub extern "C" fn sst_table_share(alloc: Global, table: &mut Handle, other: &mut Handle) -> u32
    ensures opens { spec.OpensFrom spec.is_table table.old.boxed.value table.new.boxed.value
        other.old.boxed.value other.new.boxed.value result }
    ensures memory { (h : spec.HeldValue) → other.old.boxed.value ≡ None →
        table.old.boxed.value ≡ Some h → spec.is_table h.what ≡ true → (result ≡ 0) ⊎ (result ≡ 1) }
    // It holds the same table.
    ensures shared { (h : spec.HeldValue) → table.old.boxed.value ≡ Some h → result ≡ 0 →
        IsSomeAnd other.new.boxed.value (λ k. k.what ≡ h.what) }
{
    if other.is_open() {
        return OPEN;
    }
    let Some(held) = table.take(alloc) else {
        return CLOSED;
    };
    let code = share(alloc, &held, other);
    table.put(held);
    code
}
