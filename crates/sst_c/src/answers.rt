//! Copying the results of many reads at once.
ghost use Rattle.std.specs.Prelude.{◌≡◌, ◌≢◌, ◌≤◌, None, Some, drop, length};
ghost use Rattle.sst_c.specs.Words as spec;

use crate::answer_list::AnswerList;
use crate::codes::{CLOSED, NO_SUCH, OTHER_KIND};
use crate::handle::Handle;
use crate::held::{Held, What};
use crate::laying::lay_found;
use std::alloc::Global;

// Copies the entries found for the keys from an index on, one after another, as many as fit.
fn lay_each(found: &AnswerList, first: usize, bytes: &mut [u8], count: &mut u64)
    requires { first ≤ length found.now }
    ensures { spec.CopiesMany (drop first found.now) bytes.old bytes.new count.new }
{
    let mut at = 0;
    let left = found.len() - first;
    for place in 0..left {
        *count = place as u64;
        if !lay_found(found.entry(first + place), bytes, &mut at) {
            return;
        }
    }
    *count = left as u64;
}

fn take(held: &Held, first: u64, bytes: &mut [u8], count: &mut u64) -> u32
    ensures other { spec.many_in held.now.what ≡ None → result ≡ 102 }
    ensures takes { spec.TakesMany held.now.what first bytes.old bytes.new count.new result }
    ensures left { result ≢ 0 → (bytes.new ≡ bytes.old) × (count.new ≡ count.old) }
{
    let What::Answers(found) = &held.what else {
        return OTHER_KIND;
    };
    if first > found.len() as u64 {
        return NO_SUCH;
    }
    lay_each(found, first as usize, bytes, count);
    0
}

/// Copies the keys and values found for the keys from index `first` on to the front of `bytes`.
///
/// They are one after another: key, value, key, value. The call stops at the first entry that does
/// not fit. `count` is set to the number of keys that were passed. A key without an entry counts,
/// and takes no bytes.
///
/// # Errors
///
/// - 100: the handle is closed.
/// - 102: it holds no answers.
/// - 105: there are fewer than `first` keys.
///
/// On error nothing is copied, and `count` does not change.
#[unsafe(no_mangle)]
pub extern "C" fn sst_answers_take(
    alloc: Global,
    answers: &mut Handle,
    first: u64,
    bytes: &mut [u8],
    count: &mut u64,
) -> u32
    ensures kept { answers.new.boxed.value ≡ answers.old.boxed.value }
    ensures shut { answers.old.boxed.value ≡ None → result ≡ 100 }
    ensures other { (h : spec.HeldValue) → answers.old.boxed.value ≡ Some h →
        spec.many_in h.what ≡ None → result ≡ 102 }
    ensures takes { (h : spec.HeldValue) → answers.old.boxed.value ≡ Some h →
        spec.TakesMany h.what first bytes.old bytes.new count.new result }
    ensures left { result ≢ 0 → (bytes.new ≡ bytes.old) × (count.new ≡ count.old) }
{
    let Some(held) = answers.take(alloc) else {
        return CLOSED;
    };
    let code = take(&held, first, bytes, count);
    answers.put(held);
    code
}
