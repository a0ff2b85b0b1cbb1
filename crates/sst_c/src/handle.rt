//! Handles, which C callers hold.
ghost use Rattle.std.specs.Prelude.{◌≡◌, ◌≢◌, ◌⊎◌, is_some, nat_lt, IsSomeAnd, MatchOption, Option};
ghost use Rattle.std.specs.Prelude.{Some, None};
ghost use Rattle.sst_c.specs.Words as spec;

use crate::Loose;
use crate::boxed::{Boxed, discard, hold, no_box, release};
use crate::held::{Held, What, box_of};
use std::alloc::Global;
use std::mem;

/// A handle that a C caller holds: two words, which are zero while it is closed.
///
/// C initializes both words with zero. An open handle owns a box. C may move the handle, but must
/// not use a copy beside it.
#[repr(C)]
pub struct Handle {
    is_open: u64,
    boxed: Boxed,
    ghost ok: { is_some boxed.value ≡ nat_lt 0 is_open },
}

// A handle's contents may move to another thread: each of their parts is `Send`.
fn crosses<T: Send>(_held: &T) {}

impl Handle {
    /// Puts a box into a closed handle.
    pub(crate) fn put(&mut self, held: Box<Held>)
        requires { self.old.boxed.value ≡ None }
        ensures { self.new.boxed.value ≡ Some held.value }
    {
        crosses(&held);
        discard(mem::replace(&mut self.boxed, hold(Loose::of(held))));
        self.is_open = 1;
    }

    /// Puts a new object into a closed handle.
    ///
    /// Returns 0, or 1 if out of memory.
    pub(crate) fn begin(&mut self, alloc: Global, what: What) -> u32
        requires { self.old.boxed.value ≡ None }
        ensures memory { (result ≡ 0) ⊎ (result ≡ 1) }
        ensures new { result ≡ 0 → IsSomeAnd self.new.boxed.value (λ h. spec.found_by h ≡ None) }
        ensures begun { result ≡ 0 → self.new.boxed.value ≡ Some (spec.begun what) }
        ensures left { result ≢ 0 → self.new.boxed.value ≡ None }
    {
        match box_of(alloc, what) {
            Ok(held) => {
                self.put(held);
                0
            }
            Err(error) => u32::from(error.number()),
        }
    }

    /// Takes the contents out and leaves the handle closed.
    pub(crate) fn take(&mut self, alloc: Global) -> Option<Box<Held>>
        ensures taken { MatchOption result (self.old.boxed.value ≡ None)
            (λ held. self.old.boxed.value ≡ Some held.value) }
        ensures empty { self.new.boxed.value ≡ None }
    {
        if self.is_open == 0 {
            return None;
        }
        self.is_open = 0;
        Some(release(mem::replace(&mut self.boxed, no_box(alloc))).into_box())
    }

    /// Returns whether the handle is open.
    pub(crate) fn is_open(&self) -> bool
        ensures { result ≡ is_some self.now.boxed.value }
    {
        self.is_open > 0
    }
}

/// Closes a handle and drops its contents.
///
/// Closing a closed handle does nothing. Objects opened from the contents hold references of their
/// own, so handles can be closed in any order.
#[unsafe(no_mangle)]
pub extern "C" fn sst_close(alloc: Global, handle: &mut Handle)
    ensures { handle.new.boxed.value ≡ None }
{
    drop(handle.take(alloc));
}
