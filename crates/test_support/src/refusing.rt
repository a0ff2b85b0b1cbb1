//! An allocator for tests that fails one request.

use std::alloc::{AllocError, Allocator, Global};
use std::cell::Cell;

#[derive(Clone, Copy)]
struct Turns {
    nth: usize,
    made: usize,
}

/// Passes each request on to `inner`, except for the `nth`, counted from 1, which fails. A growth
/// or a shrink is a request too. Containers take a `&Refusing`.
#[derive(Drop)]
pub struct Refusing<B: Allocator = Global> {
    inner: B,
    turns: Cell<Turns>,
}

impl<B: Allocator> Refusing<B> {
    /// Fails no request if `nth` is 0.
    pub fn new(inner: B, nth: usize) -> Refusing<B> {
        Refusing {
            inner,
            turns: Cell::new(Turns { nth, made: 0 }),
        }
    }

    /// The number of requests made, including the failed one.
    pub fn requests(&self) -> usize {
        self.turns.get().made
    }
}

/// Calls `run` with no failing request, and then once for each request that it made, with this
/// request failing.
///
/// `run` receives the allocator and whether a request fails, and returns whether its result was
/// right. Returns the number of requests.
///
/// # Errors
///
/// The first `nth` for which `run` returned `false` or made fewer requests than `nth`. It is 0 for
/// the call with no failing request.
pub fn each_refused<F: Fn(&Refusing, bool) -> bool>(alloc: Global, run: F) -> Result<usize, usize>
    requires { F.IsAlwaysCallable run }
{
    let unrefused = Refusing::new(alloc, 0);
    if !run(&unrefused, false) {
        return Err(0);
    }
    let requests = unrefused.requests();
    for nth in 1..=requests {
        let refusing = Refusing::new(alloc, nth);
        if !run(&refusing, true) || refusing.requests() < nth {
            return Err(nth);
        }
    }
    Ok(requests)
}

fn refuses(turns: &Cell<Turns>) -> bool {
    let Turns { nth, made } = turns.get();
    let made = made.saturating_add(1);
    turns.set(Turns { nth, made });
    made == nth
}

unsafe impl<B: Allocator> Allocator for Refusing<B> {
    ghost dealloc_token = { λ heap ty ptr. B.dealloc_token heap.inner ty ptr };

    fn allocate(&self, size: usize, align: usize) -> Result<*mut u8, AllocError> {
        if refuses(&self.turns) {
            return Err(AllocError);
        }
        self.inner.allocate(size, align)
    }

    unsafe fn deallocate(&self, ptr: *mut u8, size: usize, align: usize) {
        self.inner.deallocate(ptr, size, align);
    }
}
