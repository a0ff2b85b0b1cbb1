//! A box as an untyped pointer, or none.
ghost use Rattle.std.specs.Prelude.{◌≡◌, IsSome, Option, Some, None};
ghost use Rattle.sst_c.specs.Words as spec;

use crate::Loose;
use crate::held::Held;
use std::alloc::{Allocator, Global};
use std::marker::Model;
use std::ptr::null_mut;

/// A box as a pointer, or none.
///
/// The pointer is untyped: a call from C cannot take a reference to a type with an enum or a large
/// integer in it.
#[repr(C)]
pub struct Boxed {
    at: *mut u8,
    alloc: Global,
    /// The value in the box, if there is one.
    pub ghost value: { Option spec.HeldValue },
}

impl Model for Boxed {
    ghost use Rattle.sst_c.specs.Owned.{owned};
    ghost use Rattle.sst_c.specs.contracts.held.Held.{the_row};

    ghost also_owns = { λ b.
        owned (⟦<Global as Allocator>⟧.dealloc_token b.alloc) the_row b.at b.value };
}

pub(crate) fn hold(loose: Loose<Held, Global>) -> Boxed
    ensures { result.value ≡ Some loose.value }
{
    let Loose { at, alloc } = loose;
    Boxed {
        at: at as *mut u8,
        alloc,
    }
}

pub(crate) fn release(boxed: Boxed) -> Loose<Held, Global>
    requires { IsSome boxed.value }
    ensures { boxed.value ≡ Some result.value }
{
    let Boxed { at, alloc } = boxed;
    Loose {
        at: at as *mut Held,
        alloc,
    }
}

fn bare(at: *mut u8, alloc: Global) -> Boxed
    ensures { result.value ≡ None }
{
    Boxed { at, alloc }
}

fn nowhere() -> *mut u8 {
    null_mut()
}

/// Returns no box.
pub(crate) fn no_box(alloc: Global) -> Boxed
    ensures { result.value ≡ None }
{
    bare(nowhere(), alloc)
}

/// Consumes a `Boxed` without a box.
pub(crate) fn discard(boxed: Boxed)
    requires { boxed.value ≡ None }
{
    let Boxed { at: _, alloc: _ } = boxed;
}
