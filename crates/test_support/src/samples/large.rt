//! Calls a function on a large value and drops the value. The functions are generic, so that a
//! proof looks at no part of the value.
use sst_blocks::Error;
use std::alloc::Allocator;

/// Calls `ask` on a value and drops the value, or returns the error of making it.
pub fn asked<T: Drop, U, F: FnOnce(&T) -> Result<U, Error> + Drop>(
    made: Result<T, Error>,
    ask: F,
) -> Result<U, Error>
    requires { F.IsAlwaysCallable ask }
{
    ask(&made?)
}

/// Calls `ask` on a value with a second one, which is copied, and drops the first. Returns the
/// error of making it.
pub fn asked_with<T: Drop, C: Copy, U, F: FnOnce(&T, C) -> Result<U, Error> + Drop>(
    made: Result<T, Error>,
    with: C,
    ask: F,
) -> Result<U, Error>
    requires { F.IsAlwaysCallable ask }
{
    ask(&made?, with)
}

/// Calls `ask` on a mutable value and drops it, or returns the error of making it.
pub fn asked_mut<T: Drop, U, F: FnOnce(&mut T) -> Result<U, Error> + Drop>(
    made: Result<T, Error>,
    ask: F,
) -> Result<U, Error>
    requires { F.IsAlwaysCallable ask }
{
    ask(&mut made?)
}

/// Calls `ask` on a mutable value, if there is one, and drops it; or returns the error of making
/// it.
pub fn asked_if_any<T: Drop, U, F: FnOnce(&mut T) -> Result<U, Error> + Drop>(
    made: Result<Option<T>, Error>,
    ask: F,
) -> Result<Option<U>, Error>
    requires { F.IsAlwaysCallable ask }
{
    match made? {
        Some(mut value) => Ok(Some(ask(&mut value)?)),
        None => Ok(None),
    }
}

/// Pushes a value, or returns the error of making it.
pub fn add<T: Drop, A: Allocator>(
    values: &mut Vec<T, A>,
    made: Result<T, Error>,
) -> Result<(), Error> {
    values.push(made?)?;
    Ok(())
}
