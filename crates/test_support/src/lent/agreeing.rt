//! Compares lending iterators with iterators by value.
ghost use Rattle.sst_entries.specs.Stream.{CanYield, nowhere};

use sst_entries::{Error, InternalValue, IterItem, Lending};

/// Advances a source. It may be called any number of times.
pub fn go_on<L: Lending>(source: &mut L) -> Result<bool, Error>
    requires { CanYield L.advances nowhere L.can_advance L.can_advance source.old }
    ensures can { CanYield L.advances nowhere L.can_advance L.can_advance source.new }
{
    source.advance()
}

// Whether a source yields this entry next.
fn is_next<L: Lending>(source: &mut L, item: &InternalValue) -> Result<bool, Error>
    requires { CanYield L.advances nowhere L.can_advance L.can_advance source.old }
    ensures can { CanYield L.advances nowhere L.can_advance L.can_advance source.new }
{
    let has_more = go_on(source)?;
    Ok(has_more && source.entry() == Some(item.as_entry_ref()))
}

// Whether the next item of a source equals this one, which is an entry or the end.
fn agrees<L: Lending>(source: &mut L, item: Option<IterItem>) -> Result<bool, Error>
    requires { CanYield L.advances nowhere L.can_advance L.can_advance source.old }
    ensures can { CanYield L.advances nowhere L.can_advance L.can_advance source.new }
{
    match item {
        Some(Ok(item)) => is_next(source, &item),
        Some(Err(error)) => Err(error),
        None => Ok(!go_on(source)?),
    }
}

// Returns the next item. It may be called any number of times.
fn next_of<I: Iterator<Item = IterItem>>(source: &mut I) -> Option<IterItem>
    requires { CanYield I.next_gives nowhere I.can_next I.can_next source.old }
    ensures can { CanYield I.next_gives nowhere I.can_next I.can_next source.new }
{
    source.next()
}

/// Whether an iterator by value and a lending iterator yield the same entries and the same end in
/// `calls` calls. Fails with the first error of either.
pub fn agree<I: Iterator<Item = IterItem> + Drop, L: Lending + Drop>(
    mut by_value: I,
    mut lending: L,
    calls: usize,
) -> Result<bool, Error>
    requires by_value { CanYield I.next_gives nowhere I.can_next I.can_next by_value }
    requires lending { CanYield L.advances nowhere L.can_advance L.can_advance lending }
{
    let mut is_same = true;
    for _ in 0..calls {
        let item = next_of(&mut by_value);
        is_same &= agrees(&mut lending, item)?;
    }
    Ok(is_same)
}
