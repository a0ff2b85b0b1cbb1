//! Members of JSON objects.
use json::Writer;
use std::alloc::{AllocError, Allocator};

/// Writes a member with a number.
pub(crate) fn write_number<A: Allocator>(
    writer: &mut Writer<A>,
    name: &str,
    number: u64,
) -> Result<(), AllocError> {
    writer.key(name)?;
    writer.u64(number)
}

/// Writes a member with a string.
pub(crate) fn write_text<A: Allocator>(
    writer: &mut Writer<A>,
    name: &str,
    text: &str,
) -> Result<(), AllocError> {
    writer.key(name)?;
    writer.string(text)
}

/// Returns the text of a writer with a newline.
pub(crate) fn line_of<A: Allocator>(writer: Writer<A>) -> Result<Vec<u8, A>, AllocError> {
    let mut text = writer.into_inner();
    text.push(b'\n')?;
    Ok(text)
}
