//! Names in messages.
use std::fmt;
use std::fmt::Write;

/// A file's name in a message: each control byte is `\xNN`, as in keys, so that a name cannot add a
/// line or move the cursor.
#[derive(Clone, Copy, Debug)]
pub struct Escaped<'a>(pub &'a str);

impl<'a> fmt::Display for Escaped<'a> {
    fn fmt<W: fmt::Write>(&self, f: &mut fmt::Formatter<W>) -> fmt::Result {
        for letter in self.0.chars() {
            if letter.is_ascii_control() {
                let code = letter as u32;
                write!(f, "\\x{code:02x}")?;
            } else {
                f.write_char(letter)?;
            }
        }
        Ok(())
    }
}
