//! Writing text where writing may fail.
ghost use Rattle.sst_script.specs.Words as spec;

use std::io::{Error, ErrorKind, Result, Write};

/// Writes a text; if that fails, a prefix of it. An interrupted write is retried.
pub(crate) fn write_text<W: Write>(output: &mut W, text: &[u8]) -> Result<()>
    ensures { spec.ShowsText (W.contents output.old) (W.contents output.new) result text.now }
{
    let mut rest = text;
    for _ in 0..u64::MAX {
        if rest.is_empty() {
            return Ok(());
        }
        match output.write(rest) {
            Ok(0) => return Err(Error::from(ErrorKind::WriteZero)),
            Ok(taken) => rest = &rest[taken..],
            Err(error) => {
                if error.kind() != ErrorKind::Interrupted {
                    return Err(error);
                }
            }
        }
    }
    Err(Error::from(ErrorKind::Interrupted))
}
