//! The target size of tables.
ghost use Rattle.std.specs.Prelude.{◌≡◌};
ghost use Rattle.sst_tool.specs.files.Words as spec;

/// Returns the target size of a table in bytes of data blocks. Without a target it is `u64::MAX`,
/// so there is one table.
pub fn largest_table(target: Option<u64>) -> u64
    ensures { result ≡ spec.largest_table target }
{
    target.unwrap_or(u64::MAX)
}
