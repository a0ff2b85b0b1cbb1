//! The names of files.
ghost use Rattle.std.specs.Prelude.{◌≡◌};
ghost use Rattle.sst_tool.specs.files.Words as spec;

use crate::files::Escaped;
use std::fmt;

/// The name of a file, displayed as its path. Numbers have at least six digits, so that names of up
/// to 999,999 tables sort by number.
#[derive(Clone, Copy, Debug, PartialEq, Eq)]
pub enum FileName<'a> {
    /// The file at this path.
    Plain(&'a str),
    /// One of several files, numbered after a dot, as `users.sst.000002`.
    Part(&'a str, u64),
    /// A numbered table of a folder, as `tables/000002.sst`.
    Within(&'a str, u64),
}

impl<'a> FileName<'a> {
    /// Returns the name with another number. A plain name stays the same.
    pub fn with_number(self, number: u64) -> FileName<'a>
        ensures { result ≡ spec.with_number self.entry number }
    {
        match self {
            FileName::Plain(path) => FileName::Plain(path),
            FileName::Part(path, _) => FileName::Part(path, number),
            FileName::Within(folder, _) => FileName::Within(folder, number),
        }
    }

    /// Writes the path for a message, with control bytes escaped.
    pub(crate) fn write_escaped<W: fmt::Write>(&self, f: &mut fmt::Formatter<W>) -> fmt::Result {
        match self {
            FileName::Plain(path) => write!(f, "{}", Escaped(path)),
            FileName::Part(path, number) => write!(f, "{}.{number:06}", Escaped(path)),
            FileName::Within(folder, number) => { write!(f, "{}/{number:06}.sst", Escaped(folder)) }
        }
    }
}

impl<'a> fmt::Display for FileName<'a> {
    ghost use Rattle.std.specs.Prelude.{Some};
    ghost use Rattle.sst_tool.specs.files.Files.{path_text};

    ghost output = { λ name. Some (path_text name) };

    #[tactic(auto, using(crate::proofs::FileNumbers::six_digits))]
    fn fmt<W: fmt::Write>(&self, f: &mut fmt::Formatter<W>) -> fmt::Result {
        match self {
            FileName::Plain(path) => write!(f, "{path}"),
            FileName::Part(path, number) => write!(f, "{path}.{number:06}"),
            FileName::Within(folder, number) => write!(f, "{folder}/{number:06}.sst"),
        }
    }
}
