//! Removes what interrupted runs left under temporary names.
ghost use Rattle.std.specs.Prelude.{◌≡◌};
ghost use Rattle.sst_tool.specs.files.Words as spec;

use crate::files::write::{NAMES, path_of};
use crate::files::{FileName, Place};
use std::alloc::Allocator;

/// Removes the regular files that have the temporary names of a path before `own`. The caller has
/// found these names taken, as killed runs leave them. An error is ignored.
pub(crate) fn remove_files<P: Place, A: Allocator + Copy>(
    place: &mut P,
    alloc: A,
    path: &str,
    own: &str,
)
    ensures { spec.OnlyDoes (spec.Removes (spec.IsBeside path.now))
        (P.done place.old) (P.done place.new) }
{
    for number in 1..=NAMES {
        let Ok(name) = format!(in alloc; "{path}.{number}.tmp") else {
            return;
        };
        if name.as_str() == own {
            return;
        }
        remove_file(place, name.as_str());
    }
}

/// Removes the folders that have the temporary names of a path before `own`, with the numbered
/// tables in them. The caller has found these names taken, as killed runs leave them. Of a folder
/// with other files only the numbered tables are removed. An error is ignored.
pub(crate) fn remove_folders<P: Place, A: Allocator + Copy>(
    place: &mut P,
    alloc: A,
    stem: &str,
    own: &str,
)
    ensures { spec.OnlyDoes (spec.Clears (spec.IsBeside stem.now))
        (P.done place.old) (P.done place.new) }
{
    for number in 1..=NAMES {
        let Ok(name) = format!(in alloc; "{stem}.{number}.tmp") else {
            return;
        };
        if name.as_str() == own {
            return;
        }
        remove_folder(place, alloc, name.as_str());
    }
}

// Removes a folder with the numbered tables in it. A folder with other files stays, without these.
fn remove_folder<P: Place, A: Allocator + Copy>(place: &mut P, alloc: A, folder: &str)
    ensures { spec.OnlyDoes (spec.Clears (λ p. p ≡ folder.now))
        (P.done place.old) (P.done place.new) }
{
    if !is_folder(place, folder) {
        return;
    }
    remove_tables(place, alloc, folder);
    place.remove_folder(folder);
}

// Removes the numbered tables in a folder. The first thousand numbers may be missing: a run that
// was killed while it removed them has left the last ones.
fn remove_tables<P: Place, A: Allocator + Copy>(place: &mut P, alloc: A, folder: &str)
    ensures { spec.OnlyDoes (spec.Clears (λ p. p ≡ folder.now))
        (P.done place.old) (P.done place.new) }
{
    for number in 1..=u64::MAX {
        let Ok(path) = path_of(alloc, &FileName::Within(folder, number)) else {
            return;
        };
        if !remove_file(place, path.as_str()) && number >= NAMES {
            return;
        }
    }
}

// Removes a regular file, and returns whether the path was one.
fn remove_file<P: Place>(place: &mut P, path: &str) -> bool
    ensures { spec.OnlyDoes (spec.Removes (λ p. p ≡ path.now))
        (P.done place.old) (P.done place.new) }
{
    if !is_file(place, path) {
        return false;
    }
    place.remove(path);
    true
}

// Whether a path is a regular file, as far as the system says.
fn is_file<P: Place>(place: &P, path: &str) -> bool {
    match place.look(path) {
        Ok(Some(metadata)) => metadata.is_file(),
        _ => false,
    }
}

// Whether a path is a folder, as far as the system says.
fn is_folder<P: Place>(place: &P, path: &str) -> bool {
    match place.look(path) {
        Ok(Some(metadata)) => metadata.is_dir(),
        _ => false,
    }
}
