//! New folders of tables, written under temporary names.
ghost use Rattle.std.specs.Prelude.{◌≡◌, ◌∷◌, ◌++◌, ◌↔◌, [], IfErr, IfOk, IfSome, IsTrue, List};
ghost use Rattle.std.specs.Prelude.{None, OnErr, OnOk, false, map, string_bytes};
ghost use Rattle.sst_tool.specs.files.Words as spec;

use crate::files::left::remove_folders;
use crate::files::write::{NAMES, path_of};
use crate::files::{FileError, FileFault, FileName, Place, check_free};
use lsm_writers::FinishedTable;
use std::alloc::Allocator;
use std::io;
use std::io::ErrorKind;

/// Writes tables into a new folder, as the files `000001.sst`, `000002.sst` and so on.
///
/// The folder is made under a temporary name next to its own. Each file is written there and
/// synced, and then the folder is. Then the folder is renamed once, and its parent folder is
/// synced.
///
/// Last, it removes the folders that interrupted runs have left under temporary names before its
/// own, with the numbered files in them. A folder that has anything else stays, without these
/// files. An error of this is ignored.
///
/// # Errors
///
/// Fails with an error of the system, with [`FileFault::Taken`] if the folder's name is taken, with
/// [`FileFault::NamesTaken`] if a thousand temporary names are, and with `OutOfMemory`. All that
/// was written is then removed, as far as the system does it, and no file is under the folder's
/// name. If another run has removed a file from the temporary folder, the error is `NotFound`, or
/// `Taken` if that run has made the folder.
///
/// After [`FileFault::NotSynced`] alone the folder is complete under its name, but its parent
/// folder is not synced.
pub fn place_folder<'a, P: Place, A: Allocator + Copy>(
    place: &mut P,
    alloc: A,
    folder: &'a str,
    tables: &[FinishedTable<A>],
) -> Result<(), FileError<'a>>
    // On success all was written and synced under the temporary name, renamed once, and synced. The
    // folder has exactly the files of the tables, with their bytes. Then only numbered files in
    // folders with temporary names of this one were removed, and these folders.
    ensures placed { OnOk result (spec.IsFolderInPlace folder.now (spec.table_bytes tables.now)
        (P.done place.old) (P.done place.new)) }
    // The folder's name was free before.
    ensures free { OnOk result (IfSome (P.there place.old folder.now) (λ b. b ≡ false)) }
    // After an error exactly this was done. Either no file is under the folder's name, or all are.
    ensures refused { IfErr result (λ e. spec.IsFolderNotPlaced folder.now
        (spec.table_bytes tables.now) (P.done place.old) e (P.done place.new)) }
    // A name that is reported as taken was taken before.
    ensures taken { IfErr result (spec.TellsNameTaken (P.there place.old) folder.now) }
    ensures beside { IfErr result (λ e.
        spec.TellsStemTaken (P.there place.old) folder.now e.fault) }
{
    match make_beside(place, alloc, folder) {
        Ok(beside) => fill_all(place, alloc, folder, beside.as_str(), tables),
        Err(fault) => Err(FileError {
            name: FileName::Plain(folder),
            fault,
        }),
    }
}

// Makes a folder under the first free temporary name.
fn make_beside<P: Place, A: Allocator + Copy>(
    place: &mut P,
    alloc: A,
    folder: &str,
) -> Result<String<A>, FileFault>
    ensures beside { IfOk result (λ b. spec.IsBesideFolder folder.now (string_bytes b)) }
    ensures made { IfOk result (λ b. P.done place.new
        ≡ spec.then_done (P.done place.old) (spec.MadeFolder (string_bytes b) ∷ [])) }
    ensures fault { IfErr result spec.IsMakingFault }
    ensures nothing { OnErr result (P.done place.new ≡ P.done place.old) }
    ensures elsewhere { IfOk result (λ b.
        spec.SameElsewhere (string_bytes b) (P.there place.old) (P.there place.new)) }
    ensures taken { IfErr result (spec.TellsStemTaken (P.there place.old) folder.now) }
{
    let stem = without_slashes(folder);
    for number in 1..=NAMES {
        let beside = format!(in alloc; "{stem}.{number}.tmp")?;
        match place.make_folder(beside.as_str()) {
            Ok(()) => return Ok(beside),
            Err(error) if is_taken(&error) => {}
            Err(error) => return Err(FileFault::Io(error)),
        }
    }
    Err(FileFault::NamesTaken)
}

// Whether the error says that a path is taken.
fn is_taken(error: &io::Error) -> bool
    ensures { IsTrue result ↔ (spec.error_kind error.now ≡ ErrorKind.AlreadyExists) }
{
    error.kind() == ErrorKind::AlreadyExists
}

// Returns the path without the slashes at its end.
fn without_slashes(path: &str) -> &str
    ensures { spec.IsStemOf result.now path.now }
{
    path.trim_end_matches('/')
}

// Writes tables into the temporary folder and renames it, and then removes what earlier calls left
// beside it.
fn fill_all<'a, P: Place, A: Allocator + Copy>(
    place: &mut P,
    alloc: A,
    folder: &'a str,
    beside: &str,
    tables: &[FinishedTable<A>],
) -> Result<(), FileError<'a>>
    requires { spec.IsBesideFolder folder.now beside.now }
    ensures filled { OnOk result (spec.ThenClears folder.now (P.done place.old)
        (spec.filling_all beside.now folder.now (spec.table_bytes tables.now)
        ++ spec.Synced folder.now ∷ []) (P.done place.new)) }
    ensures refused { IfErr result (λ e. spec.IsNotFilled folder.now beside.now
        (spec.table_bytes tables.now) (P.done place.old) e (P.done place.new)) }
    ensures free { OnOk result (IfSome (P.there place.old folder.now) (λ b. b ≡ false)) }
    ensures taken { IfErr result (spec.TellsNameTaken (P.there place.old) folder.now) }
{
    fill_beside(place, alloc, folder, beside, tables)?;
    remove_left(place, alloc, folder, beside);
    Ok(())
}

// Removes what earlier calls left under temporary names of the folder.
fn remove_left<P: Place, A: Allocator + Copy>(place: &mut P, alloc: A, folder: &str, own: &str)
    ensures { spec.OnlyDoes (spec.Clears (spec.IsBesideFolder folder.now))
        (P.done place.old) (P.done place.new) }
{
    let stem = without_slashes(folder);
    remove_folders(place, alloc, stem, own);
}

// Writes tables into the temporary folder and renames it. After an error the folder is removed with
// all its files.
fn fill_beside<'a, P: Place, A: Allocator + Copy>(
    place: &mut P,
    alloc: A,
    folder: &'a str,
    beside: &str,
    tables: &[FinishedTable<A>],
) -> Result<(), FileError<'a>>
    requires { spec.IsBesideFolder folder.now beside.now }
    ensures filled { OnOk result (P.done place.new ≡ spec.then_done (P.done place.old)
        (spec.filling_all beside.now folder.now (spec.table_bytes tables.now)
        ++ spec.Synced folder.now ∷ [])) }
    ensures refused { IfErr result (λ e. spec.IsNotFilled folder.now beside.now
        (spec.table_bytes tables.now) (P.done place.old) e (P.done place.new)) }
    ensures free { OnOk result (IfSome (P.there place.old folder.now) (λ b. b ≡ false)) }
    ensures taken { IfErr result (spec.TellsNameTaken (P.there place.old) folder.now) }
{
    let mut written = Vec::new(alloc);
    match fill_and_name(place, alloc, folder, beside, tables, &mut written) {
        Ok(()) => sync_parent(place, folder),
        Err(error) => {
            remove_each(place, &written);
            place.remove_folder(beside);
            Err(error)
        }
    }
}

// Writes tables into the temporary folder and renames it. After an error `written` has the paths of
// the files written.
fn fill_and_name<'a, P: Place, A: Allocator + Copy>(
    place: &mut P,
    alloc: A,
    folder: &'a str,
    beside: &str,
    tables: &[FinishedTable<A>],
    written: &mut Vec<String<A>, A>,
) -> Result<(), FileError<'a>>
    requires empty { written.old.items ≡ [] }
    requires beside { spec.IsBesideFolder folder.now beside.now }
    ensures named { OnOk result (P.done place.new ≡ spec.then_done (P.done place.old)
        (spec.filling_all beside.now folder.now (spec.table_bytes tables.now))) }
    ensures refused { IfErr result (λ e. spec.StopsWithin folder.now beside.now
        (spec.table_bytes tables.now) (map string_bytes written.new.items)
        (P.done place.old) e (P.done place.new)) }
    ensures free { OnOk result (IfSome (P.there place.old folder.now) (λ b. b ≡ false)) }
    ensures taken { IfErr result (spec.TellsNameTaken (P.there place.old) folder.now) }
{
    write_within(place, alloc, folder, beside, tables, written)?;
    match give_name(place, beside, folder, written) {
        Ok(()) => Ok(()),
        Err(fault) => Err(FileError {
            name: FileName::Plain(folder),
            fault,
        }),
    }
}

// Writes tables into the temporary folder. `written` gets the paths of the files written, also
// after an error.
fn write_within<'a, P: Place, A: Allocator + Copy>(
    place: &mut P,
    alloc: A,
    folder: &'a str,
    beside: &str,
    tables: &[FinishedTable<A>],
    written: &mut Vec<String<A>, A>,
) -> Result<(), FileError<'a>>
    requires { written.old.items ≡ [] }
    ensures all { OnOk result
        (spec.LiesWithin (spec.numbered_within beside.now (spec.table_bytes tables.now))
        (map string_bytes written.new.items) (P.done place.old) (P.done place.new)) }
    ensures refused { IfErr result (λ e. spec.StopsWithin folder.now beside.now
        (spec.table_bytes tables.now) (map string_bytes written.new.items)
        (P.done place.old) e (P.done place.new)) }
    ensures elsewhere { OnOk result
        (spec.SameButBehind beside.now (P.there place.old) (P.there place.new)) }
    ensures taken { IfErr result (spec.TellsNameTaken (P.there place.old) folder.now) }
{
    for (at, table) in tables.iter().enumerate() {
        let number = (at as u64).saturating_add(1);
        let bytes = table.bytes.as_slice();
        if let Err(fault) = add_within(place, alloc, beside, number, bytes, written) {
            return Err(FileError {
                name: FileName::Within(folder, number),
                fault,
            });
        }
    }
    Ok(())
}

// Writes a new file in a folder and adds its path. After an error no file is left.
fn add_within<P: Place, A: Allocator + Copy>(
    place: &mut P,
    alloc: A,
    folder: &str,
    number: u64,
    bytes: &[u8],
    written: &mut Vec<String<A>, A>,
) -> Result<(), FileFault>
    ensures added { OnOk result (map string_bytes written.new.items
        ≡ map string_bytes written.old.items ++ spec.path_within folder.now number ∷ []) }
    ensures done { OnOk result (P.done place.new ≡ spec.then_done (P.done place.old)
        (spec.Wrote (spec.path_within folder.now number) bytes.now None ∷ [])) }
    ensures fault { IfErr result spec.IsWritingFault }
    ensures taken { IfErr result (λ fault.
        spec.TellsTaken fault (P.there place.old (spec.path_within folder.now number))) }
    ensures kept { OnErr result (written.new.items ≡ written.old.items) }
    ensures nothing { OnErr result (P.done place.new ≡ P.done place.old) }
    ensures elsewhere { OnOk result
        (spec.SameButBehind folder.now (P.there place.old) (P.there place.new)) }
{
    // Reserve first, so that a written file is always listed.
    written.reserve(1)?;
    let path = path_of(alloc, &FileName::Within(folder, number))?;
    if !place.write_new(path.as_str(), bytes, None)? {
        return Err(FileFault::Taken);
    }
    written.push(path).unwrap();
    Ok(())
}

// Syncs the complete temporary folder and renames it, if the name is still free and no other run
// has removed a file.
fn give_name<P: Place, A: Allocator>(
    place: &mut P,
    beside: &str,
    folder: &str,
    written: &[String<A>],
) -> Result<(), FileFault>
    ensures named { OnOk result (P.done place.new
        ≡ spec.then_done (P.done place.old) (spec.naming_folder beside.now folder.now)) }
    ensures free { OnOk result (IfSome (P.there place.old folder.now) (λ b. b ≡ false)) }
    ensures fault { IfErr result spec.IsNamingFault }
    ensures taken { IfErr result (λ fault. spec.TellsTaken fault (P.there place.old folder.now)) }
    ensures refused { OnErr result ((steps : List spec.Step) × spec.MaySyncNames beside.now steps
        × (P.done place.new ≡ spec.then_done (P.done place.old) steps)) }
{
    place.sync_names(beside)?;
    check_free(place, folder, FileFault::Taken)?;
    check_each(place, written)?;
    place.rename_folder(beside, folder)?;
    Ok(())
}

// Tests that all paths are taken.
fn check_each<P: Place, A: Allocator>(place: &P, paths: &[String<A>]) -> io::Result<()> {
    for path in paths {
        if place.look(path.as_str())?.is_none() {
            return Err(io::Error::from(ErrorKind::NotFound));
        }
    }
    Ok(())
}

// Removes files.
fn remove_each<P: Place, A: Allocator>(place: &mut P, paths: &[String<A>])
    ensures { P.done place.new ≡ spec.then_done (P.done place.old)
        (map (λ path. spec.Removed (string_bytes path)) paths.now) }
{
    for path in paths {
        place.remove(path.as_str());
    }
}

// Syncs the parent of a new folder, which makes its name durable.
fn sync_parent<'a, P: Place>(place: &mut P, folder: &'a str) -> Result<(), FileError<'a>>
    ensures synced { OnOk result
        (P.done place.new ≡ spec.then_done (P.done place.old) (spec.Synced folder.now ∷ [])) }
    ensures nothing { OnErr result (P.done place.new ≡ P.done place.old) }
    ensures returned { IfErr result (λ e.
        (spec.path_text e.name ≡ folder.now) × spec.IsNotSynced e.fault) }
{
    match place.sync_folder(folder) {
        Ok(()) => Ok(()),
        Err(error) => Err(FileError {
            name: FileName::Plain(folder),
            fault: FileFault::NotSynced(error),
        }),
    }
}
