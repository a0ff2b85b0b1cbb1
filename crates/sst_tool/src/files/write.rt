//! Writes files under temporary names first.
ghost use Rattle.std.specs.Prelude.{◌≡◌, ◌<◌, ◌∷◌, [], Any, IfErr, IfOk, IfSome, OnErr, OnOk, drop};
ghost use Rattle.std.specs.Prelude.{◌⊎◌, IsSomeAnd, false, length, string_bytes, take};
ghost use Rattle.sst_tool.specs.files.Words as spec;

use crate::files::left::remove_files;
use crate::files::{FileError, FileFault, FileName, Place, check_free};
use std::alloc::{AllocError, Allocator};
use std::fs::{Metadata, Permissions};
use std::io;
use std::io::ErrorKind;
use std::os::unix::fs::MetadataExt;

/// How many temporary names are tried for a file or a folder.
pub(crate) const NAMES: u64 = 1_000;

/// A file to write.
#[derive(Clone, Copy)]
pub struct NewFile<'a, 'b> {
    /// The name of the file.
    pub name: FileName<'a>,
    /// All bytes of the file.
    pub bytes: &'b [u8],
}

// A complete file under its temporary name.
#[derive(Drop)]
struct Beside<'a, 'b, A: Allocator> {
    // the file to write
    file: NewFile<'a, 'b>,
    // its final path
    path: String<A>,
    // its temporary path
    temporary: String<A>,
    // its permissions, if it replaces a file
    permissions: Option<Permissions>,
    // what tells it from a file that another run writes under its temporary path, if it is known
    identity: Option<Identity>,
}

// The number of a file in its file system, and when it was written.
type Identity = (u64, i64, i64);

/// Writes numbered files, as [`place_files`] does. `next` is the name that follows the last.
///
/// # Errors
///
/// Fails with [`FileFault::Left`] if something has the name `next`: a file left there by an earlier
/// write would read as one of these. Also fails if `next` cannot be looked up, and as
/// [`place_files`] does. Nothing is changed before these tests.
pub fn place_series<'a, P: Place, A: Allocator + Copy>(
    place: &mut P,
    alloc: A,
    wanted: &[NewFile<'a, '_>],
    next: FileName<'a>,
) -> Result<(), FileError<'a>>
    // On success the name after the last was free.
    ensures free { OnOk result
        (IfSome (P.there place.old (spec.path_text next.entry)) (λ there. there ≡ false)) }
    ensures placed { OnOk result (spec.AreInPlace (P.done place.old) wanted.now (P.done place.new)) }
    ensures kept { OnOk result
        (spec.AreModesKept (P.modes place.old) (P.done place.old) (P.done place.new)) }
    // If that name is taken, the error says so and nothing was done.
    ensures left { IfErr result (λ e. spec.TellsLeft e (spec.path_text next.entry)
        (P.there place.old (spec.path_text next.entry)) (P.done place.old) (P.done place.new)) }
    ensures named { IfErr result (λ e.
        (e.name ≡ next.entry) ⊎ Any (λ file. file.name ≡ e.name) wanted.now) }
    // After an error exactly this was done.
    ensures refused { IfErr result (λ e.
        spec.AreNotPlacedBefore (P.there place.old) (P.done place.old) (spec.path_text next.entry)
        wanted.now e (P.done place.new)) }
{
    match check_next(place, alloc, &next) {
        Ok(()) => place_files(place, alloc, wanted),
        Err(fault) => Err(FileError { name: next, fault }),
    }
}

// Tests that the name of a file is free.
fn check_next<P: Place, A: Allocator + Copy>(
    place: &P,
    alloc: A,
    name: &FileName<'_>,
) -> Result<(), FileFault>
    ensures free { OnOk result
        (IfSome (P.there place.now (spec.path_text name.now)) (λ there. there ≡ false)) }
    ensures left { IfErr result (λ fault.
        spec.IsLookFault fault (P.there place.now (spec.path_text name.now))) }
{
    let path = path_of(alloc, name)?;
    check_free(place, path.as_str(), FileFault::Left)
}

/// Writes files, and replaces those that have their names.
///
/// Each file is written and synced under a temporary name next to its own, with the permissions of
/// the file that it replaces. Once all are complete, each is renamed. Then the folder of each is
/// synced.
///
/// Last, it removes the regular files that interrupted runs have left under temporary names before
/// its own. An error of this is ignored. No name may be a temporary name of another one: that file
/// would be removed too.
///
/// # Errors
///
/// Fails with an error of the system, if a name belongs to a folder, a link or another file that is
/// not regular, if a thousand temporary names are taken, and with `OutOfMemory`. The files written
/// are then removed, as far as the system does it, and the files that have the names stay. If
/// another run has removed a temporary file, the error is `NotFound`; this is tested right before
/// each renaming.
///
/// Two errors leave more. [`FileFault::AfterOthers`] says how many files were renamed before the
/// one that failed. After [`FileFault::NotSynced`] all files are renamed.
pub fn place_files<'a, P: Place, A: Allocator + Copy>(
    place: &mut P,
    alloc: A,
    wanted: &[NewFile<'a, '_>],
) -> Result<(), FileError<'a>>
    // On success all were written, then renamed, then synced. Then only temporary names of these
    // files were removed.
    ensures placed { OnOk result (spec.AreInPlace (P.done place.old) wanted.now (P.done place.new)) }
    // Each has the permissions of the regular file that it replaces, and replaces nothing else.
    ensures kept { OnOk result
        (spec.AreModesKept (P.modes place.old) (P.done place.old) (P.done place.new)) }
    // After an error exactly this was done, and the error names the file.
    ensures refused { IfErr result (λ e.
        spec.AreNotPlaced (P.there place.old) (P.done place.old) wanted.now e (P.done place.new)) }
    // The error names one of these files, and is never `Left`.
    ensures named { IfErr result (λ e. Any (λ file. file.name ≡ e.name) wanted.now) }
    ensures left { IfErr result (λ e. spec.IfLeft e.fault ⊥) }
{
    let mut written = Vec::new(alloc);
    match write_each(place, alloc, wanted, &mut written) {
        Ok(()) => put_all(place, alloc, &written),
        Err(error) => {
            remove_all(place, &written);
            Err(error)
        }
    }
}

// Writes each file under a temporary name. After an error `written` has the files before it.
fn write_each<'a, 'b, P: Place, A: Allocator + Copy>(
    place: &mut P,
    alloc: A,
    wanted: &[NewFile<'a, 'b>],
    written: &mut Vec<Beside<'a, 'b, A>, A>,
) -> Result<(), FileError<'a>>
    requires { written.old.items ≡ [] }
    ensures all { OnOk result (spec.AreBeside wanted.now (spec.standing_in written.new.items)) }
    ensures kept { OnOk result
        (spec.HaveModesKept (P.modes place.old) (spec.standing_in written.new.items)
        (spec.standing_in written.new.items)) }
    ensures refused { IfErr result (λ e.
        spec.StopsBefore (P.there place.old) wanted.now (spec.standing_in written.new.items) e) }
    ensures done { P.done place.new
        ≡ spec.then_done (P.done place.old) (spec.writing (spec.standing_in written.new.items)) }
{
    for file in wanted {
        if let Err(fault) = add_beside(place, alloc, file, written) {
            return Err(FileError {
                name: file.name,
                fault,
            });
        }
    }
    Ok(())
}

// Writes a file under a temporary name and adds it. After an error no file is left.
fn add_beside<'a, 'b, P: Place, A: Allocator + Copy>(
    place: &mut P,
    alloc: A,
    file: &NewFile<'a, 'b>,
    written: &mut Vec<Beside<'a, 'b, A>, A>,
) -> Result<(), FileFault>
    ensures added { OnOk result
        (spec.BeforeAndAfter P.there P.modes P.done place.old place.new (spec.IsAdded file.now
        (spec.standing_in written.old.items) (spec.standing_in written.new.items))) }
    ensures early { IfErr result spec.IsEarly }
    ensures taken { IfErr result
        (spec.TellsAllTaken (P.there place.old) (spec.path_text file.now.name)) }
    ensures kept { OnErr result (written.new.items ≡ written.old.items) }
    ensures nothing { OnErr result (P.done place.new ≡ P.done place.old) }
{
    // Reserve first, so that a written file is always listed.
    written.reserve(1)?;
    let beside = write_beside(place, alloc, file)?;
    written.push(beside).unwrap();
    Ok(())
}

// Writes a file under a temporary name.
fn write_beside<'a, 'b, P: Place, A: Allocator + Copy>(
    place: &mut P,
    alloc: A,
    file: &NewFile<'a, 'b>,
) -> Result<Beside<'a, 'b, A>, FileFault>
    ensures written { IfOk result (λ b.
        spec.BeforeAndAfter P.there P.modes P.done place.old place.new
        (spec.IsWritten file.now (spec.standing_of b))) }
    ensures early { IfErr result spec.IsEarly }
    ensures taken { IfErr result
        (spec.TellsAllTaken (P.there place.old) (spec.path_text file.now.name)) }
    ensures nothing { OnErr result (P.done place.new ≡ P.done place.old) }
{
    let path = path_of(alloc, &file.name)?;
    let permissions = kept(place.look(path.as_str())?)?;
    let bytes = file.bytes;
    let temporary = write_under(place, alloc, path.as_str(), bytes, permissions.as_ref())?;
    let identity = identity_of(place, temporary.as_str()).ok();
    Ok(Beside {
        file: *file,
        path,
        temporary,
        permissions,
        identity,
    })
}

// Returns what tells a file from a later one of the same path. All is 0 if the path is free.
fn identity_of<P: Place>(place: &P, path: &str) -> io::Result<Identity> {
    match place.look(path)? {
        Some(file) => Ok((file.ino(), file.mtime(), file.mtime_nsec())),
        None => Ok((0, 0, 0)),
    }
}

/// Returns the path of a file.
pub(crate) fn path_of<A: Allocator + Copy>(
    alloc: A,
    name: &FileName<'_>,
) -> Result<String<A>, AllocError>
    ensures { IfOk result (λ path. string_bytes path ≡ spec.path_text name.now) }
{
    format!(in alloc; "{name}")
}

// Returns the permissions of the file to replace, if there is one. Fails if it is not a regular
// file.
fn kept(there: Option<Metadata>) -> Result<Option<Permissions>, FileFault>
    ensures same { IfOk result (λ p.
        spec.option_map spec.permissions_mode p ≡ spec.option_map spec.metadata_mode there) }
    ensures plain { OnOk result (IfSome there (λ m. spec.IsFile (spec.file_type m))) }
    ensures other { IfErr result (λ fault. IsSomeAnd there (spec.TellsKind fault)) }
    ensures early { IfErr result spec.IsEarly }
{
    match there {
        Some(metadata) if metadata.is_file() => Ok(Some(metadata.permissions())),
        Some(metadata) if metadata.is_dir() => Err(FileFault::Folder),
        Some(_) => Err(FileFault::NotPlain),
        None => Ok(None),
    }
}

// Writes a file under the first free temporary name.
fn write_under<P: Place, A: Allocator + Copy>(
    place: &mut P,
    alloc: A,
    path: &str,
    bytes: &[u8],
    permissions: Option<&Permissions>,
) -> Result<String<A>, FileFault>
    ensures beside { IfOk result (λ t. spec.IsBeside path.now (string_bytes t)) }
    ensures written { IfOk result (λ t. P.done place.new
        ≡ spec.then_done (P.done place.old) (spec.Wrote (string_bytes t) bytes.now
        (spec.requested_mode permissions.entry) ∷ [])) }
    ensures elsewhere { IfOk result (λ t.
        spec.SameElsewhere (string_bytes t) (P.there place.old) (P.there place.new)) }
    ensures same { IfOk result (λ t.
        spec.SameElsewhere (string_bytes t) (P.modes place.old) (P.modes place.new)) }
    ensures early { IfErr result spec.IsEarly }
    ensures taken { IfErr result (spec.TellsAllTaken (P.there place.old) path.now) }
    ensures nothing { OnErr result (P.done place.new ≡ P.done place.old) }
{
    for number in 1..=NAMES {
        let temporary = format!(in alloc; "{path}.{number}.tmp")?;
        if place.write_new(temporary.as_str(), bytes, permissions)? {
            return Ok(temporary);
        }
    }
    Err(FileFault::NamesTaken)
}

// Removes the temporary files.
fn remove_all<P: Place, A: Allocator>(place: &mut P, written: &[Beside<'_, '_, A>])
    ensures { P.done place.new
        ≡ spec.then_done (P.done place.old) (spec.removing (spec.standing_in written.now)) }
{
    for beside in written {
        place.remove(beside.temporary.as_str());
    }
}

// Puts the temporary files in their places, and then removes what earlier writes left beside them.
fn put_all<'a, P: Place, A: Allocator + Copy>(
    place: &mut P,
    alloc: A,
    written: &[Beside<'a, '_, A>],
) -> Result<(), FileError<'a>>
    ensures all { OnOk result (spec.ArePut (P.done place.old) (spec.standing_in written.now)
        (P.done place.new)) }
    ensures refused { IfErr result (λ e.
        spec.AreNotPut (P.done place.old) (spec.standing_in written.now) e (P.done place.new)) }
{
    put_each(place, written)?;
    remove_left(place, alloc, written);
    Ok(())
}

// Removes what earlier writes left under temporary names of these files.
fn remove_left<P: Place, A: Allocator + Copy>(
    place: &mut P,
    alloc: A,
    written: &[Beside<'_, '_, A>],
)
    ensures { spec.OnlyDoes (spec.Removes (spec.IsBesideOne (spec.standing_in written.now)))
        (P.done place.old) (P.done place.new) }
{
    for beside in written {
        remove_files(
            place,
            alloc,
            beside.path.as_str(),
            beside.temporary.as_str(),
        );
    }
}

// Renames the temporary files and syncs their folders. After a failed rename it and those after it
// are removed.
fn put_each<'a, P: Place, A: Allocator>(
    place: &mut P,
    written: &[Beside<'a, '_, A>],
) -> Result<(), FileError<'a>>
    ensures all { OnOk result (P.done place.new ≡ spec.then_done (spec.then_done (P.done place.old)
        (spec.renaming (spec.standing_in written.now)))
        (spec.syncing (spec.standing_in written.now))) }
    ensures refused { IfErr result (λ e.
        spec.AreNotPut (P.done place.old) (spec.standing_in written.now) e (P.done place.new)) }
{
    match rename_each(place, written) {
        Ok(()) => sync_each(place, written),
        Err((renamed, error)) => Err(give_up(place, written, renamed, error)),
    }
}

// Renames each file up to the first that fails, and returns its index.
fn rename_each<P: Place, A: Allocator>(
    place: &mut P,
    written: &[Beside<'_, '_, A>],
) -> Result<(), (usize, io::Error)>
    ensures all { OnOk result (P.done place.new
        ≡ spec.then_done (P.done place.old) (spec.renaming (spec.standing_in written.now))) }
    ensures within { IfErr result (λ r. r.0 < length written.now) }
    ensures some { IfErr result (λ r. P.done place.new
        ≡ spec.then_done (P.done place.old)
        (spec.renaming (take r.0 (spec.standing_in written.now)))) }
{
    for at in 0..written.len() {
        if let Err(error) = rename_own(place, &written[at]) {
            return Err((at, error));
        }
    }
    Ok(())
}

// Renames a temporary file. Fails if the temporary path has another file by now: a run that ended
// has removed this one, and a later run may still write there.
fn rename_own<P: Place, A: Allocator>(place: &mut P, beside: &Beside<'_, '_, A>) -> io::Result<()>
    ensures renamed { OnOk result (P.done place.new ≡ spec.then_done (P.done place.old)
        (spec.Renamed (spec.standing_of beside.now).beside (spec.standing_of beside.now).path
        ∷ [])) }
    ensures refused { OnErr result (P.done place.new ≡ P.done place.old) }
{
    let (from, to) = (beside.temporary.as_str(), beside.path.as_str());
    if !is_same(place, from, beside.identity)? {
        return Err(io::Error::from(ErrorKind::NotFound));
    }
    place.rename(from, to)
}

// Whether a path still has the file of this identity, if that is known.
fn is_same<P: Place>(place: &P, path: &str, known: Option<Identity>) -> io::Result<bool> {
    match known {
        Some(identity) => Ok(identity_of(place, path)? == identity),
        None => Ok(true),
    }
}

// Removes the file that was not renamed and those after it, and returns its error.
fn give_up<'a, P: Place, A: Allocator>(
    place: &mut P,
    written: &[Beside<'a, '_, A>],
    renamed: usize,
    error: io::Error,
) -> FileError<'a>
    requires { renamed < length written.now }
    ensures stops { spec.StopsRenamingAt (spec.standing_in written.now) renamed result }
    ensures removed { P.done place.new
        ≡ spec.then_done (P.done place.old)
        (spec.removing (drop renamed (spec.standing_in written.now))) }
{
    remove_all(place, &written[renamed..]);
    FileError {
        name: written[renamed].file.name,
        fault: rename_fault(renamed as u64, error),
    }
}

// Returns the error of a file that was not renamed, after so many that were.
fn rename_fault(renamed: u64, error: io::Error) -> FileFault
    ensures { spec.TellsRenamed result renamed }
{
    if renamed == 0 {
        FileFault::Io(error)
    } else {
        FileFault::AfterOthers { renamed, error }
    }
}

// Syncs the folder of each file.
fn sync_each<'a, P: Place, A: Allocator>(
    place: &mut P,
    written: &[Beside<'a, '_, A>],
) -> Result<(), FileError<'a>>
    ensures all { OnOk result (P.done place.new
        ≡ spec.then_done (P.done place.old) (spec.syncing (spec.standing_in written.now))) }
    ensures refused { IfErr result (λ e.
        spec.StopSyncing (P.done place.old) (spec.standing_in written.now) e (P.done place.new)) }
{
    for beside in written {
        if let Err(error) = place.sync_folder(beside.path.as_str()) {
            return Err(FileError {
                name: beside.file.name,
                fault: FileFault::NotSynced(error),
            });
        }
    }
    Ok(())
}
