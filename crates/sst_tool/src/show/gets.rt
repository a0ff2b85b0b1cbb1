//! Prints the visible version of a key.
ghost use Rattle.std.specs.Prelude.{◌≡◌, ◌⊎◌, ◌∷◌, [], IfErr, IfOk, List, Option, Some, ℕ};
ghost use Rattle.sst_tool.specs.show.Words as spec;

use crate::files::{
    Contents, FileError, FileFault, FileName, Place, RefusedAt, ToolError, open_bytes, open_file,
    open_file_table, open_table,
};
use crate::lines::{Format, append_entry};
use crate::show::loads::{FileLoads, loaded_by, object_of, print_words};
use crate::show::refused_at;
use lsm_files::{FileTable, ReadAt};
use lsm_readers::Table;
use lsm_sorted::leading;
use sst_blocks::{Error, InternalValue, SeqNo, Slice};
use std::alloc::Allocator;
use std::io::Write;

/// The key to read, and the format.
#[derive(Clone, Copy, Debug)]
pub struct GetOptions<'k> {
    /// The key.
    pub key: &'k [u8],
    /// The snapshot: versions with a smaller sequence number are visible. Without it all are.
    pub at: Option<SeqNo>,
    /// Whether the loaded blocks are printed.
    pub loads: bool,
    /// The format of the lines.
    pub format: Format,
}

/// Writes the newest version of a key that is visible in all files together, and returns whether
/// there is one. Without one it writes `none`, or `null` as JSON.
///
/// The files are opened one after another. The call reads the blocks of a file that the key needs,
/// and not the whole file.
///
/// With `loads` one more line for each file says how many blocks of each kind were loaded for it,
/// and their offsets. As JSON it is an object,
/// `{"name":"a.sst","loaded":{"data":1,..},"blocks":[{"section":"data","offset":0},..]}`. The whole
/// file is read for it.
///
/// # Errors
///
/// Fails with [`ToolError::File`] or [`ToolError::Unreadable`] for the first file that does not
/// open as a table or cannot be read, with [`ToolError::Output`], and with `OutOfMemory`. Lines
/// already written stay.
pub fn get<'a, P: Place, A: Allocator + Copy, W: Write>(
    alloc: A,
    output: &mut W,
    place: &P,
    paths: &[&'a str],
    options: &GetOptions<'_>,
) -> Result<bool, ToolError<'a>>
    // Whatever the bytes, each file opens as a table, and the result is that of the tables' reads.
    // No error is skipped. If the files store lists, there is an entry exactly if these lists have
    // a visible one.
    ensures returned { spec.AreKnown P.File.reads → IfOk result
        (spec.GetsFrom options.now (P.content place.now) paths.now) }
    // An error that names a file names the first that does not open or whose table cannot be read,
    // with its error. Such a table stores no list.
    ensures named { spec.AreKnown P.File.reads → IfErr result (λ e. spec.NamesNone e ⊎
        spec.StopsGet P.File.reads options.now (P.content place.now) paths.now e) }
{
    let mut loads = Vec::new(alloc);
    let found = get_each(alloc, place, paths, options, &mut loads)?;
    print_found(alloc, output, &found, options.format)?;
    print_loads(alloc, output, &loads, options.format)?;
    Ok(found.is_some())
}

// Reads a key in each file, and returns the newest visible version. Adds the loads, if these are
// wanted.
fn get_each<'a, P: Place, A: Allocator + Copy>(
    alloc: A,
    place: &P,
    paths: &[&'a str],
    options: &GetOptions<'_>,
    loads: &mut Vec<FileLoads<'a, A>, A>,
) -> Result<Option<InternalValue<A>>, ToolError<'a>>
    ensures found { spec.AreKnown P.File.reads → IfOk result
        (spec.ReadsAll options.now (P.content place.now) paths.now) }
    ensures named { spec.AreKnown P.File.reads → IfErr result
        (spec.StopsGet P.File.reads options.now (P.content place.now) paths.now) }
{
    let mut found = None;
    for path in paths {
        let next = get_in_file(alloc, place, path, options, loads)?;
        found = leading(found, next);
    }
    Ok(found)
}

// Reads a key in the file at a path. Adds the loads, if these are wanted.
fn get_in_file<'a, P: Place, A: Allocator + Copy>(
    alloc: A,
    place: &P,
    path: &'a str,
    options: &GetOptions<'_>,
    loads: &mut Vec<FileLoads<'a, A>, A>,
) -> Result<Option<InternalValue<A>>, ToolError<'a>>
    ensures found { spec.AreKnown P.File.reads → IfOk result
        (spec.ReadsFile options.now (P.content place.now path.now)) }
    ensures fault { spec.AreKnown P.File.reads → IfErr result
        (spec.FailsGet P.File.reads options.now (P.content place.now path.now) path.entry) }
{
    let contents = open_file(place, alloc, path)?;
    let kept = contents.in_memory()?;
    match get_in(alloc, contents, path, options) {
        Ok(found) => {
            if options.loads {
                add_loads(alloc, place, path, kept, options, loads)?;
            }
            Ok(found)
        }
        Err(error) => Err(located(alloc, place, kept, error)),
    }
}

// Reads a key in an opened file.
fn get_in<'a, R: ReadAt + Drop, A: Allocator + Copy>(
    alloc: A,
    file: R,
    path: &'a str,
    options: &GetOptions<'_>,
) -> Result<Option<InternalValue<A>>, ToolError<'a>>
    ensures found { spec.AreKnown R.reads → IfOk result
        (spec.ReadsFile options.now (Some (R.bytes file))) }
    ensures fault { spec.AreKnown R.reads → IfErr result
        (spec.FailsGet R.reads options.now (Some (R.bytes file)) path.entry) }
{
    let table = open_file_table(alloc, file, path)?;
    match find_in(&table, options.key, seen_below(options)) {
        Ok(found) => Ok(found),
        Err(error) => Err(failure_of(path, error)),
    }
}

// Returns the snapshot.
fn seen_below(options: &GetOptions<'_>) -> SeqNo
    ensures { result ≡ spec.seen_below options.now }
{
    options.at.unwrap_or(SeqNo::MAX)
}

// Reads a key in a table, if its range has it.
fn find_in<R: ReadAt + Drop, A: Allocator + Clone>(
    table: &FileTable<R, A>,
    key: &[u8],
    seqno: SeqNo,
) -> Result<Option<InternalValue<A>>, lsm_files::FileError>
    requires { spec.AreKnown R.reads → spec.IsRecovered table.now }
    ensures found { spec.AreKnown R.reads →
        spec.FileGives R.reads (λ (found : Option spec.Entry). found) result
        (spec.run_read key.now seqno (table.now ∷ [])).returned }
    ensures sound { spec.AreKnown R.reads → spec.IsSoundTable table.now →
        IfErr result (spec.IsFailureOr R.reads spec.OutOfMemory) }
{
    if !table.metadata.key_range.contains_key(key) {
        return Ok(None);
    }
    table.get(key, seqno, FileTable::<R, A>::key_hash(key))
}

// Returns the error of reading a table in its file.
fn failure_of<'a>(path: &'a str, error: lsm_files::FileError) -> ToolError<'a>
    ensures { spec.IsFailureAt path.entry error result }
{
    match error {
        lsm_files::FileError::Io(error) => ToolError::File(FileError {
            name: FileName::Plain(path),
            fault: FileFault::Io(error),
        }),
        lsm_files::FileError::Table(Error::OutOfMemory) => ToolError::Refused(Error::OutOfMemory),
        lsm_files::FileError::Table(error) => ToolError::Unreadable {
            name: path,
            at: RefusedAt::Unknown,
            error,
        },
    }
}

// Adds the block that an error comes from, if it is found. The file's bytes are those kept, if
// there are some.
fn located<'a, P: Place, A: Allocator + Copy>(
    alloc: A,
    place: &P,
    kept: Option<Slice<A>>,
    error: ToolError<'a>,
) -> ToolError<'a>
    ensures { spec.IsSameFailure error.entry result }
{
    match error {
        ToolError::Unreadable { name, error, .. } => ToolError::Unreadable {
            name,
            at: refused_in(alloc, place, name, kept, &error),
            error,
        },
        error => error,
    }
}

// Returns the block that an error comes from.
fn refused_in<P: Place, A: Allocator + Copy>(
    alloc: A,
    place: &P,
    path: &str,
    kept: Option<Slice<A>>,
    error: &Error,
) -> RefusedAt {
    match whole_table(alloc, place, path, kept) {
        Ok(table) => refused_at(alloc, &table, error),
        Err(_) => RefusedAt::Unknown,
    }
}

// Opens a file whose whole bytes are in memory: those kept, if there are some.
fn whole_table<'a, P: Place, A: Allocator + Copy>(
    alloc: A,
    place: &P,
    path: &'a str,
    kept: Option<Slice<A>>,
) -> Result<Table<A>, ToolError<'a>>
    ensures { IfErr result (spec.FailsOpen (P.content place.now path.now) path.entry) }
{
    match kept {
        // They were opened before, so only memory can run out.
        Some(bytes) => match open_bytes(alloc, bytes, false) {
            Ok(table) => Ok(table),
            Err(_) => Err(ToolError::Refused(Error::OutOfMemory)),
        },
        None => Ok(open_table(place, alloc, path, false)?),
    }
}

// Adds the blocks that the read loads from a file.
fn add_loads<'a, P: Place, A: Allocator + Copy>(
    alloc: A,
    place: &P,
    path: &'a str,
    kept: Option<Slice<A>>,
    options: &GetOptions<'_>,
    loads: &mut Vec<FileLoads<'a, A>, A>,
) -> Result<(), ToolError<'a>>
    ensures { IfErr result (spec.FailsOpen (P.content place.now path.now) path.entry) }
{
    let table = whole_table(alloc, place, path, kept)?;
    let Ok(loaded) = loaded_by(alloc, &table, options.key, seen_below(options)) else {
        return Err(ToolError::Refused(Error::OutOfMemory));
    };
    drop(table);
    loads.push(FileLoads { name: path, loaded })?;
    Ok(())
}

fn print_found<'a, A: Allocator + Copy, W: Write>(
    alloc: A,
    output: &mut W,
    found: &Option<InternalValue<A>>,
    format: Format,
) -> Result<(), ToolError<'a>>
    ensures { IfErr result spec.NamesNone }
{
    match found {
        None => {
            output.write_all(absent_line(format))?;
            Ok(())
        }
        Some(item) => {
            let text = append_entry(alloc, Vec::new(alloc), &item.as_entry_ref(), format)?;
            output.write_all(&text)?;
            Ok(())
        }
    }
}

// The line that says that there is no entry.
fn absent_line(format: Format) -> &'static [u8] {
    match format {
        Format::Lines => b"none\n",
        Format::Json => b"null\n",
    }
}

// Prints the loaded blocks of each file.
fn print_loads<'a, A: Allocator + Copy, W: Write>(
    alloc: A,
    output: &mut W,
    loads: &[FileLoads<'_, A>],
    format: Format,
) -> Result<(), ToolError<'a>>
    ensures { IfErr result spec.NamesNone }
{
    for file in loads {
        match format {
            Format::Lines => print_words(output, file)?,
            Format::Json => {
                let text = object_of(alloc, file)?;
                output.write_all(&text)?;
            }
        }
    }
    Ok(())
}
