//! A table in a file of the system.
use crate::given::{Form, Row, bytes_of, finds, opened};
use lsm_files::FileError;
use std::fs::File;
use std::io::ErrorKind;
use std::path::PathBuf;
use std::{env, fs, io, process};

const LAST: Row = (b"plum", 1, b"blue");

// A path of its own for a temporary file.
fn path_of(rt: &HostRuntime) -> io::Result<PathBuf> {
    let id = process::id(rt.process());
    let name = format!(in rt.alloc(); "test_files-{id}.sst")?;
    Ok(env::temp_dir(rt)?.join(rt.alloc(), name.as_str())?)
}

// Reads the last row of the table in a file, and again after the file was cut to its first bytes.
fn read_and_cut(
    rt: &HostRuntime,
    path: &PathBuf,
) -> Result<(bool, Result<bool, FileError>), FileError> {
    let bytes = bytes_of(rt.alloc(), Form::Whole)?;
    fs::write(rt, path.as_path(), bytes.as_slice())?;
    let file = File::open(rt, path.as_path())?;
    let table = opened(rt.alloc(), file, (false, true))?;
    let found = finds(&table, LAST.0, 2, Some(&LAST))?;
    fs::write(rt, path.as_path(), "cut")?;
    Ok((found, finds(&table, LAST.0, 2, Some(&LAST))))
}

fn is_eof(read: &Result<bool, FileError>) -> bool {
    match read {
        Err(FileError::Io(error)) => error.kind() == ErrorKind::UnexpectedEof,
        _ => false,
    }
}

#[test]
fn a_file_is_read_and_its_end_is_an_error(rt: HostRuntime) {
    let read = match path_of(&rt) {
        Ok(path) => {
            let read = read_and_cut(&rt, &path);
            drop(fs::remove_file(&rt, path.as_path()));
            read
        }
        Err(error) => Err(FileError::Io(error)),
    };
    match read {
        Ok((found, cut)) => {
            assert!(rt; found);
            assert!(rt; is_eof(&cut));
        }
        Err(_) => assert!(rt; false),
    }
}
