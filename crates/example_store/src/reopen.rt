//! Closing a store, writing its tables to files and reading them again, and opening it from those.
use crate::store::{Closed, Store};
use anyhow::bail;
use lsm_tables::block::{Error, Slice};
use std::path::PathBuf;
use std::{env, fs, process};

// A path of its own for a temporary file.
fn path_of(rt: &HostRuntime) -> anyhow::Result<PathBuf> {
    let id = process::id(rt.process());
    let name = format!(in rt.alloc(); "example_store-{id}.sst")?;
    Ok(env::temp_dir(rt)?.join(rt.alloc(), name.as_str())?)
}

// Writes bytes to a file, reads them again, and removes the file.
fn through_file(rt: &HostRuntime, path: &PathBuf, bytes: &Slice) -> anyhow::Result<Slice> {
    fs::write(rt, path.as_path(), bytes.as_slice())?;
    let read = fs::read(rt, path.as_path());
    fs::remove_file(rt, path.as_path())?;
    Ok(Slice::from(rt.alloc(), read?.as_slice())?)
}

// Writes each file of a run and reads it again.
fn run_through_files(
    rt: &HostRuntime,
    path: &PathBuf,
    files: &[Slice],
) -> anyhow::Result<Vec<Slice>> {
    let mut read = Vec::new(rt.alloc());
    for file in files {
        read.push(through_file(rt, path, file)?)?;
    }
    Ok(read)
}

// Writes each file and reads it again.
fn through_files(rt: &HostRuntime, closed: &Closed) -> anyhow::Result<Closed> {
    let path = path_of(rt)?;
    let mut files = Vec::new(rt.alloc());
    for run in &closed.files {
        files.push(run_through_files(rt, &path, run)?)?;
    }
    Ok(Closed {
        files,
        ids: closed.ids,
        next: closed.next,
        oldest: closed.oldest,
    })
}

/// Closes a store, and opens another one from its state.
pub fn reopen(
    rt: &HostRuntime,
    store: &mut Store,
    limit: usize,
    target: u64,
) -> anyhow::Result<Store> {
    let closed = store.close()?;
    let read = through_files(rt, &closed)?;
    match Store::open(rt.alloc(), limit, target, &read) {
        Ok(store) => Ok(store),
        Err(error) => bail!("not opened: {error:?}"),
    }
}
