//! The tasks of the command line.

/// The tasks of the command line.
#[derive(Debug, Drop)]
pub enum Task<'a> {
    /// Write entries into tables.
    Write(WriteTask<'a>),
    /// Print the entries of tables.
    Dump(DumpTask<'a>),
    /// Print the visible version of a key.
    Get(GetTask<'a>),
    /// Print the metadata of tables.
    Stat(StatTask<'a>),
    /// Verify tables and print their faults.
    Verify(VerifyTask<'a>),
    /// Compact tables into new ones.
    Compact(CompactTask<'a>),
    /// Print the fewest runs of tables.
    Pack(PackTask<'a>),
}

/// The options of new tables. Those that are left out have their defaults.
#[derive(Clone, Copy, Debug, PartialEq, Eq)]
pub struct TableArguments {
    /// Whether the index has partitions.
    pub partitioned: bool,
    /// The bits of the filter for each key, 1 to 100, or 0 for no filter.
    pub filter_bits: u32,
    /// Target size of a data block in bytes of keys and values, 1 to 4,194,304.
    pub block_size: u32,
    /// Target size of an index partition in bytes, 1 to 4,194,304.
    pub partition_size: u32,
    /// The level of the tables.
    pub level: u8,
    /// Target size of a table in bytes, 1 or more. Without it there is one table.
    pub target: Option<u64>,
}

/// Write the entries on standard input into tables.
#[derive(Clone, Copy, Debug, PartialEq, Eq)]
pub struct WriteTask<'a> {
    /// The file to write, or with a target the prefix of the files' names.
    pub file: &'a str,
    /// The options of the tables.
    pub tables: TableArguments,
    /// Whether the entries are sorted first.
    pub sort: bool,
    /// Whether lines are JSON objects, and the result is one.
    pub json: bool,
}

/// Print entries.
#[derive(Debug, Drop)]
pub struct DumpTask<'a> {
    /// The table files, one or more, newest first.
    pub files: Vec<&'a str>,
    /// The first key, as given. Without it there is no lower bound.
    pub from: Option<&'a str>,
    /// The end of the keys, excluded, as given. Without it there is no upper bound.
    pub to: Option<&'a str>,
    /// Whether the last entry is printed first.
    pub reverse: bool,
    /// The most entries to print. Without it all are.
    pub limit: Option<u64>,
    /// Whether the files are read together, as one list of the newest version of each key.
    pub merged: bool,
    /// The snapshot, only if `merged`: versions with a smaller sequence number are visible. Without
    /// it all are.
    pub at: Option<u64>,
    /// Whether lines are JSON objects.
    pub json: bool,
}

/// Look up a key.
#[derive(Debug, Drop)]
pub struct GetTask<'a> {
    /// The table files, one or more, newest first.
    pub files: Vec<&'a str>,
    /// The key, as given.
    pub key: &'a str,
    /// The snapshot: versions with a smaller sequence number are visible. Without it all are.
    pub at: Option<u64>,
    /// Whether the loaded blocks are printed.
    pub loads: bool,
    /// Whether lines are JSON objects.
    pub json: bool,
}

/// Print the metadata of tables.
#[derive(Debug, Drop)]
pub struct StatTask<'a> {
    /// The table files, one or more.
    pub files: Vec<&'a str>,
    /// Whether lines are JSON objects.
    pub json: bool,
}

/// Verify tables.
#[derive(Debug, Drop)]
pub struct VerifyTask<'a> {
    /// The table files, one or more.
    pub files: Vec<&'a str>,
    /// Whether lines are JSON objects.
    pub json: bool,
}

/// Compact tables.
#[derive(Debug, Drop)]
pub struct CompactTask<'a> {
    /// The table files, one or more, newest first.
    pub files: Vec<&'a str>,
    /// The folder for the new tables.
    pub folder: &'a str,
    /// The watermark: no reader has a snapshot below this sequence number.
    pub watermark: u64,
    /// Whether tombstones are dropped, as at the last level.
    pub evict: bool,
    /// Whether sequence numbers below the watermark become 0.
    pub zero: bool,
    /// The options of the new tables.
    pub tables: TableArguments,
    /// Whether the result is a JSON object.
    pub json: bool,
}

/// Pack tables into the fewest runs.
#[derive(Debug, Drop)]
pub struct PackTask<'a> {
    /// The table files, one or more, newest first.
    pub files: Vec<&'a str>,
    /// Whether the result is a JSON object.
    pub json: bool,
}
