//! The texts of the program's commands, from which the parser, the help, the completion and the
//! manual are made.

/// The type of a value.
#[derive(Clone, Copy)]
pub(crate) enum Takes {
    /// Any text.
    Text,
    /// The name of a file or folder.
    File,
    /// A number between two bounds, both included.
    Number(u64, u64),
    /// One of these words.
    Names(&'static [&'static str]),
}

/// The form of an argument.
#[derive(Clone, Copy)]
pub(crate) enum Form {
    /// A flag.
    Flag,
    /// An option with a value.
    Option(Takes),
    /// A positional value.
    Place(Takes),
    /// Positional file names, one or more. A key may be the last of them.
    Files,
}

/// An argument of a command.
#[derive(Clone, Copy)]
pub(crate) struct ArgumentText {
    /// The name: `to` for `--to`.
    pub(crate) name: &'static str,
    pub(crate) form: Form,
    /// The names of its values, if it has some.
    pub(crate) values: &'static [&'static str],
    /// Whether it is required.
    pub(crate) required: bool,
    /// The default value, if it has one.
    pub(crate) standard: &'static [&'static str],
    pub(crate) help: &'static str,
}

impl ArgumentText {
    /// Returns whether it is an option or a flag.
    pub(crate) fn is_named(&self) -> bool {
        match self.form {
            Form::Flag | Form::Option(_) => true,
            Form::Place(_) | Form::Files => false,
        }
    }
}

/// A command.
#[derive(Clone, Copy)]
pub(crate) struct CommandText {
    pub(crate) name: &'static str,
    /// Its purpose, in a line.
    pub(crate) about: &'static str,
    /// Its usage.
    pub(crate) usage: &'static str,
    /// Its arguments, the positional ones first.
    pub(crate) arguments: &'static [ArgumentText],
    /// Further notes, in lines of at most 76 columns. An empty line ends a paragraph. Lines that
    /// begin with four spaces are shown as they are.
    pub(crate) notes: &'static str,
}

/// The name of the program.
pub(crate) const PROGRAM: &str = "sst";

/// The version, as in the file `VERSION`.
pub(crate) const VERSION: &str = "4.0.0";

/// The date of the version, for the manual page.
pub(crate) const DATE: &str = "2026-11-30";

/// The purpose of the program.
pub(crate) const ABOUT: &str = "Writes, reads, verifies and compacts SSTable files";

/// Further notes on the program.
pub(crate) const NOTES: &str = "\
An SSTable file has entries in the order of their keys. An entry is a version
of a key: its sequence number, its kind and its value. Give the newest file
first.

Entries are lines KEY NUMBER KIND VALUE with one space between, such as:

    alice 7 V red

NUMBER is the sequence number, and newer versions have larger ones. KIND is V
for a value, T for a tombstone, W for a weak tombstone or I for an
indirection. In keys and values, a backslash and each byte that is not visible
ASCII are written \\xNN in lower case. The word - is the empty key or value,
and \\x2d is a single hyphen. Keys on the command line are written the same
way. Write a leading hyphen as \\x2d.

With --json each line is an object, and errors stay plain text. Bytes that
are not UTF-8 are {\"hex\":\"ff00\"}. The kinds are value, tombstone,
weak_tombstone and indirection:

    {\"key\":\"alice\",\"seqno\":7,\"kind\":\"value\",\"value\":\"red\"}

Options may be before, between and after the files. Without arguments sst runs
a script from standard input.

The exit status is 0 on success. It is 1 after an error, if a file is faulty,
and if a key is not found. It is 2 if the command line is wrong, or a script
ends early.";

const FILE: ArgumentText = ArgumentText {
    name: "file",
    form: Form::Place(Takes::File),
    values: &["FILE"],
    required: true,
    standard: &[],
    help: "The table file to write",
};

const FILES: ArgumentText = ArgumentText {
    name: "files",
    form: Form::Files,
    values: &["FILE"],
    required: true,
    standard: &[],
    help: "Table files, newest first",
};

const FILES_AND_KEY: ArgumentText = ArgumentText {
    help: "Table files, newest first, then the key",
    ..FILES
};

const JSON: ArgumentText = ArgumentText {
    name: "json",
    form: Form::Flag,
    values: &[],
    required: false,
    standard: &[],
    help: "Print JSON objects",
};

const JSON_RESULT: ArgumentText = ArgumentText {
    help: "Print a JSON object",
    ..JSON
};

const TARGET: ArgumentText = ArgumentText {
    name: "target",
    form: Form::Option(Takes::Number(1, u64::MAX)),
    values: &["BYTES"],
    required: false,
    standard: &[],
    help: "Target size of a table. Writes several tables if needed",
};

const INDEX: ArgumentText = ArgumentText {
    name: "index",
    form: Form::Option(Takes::Names(&["full", "partitioned"])),
    values: &["KIND"],
    required: false,
    standard: &["full"],
    help: "Kind of index: full or partitioned",
};

const FILTER: ArgumentText = ArgumentText {
    name: "filter",
    form: Form::Option(Takes::Text),
    values: &["BITS"],
    required: false,
    standard: &["10"],
    help: "Bloom filter bits for a key, 1 to 100, or none",
};

const BLOCK_SIZE: ArgumentText = ArgumentText {
    name: "block-size",
    form: Form::Option(Takes::Number(1, 4_194_304)),
    values: &["BYTES"],
    required: false,
    standard: &["4096"],
    help: "Target size of a data block, 1 to 4194304",
};

const PARTITION_SIZE: ArgumentText = ArgumentText {
    name: "partition-size",
    form: Form::Option(Takes::Number(1, 4_194_304)),
    values: &["BYTES"],
    required: false,
    standard: &["4096"],
    help: "Target size of an index partition, 1 to 4194304",
};

const LEVEL: ArgumentText = ArgumentText {
    name: "level",
    form: Form::Option(Takes::Number(0, 255)),
    values: &["N"],
    required: false,
    standard: &["0"],
    help: "Level to record in the table, 0 to 255",
};

const WRITE: [ArgumentText; 9] = [
    FILE,
    INDEX,
    FILTER,
    BLOCK_SIZE,
    PARTITION_SIZE,
    LEVEL,
    TARGET,
    ArgumentText {
        name: "sort",
        form: Form::Flag,
        values: &[],
        required: false,
        standard: &[],
        help: "Sort the entries first",
    },
    ArgumentText {
        help: "Read JSON objects, and print the result as one",
        ..JSON
    },
];

const AT: ArgumentText = ArgumentText {
    name: "at",
    form: Form::Option(Takes::Number(0, u64::MAX)),
    values: &["N"],
    required: false,
    standard: &[],
    help: "Snapshot: read only sequence numbers below N [default: all]",
};

const DUMP: [ArgumentText; 8] = [
    FILES,
    ArgumentText {
        name: "from",
        form: Form::Option(Takes::Text),
        values: &["KEY"],
        required: false,
        standard: &[],
        help: "Start at this key",
    },
    ArgumentText {
        name: "to",
        form: Form::Option(Takes::Text),
        values: &["KEY"],
        required: false,
        standard: &[],
        help: "Stop before this key",
    },
    ArgumentText {
        name: "reverse",
        form: Form::Flag,
        values: &[],
        required: false,
        standard: &[],
        help: "Print the last entry first",
    },
    ArgumentText {
        name: "limit",
        form: Form::Option(Takes::Number(0, u64::MAX)),
        values: &["N"],
        required: false,
        standard: &[],
        help: "Print at most N entries, of all files together",
    },
    ArgumentText {
        name: "merged",
        form: Form::Flag,
        values: &[],
        required: false,
        standard: &[],
        help: "Print the newest version of each key of all files, as one list",
    },
    ArgumentText {
        help: "Snapshot of --merged: read only sequence numbers below N [default: all]",
        ..AT
    },
    JSON,
];

const GET: [ArgumentText; 4] = [
    FILES_AND_KEY,
    AT,
    ArgumentText {
        name: "loads",
        form: Form::Flag,
        values: &[],
        required: false,
        standard: &[],
        help: "Print the blocks that the read loads",
    },
    JSON,
];

const STAT: [ArgumentText; 2] = [
    FILES,
    ArgumentText {
        help: "Print a JSON object for each table",
        ..JSON
    },
];

const COMPACT: [ArgumentText; 12] = [
    FILES,
    ArgumentText {
        name: "to",
        form: Form::Option(Takes::File),
        values: &["FOLDER"],
        required: true,
        standard: &[],
        help: "New folder for the new tables",
    },
    ArgumentText {
        name: "watermark",
        form: Form::Option(Takes::Number(0, u64::MAX)),
        values: &["N"],
        required: false,
        standard: &["0"],
        help: "Oldest snapshot still in use; 0 keeps all versions",
    },
    ArgumentText {
        name: "evict",
        form: Form::Flag,
        values: &[],
        required: false,
        standard: &[],
        help: "Drop tombstones below the watermark, as at the last level",
    },
    ArgumentText {
        name: "zero",
        form: Form::Flag,
        values: &[],
        required: false,
        standard: &[],
        help: "Set sequence numbers below the watermark to 0",
    },
    INDEX,
    FILTER,
    BLOCK_SIZE,
    PARTITION_SIZE,
    LEVEL,
    TARGET,
    JSON_RESULT,
];

const VERIFY: [ArgumentText; 2] = [FILES, JSON];

const PACK: [ArgumentText; 2] = [FILES, JSON_RESULT];

const SHELL: ArgumentText = ArgumentText {
    name: "shell",
    form: Form::Place(Takes::Names(&["bash", "zsh", "fish"])),
    values: &["SHELL"],
    required: true,
    standard: &[],
    help: "The shell: bash, zsh or fish",
};

/// The commands, in the order of the help.
pub(crate) static COMMANDS: [CommandText; 9] = [
    CommandText {
        name: "write",
        about: "Writes a table of the entries on standard input",
        usage: "sst write [OPTIONS] <FILE>",
        arguments: &WRITE,
        notes: "\
The entries are in order: by key, and those of a key by sequence number with
the largest first. After a line out of order nothing is written.

A data block is complete once its keys and values reach --block-size. With
--target, a table ends before the next key once its complete data blocks reach
that size. The files are then FILE.000001, FILE.000002 and so on. Existing
files of these names are replaced. It is an error if the number after the last
has a file.

Files are written under temporary names, such as FILE.1.tmp. Once all are
complete and synced, they are renamed. After an error before that, the old
files stay. With --target, files that were renamed before the error stay too.",
    },
    CommandText {
        name: "dump",
        about: "Prints the entries of tables",
        usage: "sst dump [OPTIONS] <FILE>...",
        arguments: &DUMP,
        notes: "\
Prints the files one after another (unless --merged). Each is in key order, or
in reverse order with --reverse.

With --merged the files are read together, as by a store. The newest version
of each key is printed, in the order of the keys. A key whose newest version
is a tombstone, weak or not, is left out. The option --at needs --merged.",
    },
    CommandText {
        name: "get",
        about: "Prints the newest visible version of a key",
        usage: "sst get [OPTIONS] <FILE>... <KEY>",
        arguments: &GET,
        notes: "\
Each file is a run of its own, and the last argument is the key. The version
may be a tombstone. If the key has no version below N in any file, prints
none, or null with --json, and exits with 1.",
    },
    CommandText {
        name: "stat",
        about: "Prints the metadata and sections of tables",
        usage: "sst stat [OPTIONS] <FILE>...",
        arguments: &STAT,
        notes: "\
Also lists the data blocks. With more than 32, a line has several adjacent
blocks. A JSON object lists each data block.",
    },
    CommandText {
        name: "verify",
        about: "Verifies tables and prints their faults",
        usage: "sst verify [OPTIONS] <FILE>...",
        arguments: &VERIFY,
        notes: "\
Reads every block, the index and the filter. Compares the entries with the
table's metadata: keys, sequence numbers, and the counts of data blocks,
entries and tombstones. Prints that a file is valid, or its first fault and
then each further block found that does not load. Blocks below a damaged index
block are not found. A file that does not open is faulty too. Exits with 1 if
a file is.

Bytes that no read needs are not compared, such as the version, its offset and
that of the data blocks in the trailer, and bytes outside the sections.

On a terminal a bar on standard error shows the progress.",
    },
    CommandText {
        name: "compact",
        about: "Compacts tables into new ones",
        usage: "sst compact [OPTIONS] --to <FOLDER> <FILE>...",
        arguments: &COMPACT,
        notes: "\
Keeps the versions that a reader at the watermark or later may see. Without a
watermark it keeps all. A weak tombstone below the watermark is dropped with
the value that it hides. With --evict a tombstone that is the newest version
below the watermark is dropped too.

The new tables are 000001.sst, 000002.sst and so on in FOLDER. Their options
are those of write. The folder has a temporary name first, such as
FOLDER.1.tmp. Once all files are complete and synced, it is renamed. It is an
error if FOLDER exists already.",
    },
    CommandText {
        name: "pack",
        about: "Prints the fewest runs of tables",
        usage: "sst pack [OPTIONS] <FILE>...",
        arguments: &PACK,
        notes: "\
The tables of a run do not overlap. Prints the files of each run. With several
runs it also prints a chain of tables that each overlap the next. Each of these
needs a run of its own. With --json the chain of one run is empty.",
    },
    CommandText {
        name: "completion",
        about: "Prints the completion script for a shell",
        usage: "sst completion <SHELL>",
        arguments: &[SHELL],
        notes: "\
For bash, a line of ~/.bashrc:

    source <(sst completion bash)

For zsh, in a folder of $fpath that is set before compinit runs:

    sst completion zsh > ~/.zsh/completions/_sst

For fish:

    sst completion fish > ~/.config/fish/completions/sst.fish",
    },
    CommandText {
        name: "man",
        about: "Prints the manual page",
        usage: "sst man",
        arguments: &[],
        notes: "\
To read the page:

    sst man > sst.1
    man ./sst.1",
    },
];
