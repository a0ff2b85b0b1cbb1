//! Command lines and their results.
use std::alloc::{AllocError, Global};
use std::test::Fail;
use tool_options::{Parsed, parse};

/// Command lines, and the first text of their results.
const LINES: [(&str, &str); 40] = [
    (
        "sst write f",
        "Write(WriteTask { file: \"f\", tables: TableArguments { partitioned: false, filter_bits: \
         10, block_size: 4096, partition_size: 4096, level: 0, target: None }, sort: false, json: \
         false })",
    ),
    (
        "sst write --index partitioned f --filter none --block-size 7 --partition-size=8 --level \
         3 --target 9 --sort --json",
        "Write(WriteTask { file: \"f\", tables: TableArguments { partitioned: true, filter_bits: \
         0, block_size: 7, partition_size: 8, level: 3, target: Some(9) }, sort: true, json: true })",
    ),
    (
        "sst dump a b --from x --to=y --reverse --limit 3 --json",
        "Dump(DumpTask { files: [\"a\", \"b\"], from: Some(\"x\"), to: Some(\"y\"), reverse: \
         true, limit: Some(3), merged: false, at: None, json: true })",
    ),
    (
        "sst dump --merged a --at 7 b",
        "Dump(DumpTask { files: [\"a\", \"b\"], from: None, to: None, reverse: false, limit: None, \
         merged: true, at: Some(7), json: false })",
    ),
    (
        "sst dump a --at 7 b",
        "mistaken error: the following required arguments were not provided:\n  --merged\n\nUsage: sst \
         dump --merged --at <N> <FILE>...\n\nFor more information, try 'sst dump --help'.\n",
    ),
    (
        "sst get a b c --at 7 --loads --json",
        "Get(GetTask { files: [\"a\", \"b\"], key: \"c\", at: Some(7), loads: true, json: true })",
    ),
    (
        "sst get a --at 7 b --json c --loads",
        "Get(GetTask { files: [\"a\", \"b\"], key: \"c\", at: Some(7), loads: true, json: true })",
    ),
    (
        "sst get --at 7 a c",
        "Get(GetTask { files: [\"a\"], key: \"c\", at: Some(7), loads: false, json: false })",
    ),
    (
        "sst get -- a -k",
        "Get(GetTask { files: [\"a\"], key: \"-k\", at: None, loads: false, json: false })",
    ),
    (
        "sst stat a b --json",
        "Stat(StatTask { files: [\"a\", \"b\"], json: true })",
    ),
    (
        "sst stat a --json b",
        "Stat(StatTask { files: [\"a\", \"b\"], json: true })",
    ),
    (
        "sst compact --evict a --to c b",
        "Compact(CompactTask { files: [\"a\", \"b\"], folder: \"c\", watermark: 0, evict: true, zero: \
         false, tables: TableArguments { partitioned: false, filter_bits: 10, block_size: 4096, \
         partition_size: 4096, level: 0, target: None }, json: false })",
    ),
    (
        "sst verify a",
        "Verify(VerifyTask { files: [\"a\"], json: false })",
    ),
    (
        "sst verify --json a b",
        "Verify(VerifyTask { files: [\"a\", \"b\"], json: true })",
    ),
    (
        "sst compact a b --to c --watermark 4 --evict --zero --index partitioned --filter none \
         --block-size 7 --partition-size 8 --level 3 --target 5 --json",
        "Compact(CompactTask { files: [\"a\", \"b\"], folder: \"c\", watermark: 4, evict: true, \
         zero: true, tables: TableArguments { partitioned: true, filter_bits: 0, block_size: 7, \
         partition_size: 8, level: 3, target: Some(5) }, json: true })",
    ),
    (
        "sst pack a b",
        "Pack(PackTask { files: [\"a\", \"b\"], json: false })",
    ),
    (
        "sst pack a --json b",
        "Pack(PackTask { files: [\"a\", \"b\"], json: true })",
    ),
    (
        "sst write f --filter 101",
        "mistaken error: invalid value for '--filter <BITS>': expected 1 to 100, or none\n",
    ),
    (
        "sst write f --filter 0",
        "mistaken error: invalid value for '--filter <BITS>'",
    ),
    (
        "sst write f --level 256",
        "mistaken error: invalid value '256' for '--level <N>': 256 is not in 0..=255\n",
    ),
    (
        "sst write f --block-size 4194305",
        "mistaken error: invalid value '4194305' for '--block-size <BYTES>'",
    ),
    (
        "sst write f --index half",
        "mistaken error: invalid value 'half' for '--index <KIND>'\n",
    ),
    (
        "sst get a",
        "mistaken error: the following required arguments were not provided:\n  <KEY>\n\nUsage: sst \
         get [OPTIONS] <FILE>... <KEY>\n\nFor more information, try 'sst get --help'.\n",
    ),
    (
        "sst get --json",
        "mistaken error: the following required arguments were not provided:\n  <FILE>...\n",
    ),
    (
        "sst compact a",
        "mistaken error: the following required arguments were not provided:\n  --to <FOLDER>\n",
    ),
    (
        "sst verify",
        "mistaken error: the following required arguments were not provided:\n  <FILE>...\n",
    ),
    (
        "sst dumb",
        "mistaken error: unrecognized subcommand 'dumb'\n",
    ),
    (
        "sst write f --filter 100",
        "Write(WriteTask { file: \"f\", tables: TableArguments { partitioned: false, filter_bits: 100,",
    ),
    (
        "sst write f --block-size 0",
        "mistaken error: invalid value '0' for '--block-size <BYTES>'",
    ),
    (
        "sst compact a --to c --filter 101",
        "mistaken error: invalid value for '--filter <BITS>': expected 1 to 100, or none\n\nFor more \
         information, try 'sst compact --help'.\n",
    ),
    (
        "sst compact a --to c --target 0",
        "mistaken error: invalid value '0' for '--target <BYTES>'",
    ),
    ("sst", "mistaken "),
    (
        "sst man",
        "shown .TH SST 1 2026-11-30 \"sst 4.0.0\" \"User Commands\"\n.SH NAME\nsst \\- Writes, ",
    ),
    (
        "sst completion bash",
        "shown # Completes the commands of sst in bash: source <(sst completion bash)\n_sst() {\n",
    ),
    (
        "sst completion zsh",
        "shown #compdef sst\n# Completes the commands of sst in zsh. It is the file _sst in a folder \
         of $fpath.\n\n_sst_commands() {\n    local -a commands=(\n        'write:Writes a table of \
         the entries on standard input'\n",
    ),
    (
        "sst completion fish",
        "shown # Completes the commands of sst in fish: sst completion fish | source\n",
    ),
    (
        "sst completion csh",
        "mistaken error: invalid value 'csh' for '<SHELL>'\n  [possible values: bash, zsh, fish]\n",
    ),
    (
        "sst completion",
        "mistaken error: the following required arguments were not provided:\n  <SHELL>\n",
    ),
    ("sst --version", "shown sst 4.0.0\n"),
    (
        "sst help pack",
        "shown Prints the fewest runs of tables\n\nUsage: sst pack [OPTIONS] <FILE>...\n",
    ),
];

// The result of a command line, as text.
fn shown(alloc: Global, line: &str) -> Result<String, AllocError> {
    let mut words = Vec::new(alloc);
    for word in line.split(' ') {
        words.push(word)?;
    }
    match parse(alloc, words.as_slice())? {
        Parsed::Task(task) => format!(in alloc; "{task:?}"),
        Parsed::Shown(text) => format!(in alloc; "shown {text}"),
        Parsed::Mistaken(text) => format!(in alloc; "mistaken {text}"),
    }
}

/// Command lines, and parts of their texts.
const PARTS: [(&str, &str); 12] = [
    (
        "sst completion bash",
        "\n    'write --index') words='full partitioned' ;;\n    'write --filter') compopt +o default; \
         return ;;\n",
    ),
    (
        "sst completion bash",
        "\n    'completion completion') words='bash zsh fish' ;;\n",
    ),
    (
        "sst completion bash",
        "\n        get) words='--at --loads --json --help' ;;\n",
    ),
    (
        "sst completion zsh",
        "\n    get)\n        _arguments -S \\\n            '*:FILE:_files' \\\n            '--at=[Snapshot\\: \
         read only sequence numbers below N \\[default\\: all\\]]:N: ' \\\n",
    ),
    ("sst completion zsh", ":KIND:(full partitioned)' \\\n"),
    ("sst completion zsh", ":FOLDER:_files' \\\n"),
    (
        "sst completion fish",
        "\ncomplete -c sst -n '__sst_command write' -l index -r -f -a 'full partitioned' -d 'Kind of \
         index: full or partitioned'\n",
    ),
    (
        "sst completion fish",
        "\ncomplete -c sst -n '__sst_command compact' -l to -r -F -d 'New folder for the new tables'\n",
    ),
    (
        "sst completion fish",
        "\ncomplete -c sst -n '__sst_command get' -l loads -d 'Print the blocks that the read loads'\n",
    ),
    (
        "sst man",
        "\n.TP\n\\fB\\-\\-level\\fR \\fIN\\fR\nLevel to record in the table, 0 to 255 \
         [default: 0].\n.TP\n",
    ),
    (
        "sst man",
        "\n.SH EXIT STATUS\n.TP\n.B 0\nSuccess.\n.TP\n.B 1\nAn error, or memory ran out.",
    ),
    (
        "sst man",
        "\n.SH EXAMPLES\nWrite two tables, the second with later versions of some keys:\n.PP\n.RS 4\n\
         .nf\nsst write bookworm.sst \\-\\-level 1 < bookworm.txt\n",
    ),
];

#[test]
fn texts_have_these_parts(rt: HostRuntime) -> Result<(), Fail> {
    let parts = PARTS;
    for (line, part) in parts.as_slice() {
        let text = shown(rt.alloc(), line)?;
        assert!(rt; text.as_str().contains(*part), "{line}: {part}");
    }
    Ok(())
}

#[test]
fn words_come_to_tasks_and_texts(rt: HostRuntime) -> Result<(), Fail> {
    let lines = LINES;
    for (line, expected) in lines.as_slice() {
        let text = shown(rt.alloc(), line)?;
        assert!(rt; text.as_str().starts_with(expected), "{line}: {text}");
    }
    Ok(())
}
