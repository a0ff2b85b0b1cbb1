use crate::scripts::streams::{FailingReader, FailingWriter, FlushCounter, UnflushedWriter};
use sst_script::run_script;
use std::alloc::{AllocError, Allocator, Global};
use std::io::{self, BufWriter};
use std::test::Fail;
use test_support::{Refusing, each_refused};

// The output of a script, its report and its status.
#[derive(Drop)]
struct Ran<A: Allocator> {
    output: Vec<u8, A>,
    errors: Vec<u8, A>,
    status: u8,
}

fn run<A: Allocator + Clone, B: Allocator + Clone>(
    alloc: A,
    plenty: B,
    script: &[u8],
) -> Result<Ran<B>, AllocError> {
    let mut output = Vec::new(plenty.clone()?);
    let mut errors = Vec::new(plenty);
    let status = run_script(alloc, script, &mut output, &mut errors);
    Ok(Ran {
        output,
        errors,
        status,
    })
}

/// Returns whether a script has this output and ends at its last line.
pub(crate) fn gives<A: Allocator + Clone>(
    alloc: A,
    script: &[u8],
    output: &[u8],
) -> Result<bool, AllocError> {
    let ran = run(alloc.clone()?, alloc, script)?;
    Ok(ran.output.as_slice() == output && ran.errors.is_empty() && ran.status == 0)
}

fn stops<A: Allocator + Clone>(
    alloc: A,
    script: &[u8],
    output: &[u8],
    errors: &[u8],
) -> Result<bool, AllocError> {
    let ran = run(alloc.clone()?, alloc, script)?;
    Ok(ran.output.as_slice() == output && ran.errors.as_slice() == errors && ran.status == 2)
}

const FIRST: &[u8] =
    b"entry a 9 V x\nentry a 7 T -\nentry b 1 V y\ntable\nget a 9\nget a 100\nget c 5\nrange * *\n\
      compact 8\nrange =a !b\nentry d 2 V q\ntable\npack\n";

const FIRST_OUTPUT: &[u8] =
    b"tables 1\na 7 T -\na 9 V x\nnone\na 9 V x\nb 1 V y\ntables 1\na 9 V x\ntables 1\nruns 1\n";

// Scripts and their output.
const READ_BACK: &[(&[u8], &[u8])] = &[
    (FIRST, FIRST_OUTPUT),
    (b"", b""),
    (b"\n\ntable\n\ntable", b"tables 0\ntables 0\n"),
    (b"get - 0\nget - 18446744073709551615", b"none\nnone\n"),
    (
        b"entry - 0 W ~!\ntable\nget - 1\nget - 0",
        b"tables 1\n- 0 W ~!\nnone\n",
    ),
    (
        b"entry - 18446744073709551614 I -\ntable\nget - 18446744073709551615",
        b"tables 1\n- 18446744073709551614 I -\n",
    ),
    // The newest answer comes from the older run.
    (
        b"entry a 9 V x\ntable\nentry a 3 V y\nentry b 1 T -\ntable\nget a 10\nget a 9\nget b 2",
        b"tables 1\ntables 1\na 9 V x\na 3 V y\nb 1 T -\n",
    ),
    // A sequence number of a key may be in one run only, and another in another run.
    (
        b"entry a 2 V x\ntable\nentry a 1 V y\ntable\nentry b 2 V z\ntable\nget a 2\nget b 3",
        b"tables 1\ntables 1\ntables 1\na 1 V y\nb 2 V z\n",
    ),
    // A range has the newest version of each key, also a tombstone.
    (
        b"entry a 5 V o\nentry c 2 V z\ntable\nentry a 9 V x\nentry b 1 T -\ntable\nrange * *\n\
          get a 9\nget a 10",
        b"tables 1\ntables 1\na 9 V x\nb 1 T -\nc 2 V z\na 5 V o\na 9 V x\n",
    ),
    (
        b"entry a 5 V o\nentry c 2 V z\ntable\nentry a 9 V x\nentry b 1 V y\ntable\nrange * *\n\
          get a 9\nget a 10",
        b"tables 1\ntables 1\na 9 V x\nb 1 V y\nc 2 V z\na 5 V o\na 9 V x\n",
    ),
    (
        b"entry a 9 V x\ntable\nentry a 5 V o\ntable\nget a 10\nrange =a =a",
        b"tables 1\ntables 1\na 9 V x\na 9 V x\n",
    ),
    // Included and excluded bounds, of keys that exist and that do not.
    (
        b"entry - 1 V -\nentry a 2 V x\nentry b 3 V y\ntable\nrange =a !b\nrange !- =aa\n\
          range =- =-\nrange !b *\nrange =b =a\nrange * !-",
        b"tables 1\na 2 V x\na 2 V x\n- 1 V -\nnone\nnone\nnone\n",
    ),
    (b"range * *\nrange =* !*", b"none\nnone\n"),
];

// Scripts that compact or pack their runs, and their output.
const COMPACTED: &[(&[u8], &[u8])] = &[
    (b"compact 5\npack\nrange * *", b"tables 0\nruns 0\nnone\n"),
    (
        b"entry a 4 T -\ntable\ncompact 5 evict\nrange * *",
        b"tables 1\ntables 0\nnone\n",
    ),
    // A tombstone stays if none is evicted, and if its sequence number is not below the watermark.
    (
        b"entry a 4 T -\ntable\ncompact 5\nrange * *\ncompact 5 zero\nrange * *",
        b"tables 1\ntables 1\na 4 T -\ntables 1\na 0 T -\n",
    ),
    (
        b"entry a 4 V x\ntable\ncompact 5 zero\nget a 1\nget a 5",
        b"tables 1\ntables 1\na 0 V x\na 0 V x\n",
    ),
    (
        b"entry a 4 V x\nentry b 2 T -\ntable\ncompact 0 zero\nrange * *\ncompact 5 evict zero\n\
          range * *",
        b"tables 1\ntables 1\na 4 V x\nb 2 T -\ntables 1\na 0 V x\n",
    ),
    // A weak tombstone is dropped with the value that it hides, and stays before a tombstone.
    (
        b"entry a 5 W -\nentry a 3 V x\nentry b 5 W -\nentry b 3 T -\ntable\ncompact 6\nrange * *\n\
          get a 4\nget b 4",
        b"tables 1\ntables 1\nb 5 W -\nnone\nnone\n",
    ),
    // Versions of a key in several runs meet in one, and those that the watermark hides are
    // dropped.
    (
        b"entry a 9 V x\ntable\nentry a 3 V y\nentry b 2 V z\ntable\nentry a 1 V w\ntable\n\
          compact 4\nget a 10\nget a 9\nget a 3\nget b 3\npack",
        b"tables 1\ntables 1\ntables 1\ntables 1\na 9 V x\na 3 V y\nnone\nb 2 V z\nruns 1\n",
    ),
    // A dropped sequence number may be used again.
    (
        b"entry a 9 V x\nentry a 3 V y\ntable\ncompact 10\nentry a 3 V z\ntable\nget a 9\npack\n\
          compact 10\nget a 9",
        b"tables 1\ntables 1\ntables 1\na 3 V z\nruns 2\ntables 1\nnone\n",
    ),
    // Pending entries stay pending.
    (
        b"entry a 1 V x\ntable\nentry b 1 V y\ncompact 5\npack\nrange * *\nentry c 1 V z\ntable\n\
          range * *",
        b"tables 1\ntables 1\nruns 1\na 1 V x\ntables 1\na 1 V x\nb 1 V y\nc 1 V z\n",
    ),
    // Adjacent tables go into one run, in the order of their keys.
    (
        b"entry d 1 V x\ntable\nentry a 1 V y\ntable\npack\nrange * *",
        b"tables 1\ntables 1\nruns 1\na 1 V y\nd 1 V x\n",
    ),
    // Tables of one key cannot.
    (
        b"entry a 1 V x\nentry c 1 V x\ntable\nentry b 2 V y\ntable\nentry d 3 V z\ntable\npack\n\
          range * *\npack\ncompact 0\npack",
        b"tables 1\ntables 1\ntables 1\nruns 2\na 1 V x\nb 2 V y\nc 1 V x\nd 3 V z\nruns 2\n\
          tables 1\nruns 1\n",
    ),
    (
        b"entry a 9 V x\nentry a 3 V y\ntable\ncompact 9\ncompact 9\nrange * *\ncompact 10\n\
          get a 9\npack",
        b"tables 1\ntables 1\ntables 1\na 9 V x\ntables 1\nnone\nruns 1\n",
    ),
];

// A script whose keys look like options: the empty key, `--`, `=` and `a`.
const MARKED: &[u8] = b"entry - 1 V e\nentry -- 1 V d\nentry = 1 V q\nentry a 1 V x\ntable\n";

// Ranges of them, and their output. A bound is a byte and its key, or `-` for the empty one.
const MARKED_BOUNDS: &[(&[u8], &[u8])] = &[
    (b"range == ==", b"= 1 V q\n"),
    (b"range == *", b"= 1 V q\na 1 V x\n"),
    (b"range != *", b"a 1 V x\n"),
    (b"range * !=", b"- 1 V e\n-- 1 V d\n"),
    (b"range =-- =--", b"-- 1 V d\n"),
    (b"range !-- !=", b"none\n"),
    (b"range =- =-", b"- 1 V e\n"),
    (b"range !- =--", b"-- 1 V d\n"),
];

// Whether a line after the table has this output.
fn prints_behind<A: Allocator + Copy>(
    alloc: A,
    line: &[u8],
    shown: &[u8],
) -> Result<bool, AllocError> {
    let mut script = Vec::from_slice(alloc, MARKED)?;
    script.extend_from_slice(line)?;
    let ran = run(alloc, alloc, &script)?;
    Ok(ran.status == 0 && ran.output.strip_prefix(b"tables 1\n") == Some(shown))
}

#[test]
fn bounds_of_keys_that_look_like_marks(rt: HostRuntime) {
    let alloc = rt.alloc();
    for &(line, shown) in MARKED_BOUNDS {
        assert!(rt; prints_behind(alloc, line, shown) == Ok(true));
    }
}

// A script with entries of a thousand bytes, more than a table takes.
fn many_entries<A: Allocator>(alloc: A, count: u8) -> Result<Vec<u8, A>, AllocError> {
    let mut script = Vec::new(alloc);
    for number in 0..count {
        script.extend_from_slice(b"entry k")?;
        script.push(b'0' + number / 10)?;
        script.push(b'0' + number % 10)?;
        script.extend_from_slice(b" 1 V ")?;
        script.resize(script.len() + 1000, b'x')?;
        script.push(b'\n')?;
    }
    script.extend_from_slice(b"table\nget k99 2\nrange !k99 *\ncompact 2\npack\n")?;
    Ok(script)
}

fn has_two_tables<A: Allocator + Clone>(alloc: A) -> Result<bool, AllocError> {
    let script = many_entries(alloc.clone()?, 80)?;
    gives(alloc, &script, b"tables 2\nnone\nnone\ntables 2\nruns 1\n")
}

#[test]
fn many_entries_are_several_tables(rt: HostRuntime) -> Result<(), Fail> {
    assert!(rt; has_two_tables(rt.alloc())?);
    Ok(())
}

#[test]
fn reads_back_what_was_written(rt: HostRuntime) -> Result<(), Fail> {
    let alloc = rt.alloc();
    for &(script, output) in READ_BACK {
        assert!(rt; gives(alloc, script, output)?);
    }
    Ok(())
}

#[test]
fn compacts_and_packs(rt: HostRuntime) -> Result<(), Fail> {
    let alloc = rt.alloc();
    for &(script, output) in COMPACTED {
        assert!(rt; gives(alloc, script, output)?);
    }
    Ok(())
}

const NO_COMMANDS: &[&[u8]] = &[
    b"compact",
    b"compact ",
    b"compact x",
    b"compact 08",
    b"compact +8",
    b"compact  8",
    b"compact evict",
    b"compact 18446744073709551616",
    b"compact 5 ",
    b"compact 5 x",
    b"compact 5  evict",
    b"compact 5 Evict",
    b"compact 5 evict ",
    b"compact 5 evictzero",
    b"compact 5 zero evict",
    b"compact 5 evict evict",
    b"compact 5 zero zero",
    b"compact 5 evict  zero",
    b"compact 5 evict zero zero",
    b"compact 5 evict zero ",
    b"Compact 5",
    b"pack 1",
    b"pack ",
    b"Pack",
    b"range",
    b"range *",
    b"range * * *",
    b"range a b",
    b"range = *",
    b"range * !",
    b"range ** *",
    b"range * =\x7f",
    b"range  *",
    b"Table",
    b" table",
    b"table ",
    b"table x",
    b"table\r",
    b"\t",
    b" ",
    b"get",
    b"get ",
    b"get a",
    b"get a ",
    b"get  1",
    b"get a  1",
    b"get a 1 ",
    b"get a 1 2",
    b"get a -",
    b"get a 01",
    b"get a 00",
    b"get a +1",
    b"get a 1x",
    b"get a 18446744073709551616",
    b"get a 99999999999999999999999999999999",
    b"get a\t 1",
    b"get \x7f 1",
    b"get \x80 1",
    b"entry a 1 V",
    b"entry a 1 V x y",
    b"entry a 1 X x",
    b"entry a 1 v x",
    b"entry a 1 VV x",
    b"entry a 1  x",
    b"entry a 1 V \x1f",
    b"entry a 18446744073709551615 V x",
];

#[test]
fn a_line_of_no_such_form_ends_the_script(rt: HostRuntime) -> Result<(), Fail> {
    let alloc = rt.alloc();
    for &line in NO_COMMANDS {
        assert!(rt; stops(alloc, line, b"", b"sst: line 1\n")?, "{line:?}");
    }
    Ok(())
}

// Scripts, their output and their report.
const OUT_OF_ORDER: &[(&[u8], &[u8], &[u8])] = &[
    (b"entry a 1 V x\nentry a 2 V y", b"", b"sst: line 2\n"),
    (b"entry a 1 V x\n\nentry a 1 T -", b"", b"sst: line 3\n"),
    (b"entry b 1 V x\nentry a 2 V y\nget", b"", b"sst: line 2\n"),
    (b"entry aa 1 V x\nentry a 0 V y", b"", b"sst: line 2\n"),
    (
        b"entry a 9 V x\ntable\nentry a 8 V x\nentry a 7 V y\ntable\nentry - 1 V x\nentry a 9 T -\n\
          table\ntable",
        b"tables 1\ntables 1\n",
        b"sst: line 8\n",
    ),
    (
        b"entry a 9 V x\nentry a 8 V x\nentry b 7 V x\ntable\nget b 8\nentry a 8 V x\ntable",
        b"tables 1\nb 7 V x\n",
        b"sst: line 7\n",
    ),
    // A compacted run has the kept entries, with the sequence numbers that they have there.
    (
        b"entry a 4 V x\ntable\ncompact 5\nentry a 4 V y\ntable\npack",
        b"tables 1\ntables 1\n",
        b"sst: line 5\n",
    ),
    (
        b"entry a 4 V x\ntable\ncompact 5 zero\nentry a 4 V y\ntable\nentry a 0 V z\ntable",
        b"tables 1\ntables 1\ntables 1\n",
        b"sst: line 7\n",
    ),
    // A packed run has the entries of its tables, with the sequence numbers that they have there.
    (
        b"entry a 4 V x\ntable\nentry b 4 V y\ntable\npack\nentry a 4 V z\ntable",
        b"tables 1\ntables 1\nruns 1\n",
        b"sst: line 7\n",
    ),
];

#[test]
fn an_entry_out_of_order_or_twice_ends_the_script(rt: HostRuntime) -> Result<(), Fail> {
    let alloc = rt.alloc();
    for &(script, output, errors) in OUT_OF_ORDER {
        assert!(rt; stops(alloc, script, output, errors)?);
    }
    Ok(())
}

// A script with an entry whose key has `length` bytes between two parts.
fn with_long_key<A: Allocator>(
    alloc: A,
    before: &[u8],
    length: usize,
    after: &[u8],
) -> Result<Vec<u8, A>, AllocError> {
    let mut script = Vec::new(alloc);
    script.extend_from_slice(before)?;
    script.extend_from_slice(b"entry ")?;
    for _ in 0..length {
        script.push(b'k')?;
    }
    script.extend_from_slice(b" 1 V z\n")?;
    script.extend_from_slice(after)?;
    Ok(script)
}

#[test]
fn a_key_too_long_is_refused_by_the_table(rt: HostRuntime) -> Result<(), Fail> {
    let alloc = rt.alloc();
    let before = b"entry b 1 V x\ntable\nentry b 0 V x\n";
    let after = b"table\nget b 9\nget b 1\ntable\nget b 9\n";
    // The failed table drops its entries, and the runs stay.
    let script = with_long_key(alloc, before, 1_048_577, after)?;
    let output = b"tables 1\nrefused 7\nb 1 V x\nnone\ntables 0\nb 1 V x\n";
    assert!(rt; gives(alloc, &script, output)?);
    let script = with_long_key(alloc, before, 1_048_576, after)?;
    let output = b"tables 1\ntables 1\nb 1 V x\nb 0 V x\ntables 0\nb 1 V x\n";
    assert!(rt; gives(alloc, &script, output)?);
    // A key and sequence number that a run has come first.
    let before = b"entry b 1 V x\ntable\nentry b 1 V x\n";
    let script = with_long_key(alloc, before, 1_048_577, after)?;
    assert!(rt; stops(alloc, &script, b"tables 1\n", b"sst: line 5\n")?);
    Ok(())
}

// Whether input that fails after a script ends it there, with this output and report.
fn ends_where_input_fails(alloc: Global, script: &[u8], shown: &[u8], returned: &[u8]) -> bool {
    let mut output = Vec::new(alloc);
    let mut errors = Vec::new(alloc);
    let input = FailingReader::new(script);
    let status = run_script(alloc, input, &mut output, &mut errors);
    status == 2 && output.as_slice() == shown && errors.as_slice() == returned
}

// Scripts after which input fails, with their output and report.
const BEFORE_FAILING_INPUT: &[(&[u8], &[u8], &[u8])] = &[
    (b"", b"", b"sst: input\n"),
    (b"get a 1\n\n", b"none\n", b"sst: input\n"),
    (b"get a 1\nget b 1", b"none\n", b"sst: input\n"),
    (b"get a 1\nrange\n", b"none\n", b"sst: line 2\n"),
];

#[test]
fn failing_input_ends_the_script(rt: HostRuntime) -> Result<(), Fail> {
    let alloc = rt.alloc();
    for &(script, shown, returned) in BEFORE_FAILING_INPUT {
        assert!(rt; ends_where_input_fails(alloc, script, shown, returned));
    }
    Ok(())
}

// Whether output that fails ends a script, with this report.
fn ends_where_output_fails(alloc: Global, script: &[u8], returned: &[u8]) -> bool {
    let mut errors = Vec::new(alloc);
    let status = run_script(alloc, script, &mut FailingWriter, &mut errors);
    status == 2 && errors.as_slice() == returned
}

// The status if neither output nor errors can be written.
fn status_untold(alloc: Global, script: &[u8]) -> u8 {
    run_script(alloc, script, &mut FailingWriter, &mut FailingWriter)
}

// Scripts whose output fails, and their report.
const WITH_FAILING_OUTPUT: &[(&[u8], &[u8])] = &[
    (b"get a 1\n", b"sst: output\n"),
    (b"entry a 1 V x\ntable\nrange\n", b"sst: output\n"),
    (b"get a 1\nrange\n", b"sst: output\n"),
    (b"entry a 1 V x\nrange\ntable\n", b"sst: line 2\n"),
];

#[test]
fn failing_output_ends_the_script(rt: HostRuntime) -> Result<(), Fail> {
    let alloc = rt.alloc();
    for &(script, returned) in WITH_FAILING_OUTPUT {
        assert!(rt; ends_where_output_fails(alloc, script, returned));
        // If errors cannot be written either, the status is the same.
        assert_eq!(rt; status_untold(alloc, script), 2);
    }
    assert_eq!(rt; status_untold(alloc, b"entry a 1 V x\n"), 0);
    Ok(())
}

// Whether output that fails when it is flushed ends a script with this status.
fn ends_unflushed(alloc: Global, script: &[u8], returned: &[u8], wanted: u8) -> bool {
    let mut errors = Vec::new(alloc);
    let status = run_script(alloc, script, &mut UnflushedWriter, &mut errors);
    status == wanted && errors.as_slice() == returned
}

// Whether a script ends with this status if its output is buffered and cannot be flushed.
fn ends_unkept(alloc: Global, script: &[u8], returned: &[u8], wanted: u8) -> io::Result<bool> {
    let mut errors = Vec::new(alloc);
    let mut output = BufWriter::new(alloc, FailingWriter)?;
    let status = run_script(alloc, script, &mut output, &mut errors);
    Ok(status == wanted && errors.as_slice() == returned)
}

// Scripts whose output fails when it is flushed, with their report and status.
const UNFLUSHED: &[(&[u8], &[u8], u8)] = &[
    (b"", b"", 0),
    (b"\n\n", b"", 0),
    (b"get a 1\n", b"sst: output\n", 2),
    (b"get a 1\nrange\n", b"sst: output\n", 2),
    (b"range\nget a 1\n", b"sst: line 1\n", 2),
];

#[test]
fn output_that_fails_when_flushed_ends_the_script(rt: HostRuntime) -> Result<(), Fail> {
    let alloc = rt.alloc();
    for &(script, returned, status) in UNFLUSHED {
        assert!(rt; ends_unflushed(alloc, script, returned, status));
        assert!(rt; ends_unkept(alloc, script, returned, status)?);
    }
    Ok(())
}

// How often a script's output is flushed.
fn flushes_of(alloc: Global, script: &[u8]) -> u64 {
    let mut output = FlushCounter::new();
    run_script(alloc, script, &mut output, &mut Vec::new(alloc));
    output.flushes()
}

#[test]
fn each_answer_is_flushed(rt: HostRuntime) -> Result<(), Fail> {
    let alloc = rt.alloc();
    assert_eq!(rt; flushes_of(alloc, b"\n"), 0);
    assert_eq!(rt; flushes_of(alloc, b"get a 1\n"), 1);
    assert_eq!(rt; flushes_of(alloc, b"get a 1\n\nrange * *\ntable\n"), 3);
    Ok(())
}

// The outputs of the first script if one of its commands runs out of memory, or none.
const REFUSED_OUTPUTS: [&[u8]; 14] = [
    FIRST_OUTPUT,
    b"refused 1\ntables 1\na 7 T -\na 7 T -\nnone\na 7 T -\nb 1 V y\ntables 1\na 7 T -\ntables 1\n\
      runs 1\n",
    b"refused 1\ntables 1\nnone\na 9 V x\nnone\na 9 V x\nb 1 V y\ntables 1\na 9 V x\ntables 1\n\
      runs 1\n",
    b"refused 1\ntables 1\na 7 T -\na 9 V x\nnone\na 9 V x\ntables 1\na 9 V x\ntables 1\nruns 1\n",
    b"refused 1\nnone\nnone\nnone\nnone\ntables 0\nnone\ntables 1\nruns 1\n",
    b"tables 1\nrefused 1\na 9 V x\nnone\na 9 V x\nb 1 V y\ntables 1\na 9 V x\ntables 1\nruns 1\n",
    b"tables 1\na 7 T -\nrefused 1\nnone\na 9 V x\nb 1 V y\ntables 1\na 9 V x\ntables 1\nruns 1\n",
    b"tables 1\na 7 T -\na 9 V x\nrefused 1\na 9 V x\nb 1 V y\ntables 1\na 9 V x\ntables 1\n\
      runs 1\n",
    b"tables 1\na 7 T -\na 9 V x\nnone\nrefused 1\ntables 1\na 9 V x\ntables 1\nruns 1\n",
    b"tables 1\na 7 T -\na 9 V x\nnone\na 9 V x\nb 1 V y\nrefused 1\na 9 V x\ntables 1\nruns 1\n",
    b"tables 1\na 7 T -\na 9 V x\nnone\na 9 V x\nb 1 V y\ntables 1\nrefused 1\ntables 1\nruns 1\n",
    b"tables 1\na 7 T -\na 9 V x\nnone\na 9 V x\nb 1 V y\ntables 1\na 9 V x\nrefused 1\ntables 0\n\
      runs 1\n",
    b"tables 1\na 7 T -\na 9 V x\nnone\na 9 V x\nb 1 V y\ntables 1\na 9 V x\nrefused 1\nruns 1\n",
    b"tables 1\na 7 T -\na 9 V x\nnone\na 9 V x\nb 1 V y\ntables 1\na 9 V x\ntables 1\nrefused 1\n",
];

// A script that reads two runs, and its outputs: whole, and if one of its commands runs out of
// memory.
const OVER_TWO_RUNS: &[u8] =
    b"entry a 5 V o\nentry c 2 V z\ntable\nentry a 9 V x\nentry b 1 V y\ntable\nrange * *\n\
      get a 9\nget a 10\n";

const OVER_TWO_RUNS_OUTPUTS: [&[u8]; 10] = [
    b"tables 1\ntables 1\na 9 V x\nb 1 V y\nc 2 V z\na 5 V o\na 9 V x\n",
    b"refused 1\ntables 1\ntables 1\na 9 V x\nb 1 V y\nc 2 V z\nnone\na 9 V x\n",
    b"refused 1\ntables 1\ntables 1\na 9 V x\nb 1 V y\na 5 V o\na 9 V x\n",
    b"refused 1\ntables 1\na 9 V x\nb 1 V y\nnone\na 9 V x\n",
    b"tables 1\nrefused 1\ntables 1\na 5 V o\nb 1 V y\nc 2 V z\na 5 V o\na 5 V o\n",
    b"tables 1\nrefused 1\ntables 1\na 9 V x\nc 2 V z\na 5 V o\na 9 V x\n",
    b"tables 1\nrefused 1\na 5 V o\nc 2 V z\na 5 V o\na 5 V o\n",
    b"tables 1\ntables 1\nrefused 1\na 5 V o\na 9 V x\n",
    b"tables 1\ntables 1\na 9 V x\nb 1 V y\nc 2 V z\nrefused 1\na 9 V x\n",
    b"tables 1\ntables 1\na 9 V x\nb 1 V y\nc 2 V z\na 5 V o\nrefused 1\n",
];

// A script that packs three runs, the newest of which overlaps both others, and its output.
const PACKING: &[u8] =
    b"entry a 5 V x\ntable\nentry c 3 V x\ntable\nentry a 9 V x\nentry c 9 V x\ntable\npack\n\
      get a 100\nget c 100\n";

const PACKING_OUTPUTS: [&[u8]; 11] = [
    b"tables 1\ntables 1\ntables 1\nruns 2\na 9 V x\nc 9 V x\n",
    b"refused 1\ntables 0\ntables 1\ntables 1\nruns 2\na 9 V x\nc 9 V x\n",
    b"refused 1\ntables 1\ntables 1\nruns 2\na 9 V x\nc 9 V x\n",
    b"tables 1\nrefused 1\ntables 0\ntables 1\nruns 2\na 9 V x\nc 9 V x\n",
    b"tables 1\nrefused 1\ntables 1\nruns 2\na 9 V x\nc 9 V x\n",
    b"tables 1\ntables 1\nrefused 1\ntables 1\nruns 2\na 5 V x\nc 9 V x\n",
    b"tables 1\ntables 1\nrefused 1\ntables 1\nruns 2\na 9 V x\nc 3 V x\n",
    b"tables 1\ntables 1\nrefused 1\nruns 1\na 5 V x\nc 3 V x\n",
    b"tables 1\ntables 1\ntables 1\nrefused 1\na 9 V x\nc 9 V x\n",
    b"tables 1\ntables 1\ntables 1\nruns 2\nrefused 1\nc 9 V x\n",
    b"tables 1\ntables 1\ntables 1\nruns 2\na 9 V x\nrefused 1\n",
];

// Whether a run of a script is right if one allocation may have failed. The first output is that
// without a failure.
fn is_right<A: Allocator>(ran: &Ran<A>, outputs: &[&[u8]], may_fail: bool) -> bool {
    let Some(whole) = outputs.first() else {
        return false;
    };
    let output = ran.output.as_slice();
    if ran.status == 2 {
        // Answers before it stay.
        return may_fail
            && whole.starts_with(output)
            && ran.errors.as_slice() == b"sst: input\n".as_slice();
    }
    ran.status == 0 && (output == *whole || may_fail && outputs.contains(&output))
}

// Whether a script is right whichever of its allocations fails, of which there are more than so
// many.
fn is_right_in_turn(alloc: Global, script: &[u8], outputs: &[&[u8]], more_than: usize) -> bool {
    let answers = each_refused(alloc, |heap: &Refusing, may_fail: bool| {
        match run(heap, alloc, script) {
            Ok(ran) => is_right(&ran, outputs, may_fail),
            Err(_) => false,
        }
    });
    answers.is_ok_and(|requests| requests > more_than)
}

#[test]
fn each_request_refused_in_turn(rt: HostRuntime) -> Result<(), Fail> {
    let alloc = rt.alloc();
    assert!(rt; is_right_in_turn(alloc, FIRST, &REFUSED_OUTPUTS, 40));
    assert!(rt; is_right_in_turn(alloc, OVER_TWO_RUNS, &OVER_TWO_RUNS_OUTPUTS, 40));
    assert!(rt; is_right_in_turn(alloc, PACKING, &PACKING_OUTPUTS, 40));
    Ok(())
}
