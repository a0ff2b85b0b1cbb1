//! Scripts whose streams fail at each byte: the output and the report by then, and the status.
use crate::scripts::streams::{FailingReader, TightWriter};
use sst_script::run_script;
use std::alloc::Global;
use test_support::Refusing;

const SCRIPT: &[u8] = b"get a 1\n\nentry a 1 V x\ntable\nget a 2\nrange * *\npack\n";

const OUTPUT: &[u8] = b"none\ntables 1\na 1 V x\na 1 V x\nruns 1\n";

// The report of a failed stream.
const INPUT_FAILED: &[u8] = b"sst: input\n";

const OUTPUT_FAILED: &[u8] = b"sst: output\n";

// The bytes of output after so many bytes of the script are read.
const ANSWERED: &[(usize, usize)] = &[(8, 5), (29, 14), (37, 22), (47, 30), (52, 37)];

// The first bytes, at most all.
fn front(bytes: &[u8], count: usize) -> &[u8] {
    &bytes[..count.min(bytes.len())]
}

fn answered(read: usize) -> &'static [u8] {
    let mut shown = 0;
    for &(bytes, answers) in ANSWERED {
        if bytes <= read {
            shown = answers;
        }
    }
    front(OUTPUT, shown)
}

// Whether input that fails after so many bytes ends the script, after the lines before it.
fn ends_at_input(alloc: Global, read: usize) -> bool {
    let mut output = Vec::new(alloc);
    let mut errors = Vec::new(alloc);
    let input = FailingReader::new(front(SCRIPT, read));
    let status = run_script(alloc, input, &mut output, &mut errors);
    status == 2 && output.as_slice() == answered(read) && errors.as_slice() == INPUT_FAILED
}

#[test]
fn input_fails_at_each_byte(rt: HostRuntime) {
    let alloc = rt.alloc();
    for read in 0..=SCRIPT.len() {
        assert!(rt; ends_at_input(alloc, read));
    }
}

// Whether output that fails after so many bytes ends the script there.
fn ends_at_output(alloc: Global, room: usize) -> bool {
    let mut output = TightWriter::new(alloc, room);
    let mut errors = Vec::new(alloc);
    let status = run_script(alloc, SCRIPT, &mut output, &mut errors);
    status == 2 && output.taken() == front(OUTPUT, room) && errors.as_slice() == OUTPUT_FAILED
}

// Whether output with room for exactly the answers suffices.
fn ends_with_room(alloc: Global) -> bool {
    let mut output = TightWriter::new(alloc, OUTPUT.len());
    let mut errors = Vec::new(alloc);
    let status = run_script(alloc, SCRIPT, &mut output, &mut errors);
    status == 0 && output.taken() == OUTPUT && errors.is_empty()
}

#[test]
fn output_fails_at_each_byte(rt: HostRuntime) {
    let alloc = rt.alloc();
    for room in 0..OUTPUT.len() {
        assert!(rt; ends_at_output(alloc, room));
    }
    assert!(rt; ends_with_room(alloc));
}

// A script that ends at its second line, with its output and report.
const AT_FAULT: &[u8] = b"get a 1\nrange\nget a 1\n";

const AT_FAULT_OUTPUT: &[u8] = b"none\n";

const AT_FAULT_ERRORS: &[u8] = b"sst: line 2\n";

// Whether a failed error stream is ignored.
fn ends_where_errors_fail(alloc: Global, room: usize) -> bool {
    let mut output = Vec::new(alloc);
    let mut errors = TightWriter::new(alloc, room);
    let status = run_script(alloc, AT_FAULT, &mut output, &mut errors);
    status == 2
        && output.as_slice() == AT_FAULT_OUTPUT
        && errors.taken() == front(AT_FAULT_ERRORS, room)
}

#[test]
fn errors_fail_at_each_byte(rt: HostRuntime) {
    let alloc = rt.alloc();
    for room in 0..=AT_FAULT_ERRORS.len() {
        assert!(rt; ends_where_errors_fail(alloc, room));
    }
}

// Whether a script ends before its first line if the first allocation fails.
fn ends_without_memory(alloc: Global, script: &[u8]) -> bool {
    let heap = Refusing::new(alloc, 1);
    let mut output = Vec::new(alloc);
    let mut errors = Vec::new(alloc);
    let status = run_script(&heap, script, &mut output, &mut errors);
    status == 2 && output.is_empty() && errors.as_slice() == INPUT_FAILED
}

#[test]
fn the_first_request_is_refused(rt: HostRuntime) {
    let alloc = rt.alloc();
    assert!(rt; ends_without_memory(alloc, AT_FAULT));
    assert!(rt; ends_without_memory(alloc, b""));
}
