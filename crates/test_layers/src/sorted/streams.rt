//! Merged sources, their newest versions and compactions, with each request for memory failing in
//! turn.
ghost use Rattle.std.specs.Prelude.{All};
ghost use Rattle.std.specs.Iterator.{IsFinite};
ghost use Rattle.sst_entries.specs.Stream.{CanYield, nowhere};

use crate::sorted::sources::{forwards_of, listed_of, lists_of};
use crate::sorted::words::{answers_so, gives_all, gives_so};
use lsm_sorted::compaction::stream::CompactionStream;
use lsm_sorted::{Merger, MvccStream, from_both_ends, newest_from_both_ends, newest_of};
use sst_entries::{Error, IterItem};
use std::alloc::{Allocator, Global};
use test_support::{Refusing, each_refused};

// Whether a merger of any sources yields these items at the ends.
fn merger_answers_so<I: DoubleEndedIterator<Item = IterItem<A>> + Drop, A: Allocator + Copy>(
    alloc: A,
    sources: Vec<I, A>,
    ends: &str,
    wanted: &str,
) -> Result<bool, Error>
    requires can { All (CanYield I.next_gives I.next_back_gives I.can_next I.can_next_back)
        sources.items }
    requires finite { All (λ s. IsFinite (I.remaining s)) sources.items }
{
    let merger = Merger::new(alloc, sources)?;
    from_both_ends(&merger);
    Ok(answers_so(merger, ends, wanted))
}

// Whether a stream over any source yields these items at the ends.
fn stream_answers_so<A: Allocator, I: DoubleEndedIterator<Item = IterItem<A>> + Drop>(
    source: I,
    ends: &str,
    wanted: &str,
) -> bool
    requires can { CanYield I.next_gives I.next_back_gives I.can_next I.can_next_back source }
    requires finite { IsFinite (I.remaining source) }
{
    let stream = MvccStream::new(source);
    stream.from_both_ends();
    answers_so(stream, ends, wanted)
}

// Whether the newest versions of any sources are these at the ends.
fn newest_answers_so<I: DoubleEndedIterator<Item = IterItem<A>> + Drop, A: Allocator + Copy>(
    alloc: A,
    sources: Vec<I, A>,
    ends: &str,
    wanted: &str,
) -> Result<bool, Error>
    requires can { All (CanYield I.next_gives I.next_back_gives I.can_next I.can_next_back)
        sources.items }
    requires finite { All (λ s. IsFinite (I.remaining s)) sources.items }
{
    let stream = newest_of(alloc, sources)?;
    newest_from_both_ends(&stream);
    Ok(answers_so(stream, ends, wanted))
}

// Whether a compaction of any source, without a filter and a callback, yields these items for
// readers at the threshold.
fn compaction_gives_so<A: Allocator, I: Iterator<Item = IterItem<A>> + Drop>(
    source: I,
    threshold: u64,
    wanted: &str,
) -> bool
    requires can { CanYield I.next_gives nowhere I.can_next I.can_next source }
    requires finite { IsFinite (I.remaining source) }
{
    let mut stream = CompactionStream::new(source, threshold);
    gives_all(&mut stream, wanted)
}

// The stream under test.
#[derive(Clone, Copy)]
enum Kind {
    // Several lists, from both ends: merged, and the newest versions.
    Merged,
    NewestOf,
    // One list: the newest versions, and a compaction for readers at a threshold.
    Newest,
    Compacted(u64),
    // Several sources without a back: merged, the newest versions, and a compaction for readers at
    // 5.
    MergedForward,
    NewestForward,
    CompactedForward,
}

// Whether a stream of the lists of a text yields these items at the ends.
fn lists_answer_so<A: Allocator + Copy>(alloc: A, kind: Kind, row: &Row) -> Result<bool, Error> {
    let lists = lists_of(alloc, row.0)?;
    match kind {
        Kind::Merged => merger_answers_so(alloc, lists, row.1, row.2),
        _ => newest_answers_so(alloc, lists, row.1, row.2),
    }
}

// Whether a stream, which is dropped, yields these items and then nothing.
fn gives_before_it_goes<A: Allocator, I: Iterator<Item = IterItem<A>> + Drop>(
    mut stream: I,
    wanted: &str,
) -> bool
    requires { CanYield I.next_gives nowhere I.can_next I.can_next stream }
{
    gives_so(&mut stream, wanted)
}

// Whether a merger of the sources of a text, without a back, or its compaction for readers at 5
// yields these items.
fn merger_gives_so<A: Allocator + Copy>(
    alloc: A,
    is_compacted: bool,
    row: &Row,
) -> Result<bool, Error> {
    let merger = Merger::new(alloc, forwards_of(alloc, row.0)?)?;
    if is_compacted {
        Ok(compaction_gives_so(merger, 5, row.2))
    } else {
        Ok(gives_before_it_goes(merger, row.2))
    }
}

// Whether the newest versions of the sources of a text, without a back, are these.
fn newest_gives_so<A: Allocator + Copy>(alloc: A, row: &Row) -> Result<bool, Error> {
    let sources = forwards_of(alloc, row.0)?;
    Ok(gives_before_it_goes(newest_of(alloc, sources)?, row.2))
}

// Whether a stream of a text yields the items of its row.
fn answers<A: Allocator + Copy>(alloc: A, kind: Kind, row: &Row) -> Result<bool, Error> {
    match kind {
        Kind::Newest => Ok(stream_answers_so(listed_of(alloc, row.0)?, row.1, row.2)),
        Kind::Compacted(threshold) => {
            Ok(compaction_gives_so(listed_of(alloc, row.0)?, threshold, row.2))
        }
        Kind::Merged | Kind::NewestOf => lists_answer_so(alloc, kind, row),
        Kind::NewestForward => newest_gives_so(alloc, row),
        Kind::MergedForward => merger_gives_so(alloc, false, row),
        Kind::CompactedForward => merger_gives_so(alloc, true, row),
    }
}

// Whether a stream yields the items of its line; or `OutOfMemory`, where it may fail.
fn is_so(heap: &Refusing, kind: Kind, line: &'static str, may_fail: bool) -> bool {
    match answers(heap, kind, &row_of(line)) {
        Ok(answer) => answer,
        Err(error) => may_fail && error == Error::OutOfMemory,
    }
}

// The number of requests for memory of a stream and its sources, if it passes with each of them
// failing in turn.
fn requests(alloc: Global, kind: Kind, line: &'static str) -> Result<usize, usize> {
    each_refused(
        alloc,
        move |heap, may_fail| is_so(heap, kind, line, may_fail),
    )
}

// The text of the sources, the ends that are polled, and the items. Sources without a back are
// polled from the front until they are exhausted.
type Row = (&'static str, &'static str, &'static str);

// The row of a line: its three parts, separated by bars.
fn row_of(line: &'static str) -> Row {
    let (sources, rest) = line.split_once('|').unwrap_or((line, ""));
    let (ends, wanted) = rest.split_once('|').unwrap_or((rest, ""));
    (sources.trim(), ends.trim(), wanted.trim())
}

// Several lists: their entries in order, up to an error.
const MERGED: &str = "\
| FB | - -
aV0 / bV0 / | FFF | aV0 bV0 -
aV0x / aV0y / | FFF | aV0x aV0y -
aV1 cV1 / bV2 / | FBFB | aV1 cV1 bV2 -
aV1 !7 / bV1 / | FF | !7 -
aV1 bV1 / cV1 !7 / | FFFF | aV1 bV1 !7 -
aV1 bV1 / cV1 !7 / | BBF | !7 - -
aV3 bV1 ?1 / aV2 / | FFFB | aV3 aV2 ?1 -
aV3 aV1 / aV2 bV9 / / | BFBFFB | bV9 aV3 aV1 aV2 - -
# Three sources, an error in the middle of one and at the far end of one.
aV1 dV1 / bV1 !7 fV1 / cV1 / | FBBF | aV1 !7 - -
aV1 dV1 / bV1 !7 fV1 / cV1 / | BBF | !7 - -
aV1 dV1 !7 / bV1 / cV1 eV1 / | FFFFB | aV1 bV1 cV1 !7 -
aV1 dV1 !7 / bV1 / cV1 eV1 / | FBF | aV1 !7 -
# From the back an error comes when the first entry behind it goes, and not before.
aV1 / !7 bV1 dV1 / cV1 eV1 / | BBBBB | eV1 dV1 cV1 !7 -
!7 aV1 / bV1 !8 cV1 / dV1 / | BBBB | dV1 !8 - -
aV1 / bV1 !7 / !8 / | BB | !7 -
# One source alone.
aV0 bV0 cV0 dV0 eT1 !4 eV0 / | FFFFFFF | aV0 bV0 cV0 dV0 !4 - -
aV0 bV0 cV0 dV0 eT1 !4 eV0 / | BBB | !4 - -
!4 aV0 bV0 cV0 dV0 eT1 eV0 / | BBBBBBB | eV0 eT1 dV0 cV0 bV0 !4 -
# Entries that tie: the earlier source first, from either end.
aV1x aV1y / aV1z / | FFFF | aV1x aV1y aV1z -
aV1x aV1y / aV1z / | BFBB | aV1z aV1x aV1y -
";

// One list with errors among it: each is yielded at the position of its key.
const WITH_ERRORS: &str = "\
aV999 !1 | FFB | !1 - -
aV999 !1 | BBBF | !1 aV999 - -
aV2 aV1 bV1 | BBB | bV1 aV2 -
aV2 !3 aV1 | FFF | !3 aV1 -
aV2 !3 aV1 | BBB | !3 aV2 -
aV0 bV0 cV0 dV0 eT1 !4 eV0 | FFFFFFF | aV0 bV0 cV0 dV0 !4 eV0 -
aV0 bV0 cV0 dV0 eT1 !4 eV0 | BBBBBBB | !4 eT1 dV0 cV0 bV0 aV0 -
!4 aV0 bV0 cV0 dV0 eT1 eV0 | BBBBBB | eT1 dV0 cV0 bV0 !4 -
";

// One list: the newest version of each key.
const WITHOUT_ERRORS: &str = "\
aV0 bV0 cV0 dV0 eT1 eV0 | FFFFFF | aV0 bV0 cV0 dV0 eT1 -
aV0 bV0 cV0 dV0 eT1 eV0 | BBBBBB | eT1 dV0 cV0 bV0 aV0 -
aV0 bV0 cV0 dV0 eW1 eV0 | FFFFFF | aV0 bV0 cV0 dV0 eW1 -
aV0 bV0 cV0 dV0 eW1 eV0 | BBBBBB | eW1 dV0 cV0 bV0 aV0 -
aV999 aV998 | FF | aV999 -
aV999 aV998 | BB | aV999 -
aT999 aV998 | FF | aT999 -
aT999 aV998 | BB | aT999 -
aW999 aV998 | FF | aW999 -
aW999 aV998 | BB | aW999 -
aW999 aV998 aV997 | FF | aW999 -
aW999 aV998 aV997 | BB | aW999 -
aW999 aV998 bW999 bV998 cW999 cV998 | FFFF | aW999 bW999 cW999 -
aW999 aV998 bW999 bV998 cW999 cV998 | BBBB | cW999 bW999 aW999 -
aV0 bT1 bV0 cT1 cV0 | FFFF | aV0 bT1 cT1 -
aV0 bT1 bV0 cT1 cV0 | BBBB | cT1 bT1 aV0 -
aV0 bT1 cT1 | FFFF | aV0 bT1 cT1 -
aV0 bT1 cT1 | BBBB | cT1 bT1 aV0 -
aV0 bW1 bV0 cW1 cV0 | FFFF | aV0 bW1 cW1 -
aV0 bW1 bV0 cW1 cV0 | BBBB | cW1 bW1 aV0 -
aV0 bW1 cW1 | FFFF | aV0 bW1 cW1 -
aV0 bW1 cW1 | BBBB | cW1 bW1 aV0 -
aV999 aV998 bV999 bV998 cV999 cV998 cV997 | FFFF | aV999 bV999 cV999 -
aV999 aV998 bV999 bV998 cV999 cV998 cV997 | BBBB | cV999 bV999 aV999 -
aT999 aV998 bT999 bT998 bV997 | FFF | aT999 bT999 -
aT999 aV998 bT999 bT998 bV997 | BBB | bT999 aT999 -
aT999 aW998 aV997 aV996 | FF | aT999 -
aT999 aW998 aV997 aV996 | BB | aT999 -
| FB | - -
aV2 aV1 bV2 bV1 cV1 | FBFBF | aV2 cV1 bV2 - -
";

// Several lists: the newest version of each key.
const OF_SOURCES: &str = "\
aV3 bV1 cV4 / aV7 bV2 / dV1 / | FFFFF | aV7 bV2 cV4 dV1 -
aV3 bV1 cV4 / aV7 bV2 / dV1 / | BBBBB | dV1 cV4 bV2 aV7 -
aV3 bV1 cV4 / aV7 bV2 / dV1 / | FBFBF | aV7 dV1 bV2 cV4 -
# An error in the middle of a source takes the place of all that is not yielded.
aV2 cV3 !7 dV1 / bV1 / | FFFF | aV2 !7 - -
aV2 bV3 !7 dV1 / aV1 bV2 cV1 / | FFF | !7 - -
aV2 bV3 !7 dV1 / aV1 bV2 cV1 / | BBB | !7 - -
# What an end has in hand stands before the error or behind it, and is still given.
aV2 cV3 !7 dV1 / bV1 eV2 / | FBFB | aV2 !7 bV1 -
aV1 / bV1 !7 bV0 cV1 dV1 / | BFFF | dV1 !7 cV1 -
aV1 / bV1 !7 bV0 cV1 dV1 / | BBBB | dV1 !7 - -
# At the far end of a source.
aV1 cV1 !7 / bV1 dV1 / | FFFF | aV1 !7 - -
aV1 cV1 !7 / bV1 dV1 / | BFF | !7 - -
!7 aV1 bV1 / cV1 dV1 / | BBBB | dV1 cV1 !7 -
aV3 aV1 ?1 / aV2 bV1 / | FFF | ?1 - -
# One source alone: what the call that meets the error took, and what is in hand, is given up.
aV0 bV0 cV0 dV0 eT1 eV0 / | FFFFFFF | aV0 bV0 cV0 dV0 eT1 - -
aV0 bV0 cV0 dV0 eT1 !4 eV0 / | FFFFFFF | aV0 bV0 cV0 !4 - - -
aV0 bV0 cV0 dV0 eT1 !4 eV0 / | BBBBBBB | !4 - - - - - -
!4 aV0 bV0 cV0 dV0 eT1 eV0 / | BBBBBB | eT1 dV0 cV0 !4 - -
";

// Several sources without a back: their entries in order, and an error after those before it.
const FROM_THE_FRONT: &str = "\
|  | - -
aV1 dV1 / bV1 / cV1 / |  | aV1 bV1 cV1 dV1 -
# At the far end of a source an error comes when its last entry goes, and not before.
aV1 dV1 !7 / bV1 / cV1 eV1 / |  | aV1 bV1 cV1 !7 - -
aV1 bV1 / cV1 dV1 / eV1 fV1 !7 / |  | aV1 bV1 cV1 dV1 eV1 !7 -
# In the middle of a source.
aV1 dV1 / bV1 !7 fV1 / cV1 / |  | aV1 !7 - -
aV1 cV1 !7 dV1 / bV1 !8 / eV1 / |  | aV1 !8 -
# At the head of a source, at the first call.
aV1 / !7 bV1 / !8 / |  | !7 - -
aV3 aV1 ?1 / aV2 / bV1 / |  | aV3 aV2 ?1 -
";

// The newest versions of such sources.
const NEWEST_FROM_THE_FRONT: &str = "\
|  | - -
aV3 bV1 cV4 / aV7 bV2 / dV1 / |  | aV7 bV2 cV4 dV1 -
aV2 cV3 !7 dV1 / bV1 / |  | aV2 !7 - -
aV1 bV1 / cV1 dV1 !7 / |  | aV1 bV1 !7 -
";

// The compaction of such sources for readers at 5.
const COMPACTED: &str = "\
|  |
aV9 bV4 / aV4 bV3 / aV2 bT1 / |  | aV9 aV4 bV4
# An error in the middle of a source, and at its far end, ends the compaction.
aV9 cV4 !7 dV1 / aV4 bV3 / aV2 bT1 / |  | aV9 aV4 !7
aV9 bV4 / aV4 cV3 dV1 !7 / aV2 bT1 / |  | aV9 aV4 bV4 !7
aV9 bV4 / aV4 cV3 dV1 ?1 / aV2 bT1 / |  | aV9 aV4 bV4 ?1
";

// Each kind with its rows, one per line; a line with `#` describes the next lines.
const STREAMS: &[(Kind, &str)] = &[
    (Kind::Merged, MERGED),
    (Kind::Newest, WITH_ERRORS),
    (Kind::Newest, WITHOUT_ERRORS),
    (Kind::NewestOf, OF_SOURCES),
    (Kind::MergedForward, FROM_THE_FRONT),
    (Kind::NewestForward, NEWEST_FROM_THE_FRONT),
    (Kind::CompactedForward, COMPACTED),
    (Kind::Compacted(4), "aV4 aV3 aV2 | | aV4 aV3"),
    (Kind::Compacted(5000), "aV9 bV9 cV9 | | aV9 bV9 cV9"),
];

#[test]
fn streams_answer_so_with_each_request_for_memory_refused(rt: HostRuntime) {
    for &(kind, rows) in STREAMS {
        for line in rows.lines() {
            let is_row = !line.starts_with('#');
            assert!(rt;
                !is_row || requests(rt.alloc(), kind, line).is_ok(),
                "{line}"
            );
        }
    }
}

// Two sources that are merged, and in the second line polled too.
const MADE: &str = "aV1 cV1 / bV2 / | |";

const ANSWERED: &str = "aV1 cV1 / bV2 / | FBFB | aV1 cV1 bV2 -";

#[test]
fn takes_no_memory_after_it_is_made(rt: HostRuntime) {
    let made = requests(rt.alloc(), Kind::Merged, MADE);
    assert!(rt; made.is_ok() && made == requests(rt.alloc(), Kind::Merged, ANSWERED));
}
