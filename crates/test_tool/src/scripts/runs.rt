//! Scripts that read, compact and pack several runs, and what they print.
use crate::scripts::scripts::gives;
use std::alloc::Global;

// A script and its output.
type Worked = (&'static [u8], &'static [u8]);

// Reads of several runs.
const SEVERAL: &[Worked] = &[
    // A read finds the largest sequence number below its snapshot, in whichever run it is.
    (
        b"entry a 5 V x\nentry c 2 V x\ntable\nentry a 9 V x\nentry b 1 V x\ntable\nrange * *\n\
          get a 10\nget a 9\nget a 5\nget b 10\nget c 10\nget d 10\n",
        b"tables 1\ntables 1\na 9 V x\nb 1 V x\nc 2 V x\na 9 V x\na 5 V x\nnone\nb 1 V x\n\
          c 2 V x\nnone\n",
    ),
    (
        b"entry a 9 V x\nentry b 1 V x\ntable\nentry a 5 V x\nentry c 2 V x\ntable\nget a 10\n\
          range * *\n",
        b"tables 1\ntables 1\na 9 V x\na 9 V x\nb 1 V x\nc 2 V x\n",
    ),
    // The third run has two tables.
    (
        b"entry d 3 V x\ntable\nentry a 7 V x\nentry c 4 V x\ntable\npack\nentry a 5 V x\n\
          entry c 2 V x\ntable\nentry a 9 V x\nentry b 1 V x\ntable\nrange * *\nget a 10\n\
          get a 9\nget a 7\nget c 10\nget d 10\nget e 10\n",
        b"tables 1\ntables 1\nruns 1\ntables 1\ntables 1\na 9 V x\nb 1 V x\nc 4 V x\nd 3 V x\n\
          a 9 V x\na 7 V x\na 5 V x\nc 4 V x\nd 3 V x\nnone\n",
    ),
    // Entries of each kind come from one run of two tables, and from two runs of two each.
    (
        b"entry c 5 I far\nentry d 3 T gone\nentry d 2 I -\ntable\nentry a 9 V x\n\
          entry a 7 T -\nentry b 8 W -\nentry b 6 V yy\ntable\npack\nget a 10\nget a 8\n\
          get b 9\nget b 7\nget c 6\nget d 4\nget d 3\nrange * *\n",
        b"tables 1\ntables 1\nruns 1\na 9 V x\na 7 T -\nb 8 W -\nb 6 V yy\nc 5 I far\n\
          d 3 T gone\nd 2 I -\na 9 V x\nb 8 W -\nc 5 I far\nd 3 T gone\n",
    ),
    (
        b"entry c 5 I far\nentry d 2 I -\ntable\nentry a 7 T -\nentry b 6 V yy\ntable\n\
          entry d 3 T gone\ntable\nentry a 9 V x\nentry b 8 W -\ntable\npack\nget a 10\n\
          get a 8\nget b 9\nget b 7\nget c 6\nget d 4\nget d 3\nrange * *\n",
        b"tables 1\ntables 1\ntables 1\ntables 1\nruns 2\na 9 V x\na 7 T -\nb 8 W -\nb 6 V yy\n\
          c 5 I far\nd 3 T gone\nd 2 I -\na 9 V x\nb 8 W -\nc 5 I far\nd 3 T gone\n",
    ),
];

// The entries that a compaction keeps of one run, and of two, at watermark 5.
const KEPT: &[Worked] = &[
    // A version below the watermark stays if a reader at the watermark sees it.
    (
        b"entry a 10 V x\nentry a 3 V x\ntable\ncompact 5\nrange * *\n\
          get a 18446744073709551615\nget a 10\nget a 3\n",
        b"tables 1\ntables 1\na 10 V x\na 10 V x\na 3 V x\nnone\n",
    ),
    (
        b"entry a 3 V x\ntable\nentry a 10 V x\ntable\ncompact 5\nrange * *\n\
          get a 18446744073709551615\nget a 10\nget a 3\n",
        b"tables 1\ntables 1\ntables 1\na 10 V x\na 10 V x\na 3 V x\nnone\n",
    ),
    (
        b"entry a 10 W -\nentry a 3 V x\ntable\ncompact 5\nrange * *\n\
          get a 18446744073709551615\nget a 10\nget a 3\n",
        b"tables 1\ntables 1\na 10 W -\na 10 W -\na 3 V x\nnone\n",
    ),
    (
        b"entry a 3 V x\ntable\nentry a 10 W -\ntable\ncompact 5\nrange * *\n\
          get a 18446744073709551615\nget a 10\nget a 3\n",
        b"tables 1\ntables 1\ntables 1\na 10 W -\na 10 W -\na 3 V x\nnone\n",
    ),
    (
        b"entry a 10 W -\nentry a 3 T -\ntable\ncompact 5 evict\nrange * *\n\
          get a 18446744073709551615\nget a 10\n",
        b"tables 1\ntables 1\na 10 W -\na 10 W -\nnone\n",
    ),
    (
        b"entry a 3 T -\ntable\nentry a 10 W -\ntable\ncompact 5 evict\nrange * *\n\
          get a 18446744073709551615\nget a 10\n",
        b"tables 1\ntables 1\ntables 1\na 10 W -\na 10 W -\nnone\n",
    ),
    (
        b"entry a 10 T -\nentry a 3 V x\ntable\ncompact 5 evict\nrange * *\n\
          get a 18446744073709551615\nget a 10\nget a 3\n",
        b"tables 1\ntables 1\na 10 T -\na 10 T -\na 3 V x\nnone\n",
    ),
    (
        b"entry a 3 V x\ntable\nentry a 10 T -\ntable\ncompact 5 evict\nrange * *\n\
          get a 18446744073709551615\nget a 10\nget a 3\n",
        b"tables 1\ntables 1\ntables 1\na 10 T -\na 10 T -\na 3 V x\nnone\n",
    ),
    // A tombstone is dropped if tombstones are evicted.
    (
        b"entry a 4 T -\ntable\ncompact 5 evict\nrange * *\nget a 18446744073709551615\n",
        b"tables 1\ntables 0\nnone\nnone\n",
    ),
    // Versions after the first below the watermark are dropped, and that becomes 0.
    (
        b"entry a 10 V x\nentry a 4 V x\nentry a 3 V x\ntable\ncompact 5 zero\nrange * *\n\
          get a 18446744073709551615\nget a 10\nget a 0\n",
        b"tables 1\ntables 1\na 10 V x\na 10 V x\na 0 V x\nnone\n",
    ),
    (
        b"entry a 4 V x\nentry a 3 V x\ntable\nentry a 10 V x\ntable\ncompact 5 zero\n\
          range * *\nget a 18446744073709551615\nget a 10\nget a 0\n",
        b"tables 1\ntables 1\ntables 1\na 10 V x\na 10 V x\na 0 V x\nnone\n",
    ),
    // A weak tombstone is dropped with the value that it hides, and stays before a tombstone.
    (
        b"entry a 4 W -\nentry a 3 V x\ntable\ncompact 5\nrange * *\n\
          get a 18446744073709551615\n",
        b"tables 1\ntables 0\nnone\nnone\n",
    ),
    (
        b"entry a 3 V x\ntable\nentry a 4 W -\ntable\ncompact 5\nrange * *\n\
          get a 18446744073709551615\n",
        b"tables 1\ntables 1\ntables 0\nnone\nnone\n",
    ),
    (
        b"entry a 4 W -\nentry a 3 T -\ntable\ncompact 5 evict\nrange * *\n\
          get a 18446744073709551615\nget a 4\n",
        b"tables 1\ntables 1\na 4 W -\na 4 W -\nnone\n",
    ),
    (
        b"entry a 3 T -\ntable\nentry a 4 W -\ntable\ncompact 5 evict\nrange * *\n\
          get a 18446744073709551615\nget a 4\n",
        b"tables 1\ntables 1\ntables 1\na 4 W -\na 4 W -\nnone\n",
    ),
    (
        b"entry a 4 V x\nentry b 5 V x\ntable\ncompact 5 zero\nrange * *\n\
          get a 18446744073709551615\nget a 0\nget b 18446744073709551615\nget b 5\n",
        b"tables 1\ntables 1\na 0 V x\nb 5 V x\na 0 V x\nnone\nb 5 V x\nnone\n",
    ),
    (
        b"entry b 5 V x\ntable\nentry a 4 V x\ntable\ncompact 5 zero\nrange * *\n\
          get a 18446744073709551615\nget a 0\nget b 18446744073709551615\nget b 5\n",
        b"tables 1\ntables 1\ntables 1\na 0 V x\nb 5 V x\na 0 V x\nnone\nb 5 V x\nnone\n",
    ),
];

// Reads before and after all runs are compacted.
const SEEN: &[Worked] = &[
    // A reader at the watermark or above sees the same.
    (
        b"entry a 10 V x\nentry a 3 V y\ntable\nget a 11\nget a 10\nget a 7\nget a 5\n\
          compact 5\nget a 11\nget a 10\nget a 7\nget a 5\n",
        b"tables 1\na 10 V x\na 3 V y\na 3 V y\na 3 V y\ntables 1\na 10 V x\na 3 V y\na 3 V y\n\
          a 3 V y\n",
    ),
    // Two runs become one, which is compacted again.
    (
        b"entry a 3 V x\nentry a 2 V x\nentry b 2 V x\nentry d 1 V x\ntable\nentry a 9 V x\n\
          entry b 4 T -\nentry c 7 V x\ntable\ncompact 5\nrange * *\n\
          get a 18446744073709551615\nget a 9\nget a 3\nget b 18446744073709551615\nget b 4\n\
          get c 18446744073709551615\nget c 7\nget d 18446744073709551615\nget d 1\n\
          compact 10 evict zero\nrange * *\nget a 18446744073709551615\nget a 0\n\
          get b 18446744073709551615\nget c 18446744073709551615\nget c 0\n\
          get d 18446744073709551615\nget d 0\n",
        b"tables 1\ntables 1\ntables 1\na 9 V x\nb 4 T -\nc 7 V x\nd 1 V x\na 9 V x\na 3 V x\n\
          none\nb 4 T -\nnone\nc 7 V x\nnone\nd 1 V x\nnone\ntables 1\na 0 V x\nc 0 V x\n\
          d 0 V x\na 0 V x\nnone\nnone\nc 0 V x\nnone\nd 0 V x\nnone\n",
    ),
    // A tombstone hides older versions in another run, which reappear once it is evicted.
    (
        b"entry a 6 T -\ntable\ncompact 7\nentry a 3 V x\ntable\nrange * *\n",
        b"tables 1\ntables 1\ntables 1\na 6 T -\n",
    ),
    (
        b"entry a 6 T -\ntable\ncompact 7 evict\nentry a 3 V x\ntable\nrange * *\n",
        b"tables 1\ntables 0\ntables 1\na 3 V x\n",
    ),
];

// Reads of two runs, and of two of which one was compacted before the other was written.
const PARTS: &[Worked] = &[
    // Neither the part nor the rest is newer, and the part has no weak tombstone: a reader at the
    // watermark or above sees the same values.
    (
        b"entry a 7 V u\nentry a 3 V v\nentry b 8 T -\nentry c 1 V w\ntable\nentry a 9 V x\n\
          entry a 6 T -\nentry b 4 V y\nentry b 2 V z\nentry c 5 T -\ntable\nget a 7\nget a 8\n\
          get a 9\nget a 10\nget a 18446744073709551615\nget b 7\nget b 8\nget b 9\nget b 10\n\
          get b 18446744073709551615\nget c 7\nget c 8\nget c 9\nget c 10\n\
          get c 18446744073709551615\nget d 7\nget d 8\nget d 9\nget d 10\n\
          get d 18446744073709551615\n",
        b"tables 1\ntables 1\na 6 T -\na 7 V u\na 7 V u\na 9 V x\na 9 V x\nb 4 V y\nb 4 V y\n\
          b 8 T -\nb 8 T -\nb 8 T -\nc 5 T -\nc 5 T -\nc 5 T -\nc 5 T -\nc 5 T -\nnone\nnone\n\
          none\nnone\nnone\n",
    ),
    (
        b"entry a 9 V x\nentry a 6 T -\nentry b 4 V y\nentry b 2 V z\nentry c 5 T -\ntable\n\
          compact 7\nentry a 7 V u\nentry a 3 V v\nentry b 8 T -\nentry c 1 V w\ntable\n\
          get a 7\nget a 8\nget a 9\nget a 10\nget a 18446744073709551615\nget b 7\nget b 8\n\
          get b 9\nget b 10\nget b 18446744073709551615\nget c 7\nget c 8\nget c 9\nget c 10\n\
          get c 18446744073709551615\nget d 7\nget d 8\nget d 9\nget d 10\n\
          get d 18446744073709551615\n",
        b"tables 1\ntables 1\ntables 1\na 6 T -\na 7 V u\na 7 V u\na 9 V x\na 9 V x\nb 4 V y\n\
          b 4 V y\nb 8 T -\nb 8 T -\nb 8 T -\nc 5 T -\nc 5 T -\nc 5 T -\nc 5 T -\nc 5 T -\n\
          none\nnone\nnone\nnone\nnone\n",
    ),
    // The rest is newer than the part for each key.
    (
        b"entry a 9 V u\nentry b 8 V v\nentry d 1 V w\ntable\nentry a 5 T -\nentry a 3 V x\n\
          entry b 6 W -\nentry b 4 V y\nentry c 2 V z\ntable\nget a 7\nget a 8\nget a 9\n\
          get a 10\nget a 18446744073709551615\nget b 7\nget b 8\nget b 9\nget b 10\n\
          get b 18446744073709551615\nget c 7\nget c 8\nget c 9\nget c 10\n\
          get c 18446744073709551615\nget d 7\nget d 8\nget d 9\nget d 10\n\
          get d 18446744073709551615\n",
        b"tables 1\ntables 1\na 5 T -\na 5 T -\na 5 T -\na 9 V u\na 9 V u\nb 6 W -\nb 6 W -\n\
          b 8 V v\nb 8 V v\nb 8 V v\nc 2 V z\nc 2 V z\nc 2 V z\nc 2 V z\nc 2 V z\nd 1 V w\n\
          d 1 V w\nd 1 V w\nd 1 V w\nd 1 V w\n",
    ),
    (
        b"entry a 5 T -\nentry a 3 V x\nentry b 6 W -\nentry b 4 V y\nentry c 2 V z\ntable\n\
          compact 7 evict zero\nentry a 9 V u\nentry b 8 V v\nentry d 1 V w\ntable\nget a 7\n\
          get a 8\nget a 9\nget a 10\nget a 18446744073709551615\nget b 7\nget b 8\nget b 9\n\
          get b 10\nget b 18446744073709551615\nget c 7\nget c 8\nget c 9\nget c 10\n\
          get c 18446744073709551615\nget d 7\nget d 8\nget d 9\nget d 10\n\
          get d 18446744073709551615\n",
        b"tables 1\ntables 1\ntables 1\nnone\nnone\nnone\na 9 V u\na 9 V u\nnone\nnone\n\
          b 8 V v\nb 8 V v\nb 8 V v\nc 0 V z\nc 0 V z\nc 0 V z\nc 0 V z\nc 0 V z\nd 1 V w\n\
          d 1 V w\nd 1 V w\nd 1 V w\nd 1 V w\n",
    ),
    // Neither holds, so hidden versions may appear.
    (
        b"entry a 3 V x\ntable\nentry a 6 T -\ntable\nget a 7\nget a 8\nget a 9\nget a 10\n\
          get a 18446744073709551615\nget b 7\nget b 8\nget b 9\nget b 10\n\
          get b 18446744073709551615\nget c 7\nget c 8\nget c 9\nget c 10\n\
          get c 18446744073709551615\nget d 7\nget d 8\nget d 9\nget d 10\n\
          get d 18446744073709551615\n",
        b"tables 1\ntables 1\na 6 T -\na 6 T -\na 6 T -\na 6 T -\na 6 T -\nnone\nnone\nnone\n\
          none\nnone\nnone\nnone\nnone\nnone\nnone\nnone\nnone\nnone\nnone\nnone\n",
    ),
    (
        b"entry a 6 T -\ntable\ncompact 7 evict\nentry a 3 V x\ntable\nget a 7\nget a 8\n\
          get a 9\nget a 10\nget a 18446744073709551615\nget b 7\nget b 8\nget b 9\nget b 10\n\
          get b 18446744073709551615\nget c 7\nget c 8\nget c 9\nget c 10\n\
          get c 18446744073709551615\nget d 7\nget d 8\nget d 9\nget d 10\n\
          get d 18446744073709551615\n",
        b"tables 1\ntables 0\ntables 1\na 3 V x\na 3 V x\na 3 V x\na 3 V x\na 3 V x\nnone\n\
          none\nnone\nnone\nnone\nnone\nnone\nnone\nnone\nnone\nnone\nnone\nnone\nnone\nnone\n",
    ),
];

// Reads before and after runs are packed.
const PACKED: &[Worked] = &[
    // Tables that do not overlap go into one run.
    (
        b"entry a 5 V x\ntable\nentry c 3 V x\ntable\nget a 100\nget b 100\nget c 100\n\
          range * *\npack\nget a 100\nget b 100\nget c 100\nrange * *\n",
        b"tables 1\ntables 1\na 5 V x\nnone\nc 3 V x\na 5 V x\nc 3 V x\nruns 1\na 5 V x\nnone\n\
          c 3 V x\na 5 V x\nc 3 V x\n",
    ),
    // A table stays before those that it overlaps.
    (
        b"entry a 5 V x\ntable\nentry c 3 V x\ntable\nentry a 9 V x\nentry c 9 V x\ntable\n\
          get a 100\nget b 100\nget c 100\nrange * *\npack\nget a 100\nget b 100\nget c 100\n\
          range * *\n",
        b"tables 1\ntables 1\ntables 1\na 9 V x\nnone\nc 9 V x\na 9 V x\nc 9 V x\nruns 2\n\
          a 9 V x\nnone\nc 9 V x\na 9 V x\nc 9 V x\n",
    ),
    // No runs are packed into none.
    (
        b"get a 100\nget b 100\nget c 100\nrange * *\npack\nget a 100\nget b 100\nget c 100\n\
          range * *\n",
        b"none\nnone\nnone\nnone\nruns 0\nnone\nnone\nnone\nnone\n",
    ),
    // Each table goes after those that it overlaps, and reads are the same.
    (
        b"entry a 1 V x\nentry b 1 V x\ntable\nentry a 0 V x\nentry b 0 V x\ntable\n\
          get a 18446744073709551615\nget b 18446744073709551615\nrange * *\npack\n\
          get a 18446744073709551615\nget b 18446744073709551615\nrange * *\n",
        b"tables 1\ntables 1\na 1 V x\nb 1 V x\na 1 V x\nb 1 V x\nruns 2\na 1 V x\nb 1 V x\n\
          a 1 V x\nb 1 V x\n",
    ),
    (
        b"entry x 4 V x\nentry z 4 V x\ntable\nentry d 3 V x\nentry f 3 V x\ntable\n\
          entry b 2 V x\nentry n 2 V x\ntable\nentry m 1 V x\nentry p 1 V x\ntable\n\
          entry a 0 V x\nentry c 0 V x\ntable\nget a 18446744073709551615\n\
          get c 18446744073709551615\nget m 18446744073709551615\nget p 18446744073709551615\n\
          get b 18446744073709551615\nget n 18446744073709551615\nget d 18446744073709551615\n\
          get f 18446744073709551615\nget x 18446744073709551615\nget z 18446744073709551615\n\
          range * *\npack\nget a 18446744073709551615\nget c 18446744073709551615\n\
          get m 18446744073709551615\nget p 18446744073709551615\nget b 18446744073709551615\n\
          get n 18446744073709551615\nget d 18446744073709551615\nget f 18446744073709551615\n\
          get x 18446744073709551615\nget z 18446744073709551615\nrange * *\n",
        b"tables 1\ntables 1\ntables 1\ntables 1\ntables 1\na 0 V x\nc 0 V x\nm 1 V x\n\
          p 1 V x\nb 2 V x\nn 2 V x\nd 3 V x\nf 3 V x\nx 4 V x\nz 4 V x\na 0 V x\nb 2 V x\n\
          c 0 V x\nd 3 V x\nf 3 V x\nm 1 V x\nn 2 V x\np 1 V x\nx 4 V x\nz 4 V x\nruns 3\n\
          a 0 V x\nc 0 V x\nm 1 V x\np 1 V x\nb 2 V x\nn 2 V x\nd 3 V x\nf 3 V x\nx 4 V x\n\
          z 4 V x\na 0 V x\nb 2 V x\nc 0 V x\nd 3 V x\nf 3 V x\nm 1 V x\nn 2 V x\np 1 V x\n\
          x 4 V x\nz 4 V x\n",
    ),
    (
        b"entry c 1 V x\nentry d 1 V x\ntable\nentry a 0 V x\nentry b 0 V x\ntable\npack\n\
          get a 18446744073709551615\nget b 18446744073709551615\nget c 18446744073709551615\n\
          get d 18446744073709551615\nrange * *\npack\nget a 18446744073709551615\n\
          get b 18446744073709551615\nget c 18446744073709551615\nget d 18446744073709551615\n\
          range * *\n",
        b"tables 1\ntables 1\nruns 1\na 0 V x\nb 0 V x\nc 1 V x\nd 1 V x\na 0 V x\nb 0 V x\n\
          c 1 V x\nd 1 V x\nruns 1\na 0 V x\nb 0 V x\nc 1 V x\nd 1 V x\na 0 V x\nb 0 V x\n\
          c 1 V x\nd 1 V x\n",
    ),
    (
        b"entry a 0 V x\nentry c 0 V x\ntable\nentry a 1 V x\nentry z 1 V x\ntable\n\
          entry m 2 V x\nentry p 2 V x\ntable\nget m 18446744073709551615\n\
          get p 18446744073709551615\nget a 18446744073709551615\nget z 18446744073709551615\n\
          get c 18446744073709551615\nrange * *\npack\nget m 18446744073709551615\n\
          get p 18446744073709551615\nget a 18446744073709551615\nget z 18446744073709551615\n\
          get c 18446744073709551615\nrange * *\n",
        b"tables 1\ntables 1\ntables 1\nm 2 V x\np 2 V x\na 1 V x\nz 1 V x\nc 0 V x\na 1 V x\n\
          c 0 V x\nm 2 V x\np 2 V x\nz 1 V x\nruns 3\nm 2 V x\np 2 V x\na 1 V x\nz 1 V x\n\
          c 0 V x\na 1 V x\nc 0 V x\nm 2 V x\np 2 V x\nz 1 V x\n",
    ),
    (
        b"entry a 0 V x\nentry c 0 V x\ntable\nentry d 1 V x\nentry f 1 V x\ntable\n\
          get d 18446744073709551615\nget f 18446744073709551615\nget a 18446744073709551615\n\
          get c 18446744073709551615\nrange * *\npack\nget d 18446744073709551615\n\
          get f 18446744073709551615\nget a 18446744073709551615\nget c 18446744073709551615\n\
          range * *\n",
        b"tables 1\ntables 1\nd 1 V x\nf 1 V x\na 0 V x\nc 0 V x\na 0 V x\nc 0 V x\nd 1 V x\n\
          f 1 V x\nruns 1\nd 1 V x\nf 1 V x\na 0 V x\nc 0 V x\na 0 V x\nc 0 V x\nd 1 V x\n\
          f 1 V x\n",
    ),
];

// The index of the first script with another output.
fn wrong_script(alloc: Global, scripts: &[Worked]) -> Option<usize> {
    for (place, (script, output)) in scripts.iter().enumerate() {
        if gives(alloc, script, output) != Ok(true) {
            return Some(place);
        }
    }
    None
}

#[test]
fn several_runs_are_read_as_one(rt: HostRuntime) {
    assert!(rt; wrong_script(rt.alloc(), SEVERAL) == None);
}

#[test]
fn compacted_runs_have_what_readers_may_see(rt: HostRuntime) {
    assert!(rt; wrong_script(rt.alloc(), KEPT) == None);
    assert!(rt; wrong_script(rt.alloc(), SEEN) == None);
    assert!(rt; wrong_script(rt.alloc(), PARTS) == None);
}

#[test]
fn packed_runs_are_read_as_before(rt: HostRuntime) {
    assert!(rt; wrong_script(rt.alloc(), PACKED) == None);
}
