//! The reading of times, and of a journal that is damaged or of another line.

use crate::journal::line::{ENTRIES, FILE, FIRST, OLD_FIRST};
use crate::line::{B, line_of};
use std::alloc::Global;
use std::test::*;
use text_journal::{Entry, JournalFault, read_journal};

/// The times of the two entries of a journal, the number of its damaged line, or 0 if it is foreign.
type Read = Result<(Option<u64>, Option<u64>), usize>;

// Reads a journal of B with this first line and these others.
fn read(alloc: Global, first: &str, others: &str) -> Result<Read, Fail> {
    let text = format!(in alloc; "{first}{others}")?;
    read_text(alloc, text.as_str())
}

fn read_text(alloc: Global, text: &str) -> Result<Read, Fail> {
    let line = line_of(alloc, FILE)?;
    match read_journal(alloc, &line, B, FILE, text) {
        Ok(entries) => times_of(&entries),
        Err(fault) => fault_of(fault),
    }
}

fn times_of(entries: &[Entry]) -> Result<Read, Fail> {
    match entries {
        [first, second] => Ok(Ok((first.time_ms, second.time_ms))),
        _ => Err("it has two entries".into()),
    }
}

fn fault_of(fault: JournalFault) -> Result<Read, Fail> {
    match fault {
        JournalFault::Damaged(line) => Ok(Err(line)),
        JournalFault::Foreign => Ok(Err(0)),
        JournalFault::Memory => Err("there is memory".into()),
    }
}

// The lines after the first one, and the number of the damaged one.
static DAMAGED: [(&str, usize); 15] = [
    ("\n3a1cc061 1 > set B 0\n", 2),
    ("\n3a1cc061 2 > set B 1\n", 2),
    ("\n3a1cc060 1 > set B 1\n", 2),
    ("\n3A1CC061 1 > set B 1\n", 2),
    ("\n3a1cc061 1 > set B 1\n\n", 3),
    ("\n3a1cc061 1 > set B 1\r\n", 2),
    ("\n1 > set B 1\n3a1cc061 1 > set B 1\n", 2),
    ("\nea3f6b8c 1 > set B 01\n", 2),
    ("\nc4ee5feb 1 > set A 1\n", 2),
    ("\n4a345b20 8 > train B 9b028000000040000040\n", 2),
    ("\n5ff7a870 1 18446744073709551616 > set B 1\n", 2),
    ("\ndccbf76b 1 01767225600000 > set B 1\n", 2),
    ("\n8e0b4a9c 1 +5 > set B 1\n", 2),
    ("\ndb1e89c9 1  > set B 1\n", 2),
    ("\ne49036bc 1 5 5 > set B 1\n", 2),
];

// The first line of a journal, the lines after it, and the result.
static READ: [(&str, &str, Read); 16] = [
    (
        "journal 3 B ba35c55526b8ee737edcb0f3cc29d5304c156d9964d7e8ca30cc4d3f91642eea",
        ENTRIES,
        Err(0),
    ),
    (
        "journal 1 A ba35c55526b8ee737edcb0f3cc29d5304c156d9964d7e8ca30cc4d3f91642eea",
        ENTRIES,
        Err(0),
    ),
    (
        "journal 2 A c8c7010c54c6bcdebb164494cef02f19a321e54b556d9660c7b49c71216f517b",
        ENTRIES,
        Err(0),
    ),
    (
        "journal 1 B ba35c55526b8ee737edcb0f3cc29d5304c156d9964d7e8ca30cc4d3f91642eeb",
        ENTRIES,
        Err(0),
    ),
    (
        "journal 2 B ba35c55526b8ee737edcb0f3cc29d5304c156d9964d7e8ca30cc4d3f91642eea",
        ENTRIES,
        Err(0),
    ),
    (
        "journal 1 B c8c7010c54c6bcdebb164494cef02f19a321e54b556d9660c7b49c71216f517b",
        ENTRIES,
        Err(0),
    ),
    ("journal 1 B", ENTRIES, Err(0)),
    ("journal 2 B", ENTRIES, Err(0)),
    ("", ENTRIES, Err(0)),
    ("journal 1 A", "", Err(0)),
    ("journal 2 A", "", Err(0)),
    ("journal 3", "", Err(0)),
    ("3a1cc061 1 > set B 1", "", Err(0)),
    (
        OLD_FIRST,
        "\n3a1cc061 1 > set B 1\n44a52c2b 7 > deliver A B 1\n",
        Ok((None, None)),
    ),
    (
        OLD_FIRST,
        "\n3a1cc061 1 > set B 1\n41e121de 7 1767225599999 > deliver A B 1\n",
        Ok((None, Some(1_767_225_599_999))),
    ),
    (
        FIRST,
        "\n2ff64715 1 0 > set B 1\n93783a6b 7 18446744073709551615 > deliver A B 1\n",
        Ok((Some(0), Some(u64::MAX))),
    ),
];

#[test]
fn each_journal_is_read_damaged_or_foreign(rt: HostRuntime) -> Result<(), Fail> {
    for (others, line) in &DAMAGED {
        let read = [
            read(rt.alloc(), FIRST, others)?,
            read(rt.alloc(), OLD_FIRST, others)?,
        ];
        assert!(rt; read == [Err(*line), Err(*line)], "{others}");
    }
    for (first, others, wanted) in &READ {
        assert!(rt;
            read(rt.alloc(), first, others)? == *wanted,
            "{first}{others}"
        );
    }
    Ok(())
}
