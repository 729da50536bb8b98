// Cue records, good and damaged.
use cue::Fault::{BrokenRule, CutShort, LongNumber};
use cue::cursor::{MarkedRun, TaggedPart};
use cue::{Cue, Cursor, Fault, Refusal, read, write};
use sheet::{Part, Sheet};
use std::process::Abort;
use std::test::Fail;
use text::buffer::Text;

// The faults that are due where a byte comes twice, where it is missing, and where it is changed to 0, to one more, to 128 and to 255:
// none where the record is good again.
#[derive(Clone, Copy)]
struct Due {
    twice: Fault,
    missing: Option<Fault>,
    changed: [Option<Fault>; 4],
}

// The marks `.##.###.#`, tag 1 from 1 to 3 and tag 3 from 4 to 7.
const SHORT: [u8; 14] = [3, 1, 2, 1, 3, 1, 1, 2, 1, 1, 2, 3, 4, 3];

const SHORT_DAMAGED: [Due; 14] = [
    Due {
        twice: BrokenRule(5),
        missing: Some(BrokenRule(7)),
        changed: [
            Some(BrokenRule(5)),
            Some(BrokenRule(7)),
            Some(BrokenRule(7)),
            Some(BrokenRule(7)),
        ],
    },
    Due {
        twice: BrokenRule(11),
        missing: Some(BrokenRule(6)),
        changed: [
            None,
            Some(BrokenRule(6)),
            Some(BrokenRule(1)),
            Some(BrokenRule(1)),
        ],
    },
    Due {
        twice: BrokenRule(6),
        missing: Some(BrokenRule(11)),
        changed: [
            Some(BrokenRule(2)),
            Some(BrokenRule(6)),
            Some(BrokenRule(2)),
            Some(BrokenRule(2)),
        ],
    },
    Due {
        twice: BrokenRule(11),
        missing: Some(BrokenRule(6)),
        changed: [
            Some(BrokenRule(3)),
            Some(BrokenRule(6)),
            Some(BrokenRule(3)),
            Some(BrokenRule(3)),
        ],
    },
    Due {
        twice: BrokenRule(5),
        missing: Some(BrokenRule(11)),
        changed: [
            Some(BrokenRule(4)),
            Some(BrokenRule(6)),
            Some(BrokenRule(4)),
            Some(BrokenRule(4)),
        ],
    },
    Due {
        twice: BrokenRule(11),
        missing: Some(BrokenRule(6)),
        changed: [
            Some(BrokenRule(5)),
            Some(BrokenRule(6)),
            Some(BrokenRule(5)),
            Some(BrokenRule(5)),
        ],
    },
    Due {
        twice: BrokenRule(11),
        missing: Some(BrokenRule(6)),
        changed: [
            Some(BrokenRule(6)),
            Some(BrokenRule(6)),
            Some(BrokenRule(6)),
            Some(BrokenRule(6)),
        ],
    },
    Due {
        twice: BrokenRule(11),
        missing: Some(BrokenRule(11)),
        changed: [
            Some(BrokenRule(8)),
            Some(CutShort(14)),
            Some(CutShort(14)),
            Some(CutShort(14)),
        ],
    },
    Due {
        twice: BrokenRule(14),
        missing: Some(CutShort(13)),
        changed: [
            Some(BrokenRule(8)),
            None,
            Some(BrokenRule(8)),
            Some(BrokenRule(8)),
        ],
    },
    Due {
        twice: BrokenRule(14),
        missing: Some(CutShort(13)),
        changed: [None, None, Some(BrokenRule(9)), Some(BrokenRule(9))],
    },
    Due {
        twice: BrokenRule(14),
        missing: Some(CutShort(13)),
        changed: [
            Some(BrokenRule(10)),
            None,
            Some(BrokenRule(10)),
            Some(BrokenRule(10)),
        ],
    },
    Due {
        twice: BrokenRule(14),
        missing: Some(CutShort(13)),
        changed: [
            Some(BrokenRule(11)),
            None,
            Some(BrokenRule(11)),
            Some(BrokenRule(11)),
        ],
    },
    Due {
        twice: BrokenRule(14),
        missing: Some(CutShort(13)),
        changed: [None, None, Some(BrokenRule(12)), Some(BrokenRule(12))],
    },
    Due {
        twice: BrokenRule(14),
        missing: Some(CutShort(13)),
        changed: [
            Some(BrokenRule(13)),
            None,
            Some(CutShort(14)),
            Some(CutShort(14)),
        ],
    },
];

// Of 160 symbols all but the first three and the last seven are marked, and tag 2 goes from 130 to 160.
const LONG: [u8; 9] = [1, 3, 150, 1, 1, 2, 130, 1, 30];

const LONG_DAMAGED: [Due; 9] = [
    Due {
        twice: BrokenRule(9),
        missing: Some(BrokenRule(5)),
        changed: [
            Some(BrokenRule(2)),
            Some(BrokenRule(8)),
            Some(BrokenRule(6)),
            Some(BrokenRule(6)),
        ],
    },
    Due {
        twice: BrokenRule(9),
        missing: Some(BrokenRule(5)),
        changed: [None, None, Some(LongNumber(1)), Some(LongNumber(1))],
    },
    Due {
        twice: LongNumber(2),
        missing: None,
        changed: [Some(BrokenRule(2)), None, None, Some(BrokenRule(2))],
    },
    Due {
        twice: BrokenRule(9),
        missing: Some(BrokenRule(5)),
        changed: [
            Some(LongNumber(2)),
            Some(BrokenRule(2)),
            Some(LongNumber(2)),
            Some(LongNumber(2)),
        ],
    },
    Due {
        twice: BrokenRule(9),
        missing: Some(BrokenRule(5)),
        changed: [
            Some(BrokenRule(5)),
            Some(CutShort(9)),
            Some(BrokenRule(6)),
            Some(BrokenRule(6)),
        ],
    },
    Due {
        twice: BrokenRule(9),
        missing: Some(BrokenRule(5)),
        changed: [
            Some(BrokenRule(5)),
            None,
            Some(LongNumber(5)),
            Some(LongNumber(5)),
        ],
    },
    Due {
        twice: LongNumber(6),
        missing: None,
        changed: [
            Some(BrokenRule(8)),
            Some(BrokenRule(8)),
            None,
            Some(BrokenRule(6)),
        ],
    },
    Due {
        twice: BrokenRule(9),
        missing: Some(BrokenRule(6)),
        changed: [
            Some(LongNumber(6)),
            Some(BrokenRule(6)),
            Some(LongNumber(6)),
            Some(LongNumber(6)),
        ],
    },
    Due {
        twice: BrokenRule(9),
        missing: Some(CutShort(8)),
        changed: [
            Some(BrokenRule(8)),
            Some(BrokenRule(8)),
            Some(CutShort(9)),
            Some(CutShort(9)),
        ],
    },
];

// What is wrong with a record, if anything is. A refusal has to leave buffer and sheet as they were, and what is read has to give the same
// bytes when it is written.
fn fault_of(rt: &impl Abort, bytes: &[u8], symbols: usize) -> Result<Option<Fault>, Fail> {
    let mut marks = [7; 161];
    let mut sheet = Sheet::new();
    let _ = sheet.fill(8, Some(Part { left: 5, right: 4 }));
    let before = sheet;
    match read(bytes, symbols, &mut marks, &mut sheet) {
        Ok(()) => {
            assert_eq!(rt; marks.get(symbols), Some(&7));
            let mut out = [9; 64];
            assert_eq!(rt; write(&marks, &sheet, symbols, &mut out), Ok(bytes.len()));
            assert!(rt; out.starts_with(bytes));
            Ok(None)
        }
        Err(refusal) => {
            assert!(rt; marks == [7; 161]);
            assert!(rt; sheet == before);
            let Refusal::NoRecord(fault) = refusal else {
                assert!(rt; false);
                return Ok(None);
            };
            Ok(Some(fault))
        }
    }
}

// The same of three pieces of a record.
fn joined(
    rt: &impl Abort,
    front: &[u8],
    middle: &[u8],
    back: &[u8],
    symbols: usize,
) -> Result<Option<Fault>, Fail> {
    let mut record = Text::new();
    record.text(front);
    record.text(middle);
    record.text(back);
    fault_of(rt, record.bytes(), symbols)
}

fn check_damages(rt: &impl Abort, good: &[u8], symbols: usize, due: &[Due]) -> Result<(), Fail> {
    assert_eq!(rt; fault_of(rt, good, symbols)?, None);
    assert_eq!(rt; due.len(), good.len());
    for (k, one) in due.iter().enumerate() {
        let Some((front, [byte, back @ ..])) = good.split_at_checked(k) else {
            assert!(rt; false);
            return Ok(());
        };
        assert_eq!(rt; fault_of(rt, front, symbols)?, Some(CutShort(k)));
        let twice = joined(rt, front, &[*byte, *byte], back, symbols)?;
        assert_eq!(rt; twice, Some(one.twice));
        assert_eq!(rt; joined(rt, front, &[], back, symbols)?, one.missing);
        let changes = [0, byte.saturating_add(1), 128, 255];
        for (change, fault) in changes.iter().zip(&one.changed) {
            assert_eq!(rt; joined(rt, front, &[*change], back, symbols)?, *fault);
        }
    }
    Ok(())
}

#[test]
fn damaged_records(rt: HostRuntime) -> Result<(), Fail> {
    check_damages(&rt, &SHORT, 9, &SHORT_DAMAGED)?;
    check_damages(&rt, &LONG, 160, &LONG_DAMAGED)
}

#[test]
fn numbers_and_offsets(rt: HostRuntime) {
    assert_eq!(rt; Refusal::from(CutShort(5)).number(), 16);
    assert_eq!(rt; Refusal::from(LongNumber(6)).number(), 17);
    assert_eq!(rt; Refusal::from(BrokenRule(7)).number(), 18);
    assert_eq!(rt; Refusal::from(CutShort(5)).offset(), Some(5));
    assert_eq!(rt; Refusal::from(LongNumber(6)).offset(), Some(6));
    assert_eq!(rt; Refusal::from(BrokenRule(7)).offset(), Some(7));
}

#[test]
fn read_in_place(rt: HostRuntime) -> Result<(), Fail> {
    let Ok(mut cursor) = Cursor::new(&LONG, 160) else {
        assert!(rt; false);
        return Ok(());
    };
    let run = MarkedRun {
        offset: 1,
        left: 3,
        right: 153,
    };
    assert_eq!(rt; cursor.next(), Ok(Some(Cue::Run(run))));
    let part = TaggedPart {
        offset: 5,
        tag: 2,
        part: Part {
            left: 130,
            right: 160,
        },
    };
    assert_eq!(rt; cursor.next(), Ok(Some(Cue::TagPart(part))));
    assert_eq!(rt; cursor.next(), Ok(None));
    assert_eq!(rt; cursor.next(), Ok(None));
    Ok(())
}

#[test]
fn written_and_read(rt: HostRuntime) {
    let mut sheet = Sheet::new();
    assert!(rt; sheet.fill(1, Some(Part { left: 1, right: 3 })));
    assert!(rt; sheet.fill(3, Some(Part { left: 4, right: 7 })));
    let mut out = [9; 16];
    let given = [0, 7, 255, 0, 1, 2, 128, 0, 1];
    assert_eq!(rt; write(&given, &sheet, 9, &mut out), Ok(14));
    assert_eq!(rt; out, [3, 1, 2, 1, 3, 1, 1, 2, 1, 1, 2, 3, 4, 3, 9, 9]);
    let mut marks = [7; 10];
    let mut parts = Sheet::new();
    assert_eq!(rt; read(&SHORT, 9, &mut marks, &mut parts), Ok(()));
    assert_eq!(rt; marks, [0, 1, 1, 0, 1, 1, 1, 0, 1, 7]);
    assert!(rt; parts == sheet);
}

#[test]
fn refused_lines_and_buffers(rt: HostRuntime) {
    let mut sheet = Sheet::new();
    let mut marks = [1; 161];
    let mut out = [9; 5];
    assert_eq!(rt;
        write(&marks, &sheet, 161, &mut out),
        Err(Refusal::LineTooLong)
    );
    assert_eq!(rt;
        write(&marks[0..159], &sheet, 160, &mut out),
        Err(Refusal::BufferTooShort)
    );
    assert_eq!(rt;
        write(&marks, &sheet, 160, &mut out[0..4]),
        Err(Refusal::BufferTooShort)
    );
    assert_eq!(rt; out, [9; 5]);
    assert_eq!(rt; write(&marks, &sheet, 160, &mut out), Ok(5));
    assert_eq!(rt; out, [1, 0, 160, 1, 0]);
    assert_eq!(rt;
        read(&out, 161, &mut marks, &mut sheet),
        Err(Refusal::LineTooLong)
    );
    assert_eq!(rt;
        read(&out, 160, &mut marks[0..159], &mut sheet),
        Err(Refusal::BufferTooShort)
    );
    assert!(rt; !sheet.fill(0, None));
    assert!(rt; !sheet.fill(9, None));
}

fn check_misfit(rt: &impl Abort, left: usize, right: usize) {
    let mut sheet = Sheet::new();
    assert!(rt; sheet.fill(1, Some(Part { left, right })));
    let mut out = [9; 8];
    let answer = write(&[1; 160], &sheet, 160, &mut out);
    assert_eq!(rt; answer, Err(Refusal::PartMisfits));
    assert_eq!(rt; out, [9; 8]);
}

#[test]
fn refused_parts(rt: HostRuntime) {
    check_misfit(&rt, 3, 3);
    check_misfit(&rt, 4, 3);
    check_misfit(&rt, 159, 161);
}
