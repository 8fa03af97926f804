//! The lines of small inputs, whole and byte by byte, and after a read that failed.

use crate::samples::source_of;
use nav_io::{LineFault, LineKind, Lines, MemSource};
use std::alloc::{AllocError, Global};
use std::test::Fail;

// An input, and the texts of its lines, which are all of one kind. Where it is full, the 2,200
// bytes of the longest line stand in front of it, and are its first line, which the row leaves
// empty.
struct InputRow {
    name: &'static str,
    is_full: bool,
    bytes: &'static [u8],
    kind: LineKind,
    lines: &'static [&'static [u8]],
}

const LONGEST: usize = 2_200;

static INPUTS: [InputRow; 14] = [
    InputRow {
        name: "no byte",
        is_full: false,
        bytes: b"",
        kind: LineKind::Text,
        lines: &[],
    },
    InputRow {
        name: "two lines",
        is_full: false,
        bytes: b"a\nbc\n",
        kind: LineKind::Text,
        lines: &[b"a", b"bc"],
    },
    InputRow {
        name: "two lines with CR LF",
        is_full: false,
        bytes: b"a\r\nbc\r\n",
        kind: LineKind::Text,
        lines: &[b"a", b"bc"],
    },
    InputRow {
        name: "a last line with no end",
        is_full: false,
        bytes: b"a\nbc",
        kind: LineKind::Text,
        lines: &[b"a", b"bc"],
    },
    InputRow {
        name: "a CR at the end of the input",
        is_full: false,
        bytes: b"a\nbc\r",
        kind: LineKind::Text,
        lines: &[b"a", b"bc"],
    },
    InputRow {
        name: "a CR as the last line",
        is_full: false,
        bytes: b"a\n\r",
        kind: LineKind::Text,
        lines: &[b"a", b""],
    },
    InputRow {
        name: "two empty lines in front",
        is_full: false,
        bytes: b"\n\na",
        kind: LineKind::Text,
        lines: &[b"", b"", b"a"],
    },
    InputRow {
        name: "two CR before LF",
        is_full: false,
        bytes: b"a\r\r\n",
        kind: LineKind::Text,
        lines: &[b"a\r"],
    },
    InputRow {
        name: "a CR inside a line",
        is_full: false,
        bytes: b"a\rbc\n",
        kind: LineKind::Text,
        lines: &[b"a\rbc"],
    },
    InputRow {
        name: "2,200 bytes and a line",
        is_full: true,
        bytes: b"\ny",
        kind: LineKind::Text,
        lines: &[b"", b"y"],
    },
    InputRow {
        name: "2,200 bytes with CR LF",
        is_full: true,
        bytes: b"\r\n",
        kind: LineKind::Text,
        lines: &[b""],
    },
    InputRow {
        name: "2,201 bytes with LF",
        is_full: true,
        bytes: b"x\n",
        kind: LineKind::Long,
        lines: &[b""],
    },
    InputRow {
        name: "2,201 bytes with CR",
        is_full: true,
        bytes: b"x\r",
        kind: LineKind::Long,
        lines: &[b""],
    },
    InputRow {
        name: "2,201 bytes with no end",
        is_full: true,
        bytes: b"x",
        kind: LineKind::Long,
        lines: &[b""],
    },
];

// Whether the source gives the lines of the row, numbered from 1, and from then on the end.
fn gives(source: &mut MemSource, row: &InputRow) -> bool {
    let full: &[u8] = &[b'x'; LONGEST];
    let mut lines = Lines::new();
    for (place, text) in row.lines.iter().enumerate() {
        let want = if row.is_full && place == 0 {
            full
        } else {
            *text
        };
        if lines.next(source) != Ok(row.kind) {
            return false;
        }
        if lines.text() != want || lines.number() as usize != place + 1 {
            return false;
        }
    }
    let first = lines.next(source) == Ok(LineKind::End);
    let second = lines.next(source) == Ok(LineKind::End);
    first && second && lines.text().is_empty() && lines.number() as usize == row.lines.len()
}

// Whether the input in these pieces gives its lines.
fn gives_cut(alloc: Global, row: &InputRow, cuts: &[u32]) -> Result<bool, AllocError> {
    let front = if row.is_full { LONGEST } else { 0 };
    let mut bytes = vec![in alloc; b'x'; front]?;
    bytes.extend_from_slice(row.bytes)?;
    let mut source = MemSource::new(bytes, cuts.to_vec(alloc)?, Vec::new(alloc));
    Ok(gives(&mut source, row))
}

// An answer, with the text and the number of lines behind it.
struct AnswerRow {
    answer: Result<LineKind, LineFault>,
    text: &'static [u8],
    number: u32,
}

static ANSWERS: [AnswerRow; 5] = [
    AnswerRow {
        answer: Err(LineFault::ReadFault),
        text: b"",
        number: 0,
    },
    AnswerRow {
        answer: Ok(LineKind::Text),
        text: b"ab",
        number: 1,
    },
    AnswerRow {
        answer: Ok(LineKind::Text),
        text: b"cd",
        number: 2,
    },
    AnswerRow {
        answer: Err(LineFault::ReadFault),
        text: b"",
        number: 2,
    },
    AnswerRow {
        answer: Ok(LineKind::End),
        text: b"",
        number: 2,
    },
];

// How many calls on the lines of two short ones, where the reads 1 and 4 fail, have these answers,
// up to the first that does not.
fn answers_after_a_failed_read(alloc: Global) -> Result<usize, AllocError> {
    let mut source = source_of(alloc, b"ab\ncd\n", &[1, 1], &[1, 4])?;
    let mut lines = Lines::new();
    let mut count = 0usize;
    for row in &ANSWERS {
        let next = lines.next(&mut source);
        if next != row.answer || lines.text() != row.text || lines.number() != row.number {
            return Ok(count);
        }
        count = count.saturating_add(1);
    }
    Ok(count)
}

#[test]
fn gives_lines(rt: HostRuntime) -> Result<(), Fail> {
    for row in &INPUTS {
        let is_given = gives_cut(rt.alloc(), row, &[])?;
        assert!(rt;
            gives_cut(rt.alloc(), row, &[1; 2300])? && is_given,
            "{}",
            row.name
        );
    }
    assert_eq!(rt; answers_after_a_failed_read(rt.alloc())?, ANSWERS.len());
    Ok(())
}
