//! What no clause says: that calls succeed, that a fault in mid-stream is answered as one.

use crate::samples::source_of;
use nav_io::{Failed, MemSink, ReadSource, Sink, Source, WriteSink};
use std::alloc::{AllocError, Global};
use std::io;
use std::io::{ErrorKind, Read, Write};
use std::test::Fail;

// A reader and a writer of one byte per call, which fails at its third call. It can't be flushed
// after its sixth.
#[derive(Drop)]
struct Faltering {
    calls: u8,
}

impl Read for Faltering {
    fn read(&mut self, buf: &mut [u8]) -> io::Result<usize> {
        self.calls = self.calls.saturating_add(1);
        if self.calls == 3 {
            return Err(io::Error::from(ErrorKind::Interrupted));
        }
        if let [first, ..] = buf {
            *first = self.calls;
            return Ok(1);
        }
        Ok(0)
    }
}

impl Write for Faltering {
    fn write(&mut self, buf: &[u8]) -> io::Result<usize> {
        self.calls = self.calls.saturating_add(1);
        if self.calls == 3 {
            return Err(io::Error::from(ErrorKind::Interrupted));
        }
        Ok(buf.len().min(1))
    }

    fn flush(&mut self) -> io::Result<()> {
        if self.calls == 6 {
            return Err(io::Error::from(ErrorKind::Interrupted));
        }
        Ok(())
    }
}

// The answer of a read into a buffer of four bytes, with the first byte of the buffer behind it.
struct Reading {
    answer: Result<usize, Failed>,
    first: u8,
}

// How many reads of a source are answered so, up to the first that is not.
fn reads<S: Source>(source: &mut S, readings: &[Reading]) -> usize {
    let mut buffer = [0; 4];
    let mut count = 0usize;
    for reading in readings {
        let answer = source.read(&mut buffer);
        if answer != reading.answer || buffer[0] != reading.first {
            return count;
        }
        count = count.saturating_add(1);
    }
    count
}

// The write of a piece, and its answer.
struct Writing {
    piece: &'static [u8],
    answer: Result<(), Failed>,
}

// How many writes to a sink are answered so, up to the first that is not.
fn writes<S: Sink>(sink: &mut S, writings: &[Writing]) -> usize {
    let mut count = 0usize;
    for writing in writings {
        if sink.write(writing.piece) != writing.answer {
            return count;
        }
        count = count.saturating_add(1);
    }
    count
}

static MEMORY_READINGS: [Reading; 5] = [
    Reading {
        answer: Ok(1),
        first: b'a',
    },
    Reading {
        answer: Ok(1),
        first: b'b',
    },
    Reading {
        answer: Err(Failed),
        first: b'b',
    },
    Reading {
        answer: Ok(1),
        first: b'c',
    },
    Reading {
        answer: Ok(1),
        first: b'd',
    },
];

static MEMORY_WRITINGS: [Writing; 5] = [
    Writing {
        piece: b"ab",
        answer: Ok(()),
    },
    Writing {
        piece: b"cd",
        answer: Err(Failed),
    },
    Writing {
        piece: b"efgh",
        answer: Err(Failed),
    },
    Writing {
        piece: b"ijk",
        answer: Ok(()),
    },
    Writing {
        piece: b"",
        answer: Ok(()),
    },
];

static EDGE_READINGS: [Reading; 5] = [
    Reading {
        answer: Ok(4),
        first: b'a',
    },
    Reading {
        answer: Ok(1),
        first: b'e',
    },
    Reading {
        answer: Ok(0),
        first: b'e',
    },
    Reading {
        answer: Ok(0),
        first: b'e',
    },
    Reading {
        answer: Ok(0),
        first: b'e',
    },
];

static EDGE_WRITINGS: [Writing; 2] = [
    Writing {
        piece: b"ab",
        answer: Ok(()),
    },
    Writing {
        piece: b"cd",
        answer: Ok(()),
    },
];

static FALTERING_READINGS: [Reading; 5] = [
    Reading {
        answer: Ok(1),
        first: 1,
    },
    Reading {
        answer: Ok(1),
        first: 2,
    },
    Reading {
        answer: Err(Failed),
        first: 2,
    },
    Reading {
        answer: Ok(1),
        first: 4,
    },
    Reading {
        answer: Ok(1),
        first: 5,
    },
];

static FALTERING_WRITINGS: [Writing; 5] = [
    Writing {
        piece: b"ab",
        answer: Ok(()),
    },
    Writing {
        piece: b"cd",
        answer: Err(Failed),
    },
    Writing {
        piece: b"ef",
        answer: Ok(()),
    },
    Writing {
        piece: b"g",
        answer: Err(Failed),
    },
    Writing {
        piece: b"h",
        answer: Ok(()),
    },
];

// How many reads of memory in pieces are answered so, and how many bytes are left.
fn reads_of_memory(alloc: Global) -> Result<[usize; 2], AllocError> {
    let mut source = source_of(alloc, b"abcd", &[1, 0, 1], &[2])?;
    let count = reads(&mut source, &MEMORY_READINGS);
    Ok([count, source.left().len()])
}

// How many writes to memory are answered so; none where other bytes stand in it than there is room
// for.
fn writes_to_memory(alloc: Global) -> Result<usize, AllocError> {
    let mut sink = MemSink::new(alloc, 5, [1].to_vec(alloc)?)?;
    let count = writes(&mut sink, &MEMORY_WRITINGS);
    Ok(if sink.bytes() == b"abijk".as_slice() {
        count
    } else {
        0
    })
}

#[test]
fn memory(rt: HostRuntime) -> Result<(), Fail> {
    assert_eq!(rt; reads_of_memory(rt.alloc())?, [MEMORY_READINGS.len(), 0]);
    assert_eq!(rt; writes_to_memory(rt.alloc())?, MEMORY_WRITINGS.len());
    Ok(())
}

// At the edge: bytes that are read and written whole, and a reader and a writer that fail in
// mid-stream.
#[test]
fn edge(rt: HostRuntime) {
    let mut source = ReadSource::new(b"abcde".as_slice());
    let read = reads(&mut source, &EDGE_READINGS);
    let mut out = Vec::new(rt.alloc());
    let mut sink = WriteSink::new(&mut out);
    let written = writes(&mut sink, &EDGE_WRITINGS);
    let _ = sink;
    let mut source = ReadSource::new(Faltering { calls: 0 });
    let reads_on = reads(&mut source, &FALTERING_READINGS);
    let mut sink = WriteSink::new(Faltering { calls: 0 });
    let writes_on = writes(&mut sink, &FALTERING_WRITINGS);
    let kinds = [source.fault(), sink.fault()] == [Some(ErrorKind::Interrupted); 2];
    let is_out = out.as_slice() == b"abcd".as_slice();
    assert_eq!(rt; [read, written, reads_on, writes_on], [5, 2, 5, 5]);
    assert!(rt; is_out && kinds);
}
