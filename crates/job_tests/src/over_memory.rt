//! Runs of the top call over memory, and whether they end as they must.

use crate::bits::expand;
use bridge_engine::bridge;
use nav_io::{MemSink, MemSource};
use std::alloc::{AllocError, Global};

// How many bytes of output and of report there is room for.
const OUTPUT_ROOM: usize = 6_291_456;

const REPORT_ROOM: usize = 65_536;

/// The last part of an expected text, behind which anything may stand.
pub(crate) const ANYTHING: &str = "{*}";

/// The first part of an expected text of which a prefix stands.
pub(crate) const PREFIX: &str = "{<}";

/// What a run answered and wrote.
#[derive(Drop)]
pub(crate) struct Outcome {
    pub(crate) status: u8,
    pub(crate) output: MemSink,
    pub(crate) report: MemSink,
    // how many bytes of the input are left
    pub(crate) left: usize,
}

/// Which reads and writes fail, by their numbers, and after how many bytes each read ends.
#[derive(Clone, Copy)]
pub(crate) struct Failing<'a> {
    pub(crate) cuts: &'a [u32],
    pub(crate) reads: &'a [u32],
    pub(crate) writes: &'a [u32],
    pub(crate) reports: &'a [u32],
}

/// Nothing fails.
pub(crate) const NOTHING_FAILS: Failing<'static> = Failing {
    cuts: &[],
    reads: &[],
    writes: &[],
    reports: &[],
};

/// The first write of the report fails.
pub(crate) const REPORT_FAILS: Failing<'static> = Failing {
    cuts: &[],
    reads: &[],
    writes: &[],
    reports: &[0],
};

// The words, which stand with `;` between them.
fn words_of(alloc: Global, text: &str) -> Result<Vec<String>, AllocError> {
    let mut words = Vec::new(alloc);
    if text.is_empty() {
        return Ok(words);
    }
    for word in text.split(';') {
        words.push(String::from_str(alloc, word)?)?;
    }
    Ok(words)
}

// A source over these bytes.
fn source_of(alloc: Global, bytes: &[u8], failing: &Failing) -> Result<MemSource, AllocError> {
    let bytes = bytes.to_vec(alloc)?;
    let cuts = failing.cuts.to_vec(alloc)?;
    Ok(MemSource::new(bytes, cuts, failing.reads.to_vec(alloc)?))
}

// A sink with room for this many bytes.
fn sink_of(alloc: Global, room: usize, fails: &[u32]) -> Result<MemSink, AllocError> {
    MemSink::new(alloc, room, fails.to_vec(alloc)?)
}

/// A run over these bytes, some of whose calls fail.
pub(crate) fn run_over(
    alloc: Global,
    words: &str,
    input: &[u8],
    failing: &Failing,
) -> Result<Outcome, AllocError> {
    let words = words_of(alloc, words)?;
    let mut input = source_of(alloc, input, failing)?;
    let mut output = sink_of(alloc, OUTPUT_ROOM, failing.writes)?;
    let mut report = sink_of(alloc, REPORT_ROOM, failing.reports)?;
    let status = bridge(alloc, &words, &mut input, &mut output, &mut report);
    let left = input.left().len();
    Ok(Outcome {
        status,
        output,
        report,
        left,
    })
}

// Whether the bytes are those of the expected text, in which `new` stands in the place of `old`.
fn are_those(
    alloc: Global,
    bytes: &[u8],
    want: &[&str],
    old: &str,
    new: &str,
) -> Result<bool, AllocError> {
    let text = expand(alloc, want, old, new)?;
    if want.last() == Some(&ANYTHING) {
        return Ok(bytes.starts_with(text.as_slice()));
    }
    if want.first() == Some(&PREFIX) {
        return Ok(text.starts_with(bytes));
    }
    Ok(bytes == text.as_slice())
}

/// A run over a text.
#[derive(Clone, Copy)]
pub(crate) struct Run<'a> {
    pub(crate) name: &'a str,
    pub(crate) words: &'a str,
    // the parts of the input, and how many of its bytes stand
    pub(crate) input: &'a [&'a str],
    pub(crate) length: usize,
    // words of the input and of the output, what stands in their first place in the input, and in
    // the output
    pub(crate) old: &'a str,
    pub(crate) new: &'a str,
    pub(crate) printed: &'a str,
    pub(crate) failing: Failing<'a>,
    pub(crate) status: u8,
    // what is written and reported, and how many bytes of the input are left at the least
    pub(crate) output: &'a [&'a str],
    pub(crate) report: &'a [&'a str],
    pub(crate) left: usize,
}

/// A run over nothing, in which nothing fails, whose report is not looked at.
pub(crate) const RUN: Run<'static> = Run {
    name: "",
    words: "",
    input: &[],
    length: usize::MAX,
    old: "",
    new: "",
    printed: "",
    failing: NOTHING_FAILS,
    status: 0,
    output: &[],
    report: &[ANYTHING],
    left: 0,
};

impl Run<'_> {
    /// Whether it ends so.
    pub(crate) fn ends_so(&self, alloc: Global) -> Result<bool, AllocError> {
        let mut input = expand(alloc, self.input, self.old, self.new)?;
        input.truncate(self.length);
        let run = run_over(alloc, self.words, input.as_slice(), &self.failing)?;
        let output = run.output.bytes();
        let is_written = are_those(alloc, output, self.output, self.old, self.printed)?;
        let is_reported = are_those(alloc, run.report.bytes(), self.report, "", "")?;
        let is_ended = run.status == self.status && run.left >= self.left;
        Ok(is_ended && is_written && is_reported)
    }
}

/// The name of the first run that does not end as it must.
pub(crate) fn first_wrong(
    alloc: Global,
    runs: &'static [Run<'static>],
) -> Result<Option<&'static str>, AllocError> {
    for run in runs {
        if !run.ends_so(alloc)? {
            return Ok(Some(run.name));
        }
    }
    Ok(None)
}
