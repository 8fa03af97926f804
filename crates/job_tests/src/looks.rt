//! Sources that are looked at, and counted.

use nav_io::{MemSource, Source};
use std::alloc::{AllocError, Global};
use std::test::Fail;
use whole_file::{Counted, PeekFault, Peeked, Progress};

// The last count that was told.
#[derive(Clone, Copy, Drop)]
struct Last(u64);

impl Progress for Last {
    fn taken(&mut self, count: u64) {
        self.0 = count;
    }
}

// A source over these bytes, which gives three at a time, and fails at the call of this number.
fn source_of(alloc: Global, bytes: &[u8], fails: u32) -> Result<MemSource, AllocError> {
    Ok(MemSource::new(
        bytes.to_vec(alloc)?,
        [3; 16].to_vec(alloc)?,
        [fails].to_vec(alloc)?,
    ))
}

// Reads so often, and appends the bytes.
fn read_all<S: Source>(source: &mut S, bytes: &mut Vec<u8>) -> Result<(), AllocError> {
    let mut piece = [0; 4];
    for _ in 0..20 {
        if let Ok(count) = source.read(&mut piece) {
            bytes.extend_from_slice(&piece[..count])?;
        }
    }
    Ok(())
}

static TEXT: &[u8] = b"0123456789abc";

// Whether the bytes of a source that was looked at come again, and are counted.
fn come_again(alloc: Global, peeked: Peeked<MemSource>) -> Result<bool, AllocError> {
    let mut counted = Counted::new(peeked, Last(0));
    let mut bytes = Vec::new(alloc);
    read_all(&mut counted, &mut bytes)?;
    let is_counted = counted.count() == 13 && counted.into_parts().1.0 == 13;
    Ok(is_counted && bytes.as_slice() == TEXT)
}

// Looks further, by one read, while fewer than 80 bytes were looked at.
fn look_on(peeked: &mut Peeked<MemSource>) -> Result<usize, PeekFault> {
    if peeked.prefix().len() < 80 {
        return peeked.look_on(80);
    }
    Ok(0)
}

// Whether that is so where it was looked at so often, by reads of three bytes, which are the first.
fn are_given_again(alloc: Global, looks: usize) -> Result<bool, AllocError> {
    let mut peeked = Peeked::new(alloc, source_of(alloc, TEXT, 99)?);
    let mut is_seen = true;
    for number in 0..looks {
        let left = TEXT.len().saturating_sub(number.saturating_mul(3));
        is_seen = is_seen && matches!(look_on(&mut peeked), Ok(count) if count == left.min(3));
    }
    is_seen = is_seen && peeked.prefix() == &TEXT[..looks.saturating_mul(3).min(TEXT.len())];
    Ok(is_seen && come_again(alloc, peeked)?)
}

#[test]
fn bytes_that_were_looked_at_come_again(rt: HostRuntime) -> Result<(), Fail> {
    for looks in 0..7 {
        assert!(rt; are_given_again(rt.alloc(), looks)?, "{looks}");
    }
    Ok(())
}

#[test]
fn read_that_fails_is_reported(rt: HostRuntime) -> Result<(), Fail> {
    let mut peeked = Peeked::new(rt.alloc(), source_of(rt.alloc(), TEXT, 1)?);
    let is_first = look_on(&mut peeked).is_ok();
    assert!(rt; is_first && matches!(look_on(&mut peeked), Err(PeekFault::ReadFault)));
    Ok(())
}
