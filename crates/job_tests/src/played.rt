//! Steps over files that a test plays, with each call failing in turn.

use crate::steps::Seven;
use std::alloc::{Allocator, Global};
use std::cell::Cell;
use std::fs::{Metadata, OpenFile, OpenOptions};
use std::io;
use std::io::{ErrorKind, Read, Seek, SeekFrom, Write};
use std::rc::Rc;
use std::rt::Files;
use std::test::Fail;
use whole_file::{Folder, Given, HostFolder, put_output};

// What became of the files: calls are counted, and that of one number fails.
#[derive(Drop)]
struct Played {
    fails: u32,
    calls: Cell<u32>,
    // a part is there, begun as a file that must not be there
    has_part: Cell<bool>,
    written: Cell<usize>,
    // how many bytes were written when it was synced
    synced: Cell<usize>,
    // how many bytes the name has, where it has the file
    named: Cell<usize>,
}

impl Played {
    // Counts a call.
    fn call(&self) -> io::Result<()> {
        let call = self.calls.get().saturating_add(1);
        self.calls.set(call);
        if call == self.fails {
            return Err(io::Error::from(ErrorKind::StorageFull));
        }
        Ok(())
    }
}

// A call that no step makes.
fn unplayed<T>() -> io::Result<T> {
    Err(io::Error::from(ErrorKind::Unsupported))
}

#[derive(Drop)]
struct Play(Rc<Played>);

#[derive(Drop)]
struct PlayFile(Rc<Played>);

impl Files for Play {
    type File = PlayFile;

    type Dir = PlayFile;

    fn open_file(&self, how: &OpenOptions, _path: &str) -> io::Result<PlayFile> {
        self.0.call()?;
        if how.asks_write() {
            if self.0.has_part.get() || !how.asks_create_new() {
                return unplayed();
            }
            self.0.has_part.set(true);
        }
        Ok(PlayFile(self.0.clone()?))
    }

    fn rename(&self, _from: &str, _to: &str) -> io::Result<()> {
        self.0.call()?;
        if self.0.has_part.replace(false) {
            self.0.named.set(self.0.synced.get());
        }
        Ok(())
    }

    fn remove_file(&self, _path: &str) -> io::Result<()> {
        self.0.call()?;
        self.0.has_part.set(false);
        Ok(())
    }

    fn open_dir(&self, _path: &str) -> io::Result<PlayFile> {
        unplayed()
    }

    fn metadata(&self, _path: &str) -> io::Result<Metadata> {
        unplayed()
    }

    fn symlink_metadata(&self, _path: &str) -> io::Result<Metadata> {
        unplayed()
    }

    fn copy(&self, _from: &str, _to: &str) -> io::Result<u64> {
        unplayed()
    }

    fn create_dir(&self, _path: &str) -> io::Result<()> {
        unplayed()
    }

    fn remove_dir(&self, _path: &str) -> io::Result<()> {
        unplayed()
    }

    fn remove_dir_all<B: Allocator>(&self, _alloc: B, _path: &str) -> io::Result<()> {
        unplayed()
    }
}

impl Read for PlayFile {
    fn read(&mut self, buf: &mut [u8]) -> io::Result<usize> {
        self.0.call()?;
        if let [first, ..] = buf {
            *first = b'x';
            return Ok(1);
        }
        Ok(0)
    }
}

impl Write for PlayFile {
    fn write(&mut self, buf: &[u8]) -> io::Result<usize> {
        self.0.call()?;
        let count = buf.len().min(3);
        self.0
            .written
            .set(self.0.written.get().saturating_add(count));
        Ok(count)
    }

    fn flush(&mut self) -> io::Result<()> {
        self.0.call()
    }
}

impl Seek for PlayFile {
    fn seek(&mut self, _to: SeekFrom) -> io::Result<u64> {
        unplayed()
    }
}

impl OpenFile for PlayFile {
    fn metadata(&self) -> io::Result<Metadata> {
        unplayed()
    }

    fn set_len(&self, _size: u64) -> io::Result<()> {
        unplayed()
    }

    fn sync_all(&self) -> io::Result<()> {
        self.0.call()?;
        self.0.synced.set(self.0.written.get());
        Ok(())
    }

    fn sync_data(&self) -> io::Result<()> {
        unplayed()
    }
}

// How a step ended, and what became of the files.
#[derive(Clone, Copy)]
struct Outcome {
    is_done: bool,
    calls: u32,
    named: usize,
    has_part: bool,
}

// Whether a file was converted to another.
fn is_converted(alloc: Global, play: &Play) -> bool {
    let mut folder = HostFolder::new(alloc, play);
    let (Ok(mut input), Ok(name)) = (folder.open("a.nav"), String::from_str(alloc, "a.rnx")) else {
        return false;
    };
    let mut name = Given::new(name);
    put_output(&mut folder, &mut Seven, &mut input, &mut name, "a.rnx.part").is_ok()
}

// A step whose call of this number fails.
fn step(alloc: Global, fails: u32) -> Result<Outcome, Fail> {
    let played = Rc::new(
        alloc,
        Played {
            fails,
            calls: Cell::new(0),
            has_part: Cell::new(false),
            written: Cell::new(0),
            synced: Cell::new(0),
            named: Cell::new(0),
        },
    )?;
    let play = Play(played.clone()?);
    let is_done = is_converted(alloc, &play);
    Ok(Outcome {
        is_done,
        calls: played.calls.get(),
        named: played.named.get(),
        has_part: played.has_part.get(),
    })
}

#[test]
fn file_has_its_name_exactly_where_all_calls_are_done(rt: HostRuntime) -> Result<(), Fail> {
    // an open, a draft, a read, three writes of three bytes and fewer, a sync and a rename
    let whole = step(rt.alloc(), 0)?;
    assert!(rt; whole.is_done && whole.calls == 8 && whole.named == 7 && !whole.has_part);
    for fails in 1..9 {
        let cut = step(rt.alloc(), fails)?;
        assert!(rt; !cut.is_done && cut.named == 0 && !cut.has_part);
    }
    Ok(())
}
