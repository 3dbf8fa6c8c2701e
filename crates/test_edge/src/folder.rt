//! The files of the system, watched: each sync is counted, and what is told to fail does.
use node_store::OwnFile;
use std::alloc::Allocator;
use std::cell::Cell;
use std::fs::{Metadata, OpenFile, OpenOptions};
use std::io::{Error, ErrorKind, Read, Result as IoResult, Seek, SeekFrom, Write};
use std::rt::Files;

// What is seen of the files, and what is told to them.
#[derive(Drop)]
pub struct Watch {
    // how often a file or a folder was synced
    pub syncs: Cell<u32>,
    // how many writes came since the last sync of a file
    pub unsynced: Cell<u32>,
    // whether syncs fail
    pub sync_fails: Cell<bool>,
    // how many reads there were
    pub reads: Cell<u32>,
    // at which read one fails, if at any
    pub fails_at: Cell<u32>,
}

impl Watch {
    // Nothing is seen yet, and nothing fails.
    pub fn new() -> Watch {
        Watch {
            syncs: Cell::new(0),
            unsynced: Cell::new(0),
            sync_fails: Cell::new(false),
            reads: Cell::new(0),
            fails_at: Cell::new(0),
        }
    }
}

// The files of a runtime.
#[derive(Drop)]
pub struct Folder<'a, R> {
    pub rt: &'a R,
    pub watch: &'a Watch,
}

// A file of it, which gives one byte a read. Every second read is interrupted.
#[derive(Drop)]
pub struct WatchedFile<'a, F> {
    file: F,
    watch: &'a Watch,
}

impl<F: Read> Read for WatchedFile<'_, F> {
    fn read(&mut self, buf: &mut [u8]) -> IoResult<usize> {
        let reads = self.watch.reads.get().wrapping_add(1);
        self.watch.reads.set(reads);
        if reads == self.watch.fails_at.get() {
            return Err(Error::from(ErrorKind::BrokenPipe));
        }
        if reads % 2 == 0 || buf.is_empty() {
            return Err(Error::from(ErrorKind::Interrupted));
        }
        self.file.read(&mut buf[..1])
    }
}

impl<F: Write> Write for WatchedFile<'_, F> {
    fn write(&mut self, buf: &[u8]) -> IoResult<usize> {
        self.watch
            .unsynced
            .set(self.watch.unsynced.get().wrapping_add(1));
        self.file.write(buf)
    }

    fn flush(&mut self) -> IoResult<()> {
        self.file.flush()
    }
}

impl<F: Seek> Seek for WatchedFile<'_, F> {
    fn seek(&mut self, to: SeekFrom) -> IoResult<u64> {
        self.file.seek(to)
    }
}

impl<F: OpenFile> WatchedFile<'_, F> {
    fn sync(&self) -> IoResult<()> {
        if self.watch.sync_fails.get() {
            return Err(Error::from(ErrorKind::BrokenPipe));
        }
        self.file.sync_all()?;
        self.watch.syncs.set(self.watch.syncs.get().wrapping_add(1));
        self.watch.unsynced.set(0);
        Ok(())
    }
}

impl<F: OpenFile> OpenFile for WatchedFile<'_, F> {
    fn metadata(&self) -> IoResult<Metadata> {
        self.file.metadata()
    }

    fn set_len(&self, size: u64) -> IoResult<()> {
        self.file.set_len(size)
    }

    fn sync_all(&self) -> IoResult<()> {
        self.sync()
    }

    fn sync_data(&self) -> IoResult<()> {
        self.sync()
    }
}

impl<F: OwnFile> OwnFile for WatchedFile<'_, F> {
    fn claim(&self) -> bool {
        self.file.claim()
    }
}

impl<'a, R: Files> Files for Folder<'a, R> {
    type File = WatchedFile<'a, R::File>;

    type Dir = R::Dir;

    fn open_file(&self, how: &OpenOptions, path: &str) -> IoResult<WatchedFile<'a, R::File>> {
        let file = self.rt.open_file(how, path)?;
        Ok(WatchedFile {
            file,
            watch: self.watch,
        })
    }

    fn open_dir(&self, path: &str) -> IoResult<R::Dir> {
        self.rt.open_dir(path)
    }

    fn metadata(&self, path: &str) -> IoResult<Metadata> {
        self.rt.metadata(path)
    }

    fn symlink_metadata(&self, path: &str) -> IoResult<Metadata> {
        self.rt.symlink_metadata(path)
    }

    fn copy(&self, from: &str, to: &str) -> IoResult<u64> {
        self.rt.copy(from, to)
    }

    fn rename(&self, from: &str, to: &str) -> IoResult<()> {
        self.rt.rename(from, to)
    }

    fn remove_file(&self, path: &str) -> IoResult<()> {
        self.rt.remove_file(path)
    }

    fn create_dir(&self, path: &str) -> IoResult<()> {
        self.rt.create_dir(path)
    }

    fn remove_dir(&self, path: &str) -> IoResult<()> {
        self.rt.remove_dir(path)
    }

    fn remove_dir_all<B: Allocator>(&self, alloc: B, path: &str) -> IoResult<()> {
        self.rt.remove_dir_all(alloc, path)
    }
}
