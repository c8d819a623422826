//! Real files of which one call is refused.
use std::alloc::{Alloc, Allocator, Global};
use std::fs::{File, Files, Metadata, OpenFile, OpenOptions, Permissions};
use std::io;
use std::io::{ErrorKind, Read, Seek, SeekFrom, Write};
use std::path::PathBuf;

/// The call that is refused. Of writes the second is, and the first takes a byte.
#[derive(Clone, Copy, PartialEq)]
pub enum Refused {
    Open,
    Write,
    Sync,
    Rename,
}

/// A runtime that refuses a call.
#[derive(Drop)]
pub struct RefusingFiles {
    pub rt: HostRuntime,
    pub refused: Refused,
}

#[derive(Drop)]
pub struct RefusingFile {
    file: File,
    refused: Refused,
    has_written: bool,
}

fn refusal() -> io::Error {
    io::Error::from(ErrorKind::StorageFull)
}

impl Read for RefusingFile {
    fn read(&mut self, buf: &mut [u8]) -> io::Result<usize> {
        self.file.read(buf)
    }
}

impl Write for RefusingFile {
    fn write(&mut self, buf: &[u8]) -> io::Result<usize> {
        if self.refused != Refused::Write {
            return self.file.write(buf);
        }
        if self.has_written {
            return Err(refusal());
        }
        self.has_written = true;
        self.file.write(&buf[..buf.len().min(1)])
    }

    fn flush(&mut self) -> io::Result<()> {
        self.file.flush()
    }
}

impl Seek for RefusingFile {
    fn seek(&mut self, to: SeekFrom) -> io::Result<u64> {
        self.file.seek(to)
    }
}

impl OpenFile for RefusingFile {
    fn metadata(&self) -> io::Result<Metadata> {
        self.file.metadata()
    }

    fn set_len(&self, size: u64) -> io::Result<()> {
        self.file.set_len(size)
    }

    fn sync_all(&self) -> io::Result<()> {
        if self.refused == Refused::Sync {
            return Err(refusal());
        }
        self.file.sync_all()
    }

    fn sync_data(&self) -> io::Result<()> {
        self.file.sync_data()
    }

    fn set_permissions(&self, perm: Permissions) -> io::Result<()> {
        self.file.set_permissions(perm)
    }
}

impl Alloc for RefusingFiles {
    type A = Global;

    fn alloc(&self) -> Global {
        self.rt.alloc()
    }
}

impl Files for RefusingFiles {
    type File = RefusingFile;

    type Dir = <HostRuntime as Files>::Dir;

    fn open_file(&self, how: &OpenOptions, path: &str) -> io::Result<RefusingFile> {
        if self.refused == Refused::Open && how.asks_create_new() {
            return Err(refusal());
        }
        Ok(RefusingFile {
            file: self.rt.open_file(how, path)?,
            refused: self.refused,
            has_written: false,
        })
    }

    fn open_dir(&self, path: &str) -> io::Result<<HostRuntime as Files>::Dir> {
        self.rt.open_dir(path)
    }

    fn metadata(&self, path: &str) -> io::Result<Metadata> {
        self.rt.metadata(path)
    }

    fn symlink_metadata(&self, path: &str) -> io::Result<Metadata> {
        self.rt.symlink_metadata(path)
    }

    fn copy(&self, from: &str, to: &str) -> io::Result<u64> {
        self.rt.copy(from, to)
    }

    fn rename(&self, from: &str, to: &str) -> io::Result<()> {
        if self.refused == Refused::Rename {
            return Err(refusal());
        }
        self.rt.rename(from, to)
    }

    fn remove_file(&self, path: &str) -> io::Result<()> {
        self.rt.remove_file(path)
    }

    fn create_dir(&self, path: &str) -> io::Result<()> {
        self.rt.create_dir(path)
    }

    fn remove_dir(&self, path: &str) -> io::Result<()> {
        self.rt.remove_dir(path)
    }

    fn remove_dir_all<B: Allocator>(&self, alloc: B, path: &str) -> io::Result<()> {
        self.rt.remove_dir_all(alloc, path)
    }

    fn read_link<B: Allocator>(&self, alloc: B, path: &str) -> io::Result<PathBuf<B>> {
        self.rt.read_link(alloc, path)
    }
}
