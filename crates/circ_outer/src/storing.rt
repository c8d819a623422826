//! How a real file is stored: whole, or what was there stays.
//!
//! The bytes go to a new file beside the target, which is synced and then renamed over it. What is
//! there and is no regular file, as a pipe or a terminal, is written in place. So is a file that a
//! link below `/proc` leads to, as `/dev/stdout` does: it is one that a process has open, and a
//! file in its place would not reach that process.
use std::fs::{self, Metadata, OpenFile, OpenOptions};
use std::io::{self, ErrorKind, Write};
use std::os::unix::fs::{MetadataExt, chown};
use std::path::{Path, PathBuf};
use std::rt::Files;

/// As many links as the system follows in one name.
const MOST_LINKS: u32 = 40;

/// As many names as are tried for the new file.
const MOST_NAMES: u32 = 65_536;

/// Stores the bytes under a name. After a fault what is there is as before, unless it is written in
/// place.
pub fn store<R: Files + AllocGlobal>(rt: &R, name: &str, bytes: &[u8]) -> io::Result<()> {
    // Opened as it will be written, so that who may not write the file does not replace it.
    match OpenOptions::new().append(true).open(rt, name) {
        Ok(mut file) => {
            let metadata = file.metadata()?;
            if !metadata.is_file() {
                return file.write_all(bytes);
            }
            match behind_links(rt, name)? {
                Some(target) => replace(rt, target.as_path(), Some(&metadata), bytes),
                None => file.write_all(bytes),
            }
        }
        Err(error) if error.kind() == ErrorKind::NotFound => match behind_links(rt, name)? {
            Some(target) => replace(rt, target.as_path(), None, bytes),
            None => Err(error),
        },
        Err(error) => Err(error),
    }
}

/// The path that the links of a name lead to, unless they lead below `/proc`.
fn behind_links<R: Files + AllocGlobal>(rt: &R, name: &str) -> io::Result<Option<PathBuf>> {
    let mut path = PathBuf::from_str(rt.alloc(), name)?;
    for _ in 0..MOST_LINKS {
        if path.starts_with("/proc") {
            return Ok(None);
        }
        if !is_link(rt, path.as_path())? {
            return Ok(Some(path));
        }
        let link = fs::read_link(rt, path.as_path())?;
        path.pop();
        path.push(link.as_path())?;
    }
    Err(io::Error::from(ErrorKind::FilesystemLoop))
}

fn is_link<R: Files>(rt: &R, path: Path<'_>) -> io::Result<bool> {
    match fs::symlink_metadata(rt, path) {
        Ok(metadata) => Ok(metadata.is_symlink()),
        Err(error) if error.kind() == ErrorKind::NotFound => Ok(false),
        Err(error) => Err(error),
    }
}

/// Puts a new file of these bytes in the place of the target, of which the old metadata is given
/// where it is there.
fn replace<R: Files + AllocGlobal>(
    rt: &R,
    target: Path<'_>,
    old: Option<&Metadata>,
    bytes: &[u8],
) -> io::Result<()> {
    let (path, mut file) = new_file_beside(rt, target)?;
    let done = match fill(rt, path.as_path(), &mut file, old, bytes) {
        Ok(()) => fs::rename(rt, path.as_path(), target),
        Err(error) => Err(error),
    };
    if done.is_err() {
        let _ = fs::remove_file(rt, path.as_path());
    }
    done
}

/// A file that was not there, in the folder of the target, and its path.
fn new_file_beside<R: Files + AllocGlobal>(
    rt: &R,
    target: Path<'_>,
) -> io::Result<(PathBuf, R::File)> {
    let mut options = OpenOptions::new();
    options.write(true).create_new(true);
    for number in 0..MOST_NAMES {
        let name = format!(in rt.alloc(); ".circ-new-{number}")?;
        let path = target.with_file_name(rt.alloc(), name.as_str())?;
        match options.open(rt, path.as_path()) {
            Ok(file) => return Ok((path, file)),
            Err(error) if error.kind() == ErrorKind::AlreadyExists => {}
            Err(error) => return Err(error),
        }
    }
    Err(io::Error::from(ErrorKind::AlreadyExists))
}

/// Gives a new file its bytes, and the owner and the permissions of the file that it replaces.
fn fill<R: Files>(
    rt: &R,
    path: Path<'_>,
    file: &mut R::File,
    old: Option<&Metadata>,
    bytes: &[u8],
) -> io::Result<()> {
    file.write_all(bytes)?;
    if let Some(old) = old {
        let new = file.metadata()?;
        if new.uid() != old.uid() || new.gid() != old.gid() {
            chown(rt, path, Some(old.uid()), Some(old.gid()))?;
        }
        file.set_permissions(old.permissions())?;
    }
    file.sync_all()
}
