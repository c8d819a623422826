//! Why a file was not read.
use std::fs;
use std::io::ErrorKind;
use std::rt::Files;

/// What is wrong with the file of a name, if that is seen: it is opened only if it is a regular
/// one.
pub fn why_unread<R: Files>(rt: &R, name: &str) -> Option<&'static str> {
    match fs::metadata(rt, name) {
        Err(error) if error.kind() == ErrorKind::NotFound => {
            Some("there is no file of this name, seen from this folder")
        }
        Err(error) if error.kind() == ErrorKind::PermissionDenied => {
            Some("a folder on the way to this file may not be entered")
        }
        Ok(metadata) if metadata.is_dir() => Some("this is a folder"),
        Ok(metadata) if metadata.is_file() => why_unopened(rt, name),
        _ => None,
    }
}

fn why_unopened<R: Files>(rt: &R, name: &str) -> Option<&'static str> {
    match fs::open(rt, name) {
        Err(error) if error.kind() == ErrorKind::PermissionDenied => {
            Some("this file may not be read")
        }
        _ => None,
    }
}
