//! How the work of a command ends.
use crate::status::Status;

/// A status with its text, and the file that is to be stored.
#[derive(Drop)]
pub struct Ending<'a> {
    pub status: Status,
    pub text: Vec<u8>,
    pub stored: Option<Stored<'a>>,
}

/// A file that is to be stored.
#[derive(Drop)]
pub struct Stored<'a> {
    pub name: &'a str,
    pub bytes: Vec<u8>,
}
