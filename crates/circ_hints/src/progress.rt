//! A shelf that tells on a terminal how much of a file was taken.
use circ_outer::{OuterFault, Shelf};
use std::fs;
use std::os::unix::fs::{FileTypeExt, MetadataExt};
use std::rt::Files;
use std::time::{Clock, Duration, Instant};

/// So many seconds pass before something is told, and told again.
const PAUSE: u64 = 1;

/// What standard error is.
const STANDARD_ERROR: &str = "/proc/self/fd/2";

/// The line that tells how much of the begun file was taken.
#[derive(Drop)]
struct Line<R: Clock + Eprint + AllocGlobal + Drop> {
    rt: R,
    is_told: bool,
    name: String,
    bytes: u64,
    /// When the file was begun, or the line was told last.
    told: Option<Instant>,
    is_shown: bool,
}

/// A shelf that hands everything on to another one. If standard error is a terminal, a line there
/// tells each second the file that is taken, and how many bytes of it.
#[derive(Drop)]
pub struct Progress<S: Shelf + Drop, R: Clock + Eprint + AllocGlobal + Drop> {
    inner: S,
    line: Line<R>,
}

impl<S: Shelf + Drop, R: Files + Clock + Eprint + AllocGlobal + Drop> Progress<S, R> {
    /// Over a shelf.
    pub fn new(inner: S, rt: R) -> Progress<S, R> {
        let line = Line {
            is_told: is_terminal(&rt),
            name: String::new(rt.alloc()),
            rt,
            bytes: 0,
            told: None,
            is_shown: false,
        };
        Progress { inner, line }
    }
}

/// Whether standard error is a terminal.
fn is_terminal(files: &impl Files) -> bool {
    match fs::metadata(files, STANDARD_ERROR) {
        Ok(metadata) => {
            metadata.file_type().is_char_device() && is_of_terminals(metadata.rdev() >> 8)
        }
        Err(_) => false,
    }
}

/// Whether terminals have this number of Linux's drivers.
fn is_of_terminals(driver: u64) -> bool {
    driver == 4 || driver == 5 || (136 <= driver && driver <= 143)
}

impl<R: Clock + Eprint + AllocGlobal + Drop> Line<R> {
    /// A file is begun.
    fn start(&mut self, name: &str) {
        self.clear();
        self.name.clear();
        let _ = self.name.push_str(name);
        self.bytes = 0;
        self.told = Instant::now(&self.rt).ok();
    }

    /// So many bytes more were taken; the file is at its end if there are none.
    fn add(&mut self, count: usize) {
        self.bytes = self.bytes.saturating_add(count as u64);
        if count == 0 {
            self.clear();
            return;
        }
        let Some(told) = self.told else {
            return;
        };
        match Instant::now(&self.rt) {
            Ok(now) if now.duration_since(told) >= Duration::from_secs(PAUSE) => {
                self.told = Some(now);
                self.show();
            }
            _ => {}
        }
    }

    fn show(&mut self) {
        self.is_shown = true;
        let name = self.name.as_str();
        let bytes = self.bytes;
        let _ = eprint!(self.rt; "\rcirc: {name}: {bytes} bytes");
    }

    /// Takes the line away.
    fn clear(&mut self) {
        if self.is_shown {
            self.is_shown = false;
            let _ = eprint!(self.rt; "\r\x1b[K");
        }
    }
}

impl<S: Shelf + Drop, R: Clock + Eprint + AllocGlobal + Drop> Progress<S, R> {
    /// The shelf.
    pub fn inner(&self) -> &S {
        &self.inner
    }

    /// Takes the line away, for what is told next.
    pub fn clear(&mut self) {
        self.line.clear();
    }
}

impl<S: Shelf + Drop, R: Clock + Eprint + AllocGlobal + Drop> Shelf for Progress<S, R> {
    ghost state = { λ p. S.state p.inner };

    fn begin(&mut self, name: &str) -> Result<(), OuterFault> {
        if self.line.is_told {
            self.line.start(name);
        }
        self.inner.begin(name)
    }

    fn piece(&mut self, buf: &mut [u8]) -> Result<usize, OuterFault> {
        let count = self.inner.piece(buf)?;
        if self.line.is_told {
            self.line.add(count);
        }
        Ok(count)
    }

    fn put(&mut self, name: &str, bytes: &[u8]) -> Result<(), OuterFault> {
        self.inner.put(name, bytes)
    }

    fn faults(&self) -> u64 {
        self.inner.faults()
    }
}
