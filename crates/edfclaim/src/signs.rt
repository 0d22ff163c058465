//! Signs of life: on a terminal, a line that says how much of the files is read.

use edf_fields::{ReadFault, Sink, Source, WriteFault};
use std::cell::Cell;
use std::fmt;
use std::fmt::{Display, Formatter};
use std::fs::OpenFile;
use std::time::{Clock, Instant};

/// Behind how many milliseconds a command shows that it works, and how long each line stands.
const BEFORE_THE_FIRST: u128 = 1_000;

const EACH: u128 = 200;

/// How many bytes are read between two looks at the clock.
const STEP: u64 = 65_536;

/// How many bytes a megabyte has.
const MEGABYTE: u64 = 1_000_000;

/// What wipes the rest of a line behind a shorter one.
const REST: &str = "\u{1b}[K";

/// What wipes the line that stands on a terminal.
const WIPE: &str = "\r\u{1b}[K";

/// How much of the files is read, as it is shown.
#[derive(Clone, Copy)]
struct Line {
    read: u64,
    whole: u64,
}

impl Display for Line {
    fn fmt<W: fmt::Write>(&self, f: &mut Formatter<W>) -> fmt::Result {
        let (read, whole) = (self.read / MEGABYTE, self.whole / MEGABYTE);
        if self.read > self.whole {
            write!(f, "\redfclaim: {read} MB read{REST}")
        } else {
            write!(f, "\redfclaim: {read} of {whole} MB read{REST}")
        }
    }
}

/// What is shown of a command that works, on standard error where that is a terminal, and else nothing.
#[derive(Drop)]
pub struct Signs<'a, R> {
    rt: &'a R,
    /// When the command began; none where nothing is shown.
    begun: Option<Instant>,
    /// How many bytes were read, and how many the files have that were opened.
    read: Cell<u64>,
    whole: Cell<u64>,
    /// How many bytes were read when the clock was looked at.
    looked: Cell<u64>,
    /// From which millisecond on the next line is shown.
    next: Cell<u128>,
    /// Whether a line stands there.
    stands: Cell<bool>,
}

impl<'a, R: Clock + Eprint> Signs<'a, R> {
    /// Those of a command that begins now.
    pub fn new(rt: &'a R, is_terminal: bool) -> Signs<'a, R> {
        let begun = if is_terminal {
            Instant::now(rt).ok()
        } else {
            None
        };
        Signs {
            rt,
            begun,
            read: Cell::new(0),
            whole: Cell::new(0),
            looked: Cell::new(0),
            next: Cell::new(BEFORE_THE_FIRST),
            stands: Cell::new(false),
        }
    }

    /// What the command runs on.
    pub fn rt(&self) -> &'a R {
        self.rt
    }

    /// Takes in that a file was opened. One whose length isn't known has none.
    pub fn opened<F: OpenFile>(&self, file: &F) {
        if self.begun.is_some()
            && let Ok(metadata) = file.metadata()
        {
            self.whole
                .set(self.whole.get().saturating_add(metadata.len()));
        }
    }

    /// Takes in that so many bytes were read.
    fn count(&self, bytes: usize) {
        let Some(begun) = self.begun else {
            return;
        };
        let read = self.read.get().saturating_add(bytes as u64);
        self.read.set(read);
        if read.saturating_sub(self.looked.get()) < STEP {
            return;
        }
        self.looked.set(read);
        if let Ok(since) = begun.elapsed(self.rt) {
            self.show(since.as_millis());
        }
    }

    /// Shows how much is read, where the command works as long.
    fn show(&self, milliseconds: u128) {
        if milliseconds < self.next.get() {
            return;
        }
        self.next.set(milliseconds.saturating_add(EACH));
        let line = Line {
            read: self.read.get(),
            whole: self.whole.get(),
        };
        self.stands.set(true);
        let _ = self.rt.eprint(line);
    }

    /// Wipes the line, where one stands.
    pub fn wipe(&self) {
        if self.stands.get() {
            self.stands.set(false);
            let _ = self.rt.eprint(WIPE);
        }
    }
}

/// A source over another, of which it is shown how much is read.
///
/// It gives what the other one gives, and is honest where that is.
#[derive(Drop)]
pub struct Watched<'a, R, S: Drop> {
    inner: S,
    signs: &'a Signs<'a, R>,
}

impl<'a, R: Clock + Eprint, S: Source + Drop> Watched<'a, R, S> {
    /// A source that gives what `inner` gives.
    pub fn new(inner: S, signs: &'a Signs<'a, R>) -> Watched<'a, R, S> {
        Watched { inner, signs }
    }
}

impl<'a, R: Clock + Eprint, S: Source + Drop> Source for Watched<'a, R, S> {
    ghost left = { λ s. S.left s.inner };

    ghost reads = { λ s. S.reads s.inner };

    ghost is_honest = { λ s. S.is_honest s.inner };

    fn read(&mut self, buf: &mut [u8]) -> Result<usize, ReadFault> {
        match self.inner.read(buf) {
            Ok(count) => {
                self.signs.count(count);
                Ok(count)
            }
            Err(fault) => Err(fault),
        }
    }
}

/// A sink over another, before whose writes the line is wiped.
///
/// It takes what the other one takes, and is honest where that is.
#[derive(Drop)]
pub struct Wiped<'a, R, K: Drop> {
    pub inner: K,
    signs: &'a Signs<'a, R>,
}

impl<'a, R: Clock + Eprint, K: Sink + Drop> Wiped<'a, R, K> {
    /// A sink that takes what `inner` takes.
    pub fn new(inner: K, signs: &'a Signs<'a, R>) -> Wiped<'a, R, K> {
        Wiped { inner, signs }
    }
}

impl<'a, R: Clock + Eprint, K: Sink + Drop> Sink for Wiped<'a, R, K> {
    ghost held = { λ s. K.held s.inner };

    ghost failures = { λ s. K.failures s.inner };

    ghost is_honest = { λ s. K.is_honest s.inner };

    fn write(&mut self, bytes: &[u8]) -> Result<usize, WriteFault> {
        self.signs.wipe();
        self.inner.write(bytes)
    }
}
