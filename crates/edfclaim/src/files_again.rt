//! The recordings of a command, which are opened as often as they are read.

ghost use Rattle.std.specs.Prelude.{[], ◌<◌, ◌≤◌, length, false};

use crate::files::{recordings, watched};
use crate::signs::{Signs, Watched};
use edf_fields::ReadSource;
use edf_refusal::{Refusal, Role};
use edf_stop::{CheckStop, PartSide, PartsStop, Side};
use edf_trial::{PartsRecordings, Recordings};
use std::alloc::Global;
use std::io::BufReader;
use std::rt::Files;
use std::time::Clock;

/// An original and its export, by their paths.
#[derive(Drop)]
pub struct FilesAgain<'a, R> {
    signs: &'a Signs<'a, R>,
    original: &'a str,
    export: &'a str,
}

/// Opens a recording once more. One that can't be opened any more is one that can't be read.
fn open_again<'a, R: Files + Eprint + Clock + AllocGlobal>(
    signs: &'a Signs<'a, R>,
    path: &str,
    side: Side,
) -> Result<Watched<'a, R, ReadSource<BufReader<R::File>>>, CheckStop> {
    let role = match side {
        Side::Original => Role::Original,
        Side::Export => Role::Export,
    };
    match watched(signs, path, role) {
        Ok(source) => Ok(source),
        Err(Refusal::Memory) => Err(CheckStop::OutOfMemory),
        Err(_) => Err(CheckStop::ReadFailed(side)),
    }
}

impl<'a, R: Files + Eprint + Clock + AllocGlobal> FilesAgain<'a, R> {
    /// The recordings at these paths.
    pub fn new(signs: &'a Signs<'a, R>, original: &'a str, export: &'a str) -> FilesAgain<'a, R> {
        FilesAgain {
            signs,
            original,
            export,
        }
    }
}

impl<'a, R: Files + Eprint + Clock + AllocGlobal> Recordings for FilesAgain<'a, R> {
    type Original = Watched<'a, R, ReadSource<BufReader<R::File>>>;

    type Export = Watched<'a, R, ReadSource<BufReader<R::File>>>;

    ghost original = { λ _. [] };

    ghost export = { λ _. [] };

    ghost are_honest = { λ _. false };

    fn open_original(&self) -> Result<Watched<'a, R, ReadSource<BufReader<R::File>>>, CheckStop> {
        open_again(self.signs, self.original, Side::Original)
    }

    fn open_export(&self) -> Result<Watched<'a, R, ReadSource<BufReader<R::File>>>, CheckStop> {
        open_again(self.signs, self.export, Side::Export)
    }
}

/// An original and its exports, by their paths.
#[derive(Drop)]
pub struct PartsAgain<'a, R> {
    signs: &'a Signs<'a, R>,
    original: &'a str,
    exports: &'a [&'a str],
    ghost some: { 0 < length exports.now },
    ghost few: { length exports.now ≤ 64 },
}

impl<'a, R: Files + Eprint + Clock + AllocGlobal> PartsAgain<'a, R> {
    /// The recordings at these paths.
    pub fn new(
        signs: &'a Signs<'a, R>,
        original: &'a str,
        exports: &'a [&'a str],
    ) -> PartsAgain<'a, R>
        requires some { 0 < length exports.now }
        requires few { length exports.now ≤ 64 }
    {
        PartsAgain {
            signs,
            original,
            exports,
        }
    }
}

impl<'a, R: Files + Eprint + Clock + AllocGlobal> PartsRecordings for PartsAgain<'a, R> {
    type Original = Watched<'a, R, ReadSource<BufReader<R::File>>>;

    type Export = Watched<'a, R, ReadSource<BufReader<R::File>>>;

    ghost original = { λ _. [] };

    ghost exports = { λ _. [] };

    ghost are_honest = { λ _. false };

    fn open_original(&self) -> Result<Watched<'a, R, ReadSource<BufReader<R::File>>>, PartsStop> {
        match watched(self.signs, self.original, Role::Original) {
            Ok(source) => Ok(source),
            Err(Refusal::Memory) => Err(PartsStop::OutOfMemory),
            Err(_) => Err(PartsStop::ReadFailed(PartSide::Original)),
        }
    }

    fn open_exports(
        &self,
        _alloc: Global,
    ) -> Result<Vec<Watched<'a, R, ReadSource<BufReader<R::File>>>>, PartsStop> {
        match recordings(self.signs, self.exports, Role::Export) {
            Ok(sources) => Ok(sources),
            Err(Refusal::Memory) => Err(PartsStop::OutOfMemory),
            Err(_) => Err(PartsStop::ReadFailed(PartSide::Part(0))),
        }
    }
}
