//! When an annotation begins and how long it lasts, in words.

ghost use Rattle.std.specs.Prelude.{Some};
ghost use Rattle.edf_verdict.specs.NoteTimes.{duration_text, note_times};

use std::fmt;

/// When an annotation begins, and its duration, where it has one; in picoseconds.
#[derive(Debug, Clone, Copy, PartialEq, Eq)]
pub struct NoteTimes {
    /// The onset.
    pub onset: i128,
    /// The duration.
    pub duration: Option<i128>,
}

/// A duration in picoseconds, where there is one.
#[derive(Clone, Copy)]
struct Duration {
    ps: Option<i128>,
}

impl fmt::Display for Duration {
    ghost output = { λ duration. Some (duration_text duration.ps) };

    fn fmt<W: fmt::Write>(&self, f: &mut fmt::Formatter<W>) -> fmt::Result {
        match self.ps {
            None => write!(f, "none"),
            Some(ps) => write!(f, "{ps} ps"),
        }
    }
}

impl fmt::Display for NoteTimes {
    ghost output = { λ times. Some (note_times times.onset times.duration) };

    #[tactic(auto, unfolding(crate::specs::NoteTimes::note_times))]
    fn fmt<W: fmt::Write>(&self, f: &mut fmt::Formatter<W>) -> fmt::Result {
        let duration = Duration { ps: self.duration };
        write!(f, "{} ps duration {}", self.onset, duration)
    }
}
