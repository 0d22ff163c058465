//! From when to when a data record lasts, or several.

ghost use Rattle.std.specs.Prelude.{◌≡◌, ◌&&◌, int_le, int_lt};
ghost use Rattle.edf_findings.specs.Times.{joined};

/// From when to when a data record lasts, or several from the begin of the first to the end of the last, in picoseconds after the second
/// at which the original starts.
#[derive(Clone, Copy)]
pub(crate) struct RecordTime {
    pub(crate) from_ps: i128,
    pub(crate) to_ps: i128,
}

impl RecordTime {
    /// The time of this data record and those in front of it, if there are any.
    pub(crate) fn behind(self, front: Option<RecordTime>) -> RecordTime
        ensures { result ≡ joined front self }
    {
        RecordTime {
            from_ps: match front {
                Some(front) => front.from_ps,
                None => self.from_ps,
            },
            to_ps: self.to_ps,
        }
    }

    /// Whether it has begun at a time, and isn't over.
    pub(crate) fn has(self, at_ps: i128) -> bool
        ensures { result ≡ (int_le self.from_ps at_ps && int_lt at_ps self.to_ps) }
    {
        self.from_ps <= at_ps && at_ps < self.to_ps
    }

    /// When the first of so many samples is taken that is taken at a time or later, rounded down. Sample `i` of `n` in a data
    /// record that lasts `d` is taken `i * d / n` behind its begin.
    pub(crate) fn first_since(self, samples: u32, at_ps: i128) -> Option<i128> {
        let samples = i128::from(samples);
        let duration_ps = self.to_ps.saturating_sub(self.from_ps);
        let gap_ps = at_ps.saturating_sub(self.from_ps).max(0);
        let number = gap_ps
            .saturating_mul(samples)
            .saturating_add(duration_ps.saturating_sub(1))
            .checked_div_euclid(duration_ps)?;
        if number >= samples {
            return None;
        }
        let behind_ps = duration_ps
            .saturating_mul(number)
            .checked_div_euclid(samples)?;
        Some(self.from_ps.saturating_add(behind_ps))
    }
}
