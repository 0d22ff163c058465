//! A channel that both files have, and which of its samples aren't as claimed.

ghost use Rattle.std.specs.Prelude.{◌≡◌, ◌*◌, ◌-◌, not};
ghost use Rattle.std.specs.Ordering.{int_eq};
ghost use Rattle.edf_findings.specs.Exports.{is_clean};
ghost use Rattle.edf_findings.specs.Told.{AreThose, IsTold, floor_of, samples_last, spot_of, values_in};

use edf_header::Header;
use edf_pace::{ChannelCount, Counted, FoundIn, PointDifference, RecordsAt, Track};
use edf_verdict::SampleMismatch;

/// A sample that isn't as claimed.
#[derive(Clone, Copy)]
pub struct Spot {
    /// How it differs, and when it was taken, after the second at which the original starts.
    pub difference: PointDifference,
    /// The data record of the original in which this time lies, counted from 0, if it lies in one.
    pub original_record: Option<u32>,
    /// The same of the export.
    pub export_record: Option<u32>,
}

/// The time of a difference in picoseconds after the second at which the original starts, rounded down.
fn floor(difference: PointDifference) -> i128
    ensures { result ≡ floor_of difference.at }
{
    let instant = difference.at;
    instant
        .num
        .checked_div_euclid(i128::from(instant.den))
        .unwrap_or(0)
}

impl Spot {
    /// That of a difference that lies in these data records.
    fn of(difference: PointDifference, records: Option<RecordsAt>) -> Spot
        ensures { result ≡ spot_of records difference }
    {
        match records {
            Some(records) => Spot {
                difference,
                original_record: records.original,
                export_record: records.export,
            },
            None => Spot {
                difference,
                original_record: None,
                export_record: None,
            },
        }
    }

    /// When it was taken, in picoseconds after the second at which the original starts, rounded down.
    pub fn at_ps(self) -> i128
        ensures { result ≡ floor_of (self.difference).at }
    {
        floor(self.difference)
    }

    /// The values of the original and the export, where both have one.
    pub fn values(self) -> Option<(i16, i16)>
        ensures { result ≡ values_in (self.difference).mismatch }
    {
        match self.difference.mismatch {
            SampleMismatch::Value(kept, exported) => Some((kept, exported)),
            SampleMismatch::Missing | SampleMismatch::Extra => None,
        }
    }
}

/// Samples of one kind: how many, the first and the last.
#[derive(Clone, Copy)]
pub struct Samples {
    pub count: u64,
    pub ends: Option<(Spot, Spot)>,
}

impl Samples {
    /// Those that were counted, of which the first and the last lie in these data records.
    fn of(counted: Counted, found: FoundIn) -> Samples
        ensures { AreThose found counted result }
    {
        let count = counted.count;
        match (counted.first, counted.last) {
            (Some(first), Some(last)) => {
                let ends = (Spot::of(first, found.first), Spot::of(last, found.last));
                Samples {
                    count,
                    ends: Some(ends),
                }
            }
            _ => Samples { count, ends: None },
        }
    }
}

/// A claimed channel that both files have, and which of its samples aren't as claimed.
#[derive(Clone, Copy)]
pub struct ComparedChannel {
    /// Which of the labels of the claim it has.
    pub place: usize,
    /// Whether it has another number of samples a second in the export.
    pub has_other_rate: bool,
    /// How many samples of both are taken at the same times.
    pub compared: u64,
    /// Samples that are kept, and that the export lacks.
    pub missing: Samples,
    /// Samples of the export that aren't kept.
    pub extra: Samples,
    /// Samples that have another value in the export.
    pub changed: Samples,
}

/// Whether a channel has another number of samples a second in the export than in the original.
fn has_other_rate(headers: (&Header, &Header), tracks: (Track, Track)) -> bool
    ensures { result ≡ not (int_eq (samples_last (headers.entry.0).now.duration ((tracks.1).place).samples)
        (samples_last (headers.entry.1).now.duration ((tracks.0).place).samples)) }
{
    let (original, export) = headers;
    let (here, there) = tracks;
    let step = original
        .duration_ps()
        .saturating_mul(i128::from(there.place.samples));
    let other_step = export
        .duration_ps()
        .saturating_mul(i128::from(here.place.samples));
    step != other_step
}

/// How many samples of the export are taken at the times of kept ones: those of it that aren't extra.
fn compared_in(export: &Header, there: Track, extra: u64) -> u64
    ensures { result ≡ export.now.records * (there.place).samples - extra }
{
    let exported = u64::from(export.records()).saturating_mul(u64::from(there.place.samples));
    exported.saturating_sub(extra)
}

impl ComparedChannel {
    /// The channel of the label with this place in the claim, which stands there in both files, with what was counted of it.
    pub(crate) fn of(
        place: usize,
        tracks: (Track, Track),
        count: &ChannelCount,
        headers: (&Header, &Header),
    ) -> ComparedChannel
        ensures place { result.place ≡ place }
        ensures rate { result.has_other_rate ≡
            not (int_eq (samples_last (headers.entry.0).now.duration ((tracks.1).place).samples)
            (samples_last (headers.entry.1).now.duration ((tracks.0).place).samples)) }
        ensures compared { result.compared ≡
            (headers.entry.1).now.records * ((tracks.1).place).samples - ((count.now.tally).extra).count }
        ensures told { IsTold count.now result }
    {
        let tally = count.tally;
        ComparedChannel {
            place,
            has_other_rate: has_other_rate(headers, tracks),
            compared: compared_in(headers.1, tracks.1, tally.extra.count),
            missing: Samples::of(tally.missing, count.missing),
            extra: Samples::of(tally.extra, count.extra),
            changed: Samples::of(tally.changed, count.changed),
        }
    }

    /// Whether nothing was found.
    pub fn is_as_claimed(&self) -> bool
        ensures { result ≡ is_clean self.now }
    {
        self.missing.count == 0 && self.extra.count == 0 && self.changed.count == 0
    }
}
