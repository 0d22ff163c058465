//! The line from digital to physical values of a signal.

ghost use Rattle.std.specs.Prelude.{◌≡◌, ◌≢◌, ◌↔◌, ◌<◌, ◌^◌, ◌*ℤ◌, ◌<ℤ◌, pos, unsigned_abs, IsTrue};
ghost use Rattle.edf_header.specs.signals.CalibrationLaws.{IsCalibration};
ghost use Rattle.edf_header.specs.signals.Calibrations.{SameLine, physical_span as physical_span_of, digital_span as digital_span_of, offset_times_span};

use std::marker::Model;

/// The extremes of a signal and with them the line from its digital to its physical values:
/// `pmin + (v - dmin) * (pmax - pmin) / (dmax - dmin)` for the digital value `v` (EDF, "Header
/// record": digital and physical minimum and maximum).
///
/// The digital minimum is below the digital maximum. The physical extremes, in units of 10^-7 of the
/// signal's dimension, differ in either order, so the gain may be negative.
#[derive(Debug, Clone, Copy)]
pub struct Calibration {
    physical_minimum: i64,
    physical_maximum: i64,
    digital_minimum: i16,
    digital_maximum: i16,
}

impl Model for Calibration {
    ghost use Rattle.edf_header.specs.signals.CalibrationLaws.{IsCalibration};
    ghost use Rattle.edf_header.specs.signals.Calibrations.{CalibrationValue};

    ghost Value = { CalibrationValue };

    ghost view = { λ c. record {
      physical_minimum = c.physical_minimum;
      physical_maximum = c.physical_maximum;
      digital_minimum = c.digital_minimum;
      digital_maximum = c.digital_maximum;
    } };

    ghost invariant = { λ c. IsCalibration (record {
      physical_minimum = c.physical_minimum;
      physical_maximum = c.physical_maximum;
      digital_minimum = c.digital_minimum;
      digital_maximum = c.digital_maximum;
    }) };

    ghost inverse = { λ l. record {
      physical_minimum = l.physical_minimum;
      physical_maximum = l.physical_maximum;
      digital_minimum = l.digital_minimum;
      digital_maximum = l.digital_maximum;
    } };
}

/// The product of a digital value and a physical span.
#[tactic(auto, using(crate::proofs::signals::ProductFacts::product_fits, crate::proofs::signals::ProductFacts::product_is, crate::proofs::signals::ProductFacts::product_small))]
fn product(digital: i16, span: i128) -> i128
    requires span { unsigned_abs span < 2 ^ 52 }
    ensures value { result ≡ digital *ℤ span }
    ensures small { unsigned_abs result < 2 ^ 69 }
{
    i128::from(digital) * span
}

/// The product of a physical extreme and the digital span.
fn scaled(physical: i64, span: u32) -> i128
    requires physical { unsigned_abs physical < 2 ^ 50 }
    requires span { span < 2 ^ 17 }
    ensures value { result ≡ physical *ℤ pos span }
    ensures small { unsigned_abs result < 2 ^ 67 }
{
    i128::from(physical) * i128::from(span)
}

/// The product of a numerator and the other line's digital span.
fn cross(numerator: i128, span: u32) -> i128
    requires numerator { unsigned_abs numerator < 2 ^ 70 }
    requires span { span < 2 ^ 17 }
    ensures { result ≡ numerator *ℤ pos span }
{
    numerator * i128::from(span)
}

impl Calibration {
    /// The line of these extremes: physical ones in units of 10^-7 of the signal's dimension.
    pub(crate) fn new(
        physical_minimum: i64,
        physical_maximum: i64,
        digital_minimum: i16,
        digital_maximum: i16,
    ) -> Calibration
        requires physical_minimum { unsigned_abs physical_minimum < 10 ^ 15 }
        requires physical_maximum { unsigned_abs physical_maximum < 10 ^ 15 }
        requires differ { physical_minimum ≢ physical_maximum }
        requires order { digital_minimum <ℤ digital_maximum }
        ensures { result ≡ record {
          physical_minimum = physical_minimum;
          physical_maximum = physical_maximum;
          digital_minimum = digital_minimum;
          digital_maximum = digital_maximum;
        } }
    {
        Calibration {
            physical_minimum,
            physical_maximum,
            digital_minimum,
            digital_maximum,
        }
    }

    /// The physical minimum and the physical maximum, in units of 10^-7 of the signal's dimension (EDF,
    /// "Header record").
    pub fn physical(&self) -> (i64, i64)
        ensures minimum { result.0 ≡ self.now.physical_minimum }
        ensures maximum { result.1 ≡ self.now.physical_maximum }
        ensures sound { IsCalibration self.now }
    {
        (self.physical_minimum, self.physical_maximum)
    }

    /// The digital minimum and the digital maximum (EDF, "Header record").
    pub fn digital(&self) -> (i16, i16)
        ensures minimum { result.0 ≡ self.now.digital_minimum }
        ensures maximum { result.1 ≡ self.now.digital_maximum }
        ensures sound { IsCalibration self.now }
    {
        (self.digital_minimum, self.digital_maximum)
    }

    /// Whether both are given by the same extremes.
    pub(crate) fn has_extremes_of(&self, other: &Calibration) -> bool
        ensures { IsTrue result ↔ (self.now ≡ other.now) }
    {
        self.physical_minimum == other.physical_minimum
            && self.physical_maximum == other.physical_maximum
            && self.digital_minimum == other.digital_minimum
            && self.digital_maximum == other.digital_maximum
    }

    /// The physical maximum less the physical minimum, in units of 10^-7.
    fn physical_span(&self) -> i128
        ensures value { result ≡ physical_span_of self.now }
        ensures small { unsigned_abs result < 2 ^ 52 }
    {
        i128::from(self.physical_maximum) - i128::from(self.physical_minimum)
    }

    /// The digital maximum less the digital minimum.
    fn digital_span(&self) -> u32
        ensures value { pos result ≡ digital_span_of self.now }
        ensures small { result < 2 ^ 17 }
    {
        (i32::from(self.digital_maximum) - i32::from(self.digital_minimum)) as u32
    }

    /// The physical minimum times the digital span.
    fn minimum_times_span(&self) -> i128
        ensures value { result ≡ self.now.physical_minimum *ℤ digital_span_of self.now }
        ensures small { unsigned_abs result < 2 ^ 67 }
    {
        scaled(self.physical_minimum, self.digital_span())
    }

    /// The digital minimum times the physical span.
    fn span_times_minimum(&self) -> i128
        ensures value { result ≡ self.now.digital_minimum *ℤ physical_span_of self.now }
        ensures small { unsigned_abs result < 2 ^ 69 }
    {
        product(self.digital_minimum, self.physical_span())
    }

    /// The physical value of the digital value 0, in units of 10^-7, times the digital span.
    fn offset_times_span(&self) -> i128
        ensures value { result ≡ offset_times_span self.now }
        ensures small { unsigned_abs result < 2 ^ 70 }
    {
        self.minimum_times_span() - self.span_times_minimum()
    }

    /// The physical span times the other line's digital span.
    fn span_over(&self, other: &Calibration) -> i128
        ensures { result ≡ physical_span_of self.now *ℤ digital_span_of other.now }
    {
        cross(self.physical_span(), other.digital_span())
    }

    /// The physical value of the digital value 0 times both digital spans.
    fn offset_over(&self, other: &Calibration) -> i128
        ensures { result ≡ offset_times_span self.now *ℤ digital_span_of other.now }
    {
        cross(self.offset_times_span(), other.digital_span())
    }

    /// Whether both are one line: each digital value has the same physical one, to the last digit.
    /// The extremes by which they are given may be others (EDF, "Header record": the extremes say the
    /// line; that each way to say it counts as the same is this project's profile).
    pub fn same_line(&self, other: &Calibration) -> bool
        ensures { IsTrue result ↔ SameLine self.now other.now }
    {
        self.span_over(other) == other.span_over(self)
            && self.offset_over(other) == other.offset_over(self)
    }
}
