//! The calibrations of the channels.

ghost use Rattle.std.specs.Prelude.{◌≡◌};
ghost use Rattle.edf_heads.specs.Comparisons.{has_other_calibration};

use edf_header::Signal;

/// Whether two channels have another dimension, or another line from digital to physical values (EDF, "Header record":
/// physical dimension, physical and digital extremes).
#[tactic(auto, using(crate::proofs::ContentFacts::line_tested))]
pub fn has_other_calibration(original: &Signal, export: &Signal) -> bool
    ensures { result ≡ has_other_calibration original.now export.now }
{
    original.dimension() != export.dimension()
        || !original.calibration().same_line(export.calibration())
}
