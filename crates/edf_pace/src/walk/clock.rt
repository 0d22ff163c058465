//! From which second two files count.

ghost use Rattle.std.specs.Prelude.{◌≡◌, ◌<◌, ◌^◌, neg_ℤ, ◌+ℤ◌, unsigned_abs};
ghost use Rattle.edf_stream.specs.times.Starts.{file_start};
ghost use Rattle.edf_pace.specs.Kept.{shift_ps};

use crate::walk::offset::Offset;
use edf_claim::Claim;
use edf_header::Header;
use edf_stream::file_start_ps;

/// By how much an original and an export are moved, so that both count from the second at which
/// the original starts, before the shift.
#[derive(Clone, Copy)]
pub struct Clock {
    pub original: Offset,
    pub export: Offset,
}

impl Clock {
    /// That of an original with this header, under this claim.
    pub fn new(original: &Header, claim: &Claim) -> Clock
        ensures original { (result.original).ps ≡ neg_ℤ (file_start original.now) }
        ensures export { (result.export).ps ≡ neg_ℤ (file_start original.now +ℤ shift_ps claim.now) }
    {
        let start = file_start_ps(original);
        Clock {
            original: Offset::back_from(start),
            export: Offset::back_from(start + claim.shift_ps()),
        }
    }
}

/// Where a file with this header starts, so many picoseconds later.
pub(crate) fn start_ps_of(header: &Header, by: Offset) -> i128
    requires { unsigned_abs by.ps < 2 ^ 80 }
    ensures value { result ≡ file_start header.now +ℤ by.ps }
    ensures small { unsigned_abs result < 2 ^ 81 }
{
    file_start_ps(header) + by.ps
}
