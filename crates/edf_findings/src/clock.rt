//! When a file starts.

ghost use Rattle.std.specs.Prelude.{◌≡◌, ◌<◌, ◌^◌, ◌*◌, unsigned_abs};
ghost use Rattle.edf_stream.specs.times.Starts.{file_start};

use edf_header::Header;
use edf_stream::file_start_ps;

/// The second at which a file starts, in picoseconds after 1970-01-01 00:00:00.
pub fn start_of(header: &Header) -> i128
    ensures value { result ≡ file_start header.now }
    ensures small { unsigned_abs result < 2 ^ 39 * 10 ^ 12 }
{
    file_start_ps(header)
}
