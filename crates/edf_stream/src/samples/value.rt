//! The digital values of a lane. EDF (1992), "Data record".

ghost use Rattle.std.specs.Prelude.{◌≡◌, ◌+◌, ◌*◌, ◌<◌, length};
ghost use Rattle.edf_stream.specs.samples.Values.{digital_value};

use byteorder::{ByteOrder, LittleEndian};

/// The digital value of the sample at a place of a lane, which are the bytes of one signal in one data
/// record: two bytes, the low one first, in two's complement. The first sample's place is 0.
///
/// It is asked for a place that the lane has.
pub fn value_at(lane: &[u8], place: usize) -> i16
    requires { 2 * place + 1 < length lane.now }
    ensures { result ≡ digital_value lane.now place }
{
    LittleEndian::read_i16(&lane[2 * place..])
}
