//! Where the channels of two files lie in their data records. EDF (1992), "Data record".

ghost use Rattle.std.specs.Prelude.{◌≡◌, ◌<◌, ◌+◌, ◌*◌, IfSome, IsTrue, take};
ghost use Rattle.std.specs.List.{All};
ghost use Rattle.std.specs.Ordering.{int_eq};
ghost use Rattle.edf_stream.specs.records.Readers.{is_current};
ghost use Rattle.edf_pace.specs.walk.Pairs.{AreLaidAlike, AreLanesAlike, AreRecordsAlike, are_together as begin_together, IsTrack, ArePairs};

use crate::walk::clock::Clock;
use crate::walk::offset::Offset;
use crate::walk::reading::{begin_ps_of, end_ps_of};
use crate::walk::track::{Pair, Track};
use edf_header::{Header, Signal};
use edf_samples::{Window, first_difference};
use edf_stream::FileReader;

/// Where the lane of a signal ends in a data record.
fn lane_end(signal: &Signal) -> Option<usize>
    ensures { IfSome result (λ end. end ≡ signal.now.offset + 2 * signal.now.samples) }
{
    signal.offset().checked_add(2 * signal.samples() as usize)
}

/// How many bytes of a data record reach to the end of a channel that has the same place in both files.
fn room_of_both(original: &Header, here: Track, export: &Header, there: Track) -> Option<usize>
    requires here { IsTrack original.now here }
    requires there { IsTrack export.now there }
    ensures { IfSome result (λ n. AreLanesAlike original.now export.now n here there) }
{
    let x = &original.signals()[usize::from(here.signal)];
    let y = &export.signals()[usize::from(there.signal)];
    if x.offset() == y.offset() && x.samples() == y.samples() {
        lane_end(x)
    } else {
        None
    }
}

/// How many bytes of a data record reach to the end of the channels of a pair, where these have the same
/// place in both files.
fn room_of(original: &Header, export: &Header, pair: Pair) -> Option<usize>
    requires original { IfSome pair.original (IsTrack original.now) }
    requires export { IfSome pair.export (IsTrack export.now) }
    ensures { IfSome result (λ n. AreLaidAlike original.now export.now n pair) }
{
    match (pair.original, pair.export) {
        (Some(here), Some(there)) => room_of_both(original, here, export, there),
        (Some(_), None) => Some(0),
        (None, _) => Some(0),
    }
}

/// How many bytes of a data record reach to the end of the channels of all pairs, where these have the same
/// places in both files.
pub fn common_room(original: &Header, export: &Header, pairs: &[Pair]) -> Option<usize>
    requires pairs { ArePairs original.now export.now pairs.now }
    ensures { IfSome result (λ n. All (AreLaidAlike original.now export.now n) pairs.now) }
{
    let mut room = 0;
    for pair in pairs {
        room = room_of(original, export, *pair)?.max(room);
    }
    Some(room)
}

/// Whether two numbers of picoseconds are the same.
fn is_equal(a: i128, b: i128) -> bool
    ensures { result ≡ int_eq a b }
{
    a == b
}

/// Whether the data records at hand begin at one time and last as long.
fn are_together(original: &FileReader, export: &FileReader, clock: Clock) -> bool
    requires original { IsTrue (is_current original.now.status) }
    requires export { IsTrue (is_current export.now.status) }
    ensures { result ≡ begin_together original.now export.now (clock.original).ps (clock.export).ps }
{
    is_equal(
        begin_ps_of(original, clock.original),
        begin_ps_of(export, clock.export),
    ) && is_equal(
        original.header().duration_ps(),
        export.header().duration_ps(),
    )
}

/// Whether the data record at hand lies between two times: no border cuts it. Only speed rests on the answer.
fn lies_between(reader: &FileReader, by: Offset, within: Window) -> bool
    requires current { IsTrue (is_current reader.now.status) }
{
    within.from.ps <= begin_ps_of(reader, by) && end_ps_of(reader, by) <= within.to.ps
}

/// Whether two slices have the same first bytes, as many as are said.
fn has_same_front(a: &[u8], b: &[u8], room: usize) -> bool
    ensures { IsTrue result → take room a.now ≡ take room b.now }
{
    room <= a.len() && room <= b.len() && first_difference(&a[..room], &b[..room]).is_none()
}

/// Whether the data records at hand begin at one time, last as long, and have the same first bytes, as many
/// as are said. It may say no where one of them reaches beyond the two times: the bytes of a data record that
/// is cut are then compared part by part, and not all of them for each part.
pub(crate) fn are_alike(
    original: &FileReader,
    export: &FileReader,
    room: usize,
    clock: Clock,
    within: Window,
) -> bool
    ensures { IsTrue result →
        AreRecordsAlike original.now export.now room (clock.original).ps (clock.export).ps }
{
    if !original.has_current() || !export.has_current() {
        return false;
    }
    lies_between(original, clock.original, within)
        && are_together(original, export, clock)
        && has_same_front(original.record(), export.record(), room)
}
