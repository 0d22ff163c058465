//! The additional subfields of a patient.

use edf_fields::PatientId;
use std::test::Fail;

#[test]
fn skips_runs_of_spaces(rt: HostRuntime) -> Result<(), Fail> {
    let patient = PatientId::read(b"X   F 02-MAY-1951  X  left   handed  ")?;
    let mut subfields = patient.extras();
    assert_eq!(rt; subfields.next(), Some("left".as_bytes()));
    assert_eq!(rt; subfields.next(), Some("handed".as_bytes()));
    assert_eq!(rt; subfields.next(), None);
    assert_eq!(rt; subfields.next(), None);
    Ok(())
}

#[test]
fn finds_none_in_spaces(rt: HostRuntime) -> Result<(), Fail> {
    assert_eq!(rt; PatientId::read(b"X X X X")?.extras().next(), None);
    assert_eq!(rt; PatientId::read(b"X X X X    ")?.extras().next(), None);
    Ok(())
}
