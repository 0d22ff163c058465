//! Identification fields: what they say, and why they say nothing.

use edf_fields::{FieldCause, PatientId, RecordingId};
use std::test::Fail;

fn cause_of_patient(field: &[u8]) -> Option<FieldCause> {
    PatientId::read(field).err()
}

fn cause_of_recording(field: &[u8]) -> Option<FieldCause> {
    RecordingId::read(field).err()
}

/// Fields, and why each says no patient.
const PATIENTS: &[(&str, Option<FieldCause>)] = &[
    ("X X X X", None),
    ("X F 02-MAY-1951 X", None),
    ("X M 29-FEB-0000 X and more", None),
    ("MCH-0234567 F 02-MAY-1951 Haagse_Harry          ", None),
    ("X   M X    X", None),
    ("X Q X X", Some(FieldCause::BadSex)),
    ("X x X X", Some(FieldCause::BadSex)),
    ("X FM X X", Some(FieldCause::BadSex)),
    ("X F 1951 X", Some(FieldCause::BadDate)),
    ("X F x X", Some(FieldCause::BadDate)),
    ("X F 02-May-1951 X", Some(FieldCause::BadDate)),
    ("X F 29-FEB-1900 X", Some(FieldCause::BadDate)),
    ("X F 31-NOV-2001 X", Some(FieldCause::BadDate)),
    ("X Q 1951 X", Some(FieldCause::BadSex)),
    ("X F X", Some(FieldCause::TooFewSubfields)),
    ("X Q 1951   ", Some(FieldCause::TooFewSubfields)),
    ("", Some(FieldCause::TooFewSubfields)),
    ("        ", Some(FieldCause::LeadingSpace)),
    (" X X X X", Some(FieldCause::LeadingSpace)),
];

#[test]
fn judges_patients(rt: HostRuntime) {
    for (field, want) in PATIENTS {
        let cause = cause_of_patient(field.as_bytes());
        assert_eq!(rt; cause, *want, "at {field}");
    }
}

/// Fields, and why each says no recording.
const RECORDINGS: &[(&str, Option<FieldCause>)] = &[
    ("Startdate X X X X", None),
    (
        "Startdate 02-MAR-2002 EMG561 BK/JOP Sony. MNC R Median Nerve.",
        None,
    ),
    ("Startdate  29-FEB-2000 X  X X        ", None),
    ("Started X X X X", Some(FieldCause::NoStartdateWord)),
    ("startdate X X X X", Some(FieldCause::NoStartdateWord)),
    ("X X X X X", Some(FieldCause::NoStartdateWord)),
    ("Started 1951 X X X", Some(FieldCause::BadDate)),
    ("Startdate 02.03.02 X X X", Some(FieldCause::BadDate)),
    ("Startdate 29-FEB-2100 X X X", Some(FieldCause::BadDate)),
    ("Startdate X X X", Some(FieldCause::TooFewSubfields)),
    ("Started 1951 X X", Some(FieldCause::TooFewSubfields)),
    ("", Some(FieldCause::TooFewSubfields)),
    ("   ", Some(FieldCause::LeadingSpace)),
    (" Startdate X X X X", Some(FieldCause::LeadingSpace)),
];

#[test]
fn judges_recordings(rt: HostRuntime) {
    for (field, want) in RECORDINGS {
        let cause = cause_of_recording(field.as_bytes());
        assert_eq!(rt; cause, *want, "at {field}");
    }
}

#[test]
fn refuses_bytes_that_are_not_printable(rt: HostRuntime) {
    for byte in [0, 9, 31, 127, 200, 255] {
        let field = [b' ', byte, b'X', b' ', b'X', b' ', b'X', b' '];
        assert_eq!(rt;
            cause_of_patient(&field),
            Some(FieldCause::NotPrintable),
            "at {byte}"
        );
        assert_eq!(rt;
            cause_of_recording(&field),
            Some(FieldCause::NotPrintable),
            "at {byte}"
        );
    }
    for byte in [33, 126] {
        let field = [byte, b' ', b'X', b' ', b'X', b' ', b' ', byte];
        assert_eq!(rt; cause_of_patient(&field), None, "at {byte}");
    }
}

/// Whether the patient has this code, sex, birthdate and name.
fn is_patient(patient: &PatientId, want: [&str; 4]) -> bool {
    let [code, sex, birthdate, name] = want;
    patient.code() == code.as_bytes()
        && patient.sex() == sex.as_bytes()
        && patient.birthdate() == birthdate.as_bytes()
        && patient.name() == name.as_bytes()
}

/// Whether the recording has this date, administration code, technician and equipment.
fn is_recording(recording: &RecordingId, want: [&str; 4]) -> bool {
    let [date, admin, technician, equipment] = want;
    recording.date() == date.as_bytes()
        && recording.admin() == admin.as_bytes()
        && recording.technician() == technician.as_bytes()
        && recording.equipment() == equipment.as_bytes()
}

#[test]
fn shows_a_patient(rt: HostRuntime) -> Result<(), Fail> {
    let patient = PatientId::read(b"MCH-0234567 F   02-MAY-1951 Haagse_Harry left   handed  ")?;
    assert!(rt;
        is_patient(
            &patient,
            ["MCH-0234567", "F", "02-MAY-1951", "Haagse_Harry"]
        )
    );
    let mut extras = patient.extras();
    assert_eq!(rt; extras.next(), Some("left".as_bytes()));
    assert_eq!(rt; extras.next(), Some("handed".as_bytes()));
    assert_eq!(rt; extras.next(), None);
    Ok(())
}

#[test]
fn shows_a_recording(rt: HostRuntime) -> Result<(), Fail> {
    let recording = RecordingId::read(b"Startdate 02-MAR-2002  PSG-1234/2002 NN Telemetry03")?;
    assert!(rt;
        is_recording(
            &recording,
            ["02-MAR-2002", "PSG-1234/2002", "NN", "Telemetry03"]
        )
    );
    assert_eq!(rt; recording.extras().next(), None);
    Ok(())
}

/// The additional subfields of the next test.
const EXTRAS: &[&str] = &["1", "2", "3", "4", "5", "6", "7", "8", "9", "10", "11"];

#[test]
fn shows_many_extras(rt: HostRuntime) -> Result<(), Fail> {
    let patient = PatientId::read(b"X X X X 1 2  3   4 5 6 7 8 9 10 11   ")?;
    let mut extras = patient.extras();
    for want in EXTRAS {
        assert_eq!(rt; extras.next(), Some(want.as_bytes()), "at {want}");
    }
    assert_eq!(rt; extras.next(), None);
    Ok(())
}
