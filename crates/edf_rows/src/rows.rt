//! The worked rows: the files, the claim, and the line that is stored for them.

ghost use Rattle.std.specs.Prelude.{◌≡◌, map};
ghost use Rattle.edf_rows.specs.Rows.{row_of, worked_rows};

use crate::claims::Claimed;
use crate::files::{Base, File};
use crate::lines;
use crate::rows::Exports::{One, Several};
use edf_fields::Place::{AtField, AtSignal};
use edf_fields::{FixedField as Fixed, SignalField as Field};

/// The exports of a worked row.
#[derive(Clone, Copy)]
pub enum Exports {
    /// One, which is checked alone.
    One(File),
    /// One or two, one after the other, which are checked together.
    Several(File, Option<File>),
}

/// A worked row.
#[derive(Clone, Copy)]
pub struct Row {
    /// Its number, which is printed.
    pub number: u8,
    /// The original.
    pub original: File,
    /// The export, or the exports.
    pub exports: Exports,
    /// The claim.
    pub claim: Claimed,
    /// The line that is stored for them.
    pub stored: &'static str,
}

/// The night, as it was recorded.
const NIGHT: File = File {
    base: Base::Reference,
    texts: &[],
    bytes: &[],
    length: None,
};

const EXCHANGED: File = File {
    base: Base::Exchanged,
    ..NIGHT
};

const ONE_CHANNEL: File = File {
    base: Base::OneChannel,
    ..NIGHT
};

const EXCERPT: File = File {
    base: Base::Excerpt,
    ..NIGHT
};

const LONG_EXCERPT: File = File {
    base: Base::LongExcerpt,
    ..NIGHT
};

const GAP: File = File {
    base: Base::Gap,
    ..NIGHT
};

const SMALL: File = File {
    base: Base::Small,
    ..NIGHT
};

const PAIRS: File = File {
    base: Base::Pairs,
    ..NIGHT
};

const TRIPLES: File = File {
    base: Base::Triples,
    ..NIGHT
};

const SPARSE: File = File {
    base: Base::Sparse,
    ..NIGHT
};

const THIRDS: File = File {
    base: Base::Thirds,
    ..NIGHT
};

const SPREAD: File = File {
    base: Base::Spread,
    ..NIGHT
};

/// The night with an additional subfield of the patient.
const WARD: File = File {
    texts: &[(
        AtField(Fixed::Patient),
        "MCH-0234567 F 02-MAY-1951 Haagse_Harry Ward7",
    )],
    ..NIGHT
};

/// The night without its recording date.
const DATELESS: File = File {
    texts: &[(
        AtField(Fixed::Recording),
        "Startdate X PSG-1234/2002 NN Telemetry03",
    )],
    ..NIGHT
};

/// The night on the last day of 2099, of which the startdate doesn't say the year.
const LATE: File = File {
    texts: &[
        (AtField(Fixed::Startdate), "31.12.yy"),
        (
            AtField(Fixed::Recording),
            "Startdate 31-DEC-2099 PSG-1234/2002 NN Telemetry03",
        ),
    ],
    ..NIGHT
};

/// The same without its recording date.
const LATE_AND_DATELESS: File = File {
    texts: &[
        (AtField(Fixed::Startdate), "31.12.yy"),
        (
            AtField(Fixed::Recording),
            "Startdate X PSG-1234/2002 NN Telemetry03",
        ),
    ],
    ..NIGHT
};

/// The same with the day before as its recording date.
const LATE_WITH_TWO_DAYS: File = File {
    texts: &[
        (AtField(Fixed::Startdate), "31.12.yy"),
        (
            AtField(Fixed::Recording),
            "Startdate 30-DEC-2099 PSG-1234/2002 NN Telemetry03",
        ),
    ],
    ..NIGHT
};

/// The same with two digits for the year.
const LATE_IN_DIGITS: File = File {
    texts: &[
        (AtField(Fixed::Startdate), "31.12.99"),
        (
            AtField(Fixed::Recording),
            "Startdate 31-DEC-2099 PSG-1234/2002 NN Telemetry03",
        ),
    ],
    ..NIGHT
};

/// The night with the annotation of its second data record in the last one, spelled otherwise.
const MOVED: File = File {
    bytes: &[
        (1088, b"+1\x14\x14\0\0\0\0\0\0\0\0\0\0\0\0\0\0\0"),
        (
            1192,
            b"+3\x14\x14\0+3\x14Apnea\x14\0+1.50\x151\x14Apnea\x14\0",
        ),
    ],
    ..NIGHT
};

/// The night with that annotation twice.
const TWICE: File = File {
    bytes: &[(
        1088,
        b"+1\x14\x14\0+1.5\x151\x14Apnea\x14\0+1.5\x151\x14Apnea\x14\0",
    )],
    ..NIGHT
};

/// The night with another first sample, and in the last data record a text that isn't UTF-8.
const BAD_TEXT: File = File {
    bytes: &[(1024, &[1]), (1200, &[255])],
    ..NIGHT
};

/// The night with `X` in the place of its second and third text.
const BLANKED: File = File {
    bytes: &[
        (1088, b"+1\x14\x14\0+1.5\x151\x14X\x14\0\0\0\0\0"),
        (1192, b"+3\x14\x14\0+3\x14X\x14\0\0\0\0\0"),
    ],
    ..NIGHT
};

/// The night without its first annotation.
const LIT: File = File {
    bytes: &[(1036, b"+0\x14\x14\0\0\0\0\0\0\0\0\0\0\0\0\0\0\0\0\0\0")],
    ..NIGHT
};

/// The night without its second and third annotation.
const WITHOUT_APNEA: File = File {
    bytes: &[
        (1088, b"+1\x14\x14\0\0\0\0\0\0\0\0\0\0\0\0\0\0\0"),
        (1192, b"+3\x14\x14\0\0\0\0\0\0\0\0\0\0\0"),
    ],
    ..NIGHT
};

const FIRST_HALF: File = File {
    base: Base::FirstHalf,
    ..NIGHT
};

const SECOND_HALF: File = File {
    base: Base::SecondHalf,
    ..NIGHT
};

/// The worked rows, in the order in which they are written. The header of the night has 1,024 bytes, and a data record of
/// it 52, of which the last 40 are the lane; its second half has 1,128 bytes.
const ROWS: &[Row] = &[
    Row {
        number: 1,
        original: SMALL,
        exports: One(SMALL),
        claim: Claimed::Temp,
        stored: lines::ROW_1,
    },
    Row {
        number: 2,
        original: NIGHT,
        exports: One(NIGHT),
        claim: Claimed::All,
        stored: lines::ROW_2,
    },
    Row {
        number: 3,
        original: NIGHT,
        exports: One(EXCHANGED),
        claim: Claimed::All,
        stored: lines::ROW_3,
    },
    Row {
        number: 4,
        original: NIGHT,
        exports: One(EXCERPT),
        claim: Claimed::Excerpt,
        stored: lines::ROW_4,
    },
    Row {
        number: 5,
        original: NIGHT,
        exports: One(LONG_EXCERPT),
        claim: Claimed::Excerpt,
        stored: lines::ROW_5,
    },
    Row {
        number: 6,
        original: NIGHT,
        exports: One(GAP),
        claim: Claimed::Gap,
        stored: lines::ROW_6,
    },
    Row {
        number: 7,
        original: NIGHT,
        exports: One(File {
            texts: &[(AtField(Fixed::Reserved), "EDF+C")],
            ..GAP
        }),
        claim: Claimed::Gap,
        stored: lines::ROW_7,
    },
    Row {
        number: 8,
        original: NIGHT,
        exports: One(File {
            bytes: &[(1030, &[31])],
            ..NIGHT
        }),
        claim: Claimed::All,
        stored: lines::ROW_8,
    },
    Row {
        number: 9,
        original: NIGHT,
        exports: One(File {
            bytes: &[(1134, &[0]), (1138, &[104])],
            ..NIGHT
        }),
        claim: Claimed::All,
        stored: lines::ROW_9,
    },
    Row {
        number: 10,
        original: PAIRS,
        exports: One(TRIPLES),
        claim: Claimed::Temp,
        stored: lines::ROW_10,
    },
    Row {
        number: 11,
        original: PAIRS,
        exports: One(SPARSE),
        claim: Claimed::Temp,
        stored: lines::ROW_11,
    },
    Row {
        number: 12,
        original: THIRDS,
        exports: One(SPREAD),
        claim: Claimed::Temp,
        stored: lines::ROW_12,
    },
    Row {
        number: 13,
        original: THIRDS,
        exports: One(File {
            bytes: &[(770, &[9])],
            ..THIRDS
        }),
        claim: Claimed::Temp,
        stored: lines::ROW_13,
    },
    Row {
        number: 14,
        original: NIGHT,
        exports: One(File {
            texts: &[
                (AtSignal(0, Field::PhysicalMinimum), "-100.0"),
                (AtSignal(0, Field::PhysicalMaximum), "100.00"),
            ],
            ..NIGHT
        }),
        claim: Claimed::All,
        stored: lines::ROW_14,
    },
    Row {
        number: 15,
        original: NIGHT,
        exports: One(File {
            texts: &[
                (AtSignal(0, Field::PhysicalMaximum), "-60"),
                (AtSignal(0, Field::DigitalMaximum), "-1229"),
            ],
            ..NIGHT
        }),
        claim: Claimed::All,
        stored: lines::ROW_15,
    },
    Row {
        number: 16,
        original: NIGHT,
        exports: One(File {
            texts: &[(AtSignal(0, Field::PhysicalMaximum), "100.0001")],
            ..NIGHT
        }),
        claim: Claimed::All,
        stored: lines::ROW_16,
    },
    Row {
        number: 17,
        original: NIGHT,
        exports: One(File {
            texts: &[
                (AtSignal(0, Field::PhysicalMinimum), "-99"),
                (AtSignal(0, Field::PhysicalMaximum), "101"),
            ],
            ..NIGHT
        }),
        claim: Claimed::All,
        stored: lines::ROW_17,
    },
    Row {
        number: 18,
        original: NIGHT,
        exports: One(NIGHT),
        claim: Claimed::NoName,
        stored: lines::ROW_18,
    },
    Row {
        number: 19,
        original: NIGHT,
        exports: One(File {
            texts: &[(
                AtField(Fixed::Patient),
                "MCH-0234567 X 02-MAY-1951 Haagse_Harry",
            )],
            ..NIGHT
        }),
        claim: Claimed::All,
        stored: lines::ROW_19,
    },
    Row {
        number: 20,
        original: WARD,
        exports: One(NIGHT),
        claim: Claimed::NoPatientExtras,
        stored: lines::ROW_20,
    },
    Row {
        number: 21,
        original: WARD,
        exports: One(WARD),
        claim: Claimed::NoPatientExtras,
        stored: lines::ROW_21,
    },
    Row {
        number: 22,
        original: WARD,
        exports: One(NIGHT),
        claim: Claimed::All,
        stored: lines::ROW_22,
    },
    Row {
        number: 23,
        original: NIGHT,
        exports: One(DATELESS),
        claim: Claimed::NoDate,
        stored: lines::ROW_23,
    },
    Row {
        number: 24,
        original: NIGHT,
        exports: One(DATELESS),
        claim: Claimed::All,
        stored: lines::ROW_24,
    },
    Row {
        number: 25,
        original: NIGHT,
        exports: One(File {
            texts: &[(
                AtField(Fixed::Recording),
                "Startdate 02-MAR-2002 PSG-1234/2002 NN Telemetry03",
            )],
            ..EXCERPT
        }),
        claim: Claimed::Excerpt,
        stored: lines::ROW_25,
    },
    Row {
        number: 26,
        original: NIGHT,
        exports: One(MOVED),
        claim: Claimed::All,
        stored: lines::ROW_26,
    },
    Row {
        number: 27,
        original: TWICE,
        exports: One(NIGHT),
        claim: Claimed::All,
        stored: lines::ROW_27,
    },
    Row {
        number: 28,
        original: NIGHT,
        exports: One(NIGHT),
        claim: Claimed::NoLights,
        stored: lines::ROW_28,
    },
    Row {
        number: 29,
        original: NIGHT,
        exports: One(File {
            length: Some(1231),
            ..NIGHT
        }),
        claim: Claimed::All,
        stored: lines::ROW_29,
    },
    Row {
        number: 30,
        original: NIGHT,
        exports: One(File {
            length: Some(1233),
            ..NIGHT
        }),
        claim: Claimed::All,
        stored: lines::ROW_30,
    },
    Row {
        number: 31,
        original: File {
            length: Some(0),
            ..NIGHT
        },
        exports: One(NIGHT),
        claim: Claimed::All,
        stored: lines::ROW_31,
    },
    Row {
        number: 32,
        original: NIGHT,
        exports: One(File {
            length: Some(300),
            ..NIGHT
        }),
        claim: Claimed::All,
        stored: lines::ROW_32,
    },
    Row {
        number: 33,
        original: NIGHT,
        exports: One(BAD_TEXT),
        claim: Claimed::All,
        stored: lines::ROW_33,
    },
    Row {
        number: 34,
        original: File {
            texts: &[(AtField(Fixed::Records), "-1")],
            ..NIGHT
        },
        exports: One(BAD_TEXT),
        claim: Claimed::All,
        stored: lines::ROW_34,
    },
    Row {
        number: 35,
        original: NIGHT,
        exports: One(File {
            texts: &[(AtField(Fixed::Reserved), "EDF+C by J")],
            ..NIGHT
        }),
        claim: Claimed::All,
        stored: lines::ROW_35,
    },
    Row {
        number: 36,
        original: NIGHT,
        exports: One(File {
            texts: &[(AtSignal(1, Field::Reserved), "room 4")],
            ..NIGHT
        }),
        claim: Claimed::All,
        stored: lines::ROW_36,
    },
    Row {
        number: 37,
        original: File {
            texts: &[
                (AtSignal(1, Field::Reserved), "room 4"),
                (AtSignal(2, Field::Prefilter), "n/a"),
            ],
            ..NIGHT
        },
        exports: One(NIGHT),
        claim: Claimed::All,
        stored: lines::ROW_37,
    },
    Row {
        number: 38,
        original: NIGHT,
        exports: One(NIGHT),
        claim: Claimed::Ecg,
        stored: lines::ROW_38,
    },
    Row {
        number: 39,
        original: NIGHT,
        exports: One(ONE_CHANNEL),
        claim: Claimed::All,
        stored: lines::ROW_39,
    },
    Row {
        number: 40,
        original: NIGHT,
        exports: One(File {
            texts: &[(AtSignal(1, Field::Prefilter), "HP:1Hz")],
            ..NIGHT
        }),
        claim: Claimed::All,
        stored: lines::ROW_40,
    },
    Row {
        number: 41,
        original: NIGHT,
        exports: One(NIGHT),
        claim: Claimed::Unknown,
        stored: lines::ROW_41,
    },
    Row {
        number: 42,
        original: NIGHT,
        exports: One(File {
            texts: &[(AtField(Fixed::Startdate), "02.03.yy")],
            ..NIGHT
        }),
        claim: Claimed::All,
        stored: lines::ROW_42,
    },
    Row {
        number: 53,
        original: NIGHT,
        exports: One(NIGHT),
        claim: Claimed::BlankApnea,
        stored: lines::ROW_53,
    },
    Row {
        number: 54,
        original: NIGHT,
        exports: One(BLANKED),
        claim: Claimed::BlankApnea,
        stored: lines::ROW_54,
    },
    Row {
        number: 55,
        original: NIGHT,
        exports: One(NIGHT),
        claim: Claimed::NoLightsByBegin,
        stored: lines::ROW_55,
    },
    Row {
        number: 56,
        original: NIGHT,
        exports: One(LIT),
        claim: Claimed::NoLightsByBegin,
        stored: lines::ROW_56,
    },
    Row {
        number: 57,
        original: NIGHT,
        exports: One(WITHOUT_APNEA),
        claim: Claimed::NoApnea,
        stored: lines::ROW_57,
    },
    Row {
        number: 58,
        original: LATE,
        exports: One(LATE),
        claim: Claimed::All,
        stored: lines::ROW_58,
    },
    Row {
        number: 59,
        original: NIGHT,
        exports: One(LATE),
        claim: Claimed::Late,
        stored: lines::ROW_59,
    },
    Row {
        number: 60,
        original: NIGHT,
        exports: One(LATE_AND_DATELESS),
        claim: Claimed::LateAndDateless,
        stored: lines::ROW_60,
    },
    Row {
        number: 61,
        original: LATE,
        exports: One(LATE_WITH_TWO_DAYS),
        claim: Claimed::All,
        stored: lines::ROW_61,
    },
    Row {
        number: 62,
        original: LATE,
        exports: One(LATE_IN_DIGITS),
        claim: Claimed::All,
        stored: lines::ROW_62,
    },
    Row {
        number: 63,
        original: NIGHT,
        exports: Several(NIGHT, None),
        claim: Claimed::All,
        stored: lines::ROW_63,
    },
    Row {
        number: 64,
        original: NIGHT,
        exports: Several(FIRST_HALF, Some(SECOND_HALF)),
        claim: Claimed::All,
        stored: lines::ROW_64,
    },
    Row {
        number: 65,
        original: NIGHT,
        exports: Several(SECOND_HALF, Some(FIRST_HALF)),
        claim: Claimed::All,
        stored: lines::ROW_65,
    },
    Row {
        number: 66,
        original: NIGHT,
        exports: Several(FIRST_HALF, Some(FIRST_HALF)),
        claim: Claimed::All,
        stored: lines::ROW_66,
    },
    Row {
        number: 67,
        original: NIGHT,
        exports: Several(FIRST_HALF, None),
        claim: Claimed::All,
        stored: lines::ROW_67,
    },
    Row {
        number: 68,
        original: NIGHT,
        exports: Several(
            FIRST_HALF,
            Some(File {
                length: Some(1127),
                ..SECOND_HALF
            }),
        ),
        claim: Claimed::All,
        stored: lines::ROW_68,
    },
    Row {
        number: 69,
        original: NIGHT,
        exports: Several(
            FIRST_HALF,
            Some(File {
                texts: &[(
                    AtField(Fixed::Patient),
                    "MCH-0234567 X 02-MAY-1951 Haagse_Harry",
                )],
                ..SECOND_HALF
            }),
        ),
        claim: Claimed::All,
        stored: lines::ROW_69,
    },
];

/// The worked rows, in the order in which they are written.
#[tactic(auto, unfolding(crate::specs::Rows::worked_rows))]
pub fn worked_rows() -> &'static [Row]
    ensures { map row_of result.now ≡ worked_rows }
{
    ROWS
}
