//! The files of the worked rows, as texts and samples.

use edf_fields::Place;

/// A file of the worked rows.
#[derive(Clone, Copy)]
pub struct File {
    /// The file that it is made from.
    pub base: Base,
    /// Other texts in fields of the header.
    pub texts: &'static [(Place, &'static str)],
    /// Other bytes from a place of the file on.
    pub bytes: &'static [(usize, &'static [u8])],
    /// How many bytes the file has where not all of the base's: the end is cut off, or zeros follow it.
    pub length: Option<usize>,
}

/// A file before it is changed. The first eight hold a night or a part of it, the others a channel `Temp`.
#[derive(Clone, Copy)]
pub enum Base {
    /// 4 s of the channels `EEG Fpz-Cz` and `ECG`, with three annotations, in four data records: the header
    /// has 1,024 bytes, a data record 52.
    Reference,
    /// The same in two data records, with `ECG` first.
    Exchanged,
    /// The reference file without `ECG`.
    OneChannel,
    /// Its second and third second, anonymous and a day earlier.
    Excerpt,
    /// The same with the fourth second.
    LongExcerpt,
    /// Its first and last second, as an interrupted file.
    Gap,
    /// Its first two seconds.
    FirstHalf,
    /// Its last two seconds.
    SecondHalf,
    /// Two samples in 1 s; 804 bytes.
    Small,
    /// Six samples in 6 s, two in a data record of 2 s.
    Pairs,
    /// The same, three in a data record of 3 s.
    Triples,
    /// Of these the first in each data record.
    Sparse,
    /// Three samples in 1 s.
    Thirds,
    /// The same in data records of their own, which start at whole picoseconds.
    Spread,
}

/// The texts of a file's header, and what its data records hold.
#[derive(Clone, Copy)]
pub struct FileText {
    pub patient: &'static str,
    pub recording: &'static str,
    pub startdate: &'static str,
    pub starttime: &'static str,
    pub header_bytes: &'static str,
    pub reserved: &'static str,
    pub records: &'static str,
    pub duration: &'static str,
    pub count: &'static str,
    pub signals: &'static [SignalText],
    pub contents: &'static [DataRecord],
    /// How many bytes a lane has; its signal is the last one.
    pub lane_bytes: usize,
}

/// The texts of a signal; its reserved field is blank.
#[derive(Clone, Copy)]
pub struct SignalText {
    pub label: &'static str,
    pub transducer: &'static str,
    pub dimension: &'static str,
    pub physical: (&'static str, &'static str),
    pub digital: (&'static str, &'static str),
    pub prefilter: &'static str,
    pub samples: &'static str,
}

/// What a data record holds.
#[derive(Clone, Copy)]
pub struct DataRecord {
    /// The samples, signal by signal.
    pub values: &'static [i16],
    /// The lane, without the zeros that fill it.
    pub lane: &'static [u8],
}

/// The texts and data records of a base.
pub fn text_of(base: Base) -> FileText {
    match base {
        Base::Reference => reference(),
        Base::Exchanged => exchanged(),
        Base::OneChannel => one_channel(),
        Base::Excerpt => excerpt(),
        Base::LongExcerpt => long_excerpt(),
        Base::Gap => gap(),
        Base::FirstHalf => first_half(),
        Base::SecondHalf => second_half(),
        Base::Small => small(),
        Base::Pairs => pairs(),
        Base::Triples => triples(),
        Base::Sparse => sparse(),
        Base::Thirds => thirds(),
        Base::Spread => spread(),
    }
}

const EEG: SignalText = SignalText {
    label: "EEG Fpz-Cz",
    transducer: "AgAgCl electrode",
    dimension: "uV",
    physical: ("-100", "100"),
    digital: ("-2048", "2047"),
    prefilter: "HP:0.1Hz LP:75Hz",
    samples: "4",
};

const ECG: SignalText = SignalText {
    label: "ECG",
    transducer: "AgAgCl electrode",
    dimension: "mV",
    physical: ("-10", "10"),
    digital: ("-2048", "2047"),
    prefilter: "HP:0.1Hz LP:75Hz",
    samples: "2",
};

const TEMP: SignalText = SignalText {
    label: "Temp",
    transducer: "",
    dimension: "degC",
    physical: ("30", "40"),
    digital: ("-2048", "2047"),
    prefilter: "",
    samples: "1",
};

/// The annotation signal of the night.
const NOTES: SignalText = SignalText {
    label: "EDF Annotations",
    transducer: "",
    dimension: "",
    physical: ("-1", "1"),
    digital: ("-32768", "32767"),
    prefilter: "",
    samples: "20",
};

/// That of the files with a channel `Temp`.
const STARTS: SignalText = SignalText {
    samples: "16",
    ..NOTES
};

const REFERENCE_SIGNALS: &[SignalText] = &[EEG, ECG, NOTES];

const REFERENCE_RECORDS: &[DataRecord] = &[
    DataRecord {
        values: &[0, 10, 20, 30, 100, 101],
        lane: b"+0\x14\x14\0+0.5\x14Lights off\x14\0",
    },
    DataRecord {
        values: &[40, 50, 60, 70, 102, 103],
        lane: b"+1\x14\x14\0+1.5\x151\x14Apnea\x14\0",
    },
    DataRecord {
        values: &[80, 90, 100, 110, 104, 105],
        lane: b"+2\x14\x14\0",
    },
    DataRecord {
        values: &[120, 130, 140, 150, 106, 107],
        lane: b"+3\x14\x14\0+3\x14Apnea\x14\0",
    },
];

fn reference() -> FileText {
    FileText {
        patient: "MCH-0234567 F 02-MAY-1951 Haagse_Harry",
        recording: "Startdate 02-MAR-2002 PSG-1234/2002 NN Telemetry03",
        startdate: "02.03.02",
        starttime: "22.00.00",
        header_bytes: "1024",
        reserved: "EDF+C",
        records: "4",
        duration: "1",
        count: "3",
        signals: REFERENCE_SIGNALS,
        contents: REFERENCE_RECORDS,
        lane_bytes: 40,
    }
}

const EXCHANGED_SIGNALS: &[SignalText] = &[
    SignalText {
        samples: "4",
        ..ECG
    },
    SignalText {
        samples: "8",
        ..EEG
    },
    NOTES,
];

const EXCHANGED_RECORDS: &[DataRecord] = &[
    DataRecord {
        values: &[100, 101, 102, 103, 0, 10, 20, 30, 40, 50, 60, 70],
        lane: b"+0\x14\x14\0+0.5\x14Lights off\x14\0+1.5\x151\x14Apnea\x14\0",
    },
    DataRecord {
        values: &[104, 105, 106, 107, 80, 90, 100, 110, 120, 130, 140, 150],
        lane: b"+2\x14\x14\0+3\x14Apnea\x14\0",
    },
];

fn exchanged() -> FileText {
    FileText {
        records: "2",
        duration: "2",
        signals: EXCHANGED_SIGNALS,
        contents: EXCHANGED_RECORDS,
        ..reference()
    }
}

const ONE_CHANNEL_SIGNALS: &[SignalText] = &[EEG, NOTES];

const ONE_CHANNEL_RECORDS: &[DataRecord] = &[
    DataRecord {
        values: &[0, 10, 20, 30],
        lane: b"+0\x14\x14\0+0.5\x14Lights off\x14\0",
    },
    DataRecord {
        values: &[40, 50, 60, 70],
        lane: b"+1\x14\x14\0+1.5\x151\x14Apnea\x14\0",
    },
    DataRecord {
        values: &[80, 90, 100, 110],
        lane: b"+2\x14\x14\0",
    },
    DataRecord {
        values: &[120, 130, 140, 150],
        lane: b"+3\x14\x14\0+3\x14Apnea\x14\0",
    },
];

fn one_channel() -> FileText {
    FileText {
        header_bytes: "768",
        count: "2",
        signals: ONE_CHANNEL_SIGNALS,
        contents: ONE_CHANNEL_RECORDS,
        ..reference()
    }
}

const EXCERPT_RECORDS: &[DataRecord] = &[
    DataRecord {
        values: &[40, 50, 60, 70, 102, 103],
        lane: b"+0\x14\x14\0+0.5\x151\x14Apnea\x14\0",
    },
    DataRecord {
        values: &[80, 90, 100, 110, 104, 105],
        lane: b"+1\x14\x14\0",
    },
];

fn excerpt() -> FileText {
    FileText {
        patient: "X F X X",
        recording: "Startdate 01-MAR-2002 PSG-1234/2002 NN Telemetry03",
        startdate: "01.03.02",
        starttime: "22.00.01",
        records: "2",
        contents: EXCERPT_RECORDS,
        ..reference()
    }
}

const LONG_EXCERPT_RECORDS: &[DataRecord] = &[
    DataRecord {
        values: &[40, 50, 60, 70, 102, 103],
        lane: b"+0\x14\x14\0+0.5\x151\x14Apnea\x14\0",
    },
    DataRecord {
        values: &[80, 90, 100, 110, 104, 105],
        lane: b"+1\x14\x14\0",
    },
    DataRecord {
        values: &[120, 130, 140, 150, 106, 107],
        lane: b"+2\x14\x14\0",
    },
];

fn long_excerpt() -> FileText {
    FileText {
        records: "3",
        contents: LONG_EXCERPT_RECORDS,
        ..excerpt()
    }
}

const GAP_RECORDS: &[DataRecord] = &[
    DataRecord {
        values: &[0, 10, 20, 30, 100, 101],
        lane: b"+0\x14\x14\0+0.5\x14Lights off\x14\0",
    },
    DataRecord {
        values: &[120, 130, 140, 150, 106, 107],
        lane: b"+3\x14\x14\0+3\x14Apnea\x14\0",
    },
];

fn gap() -> FileText {
    FileText {
        reserved: "EDF+D",
        records: "2",
        contents: GAP_RECORDS,
        ..reference()
    }
}

const FIRST_HALF_RECORDS: &[DataRecord] = &[
    DataRecord {
        values: &[0, 10, 20, 30, 100, 101],
        lane: b"+0\x14\x14\0+0.5\x14Lights off\x14\0",
    },
    DataRecord {
        values: &[40, 50, 60, 70, 102, 103],
        lane: b"+1\x14\x14\0+1.5\x151\x14Apnea\x14\0",
    },
];

fn first_half() -> FileText {
    FileText {
        records: "2",
        contents: FIRST_HALF_RECORDS,
        ..reference()
    }
}

const SECOND_HALF_RECORDS: &[DataRecord] = &[
    DataRecord {
        values: &[80, 90, 100, 110, 104, 105],
        lane: b"+0\x14\x14\0",
    },
    DataRecord {
        values: &[120, 130, 140, 150, 106, 107],
        lane: b"+1\x14\x14\0+1\x14Apnea\x14\0",
    },
];

fn second_half() -> FileText {
    FileText {
        starttime: "22.00.02",
        records: "2",
        contents: SECOND_HALF_RECORDS,
        ..reference()
    }
}

const SMALL_SIGNALS: &[SignalText] = &[
    SignalText {
        samples: "2",
        ..TEMP
    },
    STARTS,
];

const SMALL_RECORDS: &[DataRecord] = &[DataRecord {
    values: &[7, -7],
    lane: b"+0\x14\x14\0",
}];

fn small() -> FileText {
    FileText {
        header_bytes: "768",
        records: "1",
        count: "2",
        signals: SMALL_SIGNALS,
        contents: SMALL_RECORDS,
        lane_bytes: 32,
        ..reference()
    }
}

const PAIRS_RECORDS: &[DataRecord] = &[
    DataRecord {
        values: &[1, 2],
        lane: b"+0\x14\x14\0",
    },
    DataRecord {
        values: &[3, 4],
        lane: b"+2\x14\x14\0",
    },
    DataRecord {
        values: &[5, 6],
        lane: b"+4\x14\x14\0",
    },
];

fn pairs() -> FileText {
    FileText {
        records: "3",
        duration: "2",
        contents: PAIRS_RECORDS,
        ..small()
    }
}

const TRIPLES_SIGNALS: &[SignalText] = &[
    SignalText {
        samples: "3",
        ..TEMP
    },
    STARTS,
];

const TRIPLES_RECORDS: &[DataRecord] = &[
    DataRecord {
        values: &[1, 2, 3],
        lane: b"+0\x14\x14\0",
    },
    DataRecord {
        values: &[4, 5, 6],
        lane: b"+3\x14\x14\0",
    },
];

fn triples() -> FileText {
    FileText {
        records: "2",
        duration: "3",
        signals: TRIPLES_SIGNALS,
        contents: TRIPLES_RECORDS,
        ..small()
    }
}

const SPARSE_SIGNALS: &[SignalText] = &[TEMP, STARTS];

const SPARSE_RECORDS: &[DataRecord] = &[
    DataRecord {
        values: &[1],
        lane: b"+0\x14\x14\0",
    },
    DataRecord {
        values: &[4],
        lane: b"+3\x14\x14\0",
    },
];

fn sparse() -> FileText {
    FileText {
        signals: SPARSE_SIGNALS,
        contents: SPARSE_RECORDS,
        ..triples()
    }
}

const THIRDS_RECORDS: &[DataRecord] = &[DataRecord {
    values: &[1, 2, 3],
    lane: b"+0\x14\x14\0",
}];

fn thirds() -> FileText {
    FileText {
        records: "1",
        duration: "1",
        contents: THIRDS_RECORDS,
        ..triples()
    }
}

const SPREAD_SIGNALS: &[SignalText] = &[TEMP, STARTS];

const SPREAD_RECORDS: &[DataRecord] = &[
    DataRecord {
        values: &[1],
        lane: b"+0\x14\x14\0",
    },
    DataRecord {
        values: &[2],
        lane: b"+0.333333333333\x14\x14\0",
    },
    DataRecord {
        values: &[3],
        lane: b"+0.666666666666\x14\x14\0",
    },
];

fn spread() -> FileText {
    FileText {
        reserved: "EDF+D",
        records: "3",
        duration: "0.1",
        signals: SPREAD_SIGNALS,
        contents: SPREAD_RECORDS,
        ..small()
    }
}
