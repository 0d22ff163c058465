//! Texts of dates and times, and what they name.

use edf_fields::{clock_time, dashed_date, dotted_date, dotted_day_month};
use jiff::civil::Date;

/// Year, month and day.
fn parts(date: Option<Date>) -> Option<(i16, i8, i8)> {
    date.map(|date| (date.year(), date.month(), date.day()))
}

/// Texts, and the day that each names.
const DOTTED_DATES: &[(&str, Option<(i16, i8, i8)>)] = &[
    ("31.12.84", Some((2084, 12, 31))),
    ("01.01.85", Some((1985, 1, 1))),
    ("31.12.99", Some((1999, 12, 31))),
    ("01.01.00", Some((2000, 1, 1))),
    ("02.03.02", Some((2002, 3, 2))),
    ("29.02.00", Some((2000, 2, 29))),
    ("29.02.88", Some((1988, 2, 29))),
    ("29.02.01", None),
    ("30.02.04", None),
    ("31.04.05", None),
    ("31.06.05", None),
    ("31.09.05", None),
    ("31.11.05", None),
    ("32.01.05", None),
    ("00.01.05", None),
    ("01.00.05", None),
    ("01.13.05", None),
    ("1.1.2001", None),
    ("02.03.yy", None),
    ("02-03-02", None),
    ("02.03.02 ", None),
    (" 2.03.02", None),
    ("02.03.2002", None),
    ("", None),
];

#[test]
fn reads_dotted_dates(rt: HostRuntime) {
    for (text, want) in DOTTED_DATES {
        let day = parts(dotted_date(text.as_bytes()));
        assert_eq!(rt; day, *want, "at {text}");
    }
}

/// Texts, and the day of the month and the month that each names.
const DAYS_WITHOUT_A_YEAR: &[(&str, Option<(u8, u8)>)] = &[
    ("31.12.yy", Some((31, 12))),
    ("01.01.yy", Some((1, 1))),
    ("31.02.yy", Some((31, 2))),
    ("29.02.yy", Some((29, 2))),
    ("09.10.yy", Some((9, 10))),
    ("00.12.yy", None),
    ("32.12.yy", None),
    ("31.00.yy", None),
    ("31.13.yy", None),
    ("31.12.YY", None),
    ("31.12.yY", None),
    ("31.12.Yy", None),
    ("31.12.y9", None),
    ("31.12.9y", None),
    ("31.12.99", None),
    ("31-12-yy", None),
    ("31.12-yy", None),
    ("3a.12.yy", None),
    ("31.1:.yy", None),
    ("1.12.yy", None),
    ("31.12.yy ", None),
    ("31.12.yyyy", None),
    ("", None),
];

#[test]
fn reads_days_without_a_year(rt: HostRuntime) {
    for (text, want) in DAYS_WITHOUT_A_YEAR {
        let said = dotted_day_month(text.as_bytes());
        assert_eq!(rt; said, *want, "at {text}");
    }
}

/// Texts, and the day that each names.
const DASHED_DATES: &[(&str, Option<(i16, i8, i8)>)] = &[
    ("29-FEB-2000", Some((2000, 2, 29))),
    ("29-FEB-0000", Some((0, 2, 29))),
    ("02-AUG-1951", Some((1951, 8, 2))),
    ("31-DEC-9999", Some((9999, 12, 31))),
    ("31-JAN-0001", Some((1, 1, 31))),
    ("29-FEB-1900", None),
    ("29-FEB-2100", None),
    ("30-FEB-2000", None),
    ("31-APR-2001", None),
    ("31-JUN-2001", None),
    ("31-SEP-2001", None),
    ("31-NOV-2001", None),
    ("00-MAY-2001", None),
    ("02-May-1951", None),
    ("02-may-1951", None),
    ("02-OKT-1951", None),
    ("2-AUG-1951", None),
    ("02-AUG-51", None),
    ("02-AUG--951", None),
    ("02.AUG.1951", None),
    ("02-AUG-1951 ", None),
    ("X", None),
    ("", None),
];

#[test]
fn reads_dashed_dates(rt: HostRuntime) {
    for (text, want) in DASHED_DATES {
        let day = parts(dashed_date(text.as_bytes()));
        assert_eq!(rt; day, *want, "at {text}");
    }
}

/// A day of each month.
const MONTHS: &[(&str, i8)] = &[
    ("28-JAN-2001", 1),
    ("28-FEB-2001", 2),
    ("28-MAR-2001", 3),
    ("28-APR-2001", 4),
    ("28-MAY-2001", 5),
    ("28-JUN-2001", 6),
    ("28-JUL-2001", 7),
    ("28-AUG-2001", 8),
    ("28-SEP-2001", 9),
    ("28-OCT-2001", 10),
    ("28-NOV-2001", 11),
    ("28-DEC-2001", 12),
];

#[test]
fn reads_every_month(rt: HostRuntime) {
    for (text, month) in MONTHS {
        let day = parts(dashed_date(text.as_bytes()));
        assert_eq!(rt; day, Some((2001, *month, 28)), "at {text}");
    }
}

/// Texts, and the second of the day that each names.
const CLOCK_TIMES: &[(&str, Option<u32>)] = &[
    ("00.00.00", Some(0)),
    ("23.59.59", Some(86399)),
    ("22.00.07", Some(79207)),
    ("24.00.00", None),
    ("23.60.00", None),
    ("23.59.60", None),
    ("22:00:00", None),
    ("22.00.0", None),
    ("22.00.000", None),
    ("+2.00.00", None),
    ("", None),
];

#[test]
fn reads_clock_times(rt: HostRuntime) {
    for (text, want) in CLOCK_TIMES {
        let second = clock_time(text.as_bytes());
        assert_eq!(rt; second, *want, "at {text}");
    }
}

#[test]
fn refuses_other_bytes(rt: HostRuntime) {
    for byte in [31, 127, 200] {
        assert_eq!(rt;
            dotted_date(&[b'0', b'1', b'.', b'0', b'1', b'.', b'0', byte]),
            None
        );
        assert_eq!(rt;
            clock_time(&[b'0', byte, b'.', b'0', b'1', b'.', b'0', b'1']),
            None
        );
    }
}
