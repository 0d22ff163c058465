//! Amounts of time that stand in a claim in other ways than in seconds.

/// A unit of time, and how many seconds it has.
#[derive(Clone, Copy)]
pub(crate) struct Amount {
    pub(crate) unit: &'static str,
    pub(crate) unit_seconds: i128,
    pub(crate) seconds: i128,
}

/// The most digits of a number that is read.
const MOST_DIGITS: usize = 12;

/// A number without a sign; none where there is none, or one of too many digits.
fn number_of(digits: &[u8]) -> Option<i128> {
    if digits.is_empty() || digits.len() > MOST_DIGITS {
        return None;
    }
    let mut number: i128 = 0;
    for digit in digits {
        if !digit.is_ascii_digit() {
            return None;
        }
        let value = i128::from(digit.saturating_sub(b'0'));
        number = number.saturating_mul(10).saturating_add(value);
    }
    Some(number)
}

/// A unit of time by its name.
fn unit_of(name: &[u8]) -> Option<(&'static str, i128)> {
    match name {
        b"d" | b"day" | b"days" => Some(("day", 86_400)),
        b"h" | b"hour" | b"hours" => Some(("hour", 3_600)),
        b"min" | b"minute" | b"minutes" => Some(("minute", 60)),
        b"w" | b"week" | b"weeks" => Some(("week", 604_800)),
        _ => None,
    }
}

/// How many of the bytes in front are digits.
fn digits_in_front(text: &[u8]) -> usize {
    let mut count: usize = 0;
    for byte in text {
        if !byte.is_ascii_digit() {
            break;
        }
        count = count.saturating_add(1);
    }
    count
}

/// What `-100 days` says in seconds; none where a text has another form.
pub(crate) fn amount_of(text: &[u8]) -> Option<Amount> {
    let text = text.trim_ascii();
    let (sign, rest) = match text {
        [b'-', rest @ ..] => (-1, rest),
        [b'+', rest @ ..] => (1, rest),
        _ => (1, text),
    };
    let rest = rest.trim_ascii_start();
    let count = digits_in_front(rest);
    let number = number_of(rest.get(..count)?)?;
    let (unit, unit_seconds) = unit_of(rest.get(count..)?.trim_ascii_start())?;
    Some(Amount {
        unit,
        unit_seconds,
        seconds: number.saturating_mul(unit_seconds).saturating_mul(sign),
    })
}

/// The seconds of a time of the day, `23:30` or `23:30:00`; none where a text has another form.
pub(crate) fn clock_seconds(text: &[u8]) -> Option<i128> {
    let mut seconds: i128 = 0;
    let mut weight: i128 = 3_600;
    for part in text.trim_ascii().split(|byte: &u8| *byte == b':') {
        if weight == 0 {
            return None;
        }
        let number = number_of(part)?;
        seconds = seconds.saturating_add(number.saturating_mul(weight));
        weight = weight.checked_div_euclid(60).unwrap_or(0);
    }
    if weight == 60 {
        return None;
    }
    Some(seconds)
}
