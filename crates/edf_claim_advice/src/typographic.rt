//! Marks of typography that stand where plain ones belong.

/// A mark: its name, its sign by number, and the plain one in its place.
#[derive(Clone, Copy)]
pub(crate) struct TypographicMark {
    pub(crate) name: &'static str,
    pub(crate) plain: &'static str,
}

/// The mark that a sign is.
fn mark_of(sign: char) -> Option<TypographicMark> {
    let (name, plain) = match sign {
        '\u{201c}' => ("a left double quotation mark (U+201C)", "\""),
        '\u{201d}' => ("a right double quotation mark (U+201D)", "\""),
        '\u{201e}' => ("a double low-9 quotation mark (U+201E)", "\""),
        '\u{ab}' => ("a left-pointing double angle quotation mark (U+00AB)", "\""),
        '\u{bb}' => (
            "a right-pointing double angle quotation mark (U+00BB)",
            "\"",
        ),
        '\u{2018}' => ("a left single quotation mark (U+2018)", "\""),
        '\u{2019}' => ("a right single quotation mark (U+2019)", "\""),
        '\u{201a}' => ("a single low-9 quotation mark (U+201A)", "\""),
        '\u{ff02}' => ("a fullwidth quotation mark (U+FF02)", "\""),
        '\u{2013}' => ("an en dash (U+2013)", "-"),
        '\u{2014}' => ("an em dash (U+2014)", "-"),
        '\u{2010}' => ("a hyphen that isn't the plain one (U+2010)", "-"),
        '\u{2011}' => ("a non-breaking hyphen (U+2011)", "-"),
        '\u{2212}' => ("a minus sign that isn't the plain one (U+2212)", "-"),
        '\u{a0}' => ("a no-break space (U+00A0)", " "),
        _ => return None,
    };
    Some(TypographicMark { name, plain })
}

/// The first mark in a text.
pub(crate) fn first_mark(text: &[u8]) -> Option<TypographicMark> {
    let Ok(text) = std::str::from_utf8(text) else {
        return None;
    };
    for sign in text.chars() {
        let mark = mark_of(sign);
        if mark.is_some() {
            return mark;
        }
    }
    None
}
