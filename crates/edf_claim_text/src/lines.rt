//! The lines of a claim in its plainest form: one for each thing that it says, in the order of its keys.

ghost use Rattle.std.specs.Prelude.{◌≡◌, ◌++◌, codes, map, IfOk, OnOk};
ghost use Rattle.std.specs.List.{flat_map};
ghost use Rattle.edf_claim_text.specs.PlainTexts.{array_text, both_keys, changes_text, interval_line, lines_of, more_keys, name_line, needs_more_keys as needs_more, plain_text, text_line, texts_array};

use edf_claim::{Claim, Interval, MOST_CLAIM_BYTES, push_said_interval, push_said_text};
use edf_fields::{SignalLabel, Which};
use std::alloc::{AllocError, Global};

/// Puts words behind a text.
fn push(text: &mut Vec<u8>, words: &str) -> Result<(), AllocError>
    ensures { OnOk result (text.new.items ≡ text.old.items ++ words.now) }
{
    text.extend_from_slice(words.as_bytes())
}

/// Puts the line of a text in an array behind another text.
#[tactic(auto, unfolding(crate::specs::PlainTexts::text_line))]
fn push_line(text: &mut Vec<u8>, said: &[u8]) -> Result<(), AllocError>
    ensures { OnOk result (text.new.items ≡ text.old.items ++ text_line said.now) }
{
    push(text, "  ")?;
    push_said_text(text, said)?;
    push(text, ",\n")
}

/// Puts the lines of some labels behind a text.
fn push_labels(text: &mut Vec<u8>, labels: &[SignalLabel]) -> Result<(), AllocError>
    ensures { OnOk result (text.new.items ≡ text.old.items ++ flat_map text_line labels.now) }
{
    for label in labels {
        push_line(text, label.text())?;
    }
    Ok(())
}

/// Puts the lines of some subfields behind a text.
fn push_names(text: &mut Vec<u8>, whiches: &[Which]) -> Result<(), AllocError>
    ensures { OnOk result (text.new.items ≡ text.old.items ++ flat_map name_line whiches.now) }
{
    for which in whiches {
        push_line(text, which.name().as_bytes())?;
    }
    Ok(())
}

/// Puts the lines of some texts behind another text.
fn push_lines(text: &mut Vec<u8>, texts: &[Vec<u8>]) -> Result<(), AllocError>
    ensures { OnOk result (text.new.items ≡ text.old.items ++
        flat_map text_line (map (λ t. t.items) texts.now)) }
{
    for said in texts {
        push_line(text, said)?;
    }
    Ok(())
}

/// Puts the line of an interval behind a text: in seconds, and where that is wanted in picoseconds behind it.
#[tactic(auto, unfolding(crate::specs::PlainTexts::interval_line))]
fn push_interval(
    text: &mut Vec<u8>,
    alloc: Global,
    interval: Interval,
    says_ps: bool,
) -> Result<(), AllocError>
    ensures { OnOk result (text.new.items ≡ text.old.items ++ interval_line says_ps interval) }
{
    push(text, "  ")?;
    push_said_interval(text, alloc, interval)?;
    if says_ps {
        let times = format!(in alloc; ", # {} ps to {} ps\n", interval.from_ps, interval.to_ps)?;
        push(text, &times)
    } else {
        push(text, ",\n")
    }
}

/// Puts the lines of some intervals behind a text.
fn push_intervals(
    text: &mut Vec<u8>,
    alloc: Global,
    intervals: &[Interval],
    says_ps: bool,
) -> Result<(), AllocError>
    ensures { OnOk result (text.new.items ≡ text.old.items ++
        flat_map (interval_line says_ps) intervals.now) }
{
    for interval in intervals {
        push_interval(text, alloc, *interval, says_ps)?;
    }
    Ok(())
}

/// Puts the front of a key with an array behind a text.
fn push_head(text: &mut Vec<u8>, key: &str) -> Result<(), AllocError>
    ensures { OnOk result (text.new.items ≡ text.old.items ++ (key.now ++ codes " = [\n")) }
{
    push(text, key)?;
    push(text, " = [\n")
}

/// Puts a key with an array of some texts behind another text.
#[tactic(auto, unfolding(crate::specs::PlainTexts::array_text))]
fn push_texts(text: &mut Vec<u8>, key: &str, texts: &[Vec<u8>]) -> Result<(), AllocError>
    ensures { OnOk result (text.new.items ≡ text.old.items ++
        texts_array key.now (map (λ t. t.items) texts.now)) }
{
    push_head(text, key)?;
    push_lines(text, texts)?;
    push(text, "]\n")
}

/// Puts the channels behind a text.
#[tactic(auto, unfolding(crate::specs::PlainTexts::array_text))]
fn push_channels(text: &mut Vec<u8>, labels: &[SignalLabel]) -> Result<(), AllocError>
    ensures { OnOk result (text.new.items ≡ text.old.items ++ texts_array (codes "channels") labels.now) }
{
    push_head(text, "channels")?;
    push_labels(text, labels)?;
    push(text, "]\n")
}

/// Puts the intervals behind a text.
#[tactic(auto, unfolding(crate::specs::PlainTexts::array_text))]
fn push_keep(
    text: &mut Vec<u8>,
    alloc: Global,
    intervals: &[Interval],
    says_ps: bool,
) -> Result<(), AllocError>
    ensures { OnOk result (text.new.items ≡ text.old.items ++
        array_text (codes "keep") (flat_map (interval_line says_ps) intervals.now)) }
{
    push_head(text, "keep")?;
    push_intervals(text, alloc, intervals, says_ps)?;
    push(text, "]\n")
}

/// Puts the subfields that are made anonymous behind a text.
#[tactic(auto, unfolding(crate::specs::PlainTexts::array_text))]
fn push_anonymous(text: &mut Vec<u8>, whiches: &[Which]) -> Result<(), AllocError>
    ensures { OnOk result (text.new.items ≡ text.old.items ++
        array_text (codes "anonymous") (flat_map name_line whiches.now)) }
{
    push_head(text, "anonymous")?;
    push_names(text, whiches)?;
    push(text, "]\n")
}

/// Whether a claim of format 1 can't say this.
fn needs_more_keys(claim: &Claim) -> bool
    ensures { result ≡ needs_more claim.now }
{
    !(claim.removed_by_begin().is_empty() && claim.blanked().is_empty())
}

/// Puts the keys behind a text that only format 2 has.
#[tactic(auto, unfolding(crate::specs::PlainTexts::both_keys))]
fn push_both_keys(text: &mut Vec<u8>, claim: &Claim) -> Result<(), AllocError>
    ensures { OnOk result (text.new.items ≡ text.old.items ++ both_keys claim.now) }
{
    push_texts(text, "remove-prefix", claim.removed_by_begin())?;
    push_texts(text, "blank", claim.blanked())
}

/// Puts these keys behind a text, where the claim needs them.
fn push_more_keys(text: &mut Vec<u8>, claim: &Claim) -> Result<(), AllocError>
    ensures { OnOk result (text.new.items ≡ text.old.items ++ more_keys claim.now) }
{
    if needs_more_keys(claim) {
        push_both_keys(text, claim)?;
    }
    Ok(())
}

/// Puts the keys of what is made anonymous, of the shift and of the texts of annotations behind a text.
#[tactic(auto, unfolding(crate::specs::PlainTexts::changes_text))]
fn push_changes(text: &mut Vec<u8>, alloc: Global, claim: &Claim) -> Result<(), AllocError>
    ensures { OnOk result (text.new.items ≡ text.old.items ++ changes_text claim.now) }
{
    let shift = claim.shift();
    push_anonymous(text, claim.anonymous())?;
    push(text, &format!(in alloc; "shift = {shift}\n")?)?;
    push_texts(text, "remove", claim.removed())?;
    push_more_keys(text, claim)
}

/// The lines of a claim, whose intervals are said in picoseconds, too, where that is wanted.
#[tactic(auto, unfolding(crate::specs::PlainTexts::lines_of))]
fn lines_of(alloc: Global, claim: &Claim, says_ps: bool) -> Result<Vec<u8>, AllocError>
    ensures { IfOk result (λ text. text.items ≡ lines_of says_ps claim.now) }
{
    let format: u8 = if needs_more_keys(claim) { 2 } else { 1 };
    let mut text = Vec::new(alloc);
    push(&mut text, &format!(in alloc; "format = {format}\n")?)?;
    push_channels(&mut text, claim.channels())?;
    push_keep(&mut text, alloc, claim.intervals(), says_ps)?;
    push_changes(&mut text, alloc, claim)?;
    Ok(text)
}

/// The text of a claim in its plainest form: TOML 1.0, with a line for each label, interval, subfield and text. Behind an interval
/// stand its times in picoseconds, where the text is then no longer than a claim may be.
///
/// The error is want of memory.
pub(crate) fn plain_text(alloc: Global, claim: &Claim) -> Result<Vec<u8>, AllocError>
    ensures { IfOk result (λ text. text.items ≡ plain_text claim.now) }
{
    let text = lines_of(alloc, claim, true)?;
    if text.len() > MOST_CLAIM_BYTES {
        lines_of(alloc, claim, false)
    } else {
        Ok(text)
    }
}
