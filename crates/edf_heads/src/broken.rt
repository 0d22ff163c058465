//! All rules of two headers that are broken, and not the first alone.

ghost use Rattle.std.specs.Prelude.{◌≡◌, map, IfOk, OnOk};
ghost use Rattle.edf_heads.specs.Comparisons.{all_rules, broken_at, broken_by, claimed_view, difference_of, named_if, named_some, unclaimed_in, Adds, Appends, AreAllBrokenIn, IsBrokenAmong};
ghost use Rattle.edf_heads.specs.HeadVerdicts.{AreAllBroken};

use crate::channels::ClaimedChannel;
use crate::comparison::Comparison;
use crate::difference::HeadDifference;
use crate::rules::ChannelRule;
use edf_claim::Claim;
use edf_fields::Which;
use edf_header::{Header, Signal};
use edf_verdict::SubfieldMismatch;
use std::alloc::{AllocError, Global};

/// Takes in a rule that is broken, if it is.
///
/// The error is want of memory.
fn take_if<'a>(
    found: &mut Vec<HeadDifference<'a>>,
    is_broken: bool,
    difference: HeadDifference<'a>,
) -> Result<(), AllocError>
    ensures { OnOk result (Appends found.old.items found.new.items
        (named_if is_broken (difference_of difference.entry))) }
{
    if is_broken {
        found.push(difference)?;
    }
    Ok(())
}

/// Takes in how a subfield isn't as claimed, if it isn't.
///
/// The error is want of memory.
fn take_some(
    found: &mut Vec<HeadDifference<'_>>,
    which: Which,
    mismatch: Option<SubfieldMismatch>,
) -> Result<(), AllocError>
    ensures { OnOk result (Appends found.old.items found.new.items (named_some which mismatch)) }
{
    if let Some(mismatch) = mismatch {
        found.push(HeadDifference::Subfield(which, mismatch))?;
    }
    Ok(())
}

/// Takes in each of these rules that a claimed channel breaks.
///
/// The error is want of memory.
fn take_channel<'a>(
    found: &mut Vec<HeadDifference<'a>>,
    channel: ClaimedChannel<'a>,
    rules: &[ChannelRule],
) -> Result<(), AllocError>
    ensures { OnOk result (Appends found.old.items found.new.items
        (broken_at rules.now (claimed_view channel.entry))) }
{
    for rule in rules {
        take_if(
            found,
            channel.breaks(*rule),
            rule.broken_at(channel.label.text()),
        )?;
    }
    Ok(())
}

/// Takes in each rule that one of these claimed channels breaks.
///
/// The error is want of memory.
fn take_channels<'a>(
    found: &mut Vec<HeadDifference<'a>>,
    claimed: &[ClaimedChannel<'a>],
) -> Result<(), AllocError>
    ensures { OnOk result (Appends found.old.items found.new.items
        (broken_by all_rules (map claimed_view claimed.now))) }
{
    for channel in claimed {
        take_channel(found, *channel, ChannelRule::all())?;
    }
    Ok(())
}

/// Takes in each channel among the signals that isn't claimed.
///
/// The error is want of memory.
fn take_unclaimed<'a>(
    found: &mut Vec<HeadDifference<'a>>,
    signals: &'a [Signal],
    claim: &Claim,
) -> Result<(), AllocError>
    ensures { OnOk result (Appends found.old.items found.new.items
        (unclaimed_in claim.now.channels signals.entry.now)) }
{
    for signal in signals {
        let label = signal.label();
        let is_extra = !signal.is_annotations() && !claim.keeps_channel(label);
        take_if(found, is_extra, HeadDifference::ExtraChannel(label))?;
    }
    Ok(())
}

impl<'a> Comparison<'a> {
    /// The signals of the export.
    fn exported(&self) -> &'a [Signal]
        ensures { result.now ≡ self.now.export.signals }
    {
        self.export.header.signals()
    }

    /// Takes in each of these subfields that isn't as claimed.
    ///
    /// The error is want of memory.
    fn take_subfields(
        &self,
        found: &mut Vec<HeadDifference<'a>>,
        whiches: &[Which],
    ) -> Result<(), AllocError>
        ensures { OnOk result (Adds found.old.items found.new.items (IsBrokenAmong self.now whiches.now)) }
    {
        for which in whiches {
            take_some(found, *which, self.subfield_mismatch(*which))?;
        }
        Ok(())
    }

    /// All rules that are broken.
    ///
    /// The error is want of memory.
    fn differences(&self, alloc: Global) -> Result<Vec<HeadDifference<'a>>, AllocError>
        ensures { IfOk result (λ found. AreAllBrokenIn self.now found.items) }
    {
        let mut found = Vec::new(alloc);
        take_channels(&mut found, &self.claimed)?;
        take_unclaimed(&mut found, self.exported(), self.claim)?;
        self.take_subfields(&mut found, Which::all())?;
        take_if(
            &mut found,
            !self.is_header_blank(),
            HeadDifference::FreeTextInHeader,
        )?;
        Ok(found)
    }
}

/// Every rule of the headers of an original and its export that is broken under a claim, and no other: of each claimed
/// channel, in the claim's order, whether it is in both files, its texts, its calibration and its free text; then the
/// channels of the export that aren't claimed, the subfields in their written order, and the free text of the header (EDF,
/// "Header record"; EDF+, "Additional specifications in EDF+"; which of it an export keeps is this project's profile).
///
/// The error is want of memory.
pub fn head_differences<'a>(
    alloc: Global,
    original: &'a Header,
    export: &'a Header,
    claim: &'a Claim,
) -> Result<Vec<HeadDifference<'a>>, AllocError>
    ensures { IfOk result (λ found. AreAllBroken original.entry.now export.entry.now claim.entry.now
        (map difference_of found.items)) }
{
    let comparison = Comparison::new(alloc, original, export, claim)?;
    comparison.differences(alloc)
}
