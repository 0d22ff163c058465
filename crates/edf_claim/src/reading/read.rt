//! Reading a claim from its text.

ghost use Rattle.std.specs.Prelude.{◌≡◌, ◌≢◌, map, IfOk, IfErr, OnOk, None, Some, IsUtf8};
ghost use Rattle.edf_claim.specs.ClaimValues.{ClaimValue};
ghost use Rattle.toml.specs.Parse.{parse_document};
ghost use Rattle.toml.specs.View.{table_view};
ghost use Rattle.edf_claim.specs.declared.stop.ClaimStop.TheVariants as stops;
ghost use Rattle.edf_claim.specs.Claims.{IsClaim, SaysClaimAtAnyLength, SaysClaimText};
ghost use Rattle.edf_claim.specs.Faults.{FirstClaimFault};
ghost use Rattle.edf_claim.specs.Reading.{claim_fault, terms_of, channels_of, keep_of, anonymous_of, shift_of, remove_of, remove_prefix_of, blank_of};

use crate::kept::claim::{Claim, MOST_CLAIM_BYTES};
use crate::kept::interval::Interval;
use crate::kept::note_texts::NoteTexts;
use crate::reading::anonymous::anonymous;
use crate::reading::blank::blank;
use crate::reading::channels::channels;
use crate::reading::format::has_format;
use crate::reading::keep::keep;
use crate::reading::keys::has_keys_of_format;
use crate::reading::remove::{remove, remove_prefix};
use crate::reading::shift::shift;
use crate::stop::ClaimStop;
use edf_fields::{SignalLabel, Which};
use std::alloc::Global;
use toml::Table;

/// The table of a text.
fn read_table(alloc: Global, text: &[u8]) -> Result<Table, ClaimStop>
    ensures ok { IfOk result (λ t. IsUtf8 text.now × (parse_document text.now ≡ Some (table_view t))) }
    ensures stop { IfErr result (λ e. e ≢ stops.OutOfMemory → (e ≡ stops.NotToml) ×
        (IsUtf8 text.now → parse_document text.now ≡ None)) }
{
    match toml::table_from_slice(alloc, text) {
        Ok(table) => Ok(table),
        Err(fault) if fault.is_memory() => Err(ClaimStop::OutOfMemory),
        Err(_) => Err(ClaimStop::NotToml),
    }
}

/// What a table says of what is kept, and of what is made anonymous.
#[derive(Drop)]
struct KeyLists {
    channels: Vec<SignalLabel>,
    keep: Vec<Interval>,
    anonymous: Vec<Which>,
}

/// The claim of these parts, which are those that the table says.
fn claim_of(_table: &Table, lists: KeyLists, shift: i64, texts: NoteTexts) -> Claim
    requires passed { claim_fault (table_view _table.now) ≡ None }
    requires channels { channels_of (table_view _table.now) ≡ Some lists.channels.items }
    requires keep { keep_of (table_view _table.now) ≡ Some lists.keep.items }
    requires anonymous { anonymous_of (table_view _table.now) ≡ Some lists.anonymous.items }
    requires shift { shift_of (table_view _table.now) ≡ Some shift }
    requires remove { remove_of (table_view _table.now) ≡ Some (map (λ t. t.items) texts.remove.items) }
    requires remove_prefix { remove_prefix_of (table_view _table.now) ≡
        Some (map (λ t. t.items) texts.remove_prefix.items) }
    requires blank { blank_of (table_view _table.now) ≡ Some (map (λ t. t.items) texts.blank.items) }
    ensures { result ≡ terms_of (table_view _table.now) }
{
    Claim {
        channels: lists.channels,
        keep: lists.keep,
        anonymous: lists.anonymous,
        shift,
        texts,
    }
}

/// The claim that a table says, or its first fault.
#[tactic(auto, unfolding(crate::specs::Reading::claim_fault))]
fn claim_in(alloc: Global, table: &Table) -> Result<Claim, ClaimStop>
    ensures passed { OnOk result (claim_fault (table_view table.now) ≡ None) }
    ensures value { IfOk result (λ c. c ≡ terms_of (table_view table.now)) }
    ensures stop { IfErr result (λ e. e ≢ stops.OutOfMemory → claim_fault (table_view table.now) ≡ Some e) }
{
    if !has_format(table) {
        return Err(ClaimStop::BadFormat);
    }
    if !has_keys_of_format(table) {
        return Err(ClaimStop::UnknownKey);
    }
    let Some(channels) = channels(alloc, table)? else {
        return Err(ClaimStop::BadChannels);
    };
    let Some(keep) = keep(alloc, table)? else {
        return Err(ClaimStop::BadKeep);
    };
    let Some(anonymous) = anonymous(alloc, table)? else {
        return Err(ClaimStop::BadAnonymous);
    };
    let Some(shift) = shift(table) else {
        return Err(ClaimStop::BadShift);
    };
    let Some(remove) = remove(alloc, table)? else {
        return Err(ClaimStop::BadRemove);
    };
    let Some(remove_prefix) = remove_prefix(alloc, table)? else {
        return Err(ClaimStop::BadRemovePrefix);
    };
    let Some(blank) = blank(alloc, table)? else {
        return Err(ClaimStop::BadBlank);
    };
    let texts = NoteTexts::new(alloc, remove, remove_prefix, blank)?;
    let lists = KeyLists {
        channels,
        keep,
        anonymous,
    };
    Ok(claim_of(table, lists, shift, texts))
}

impl Claim {
    /// The claim that a text says: TOML of at most 65,536 bytes with the keys of docs/CLAIM.md.
    ///
    /// Of several causes why a text says no claim, the first in the order of `ClaimStop` is
    /// answered. `OutOfMemory` comes only from memory that was refused, and at once.
    pub fn read(alloc: Global, text: &[u8]) -> Result<Claim, ClaimStop>
        ensures says { IfOk result (SaysClaimText text.now) }
        ensures fault { IfErr result (λ e. e ≢ stops.OutOfMemory → FirstClaimFault text.now e) }
    {
        if text.len() > MOST_CLAIM_BYTES {
            return Err(ClaimStop::TooLong);
        }
        let table = read_table(alloc, text)?;
        claim_in(alloc, &table)
    }

    /// The claim that a text says, however long it is: TOML with the keys of docs/CLAIM.md.
    ///
    /// A text that is no longer than a claim may be is one that `read` takes, or that it refuses for the same cause.
    pub fn read_at_any_length(alloc: Global, text: &[u8]) -> Result<Claim, ClaimStop>
        ensures says { IfOk result (SaysClaimAtAnyLength text.now) }
        ensures none { IfErr result (λ e. e ≢ stops.OutOfMemory → (c : ClaimValue) →
            ¬ SaysClaimAtAnyLength text.now c) }
    {
        let said = read_table(alloc, text)?;
        claim_in(alloc, &said)
    }
}
