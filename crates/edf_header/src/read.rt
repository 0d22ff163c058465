//! Reading a header from a source.

ghost use Rattle.std.specs.Prelude.{◌≡◌, ◌+◌, ◌*◌, ◌/◌, ◌≤◌, ◌<◌, ◌^◌, length, take, drop, None, Some, IfOk, IfErr, OnOk, IsTrue};
ghost use Rattle.edf_fields.specs.in_out.Sources.{Fails};
ghost use Rattle.edf_fields.specs.Tests.{first};
ghost use Rattle.edf_fields.specs.declared.faults.fault.Cause.TheVariants.{Truncated};
ghost use Rattle.edf_fields.specs.declared.faults.fault.Place.TheVariants.{AtSignal};
ghost use Rattle.edf_header.specs.Conforming.{HeaderConforms};
ghost use Rattle.edf_header.specs.Faults.{columns_missing, columns_tests, header_fault};
ghost use Rattle.edf_header.specs.Heads.{HasHead, header_bytes};
ghost use Rattle.edf_header.specs.HeadsReading.{head_of};
ghost use Rattle.edf_header.specs.HeaderParts.{IsFixed, IsBody};
ghost use Rattle.edf_fields.specs.fields.LayoutReading.{columns as all_columns, next_before, AreAdjacent};
ghost use Rattle.edf_header.specs.Narrow.{all_bytes, AreColumns};
ghost use Rattle.edf_header.specs.Sound.{IsSound};
ghost use Rattle.edf_header.specs.Stops.{Stops};

use crate::fixed_part::fixed::{Fixed, judge_fixed};
use crate::header::Header;
use crate::in_columns::column::Column;
use crate::in_columns::columns::Columns;
use crate::in_columns::judge_columns::{Body, judge_columns};
use crate::stop::Stop;
use edf_fields::{Cause, Fault, Place, SignalField, Source, fill};
use std::alloc::Global;

/// The next `count` bytes of a source, or all that there are.
///
/// The error is want of memory, or a failure of the source.
pub fn next_bytes<S: Source>(alloc: Global, source: &mut S, count: usize) -> Result<Vec<u8>, Stop>
    ensures honesty { OnOk result (IsTrue (S.is_honest source.old) → IsTrue (S.is_honest source.new)) }
    ensures failures { OnOk result (S.reads source.new ≡ S.reads source.old) }
    ensures front { IfOk result (λ v. IsTrue (S.is_honest source.old) →
        v.items ≡ take count (S.left source.old)) }
    ensures behind { OnOk result (IsTrue (S.is_honest source.old) →
        S.left source.new ≡ drop count (S.left source.old)) }
    ensures within { IfOk result (λ v. length v.items ≤ count) }
    ensures stop { IfErr result (Stops (λ _. ⊥) (Fails (S.reads source.old) (S.reads source.new))
        (S.reads source.new ≡ S.reads source.old)) }
{
    let mut bytes = vec![in alloc; 0u8; count]?;
    let got = fill(source, &mut bytes)?;
    bytes.truncate(got);
    Ok(bytes)
}

/// What is wrong with a column of which only the first bytes are there: its first missing byte.
fn cut_short(field: SignalField, width: usize, there: usize) -> Fault
    requires some { 0 < width }
    requires few { there / width < 2 ^ 16 }
    ensures { result ≡ record { place = AtSignal (there / width) field; cause = Truncated } }
{
    Fault {
        place: Place::AtSignal((there / width) as u16, field),
        cause: Cause::Truncated,
    }
}

/// The columns of these fields, which stand one behind the other up to the end of the header, or the first
/// byte of them that is missing. The bytes of one column at a time are in memory as they stand in the file.
fn read_each<S: Source>(
    alloc: Global,
    source: &mut S,
    fields: &[SignalField],
    signals: u16,
) -> Result<Vec<Column>, Stop>
    requires adjacent { AreAdjacent fields.now }
    requires start { next_before fields.now ≡ 0 }
    ensures honesty { OnOk result (IsTrue (S.is_honest source.old) → IsTrue (S.is_honest source.new)) }
    ensures failures { OnOk result (S.reads source.new ≡ S.reads source.old) }
    ensures columns { IfOk result (λ v. AreColumns signals fields.now v.items) }
    ensures front { IfOk result (λ v. IsTrue (S.is_honest source.old) →
        all_bytes v.items ≡ take (256 * signals) (S.left source.old)) }
    ensures behind { OnOk result (IsTrue (S.is_honest source.old) →
        S.left source.new ≡ drop (256 * signals) (S.left source.old)) }
    ensures stop { IfErr result (Stops (λ f. IsTrue (S.is_honest source.old) →
        first (columns_missing fields.now signals (length (take (256 * signals) (S.left source.old)))) ≡
        Some f) (Fails (S.reads source.old) (S.reads source.new)) (S.reads source.new ≡ S.reads source.old)) }
{
    let count = usize::from(signals);
    let mut columns = Vec::with_capacity(alloc, fields.len())?;
    for field in fields {
        let width = field.width();
        let bytes = next_bytes(alloc, source, width * count)?;
        if bytes.len() < width * count {
            return Err(Stop::Fault(cut_short(*field, width, bytes.len())));
        }
        columns.push(Column::new(alloc, &bytes, width, count)?)?;
    }
    Ok(columns)
}

/// The columns in file order.
const COLUMNS: [SignalField; 10] = [
    SignalField::Label,
    SignalField::Transducer,
    SignalField::Dimension,
    SignalField::PhysicalMinimum,
    SignalField::PhysicalMaximum,
    SignalField::DigitalMinimum,
    SignalField::DigitalMaximum,
    SignalField::Prefilter,
    SignalField::Samples,
    SignalField::Reserved,
];

/// The columns of so many signals, or the first byte of them that is missing.
#[tactic(auto, unfolding(edf_fields::specs::fields::LayoutReading::columns))]
fn read_columns<S: Source>(alloc: Global, source: &mut S, signals: u16) -> Result<Columns, Stop>
    ensures honesty { OnOk result (IsTrue (S.is_honest source.old) → IsTrue (S.is_honest source.new)) }
    ensures failures { OnOk result (S.reads source.new ≡ S.reads source.old) }
    ensures signals { IfOk result (λ c. c.signals ≡ signals) }
    ensures whole { IfOk result (λ c. 256 * c.signals ≤ length c.bytes) }
    ensures front { IfOk result (λ c. IsTrue (S.is_honest source.old) →
        c.bytes ≡ take (256 * signals) (S.left source.old)) }
    ensures behind { OnOk result (IsTrue (S.is_honest source.old) →
        S.left source.new ≡ drop (256 * signals) (S.left source.old)) }
    ensures stop { IfErr result (Stops (λ f. IsTrue (S.is_honest source.old) →
        first (columns_missing all_columns signals (length (take (256 * signals) (S.left source.old)))) ≡
        Some f) (Fails (S.reads source.old) (S.reads source.new)) (S.reads source.new ≡ S.reads source.old)) }
{
    let columns = read_each(alloc, source, &COLUMNS, signals)?;
    Ok(Columns { columns, signals })
}

/// The fixed part of a header, once its tests have passed: its bytes, and what they say.
#[derive(Drop)]
struct FixedPart {
    bytes: Vec<u8>,
    said: Fixed,
}

/// The columns of a header, once their tests have passed, and what they say.
#[derive(Drop)]
struct BodyPart {
    columns: Columns,
    said: Body,
}

/// The parts of a header, once their tests have passed.
#[derive(Drop)]
struct Parts {
    fixed: FixedPart,
    body: BodyPart,
}

/// The fixed part of the header of a file, or the first fault of the header.
fn read_fixed<S: Source>(alloc: Global, source: &mut S) -> Result<FixedPart, Stop>
    ensures failures { OnOk result (S.reads source.new ≡ S.reads source.old) }
    ensures stop { IfErr result (Stops (λ f. IsTrue (S.is_honest source.old) →
        header_fault (S.left source.old) ≡ Some f) (Fails (S.reads source.old) (S.reads source.new))
        (S.reads source.new ≡ S.reads source.old)) }
    ensures said { IfOk result (λ p. IsFixed p.bytes.items p.said) }
    ensures honesty { OnOk result (IsTrue (S.is_honest source.old) → IsTrue (S.is_honest source.new)) }
    ensures front { IfOk result (λ p. IsTrue (S.is_honest source.old) →
        p.bytes.items ≡ take 256 (S.left source.old)) }
    ensures behind { OnOk result (IsTrue (S.is_honest source.old) →
        S.left source.new ≡ drop 256 (S.left source.old)) }
{
    let bytes = next_bytes(alloc, source, 256)?;
    let said = judge_fixed(&bytes)?;
    Ok(FixedPart { bytes, said })
}

/// The columns of so many signals, or the first fault of the columns.
fn read_body<S: Source>(alloc: Global, source: &mut S, signals: u16) -> Result<BodyPart, Stop>
    requires few { signals < 10 ^ 4 }
    ensures failures { OnOk result (S.reads source.new ≡ S.reads source.old) }
    ensures stop { IfErr result (Stops (λ f. IsTrue (S.is_honest source.old) →
        first (columns_tests signals (take (256 * signals) (S.left source.old))) ≡ Some f)
        (Fails (S.reads source.old) (S.reads source.new)) (S.reads source.new ≡ S.reads source.old)) }
    ensures signals { IfOk result (λ p. p.columns.signals ≡ signals) }
    ensures said { IfOk result (λ p. IsBody p.columns p.said) }
    ensures honesty { OnOk result (IsTrue (S.is_honest source.old) → IsTrue (S.is_honest source.new)) }
    ensures front { IfOk result (λ p. IsTrue (S.is_honest source.old) →
        p.columns.bytes ≡ take (256 * signals) (S.left source.old)) }
    ensures behind { OnOk result (IsTrue (S.is_honest source.old) →
        S.left source.new ≡ drop (256 * signals) (S.left source.old)) }
{
    let columns = read_columns(alloc, source, signals)?;
    let said = judge_columns(alloc, &columns)?;
    Ok(BodyPart { columns, said })
}

/// The parts of the header of a file, or the first fault of the header.
fn read_parts<S: Source>(alloc: Global, source: &mut S) -> Result<Parts, Stop>
    ensures failures { OnOk result (S.reads source.new ≡ S.reads source.old) }
    ensures stop { IfErr result (Stops (λ f. IsTrue (S.is_honest source.old) →
        header_fault (S.left source.old) ≡ Some f) (Fails (S.reads source.old) (S.reads source.new))
        (S.reads source.new ≡ S.reads source.old)) }
    ensures fixed { IfOk result (λ p. IsFixed p.fixed.bytes.items p.fixed.said) }
    ensures signals { IfOk result (λ p. p.body.columns.signals ≡ p.fixed.said.extent.signals) }
    ensures body { IfOk result (λ p. IsBody p.body.columns p.body.said) }

    // What an honest source gives.
    ensures honesty { OnOk result (IsTrue (S.is_honest source.old) → IsTrue (S.is_honest source.new)) }
    ensures front { IfOk result (λ p. IsTrue (S.is_honest source.old) →
        p.fixed.bytes.items ≡ take 256 (S.left source.old)) }
    ensures bytes { IfOk result (λ p. IsTrue (S.is_honest source.old)
        → p.body.columns.bytes ≡ take (256 * p.fixed.said.extent.signals) (drop 256 (S.left source.old))) }
    ensures behind { IfOk result (λ p. IsTrue (S.is_honest source.old)
        → S.left source.new ≡ drop (256 * p.fixed.said.extent.signals) (drop 256 (S.left source.old))) }
{
    let fixed = read_fixed(alloc, source)?;
    let body = read_body(alloc, source, fixed.said.extent.signals)?;
    Ok(Parts { fixed, body })
}

impl Header {
    /// Reads the header of a file, from its first byte on, and takes no byte behind it.
    ///
    /// The header has 256 bytes and 256 more for each signal (EDF, "Header record"; EDF+, "The EDF+
    /// header"); what may stand in them is told in docs/PROFILE.md, "The whole header". A `Fault` is
    /// the first one in the order of tests that `header_fault` lists (specs/Faults.antt); a file that
    /// ends before its header does has one, too. `ReadFailed` comes only from a read that failed.
    ///
    /// On `OutOfMemory` and on a `Fault` no read failed. Memory is asked for only after the tests before
    /// it have passed; that `OutOfMemory` is answered only where it was refused is no contract's, but
    /// tested. After an error nothing is said of
    /// where the source stands.
    pub fn read<S: Source>(alloc: Global, source: &mut S) -> Result<Header, Stop>
        ensures sound { IfOk result IsSound }
        ensures failures { OnOk result (S.reads source.new ≡ S.reads source.old) }
        ensures stop { IfErr result (Stops (λ f. IsTrue (S.is_honest source.old) →
            header_fault (S.left source.old) ≡ Some f) (Fails (S.reads source.old) (S.reads source.new))
            (S.reads source.new ≡ S.reads source.old)) }

        // What an honest source gives.
        ensures honesty { OnOk result (IsTrue (S.is_honest source.old) → IsTrue (S.is_honest source.new)) }
        ensures passed { OnOk result (IsTrue (S.is_honest source.old) →
            header_fault (S.left source.old) ≡ None) }
        ensures value { IfOk result (λ h. IsTrue (S.is_honest source.old) → h ≡ head_of (S.left source.old)) }
        ensures says { IfOk result (λ h. IsTrue (S.is_honest source.old) → HasHead (S.left source.old) h) }
        ensures conforms { IfOk result (λ h. IsTrue (S.is_honest source.old) →
            HeaderConforms (S.left source.old) h) }
        ensures whole { IfOk result (λ h. IsTrue (S.is_honest source.old) →
            header_bytes h ≤ length (S.left source.old)) }
        ensures behind { IfOk result (λ h. IsTrue (S.is_honest source.old) →
            S.left source.new ≡ drop (header_bytes h) (S.left source.old)) }
    {
        let parts = read_parts(alloc, source)?;
        Ok(Header {
            front: parts.fixed.bytes,
            start: parts.fixed.said.start,
            extent: parts.fixed.said.extent,
            body: parts.body.said,
        })
    }
}
