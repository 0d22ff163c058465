//! The fields of one signal in their order, and the first fault of their texts.

ghost use Rattle.std.specs.Prelude.{◌≡◌, ◌*◌, ◌+◌, ◌≢◌, ◌≤◌, ◌<◌, ◌^◌, ◌<ℤ◌, pos, length, None, Some, MatchResult, IfOk, IfErr, unwrap_or, unsigned_abs};
ghost use Rattle.edf_fields.specs.Parts.{text_of};
ghost use Rattle.edf_fields.specs.texts.NumbersReading.{whole_number_of, header_number_of};
ghost use Rattle.edf_fields.specs.declared.fields.layout.SignalField.TheVariants.{Label, Transducer, Dimension, Prefilter, Samples, Reserved};
ghost use Rattle.edf_header.specs.signals.Extremes.{extremes_line};
ghost use Rattle.edf_header.specs.Faults.{text_fault, physical_fault, digital_fault, samples_fault, digital_order_fault, physical_differ_fault, annotation_fault, naming_faults, extreme_faults, sampling_faults, agreement_faults, signal_faults};
ghost use Rattle.edf_fields.specs.Tests.{first};
ghost use Rattle.edf_header.specs.HeadsReading.{line_of, signal_of};
ghost use Rattle.edf_fields.specs.fields.LayoutReading.{column_width};
ghost use Rattle.edf_header.specs.Narrow.{SaysTheSame};
ghost use Rattle.edf_header.specs.Stops.{Stops};

use crate::field::{count, printable, some_number, two_bytes};
use crate::in_columns::columns::Columns;
use crate::signals::calibration::Calibration;
use crate::signals::details::TextsOf;
use crate::signals::signal::{Signal, SignalNumbers};
use crate::stop::Stop;
use edf_fields::{
    ANNOTATIONS, Cause, Fault, Place, SignalField, header_number, header_whole, text,
};
use std::alloc::Global;

/// The extremes that the fields of a signal spell.
#[derive(Clone, Copy)]
pub(crate) struct Extremes {
    pub physical_minimum: i64,
    pub physical_maximum: i64,
    pub digital_minimum: i16,
    pub digital_maximum: i16,
}

/// Whether the digital extremes are in order.
#[tactic(auto, unfolding(crate::specs::Faults::digital_order_fault))]
fn digital_order(signal: u16, extremes: &Extremes) -> Result<(), Fault>
    ensures { MatchResult result (λ _. (digital_order_fault signal (extremes_line extremes.now) ≡ None) ×
        (extremes.now.digital_minimum <ℤ extremes.now.digital_maximum)) (λ f.
        digital_order_fault signal (extremes_line extremes.now) ≡ Some f) }
{
    if extremes.digital_minimum < extremes.digital_maximum {
        return Ok(());
    }
    Err(Fault {
        place: Place::AtSignal(signal, SignalField::DigitalMaximum),
        cause: Cause::BadRange,
    })
}

/// Whether the physical extremes differ.
#[tactic(auto, unfolding(crate::specs::Faults::physical_differ_fault))]
fn physical_differ(signal: u16, extremes: &Extremes) -> Result<(), Fault>
    ensures { MatchResult result (λ _. (physical_differ_fault signal (extremes_line extremes.now) ≡ None) ×
        (extremes.now.physical_minimum ≢ extremes.now.physical_maximum)) (λ f.
        physical_differ_fault signal (extremes_line extremes.now) ≡ Some f) }
{
    if extremes.physical_minimum != extremes.physical_maximum {
        return Ok(());
    }
    Err(Fault {
        place: Place::AtSignal(signal, SignalField::PhysicalMaximum),
        cause: Cause::BadRange,
    })
}

/// Whether an annotation signal has the digital extremes that it has to have.
#[tactic(auto, unfolding(crate::specs::Faults::annotation_fault))]
fn annotation_extremes(signal: u16, label: &[u8], extremes: &Extremes) -> Result<(), Fault>
    ensures { MatchResult result
        (λ _. annotation_fault signal label.now (extremes_line extremes.now) ≡ None)
        (λ f. annotation_fault signal label.now (extremes_line extremes.now) ≡ Some f) }
{
    let is_whole_range = extremes.digital_minimum == i16::MIN
        && extremes.digital_maximum == i16::MAX;
    if text(label) != ANNOTATIONS || is_whole_range {
        return Ok(());
    }
    Err(Fault {
        place: Place::AtSignal(signal, SignalField::Label),
        cause: Cause::BadAnnotationSignal,
    })
}

/// The fields of one signal of the columns.
#[derive(Clone, Copy)]
struct SignalFields<'a> {
    columns: &'a Columns,
    signal: u16,
    ghost some: { signal < (columns.now).signals },
}

impl<'a> SignalFields<'a> {
    ghost use Rattle.edf_header.specs.Views.{field_in};

    /// The bytes of a field; spaces at its end may be missing.
    #[tactic(auto, using(crate::proofs::in_columns::WideFacts::field_short))]
    fn bytes(self, field: SignalField) -> &'a [u8]
        ensures same { SaysTheSame result.now (field_in self.entry field) }
        ensures len { length result.now ≤ column_width field }
        ensures whole { length (field_in self.entry field) ≤ column_width field }
    {
        self.columns.field(self.signal, field)
    }

    /// A field that holds a text.
    #[tactic(auto, using(crate::proofs::in_columns::TextSameFacts::same_printable), unfolding(crate::specs::Faults::text_fault))]
    fn text(self, field: SignalField) -> Result<(), Fault>
        ensures { MatchResult result
            (λ _. text_fault self.entry.signal field (field_in self.entry field) ≡ None)
            (λ f. text_fault self.entry.signal field (field_in self.entry field) ≡ Some f) }
    {
        printable(Place::AtSignal(self.signal, field), self.bytes(field))
    }

    /// A physical extreme, in units of 10^-7.
    #[tactic(auto, using(crate::proofs::in_columns::TextSameFacts::same_printable, crate::proofs::in_columns::TextSameFacts::same_header_number), unfolding(crate::specs::Faults::physical_fault))]
    fn physical(self, field: SignalField) -> Result<i64, Fault>
        requires { column_width field ≤ 8 }
        ensures { MatchResult result (λ v.
            (physical_fault self.entry.signal field (field_in self.entry field) ≡ None) ×
            (unwrap_or (header_number_of (field_in self.entry field)) (pos 0) ≡ v) ×
            (unsigned_abs v < 10 ^ 15)) (λ f.
            physical_fault self.entry.signal field (field_in self.entry field) ≡ Some f) }
    {
        let place = Place::AtSignal(self.signal, field);
        printable(place, self.bytes(field))?;
        some_number(place, header_number(self.bytes(field)))
    }

    /// A digital extreme.
    #[tactic(auto, using(crate::proofs::in_columns::TextSameFacts::same_printable, crate::proofs::in_columns::TextSameFacts::same_whole_number), unfolding(crate::specs::Faults::digital_fault))]
    fn digital(self, field: SignalField) -> Result<i16, Fault>
        requires { column_width field ≤ 8 }
        ensures { MatchResult result
            (λ v. (digital_fault self.entry.signal field (field_in self.entry field) ≡ None)
            × (unwrap_or (whole_number_of (field_in self.entry field)) (pos 0) ≡ v))
            (λ f. digital_fault self.entry.signal field (field_in self.entry field) ≡ Some f) }
    {
        let place = Place::AtSignal(self.signal, field);
        printable(place, self.bytes(field))?;
        two_bytes(place, header_whole(self.bytes(field)))
    }

    /// How many samples the signal has in a data record: a whole number from 1 on.
    #[tactic(auto, using(crate::proofs::in_columns::TextSameFacts::same_printable, crate::proofs::in_columns::TextSameFacts::same_whole_number), unfolding(crate::specs::Faults::samples_fault))]
    fn samples(self) -> Result<u32, Fault>
        ensures { MatchResult result
            (λ v. (samples_fault self.entry.signal (field_in self.entry Samples) ≡ None)
            × (whole_number_of (field_in self.entry Samples) ≡ Some (pos v)) × (1 ≤ v) × (v < 10 ^ 8))
            (λ f. samples_fault self.entry.signal (field_in self.entry Samples) ≡ Some f) }
    {
        let place = Place::AtSignal(self.signal, SignalField::Samples);
        let bytes = self.bytes(SignalField::Samples);
        printable(place, bytes)?;
        count(place, bytes)
    }

    /// Label, transducer and dimension.
    fn judge_naming(self) -> Result<(), Fault>
        ensures { MatchResult result (λ _.
            first (naming_faults (self.entry.columns.now).bytes (self.entry.columns.now).signals
            self.entry.signal) ≡ None) (λ f.
            first (naming_faults (self.entry.columns.now).bytes (self.entry.columns.now).signals
            self.entry.signal) ≡ Some f) }
    {
        self.text(SignalField::Label)?;
        self.text(SignalField::Transducer)?;
        self.text(SignalField::Dimension)
    }

    /// The extremes.
    fn judge_extremes(self) -> Result<Extremes, Fault>
        ensures { MatchResult result (λ v.
            (first (extreme_faults (self.entry.columns.now).bytes (self.entry.columns.now).signals
            self.entry.signal) ≡ None) ×
            (extremes_line v ≡ line_of (self.entry.columns.now).bytes (self.entry.columns.now).signals
            self.entry.signal) × (unsigned_abs v.physical_minimum < 10 ^ 15) ×
            (unsigned_abs v.physical_maximum < 10 ^ 15)) (λ f.
            first (extreme_faults (self.entry.columns.now).bytes (self.entry.columns.now).signals
            self.entry.signal) ≡ Some f) }
    {
        Ok(Extremes {
            physical_minimum: self.physical(SignalField::PhysicalMinimum)?,
            physical_maximum: self.physical(SignalField::PhysicalMaximum)?,
            digital_minimum: self.digital(SignalField::DigitalMinimum)?,
            digital_maximum: self.digital(SignalField::DigitalMaximum)?,
        })
    }

    /// Prefilter, samples and reserved: how many samples the signal has in a data record.
    fn judge_sampling(self) -> Result<u32, Fault>
        ensures { MatchResult result (λ v.
            (first (sampling_faults (self.entry.columns.now).bytes (self.entry.columns.now).signals
            self.entry.signal) ≡ None) × (whole_number_of (field_in self.entry Samples) ≡ Some (pos v)) ×
            (v < 10 ^ 8)) (λ f.
            first (sampling_faults (self.entry.columns.now).bytes (self.entry.columns.now).signals
            self.entry.signal) ≡ Some f) }
    {
        self.text(SignalField::Prefilter)?;
        let samples = self.samples()?;
        self.text(SignalField::Reserved)?;
        Ok(samples)
    }

    /// Whether an annotation signal has the digital extremes that it has to have.
    #[tactic(auto, using(crate::proofs::in_columns::TextSameFacts::same_annotation))]
    fn judge_annotation(self, extremes: &Extremes) -> Result<(), Fault>
        ensures { MatchResult result (λ _. annotation_fault self.entry.signal (field_in self.entry Label)
            (extremes_line extremes.now) ≡ None) (λ f.
            annotation_fault self.entry.signal (field_in self.entry Label) (extremes_line extremes.now) ≡
            Some f) }
    {
        annotation_extremes(self.signal, self.bytes(SignalField::Label), extremes)
    }

    /// The line that the fields of the signal give together.
    fn judge_agreement(self, extremes: &Extremes) -> Result<Calibration, Fault>
        requires small_minimum { unsigned_abs extremes.now.physical_minimum < 10 ^ 15 }
        requires small_maximum { unsigned_abs extremes.now.physical_maximum < 10 ^ 15 }
        ensures { MatchResult result (λ v.
            (first (agreement_faults self.entry.signal (field_in self.entry Label)
            (extremes_line extremes.now)) ≡ None) × (v ≡ extremes_line extremes.now)) (λ f.
            first (agreement_faults self.entry.signal (field_in self.entry Label)
            (extremes_line extremes.now)) ≡ Some f) }
    {
        digital_order(self.signal, extremes)?;
        physical_differ(self.signal, extremes)?;
        self.judge_annotation(extremes)?;
        Ok(Calibration::new(
            extremes.physical_minimum,
            extremes.physical_maximum,
            extremes.digital_minimum,
            extremes.digital_maximum,
        ))
    }

    /// The numbers of the signal, or the first fault of its fields.
    #[tactic(auto, using(crate::proofs::signals::SignalFacts::naming_found))]
    fn numbers(self) -> Result<SignalNumbers, Fault>
        ensures { MatchResult result (λ v.
            (first (signal_faults (self.entry.columns.now).bytes (self.entry.columns.now).signals
            self.entry.signal) ≡ None) ×
            (v.calibration ≡ line_of (self.entry.columns.now).bytes (self.entry.columns.now).signals
            self.entry.signal) × (whole_number_of (field_in self.entry Samples) ≡ Some (pos v.samples)) ×
            (v.samples < 10 ^ 8)) (λ f.
            first (signal_faults (self.entry.columns.now).bytes (self.entry.columns.now).signals
            self.entry.signal) ≡ Some f) }
    {
        self.judge_naming()?;
        let extremes = self.judge_extremes()?;
        let samples = self.judge_sampling()?;
        let calibration = self.judge_agreement(&extremes)?;
        Ok(SignalNumbers {
            calibration,
            samples,
        })
    }

    /// The texts of the fields.
    fn texts(self) -> TextsOf<'a>
        ensures label { (result.label.now ≡ text_of (field_in self.entry Label)) ×
            (length result.label.now ≤ 16) }
        ensures transducer { (result.transducer.now ≡ text_of (field_in self.entry Transducer)) ×
            (length result.transducer.now ≤ 80) }
        ensures dimension { (result.dimension.now ≡ text_of (field_in self.entry Dimension)) ×
            (length result.dimension.now ≤ 8) }
        ensures prefilter { (result.prefilter.now ≡ text_of (field_in self.entry Prefilter)) ×
            (length result.prefilter.now ≤ 80) }
        ensures reserved { (result.reserved.now ≡ text_of (field_in self.entry Reserved)) ×
            (length result.reserved.now ≤ 32) }
    {
        TextsOf {
            label: text(self.bytes(SignalField::Label)),
            transducer: text(self.bytes(SignalField::Transducer)),
            dimension: text(self.bytes(SignalField::Dimension)),
            prefilter: text(self.bytes(SignalField::Prefilter)),
            reserved: text(self.bytes(SignalField::Reserved)),
        }
    }
}

/// A signal, with `offset` bytes and this signal before it in a data record, or the first fault of its
/// fields.
pub(crate) fn judge_signal(
    alloc: Global,
    columns: &Columns,
    signal: u16,
    offset: u64,
    before: Option<&Signal>,
) -> Result<Signal, Stop>
    requires { signal < columns.now.signals }
    ensures ok { IfOk result (λ v.
        (first (signal_faults columns.entry.now.bytes columns.entry.now.signals signal) ≡ None) ×
        (v ≡ signal_of columns.entry.now.bytes columns.entry.now.signals signal offset) ×
        (v.samples < 10 ^ 8)) }
    ensures stop { IfErr result
        (Stops (λ f. first (signal_faults columns.entry.now.bytes columns.entry.now.signals signal) ≡ Some f)
        ⊥ (Unit {0})) }
{
    let fields = SignalFields { columns, signal };
    let numbers = fields.numbers()?;
    Ok(Signal::new(alloc, fields.texts(), numbers, offset, before)?)
}
