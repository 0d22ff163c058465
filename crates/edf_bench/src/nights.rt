//! Nights in memory: contiguous EDF+ files, each with as many channels, data records and annotations as is said.

use crate::noise::{Noise, bytes_of};
use edf_fields::{FixedField, Place, SignalField};
use edf_rows::{HeaderTexts, push_header};
use std::alloc::{AllocError, Global};

/// Where the samples of a channel are taken from: so many bytes, and behind them those from the front again.
const VALUES: usize = 1 << 20;

/// The most bytes of a channel in a data record.
const LANE: usize = 1 << 16;

/// The texts of annotations. A claim removes the last ones.
pub const TEXTS: &[&str] = &[
    "Sleep stage W",
    "Sleep stage N1",
    "Sleep stage N2",
    "Sleep stage N3",
    "Sleep stage R",
    "EEG arousal",
    "Limb movement",
    "Obstructive apnea",
    "Hypopnea",
    "Desaturation",
    "Spike",
    "Lights off",
    "Calls the technician",
    "Mrs. Haagse asks for water",
    "Électrode C3 refixée",
];

/// An annotation: the tenth of a second behind the night's begin at which it stands, how long it lasts in
/// seconds, where it does, and which of the texts it has.
#[derive(Clone, Copy)]
pub struct Event {
    pub tenth: u32,
    pub seconds: u32,
    pub text: usize,
}

/// What a recorder gives: the samples of each channel in a second, and what their values are taken from.
#[derive(Drop)]
pub struct Recorder {
    rates: Vec<u32>,
    values: Vec<u8>,
}

impl Recorder {
    /// A recorder of channels with these rates.
    pub fn new(alloc: Global, noise: &mut Noise, rates: &[u32]) -> Result<Recorder, AllocError> {
        let mut values = bytes_of(alloc, noise, VALUES)?;
        let front = Vec::from_slice(alloc, values.get(..LANE).unwrap_or(&[]))?;
        values.extend_from_slice(&front)?;
        Ok(Recorder {
            rates: Vec::from_slice(alloc, rates)?,
            values,
        })
    }

    /// How many channels it has.
    pub fn channels(&self) -> usize {
        self.rates.len()
    }

    /// The samples of a channel between two seconds, one behind the other.
    fn samples(&self, channel: usize, rate: u32, begin: u32, seconds: u32) -> &[u8] {
        let bytes = 2 * u64::from(rate);
        let from = bytes
            .wrapping_mul(u64::from(begin))
            .wrapping_add((channel as u64).wrapping_mul(15_838));
        let from = (from % VALUES as u64) as usize;
        let size = bytes.wrapping_mul(u64::from(seconds)) as usize;
        self.values
            .get(from..from.saturating_add(size))
            .unwrap_or(&[])
    }
}

/// How a file is cut: which second of the night is its first one, how many seconds it has, how many of them a
/// data record has, how many bytes the annotation lane of one has, and whether it says who the patient is.
#[derive(Clone, Copy)]
pub struct Cut {
    pub first: u32,
    pub seconds: u32,
    pub step: u32,
    pub lane: u32,
    pub is_anonymous: bool,
}

/// The name of a channel.
pub fn label_of(alloc: Global, channel: usize) -> Result<String, AllocError> {
    format!(in alloc; "C{channel}")
}

/// A time of the day, so many seconds after 20.00.00.
fn clock_of(alloc: Global, seconds: u32) -> Result<String, AllocError> {
    let hours = (20 + (seconds / 3600) % 4).to_string(alloc)?;
    let tens = (seconds / 600) % 6;
    let minutes = (seconds / 60) % 10;
    let rest = (seconds / 10) % 6;
    let ones = seconds % 10;
    format!(in alloc; "{hours}.{tens}{minutes}.{rest}{ones}")
}

/// The texts of a night's header that are numbers or follow from them: those of the fixed part, and for each channel,
/// and behind them for the annotation signal, its label and its samples in a data record.
#[derive(Drop)]
struct NightTexts {
    is_anonymous: bool,
    starttime: String,
    header_bytes: String,
    records: String,
    duration: String,
    count: String,
    labels: Vec<String>,
    samples: Vec<String>,
}

impl NightTexts {
    /// Those of the file of a recorder, cut like this.
    fn new(alloc: Global, recorder: &Recorder, cut: Cut) -> Result<NightTexts, AllocError> {
        let signals = (recorder.channels() as u64).wrapping_add(1);
        Ok(NightTexts {
            is_anonymous: cut.is_anonymous,
            starttime: clock_of(alloc, cut.first)?,
            header_bytes: signals.wrapping_add(1).wrapping_mul(256).to_string(alloc)?,
            records: u64::from(cut.seconds / cut.step.max(1)).to_string(alloc)?,
            duration: u64::from(cut.step).to_string(alloc)?,
            count: signals.to_string(alloc)?,
            labels: labels_of(alloc, recorder.channels())?,
            samples: samples_of(alloc, recorder, cut)?,
        })
    }

    /// The text of a field of the fixed part.
    fn fixed(&self, field: FixedField) -> &str {
        match field {
            FixedField::Version => "0",
            FixedField::Patient if self.is_anonymous => "X F X X",
            FixedField::Patient => "MCH-0234567 F 02-MAY-1951 Haagse_Harry",
            FixedField::Recording => "Startdate 02-MAR-2002 PSG-1234/2002 NN Telemetry03",
            FixedField::Startdate => "02.03.02",
            FixedField::Starttime => &self.starttime,
            FixedField::HeaderBytes => &self.header_bytes,
            FixedField::Reserved => "EDF+C",
            FixedField::Records => &self.records,
            FixedField::Duration => &self.duration,
            FixedField::Signals => &self.count,
        }
    }

    /// The text of a signal's field.
    fn of_signal(&self, signal: usize, field: SignalField) -> &str {
        let is_channel = signal.saturating_add(1) < self.labels.len();
        match field {
            SignalField::Label => text_at(&self.labels, signal),
            SignalField::Samples => text_at(&self.samples, signal),
            SignalField::Transducer if is_channel => "AgAgCl electrode",
            SignalField::Dimension if is_channel => "uV",
            SignalField::PhysicalMinimum if is_channel => "-3276.8",
            SignalField::PhysicalMinimum => "-1",
            SignalField::PhysicalMaximum if is_channel => "3276.7",
            SignalField::PhysicalMaximum => "1",
            SignalField::DigitalMinimum => "-32768",
            SignalField::DigitalMaximum => "32767",
            SignalField::Prefilter if is_channel => "HP:0.1Hz LP:75Hz",
            _ => "",
        }
    }
}

impl HeaderTexts for NightTexts {
    fn signals(&self) -> u16 {
        u16::try_from(self.labels.len()).unwrap_or(u16::MAX)
    }

    fn text(&self, place: Place) -> &str {
        match place {
            Place::AtField(field) => self.fixed(field),
            Place::AtSignal(signal, field) => self.of_signal(usize::from(signal), field),
            Place::AtRecord(_) | Place::AtEnd => "",
        }
    }
}

/// One of some texts, by its place.
fn text_at(texts: &[String], place: usize) -> &str {
    match texts.get(place) {
        Some(text) => text,
        None => "",
    }
}

/// The labels of so many channels, and behind them that of annotation signals.
fn labels_of(alloc: Global, channels: usize) -> Result<Vec<String>, AllocError> {
    let mut labels = Vec::with_capacity(alloc, channels.saturating_add(1))?;
    for channel in 0..channels {
        labels.push(label_of(alloc, channel)?)?;
    }
    labels.push(format!(in alloc; "EDF Annotations")?)?;
    Ok(labels)
}

/// How many samples each signal has in a data record.
fn samples_of(alloc: Global, recorder: &Recorder, cut: Cut) -> Result<Vec<String>, AllocError> {
    let mut texts = Vec::with_capacity(alloc, recorder.channels().saturating_add(1))?;
    for rate in &recorder.rates {
        let samples = u64::from(*rate).wrapping_mul(u64::from(cut.step));
        texts.push(samples.to_string(alloc)?)?;
    }
    texts.push(u64::from(cut.lane / 2).to_string(alloc)?)?;
    Ok(texts)
}

/// Puts an annotation behind the file, in a file that begins with this second of the night.
fn push_event(
    file: &mut Vec<u8>,
    alloc: Global,
    event: Event,
    first: u32,
) -> Result<(), AllocError> {
    let tenths = event.tenth.saturating_sub(first.saturating_mul(10));
    let second = tenths / 10;
    let tenth = tenths % 10;
    let text = TEXTS.get(event.text).copied().unwrap_or("");
    let onset = if tenth == 0 {
        format!(in alloc; "+{second}")?
    } else {
        format!(in alloc; "+{second}.{tenth}")?
    };
    file.extend_from_slice(onset.as_bytes())?;
    if event.seconds > 0 {
        let length = event.seconds.to_string(alloc)?;
        file.push(21)?;
        file.extend_from_slice(length.as_bytes())?;
    }
    file.push(20)?;
    file.extend_from_slice(text.as_bytes())?;
    file.push(20)?;
    file.push(0).map_err(|_| AllocError)
}

/// A data record of a file that is cut like this: which annotations it holds, and how many seconds after the file it
/// begins.
#[derive(Clone, Copy)]
struct CutRecord<'a> {
    events: &'a [Event],
    cut: Cut,
    begin: u32,
}

/// Puts the annotation lane of a data record behind the file.
fn push_lane(file: &mut Vec<u8>, alloc: Global, record: CutRecord<'_>) -> Result<(), AllocError> {
    let CutRecord { events, cut, begin } = record;
    let end = file.len().saturating_add(cut.lane as usize);
    let onset = begin.to_string(alloc)?;
    file.push(b'+')?;
    file.extend_from_slice(onset.as_bytes())?;
    file.extend_from_slice(b"\x14\x14\0")?;
    for event in events {
        push_event(file, alloc, *event, cut.first)?;
    }
    file.resize(end, 0)
}

/// Puts a data record behind the file.
fn push_record(
    file: &mut Vec<u8>,
    alloc: Global,
    recorder: &Recorder,
    record: CutRecord<'_>,
) -> Result<(), AllocError> {
    let CutRecord { cut, begin, .. } = record;
    let second = cut.first.saturating_add(begin);
    for (channel, rate) in recorder.rates.iter().enumerate() {
        file.extend_from_slice(recorder.samples(channel, *rate, second, cut.step))?;
    }
    push_lane(file, alloc, record)
}

/// How many bytes a file has.
fn size_of(recorder: &Recorder, cut: Cut) -> usize {
    let mut second = 0u64;
    for rate in &recorder.rates {
        second = second.wrapping_add(2 * u64::from(*rate));
    }
    let records = u64::from(cut.seconds / cut.step.max(1));
    let record = second
        .wrapping_mul(u64::from(cut.step))
        .wrapping_add(u64::from(cut.lane));
    let head = (recorder.channels() as u64)
        .wrapping_add(2)
        .wrapping_mul(256);
    records.wrapping_mul(record).wrapping_add(head) as usize
}

/// The file of a recorder, cut like this, with these annotations, spread evenly over its data records.
pub fn file_of(
    alloc: Global,
    recorder: &Recorder,
    events: &[Event],
    cut: Cut,
) -> Result<Vec<u8>, AllocError> {
    let mut file = Vec::with_capacity(alloc, size_of(recorder, cut))?;
    push_header(&mut file, &NightTexts::new(alloc, recorder, cut)?)?;
    let records = cut.seconds / cut.step.max(1);
    let mut done = 0usize;
    for record in 0..records {
        let due = (record as u64)
            .wrapping_add(1)
            .wrapping_mul(events.len() as u64);
        let due = (due / u64::from(records.max(1))) as usize;
        let here = events.get(done..due).unwrap_or(&[]);
        let begin = record.wrapping_mul(cut.step);
        let cut_record = CutRecord {
            events: here,
            cut,
            begin,
        };
        push_record(&mut file, alloc, recorder, cut_record)?;
        done = due;
    }
    Ok(file)
}

/// So many annotations within so many seconds, in the order of their onsets.
pub fn events_of(
    alloc: Global,
    noise: &mut Noise,
    count: u32,
    seconds: u32,
) -> Result<Vec<Event>, AllocError> {
    let mut events = Vec::with_capacity(alloc, count as usize)?;
    let tenths = u64::from(seconds.wrapping_mul(10));
    for number in 0..count {
        let place = u64::from(number).wrapping_mul(tenths) / u64::from(count.max(1));
        events.push(Event {
            tenth: place as u32,
            seconds: noise.below(4).wrapping_mul(15),
            text: noise.below(TEXTS.len() as u32) as usize,
        })?;
    }
    Ok(events)
}

/// Those of them that have one of the first texts, so many.
pub fn without_last(
    alloc: Global,
    events: &[Event],
    texts: usize,
) -> Result<Vec<Event>, AllocError> {
    let mut kept = Vec::with_capacity(alloc, events.len())?;
    for event in events {
        if event.text < texts {
            kept.push(*event)?;
        }
    }
    Ok(kept)
}

/// Those of them that stand between two seconds.
pub fn within(
    alloc: Global,
    events: &[Event],
    from: u32,
    to: u32,
) -> Result<Vec<Event>, AllocError> {
    let mut kept = Vec::with_capacity(alloc, events.len())?;
    for event in events {
        if from.saturating_mul(10) <= event.tenth && event.tenth < to.saturating_mul(10) {
            kept.push(*event)?;
        }
    }
    Ok(kept)
}

/// The same in the order of the texts, as a scorer who goes over the night once for each of them leaves them.
pub fn by_text(alloc: Global, events: &[Event]) -> Result<Vec<Event>, AllocError> {
    let mut ordered = Vec::with_capacity(alloc, events.len())?;
    for text in 0..TEXTS.len() {
        for event in events {
            if event.text == text {
                ordered.push(*event)?;
            }
        }
    }
    Ok(ordered)
}
