//! The lowest layer of a checker of EDF+ files (sleep and other recordings): where bytes come
//! from and where they go, also such that fail at a chosen call; the places of a header's fields;
//! the numbers, dates and texts that they spell; the names of the identification's subfields; the
//! times of annotations; and the words for what is wrong with a file.
#![tactic(auto)]

mod distinct;
mod faults;
mod fields;
mod in_out;
pub mod laws;
mod texts;

pub use distinct::are_distinct;
pub use faults::cause::{FieldCause, TalCause};
pub use faults::fault::{Cause, Fault, Place};
pub use fields::label::{ANNOTATIONS, LABEL_BYTES, SignalLabel};
pub use fields::layout::{FixedField, SignalField, fixed_field};
pub use fields::which::{NOT_TOLD, Which, which_of};
pub use in_out::faulty_sink::FaultySink;
pub use in_out::faulty_source::FaultySource;
pub use in_out::sink::{Sink, SliceSink, WriteFault, WriteSink, put_all};
pub use in_out::source::{ReadFault, ReadSource, SliceSource, Source, fill, skip_rest};
pub use texts::date::{clock_time, dashed_date, dotted_date, dotted_day_month};
pub use texts::identification::{PatientId, RecordingId};
pub use texts::number::{NUMBER_BYTES, bytes_at, header_number, header_whole, text};
pub use texts::onset::{DAY_PS, SECOND_PS, onset, span};
pub use texts::printable::is_printable;
pub use texts::subfields::Subfields;
