//! Laws of the definitions, each the contract of a function that does nothing.
ghost use Rattle.edf_fields.specs.texts.DatesReading.{NamesOneDottedDay, NamesOneDashedDay, NamesOneClockTime, DottedDayIsNamed, DayMonthIsNamed, DashedDayIsNamed, ClockTimeIsNamed};
ghost use Rattle.edf_fields.specs.texts.IdentificationsReading.{SaysOnePatient, SaysOneRecording, SaysPatientOrCause, SaysRecordingOrCause};
ghost use Rattle.edf_fields.specs.texts.NumbersReading.{SpellsOneHeaderNumber, SpellsOneWholeNumber, HeaderNumberIsSpelled, WholeNumberIsSpelled};
ghost use Rattle.edf_fields.specs.texts.OnsetsReading.{SpellsOneOnset, SpellsOneSpan, OnsetIsSpelled, SpanIsSpelled};
ghost use Rattle.edf_fields.specs.texts.SubfieldsReading.{HasOneListOfSubfields, FindsSubfields};

/// A field spells at most one number, as a header number and as a whole number.
pub fn fields_spell_one_number()
    ensures header { SpellsOneHeaderNumber }
    ensures whole { SpellsOneWholeNumber }
{}

/// The number that is read of a field is the one that the field spells.
pub fn numbers_are_as_spelled()
    ensures header { HeaderNumberIsSpelled }
    ensures whole { WholeNumberIsSpelled }
{}

/// A text spells at most one onset and at most one duration.
pub fn texts_spell_one_time()
    ensures onset { SpellsOneOnset }
    ensures span { SpellsOneSpan }
{}

/// The time that is read of a text is the one that the text spells.
pub fn times_are_as_spelled()
    ensures onset { OnsetIsSpelled }
    ensures span { SpanIsSpelled }
{}

/// A text names at most one day, in each of the two forms, and at most one time of the day.
#[tactic(auto, using(crate::proofs::texts::DateFacts::one_dotted_day, crate::proofs::texts::DateFacts::one_dashed_day, crate::proofs::texts::DateFacts::one_clock_time))]
pub fn texts_name_one_day()
    ensures dotted { NamesOneDottedDay }
    ensures dashed { NamesOneDashedDay }
    ensures clock { NamesOneClockTime }
{}

/// The day, the day of a month, and the time of the day that are read of a text are those that the text names.
pub fn days_are_as_named()
    ensures dotted { DottedDayIsNamed }
    ensures day_month { DayMonthIsNamed }
    ensures dashed { DashedDayIsNamed }
    ensures clock { ClockTimeIsNamed }
{}

/// A text has at most one list of subfields, and one that neither begins nor ends with a space has
/// the list that is found.
#[tactic(auto, using(crate::proofs::texts::SubfieldLawFacts::one_list, crate::proofs::texts::SubfieldLawFacts::finds_subfields))]
pub fn texts_have_one_list_of_subfields()
    ensures one { HasOneListOfSubfields }
    ensures found { FindsSubfields }
{}

/// A field says at most one patient and at most one recording, and it says one exactly where no
/// cause applies.
#[tactic(auto, using(crate::proofs::texts::IdentificationFacts::patient_or_cause, crate::proofs::texts::IdentificationFacts::recording_or_cause))]
pub fn fields_say_one_identification()
    ensures patient { SaysOnePatient }
    ensures recording { SaysOneRecording }
    ensures patient_or_cause { SaysPatientOrCause }
    ensures recording_or_cause { SaysRecordingOrCause }
{}
