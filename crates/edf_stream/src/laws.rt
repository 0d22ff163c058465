//! Laws of the definitions, each the contract of a function that does nothing.

ghost use Rattle.edf_stream.specs.Laws.{ConformingIsFaultless, RecordsFollowOn, NotesAreSaid, HasItsNotes, NotesAreRead, HeaderFaultIsFirst, BodyFaultIsFirst, SamplesAreListed, SamplesAreOfChannels, SamplesRise, OneAtAnInstant, InstantsFit, StartIsOfLeast, SamplesAreCounted, NotesAreCounted};

/// A file conforms, in words, exactly where it has no first fault.
pub fn conforming_is_being_faultless()
    ensures { ConformingIsFaultless }
{}

/// In a file that conforms no data record starts before the one before it ends.
pub fn data_records_follow_on()
    ensures { RecordsFollowOn }
{}

/// Each data record of a file that conforms says its start and its annotations, in words, and no others; and so
/// such a file has annotations, and no others, and they are those that are read.
pub fn annotations_are_said()
    ensures said { NotesAreSaid }
    ensures notes { HasItsNotes }
    ensures read { NotesAreRead }
{}

/// What `begin` and `next` answer as a fault is the first one of the file.
pub fn faults_are_the_first()
    ensures header { HeaderFaultIsFirst }
    ensures body { BodyFaultIsFirst }
{}

/// What a file means lists its samples, in words, and no others.
pub fn samples_are_listed()
    ensures { SamplesAreListed }
{}

/// Each sample of the list of a file has the number of one of its channels, and that channel's denominator.
pub fn samples_are_of_channels()
    ensures { SamplesAreOfChannels }
{}

/// In the list of samples of a file that conforms the numerators of each channel rise: each sample stands
/// there once.
pub fn samples_rise()
    ensures { SamplesRise }
{}

/// In a file that conforms a channel has at most one sample at an instant.
pub fn one_sample_stands_at_an_instant()
    ensures { OneAtAnInstant }
{}

/// The numerators of the instants of files that conform fit 128 bits, and so do their products with
/// denominators.
pub fn instants_fit()
    ensures { InstantsFit }
{}

/// A file that conforms starts at the whole second of its least sample's instant.
pub fn a_file_starts_with_its_least_sample()
    ensures { StartIsOfLeast }
{}

/// How many samples and annotations a file has.
pub fn samples_and_annotations_are_counted()
    ensures samples { SamplesAreCounted }
    ensures notes { NotesAreCounted }
{}
