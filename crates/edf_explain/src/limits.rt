//! What a file may have at the most, as sentences say it.

use edf_header::MOST_RECORD_SAMPLES;
use edf_stream::MOST_NOTES;

/// The most bytes of a data record: two of each sample.
pub(crate) const MOST_RECORD_BYTES: i128 = 2 * MOST_RECORD_SAMPLES as i128;

/// The most annotations.
pub(crate) const MOST_ANNOTATIONS: i128 = MOST_NOTES as i128;
