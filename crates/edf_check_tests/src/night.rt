//! The claims of these tests, and the lines of a Yes.

/// The claim that keeps the four seconds of both channels of the reference file.
pub const ALL: &str = "format = 1
channels = [\"EEG Fpz-Cz\", \"ECG\"]
[[keep]]
from = \"0\"
to = \"4\"
";

/// The line of the reference file under it.
pub const YES: &str = "YES channels 2 samples 24 annotations 3\n";

/// The claim that keeps six seconds of the channel `Temp`.
pub const SIX_SECONDS: &str = "format = 1
channels = [\"Temp\"]
[[keep]]
from = \"0\"
to = \"6\"
";
