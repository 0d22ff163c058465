//! The keys of a claim, by their names.

/// Which of the two formats a claim has.
pub const FORMAT: &str = "format";

/// The labels of the channels that an export keeps.
pub const CHANNELS: &str = "channels";

/// The intervals of time that it keeps.
pub const KEEP: &str = "keep";

/// Where such an interval begins.
pub const FROM: &str = "from";

/// Where it ends.
pub const TO: &str = "to";

/// The subfields that are made anonymous.
pub const ANONYMOUS: &str = "anonymous";

/// By how many seconds all times move.
pub const SHIFT: &str = "shift";

/// The texts of annotations that are removed.
pub const REMOVE: &str = "remove";

/// The begins of such texts, from format 2 on.
pub const REMOVE_PREFIX: &str = "remove-prefix";

/// The texts of annotations that are blanked, from format 2 on.
pub const BLANK: &str = "blank";
