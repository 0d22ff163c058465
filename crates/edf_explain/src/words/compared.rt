//! That samples and annotations were compared where the headers aren't as claimed.

pub(crate) const ALL_COMPARED: &str =
    "The headers aren't as claimed. The samples of each claimed channel that both files have were compared all the same, and so were the annotations.";

pub(crate) const NOTES_COMPARED: &str =
    "No claimed channel is in both files, so no samples were compared. The annotations were compared all the same.";

pub(crate) const THEY_ARE_AS_CLAIMED: &str = "  They are as claimed.";
