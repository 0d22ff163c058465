//! What is asked.

/// The text of a claim, and the recordings, which are opened anew for what is tried.
#[derive(Clone, Copy)]
pub struct Question<'a, R> {
    pub claim_text: &'a [u8],
    pub again: &'a R,
}
