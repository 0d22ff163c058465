//! What a receipt says besides the files.

/// The version of the program that prints a receipt, and the text of the claim.
#[derive(Clone, Copy)]
pub struct Printed<'a> {
    pub version: &'a str,
    pub claim_text: &'a [u8],
}
