//! A fault of an original or of one of its exports.

use edf_fields::Fault;

/// A fault of the original, or of the part of this number. That of the original goes before that of a part.
#[derive(Clone, Copy)]
pub enum FaultOf {
    Original(Fault),
    Part(u16, Fault),
}
