//! By which channels an original and an export are compared.

use crate::walk::track::Pair;
use crate::walk::turn::Turn;

/// What an original and a part are compared by: the channels of each label in both, and how many bytes of a data record
/// reach to the end of these, where they have the same places in both files.
#[derive(Clone, Copy)]
pub struct Frame<'a> {
    pub turn: Turn<'a>,
    pub pairs: &'a [Pair],
    pub room: Option<usize>,
}
