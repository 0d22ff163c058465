//! Places of samples in a run of them.

/// Places of samples in a run: how many, the first and the last.
#[derive(Clone, Copy)]
pub struct Places {
    pub count: usize,
    pub first: usize,
    pub last: usize,
}
