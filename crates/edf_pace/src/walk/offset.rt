//! By how much instants are moved.

ghost use Rattle.std.specs.Prelude.{◌≡◌, ◌<◌, ◌^◌, neg_ℤ, unsigned_abs};

/// So many picoseconds, by which instants are moved.
#[derive(Clone, Copy)]
pub struct Offset {
    pub ps: i128,
    ghost near: { unsigned_abs ps < 2 ^ 80 },
}

impl Offset {
    /// That by which an instant comes to 0.
    pub(crate) fn back_from(ps: i128) -> Offset
        requires { unsigned_abs ps < 2 ^ 80 }
        ensures { result.ps ≡ neg_ℤ ps }
    {
        Offset { ps: -ps }
    }
}
