//! One annotation, and those of one TAL. EDF+ (2003), "Time-stamped Annotations Lists (TALs) in an 'EDF
//! Annotations' signal".

ghost use Rattle.std.specs.Prelude.{◌<◌, ◌≤ℤ◌, ◌^◌, pos, unsigned_abs, IfSome};
ghost use Rattle.std.proofs.Props.{props};

use edf_tal::TalTexts;

/// An annotation. Its onset and its duration are less than 1,000,000,000 s in size, and the duration is not
/// negative.
#[derive(Debug, Clone, Copy)]
pub struct NoteRef<'a> {
    /// The onset in picoseconds after the start of the file, as the file has it.
    pub onset: i128,
    /// The duration in picoseconds, where it has one.
    pub duration: Option<i128>,
    /// The text.
    pub text: &'a str,
    ghost onset_small: { unsigned_abs onset < 10 ^ 21 },
    ghost duration_small: { IfSome duration (λ v. unsigned_abs v < 10 ^ 21) } by { Prim.hlevel props },
    ghost not_negative: { IfSome duration (λ v. pos 0 ≤ℤ v) } by { Prim.hlevel props },
}

/// The annotations of a TAL that are still to come, in order.
#[derive(Drop)]
pub struct TalNotes<'a> {
    pub(crate) onset: i128,
    pub(crate) duration: Option<i128>,
    pub(crate) texts: TalTexts<'a>,
    ghost onset_small: { unsigned_abs onset < 10 ^ 21 },
    ghost duration_small: { IfSome duration (λ v. unsigned_abs v < 10 ^ 21) } by { Prim.hlevel props },
    ghost not_negative: { IfSome duration (λ v. pos 0 ≤ℤ v) } by { Prim.hlevel props },
}
