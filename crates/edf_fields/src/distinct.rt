//! Whether a text stands twice in a list.

ghost use Rattle.std.specs.Prelude.{◌≡◌, ◌↔◌, IsTrue, map};
ghost use Rattle.std.specs.Cmp.Lexicographic.{slice_cmp};
ghost use Rattle.std.specs.List.Sorted.{IsSorted, IsPermutation};
ghost use Rattle.std.specs.Ordering.{nat_cmp};
ghost use Rattle.edf_fields.specs.Distinct.{AreDistinct, are_distinct as are_distinct_texts};

/// Whether no text stands twice among these, which are in the order of their bytes: equal ones
/// would be neighbours.
#[tactic(auto, using(crate::proofs::DistinctFacts::neighbours_differ, crate::proofs::DistinctFacts::neighbours_equal, crate::proofs::DistinctFacts::at_end))]
fn neighbours_differ(texts: &[&[u8]]) -> bool
    requires { IsSorted (λ x y. slice_cmp nat_cmp x.now y.now) texts.now }
    ensures { result ≡ are_distinct_texts (map (λ t. t.now) texts.now) }
{
    for later in 1..texts.len() {
        if texts[later - 1] == texts[later] {
            return false;
        }
    }
    true
}

/// Whether no text stands twice in the list. It puts the list in the order of the bytes, so it
/// takes no memory, and time that grows hardly faster than the list.
#[tactic(auto, using(crate::proofs::DistinctFacts::same_moved))]
pub fn are_distinct(texts: &mut [&[u8]]) -> bool
    ensures distinct { IsTrue result ↔ AreDistinct (map (λ t. t.now) texts.old) }
    ensures value { result ≡ are_distinct_texts (map (λ t. t.now) texts.old) }
    ensures permutation { IsPermutation texts.old texts.new }
{
    texts.sort_unstable();
    neighbours_differ(texts)
}
