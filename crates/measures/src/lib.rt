// The measures of merc's inference.rs, compared: those of the running branch and of the incumbent.
#![tactic(auto)]

ghost use Rattle.std.specs.Prelude.{◌≡◌};
ghost use Rattle.inference.specs.Measure.{compare, looked, ranking_of};

use std::cmp::Ordering;

// How a measure ranks against another, and how many pairs of components were looked at for it.
#[derive(Clone, Copy, Debug, PartialEq, Eq)]
pub struct Comparison {
    pub ordering: Ordering,
    pub looked: usize,
}

// Compares two measures from the front, and ends at the first components that differ, which settle it. Where none do,
// the shorter measure is the less, and two as long are equal.
// Ruled out: a count without the pair that differs; one of pairs behind it.
pub fn compare(measure: &[u16], best: &[u16]) -> Comparison
    ensures ranking { ranking_of result.ordering ≡ compare measure.now best.now }
    ensures count { result.looked ≡ looked measure.now best.now }
{
    let mut looked = 0;
    for (component, other) in measure.iter().zip(best) {
        looked += 1;
        let ordering = component.cmp(other);
        if ordering.is_ne() {
            return Comparison { ordering, looked };
        }
    }
    let ordering = measure.len().cmp(&best.len());
    Comparison { ordering, looked }
}
