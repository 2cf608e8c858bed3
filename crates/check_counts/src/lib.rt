// The counts of each family's lines: whether they are few, and one line more.
#![tactic(auto)]

ghost use Rattle.check_counts.specs.Counting.{FewCounts, OneCounted};

use rules::{Counts, Extra, Family};

// Whether the counts of each family are few.
#[tactic(auto, unfolding(crate::specs::Counting::are_few))]
pub fn are_few(counts: Counts) -> bool
    ensures { FewCounts counts result }
{
    counts.b <= 16777216 && counts.k <= 16777216 && counts.n <= 16777216
}

// The counts with one line of a family more. Counts that are not few are left.
#[tactic(auto, unfolding(crate::specs::Counting::more_of))]
pub fn one_more(family: Family, counts: Counts) -> Counts
    ensures { OneCounted family counts result }
{
    if !are_few(counts) {
        return counts;
    }
    match family {
        Family::B => Counts {
            b: counts.b + 1,
            ..counts
        },
        Family::Extra(Extra::K) => Counts {
            k: counts.k + 1,
            ..counts
        },
        Family::Extra(Extra::N) => Counts {
            n: counts.n + 1,
            ..counts
        },
    }
}
