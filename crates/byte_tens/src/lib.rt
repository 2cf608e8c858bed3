// Ten to the power of a number of extra decimals, which counts of finer positions and times are taken by.
#![tactic(auto)]

ghost use Rattle.byte_tens.specs.Tens.{FewGiven, PowerGiven};

// So many decimals, and 4 for more: no column of finer digits has more than that.
#[tactic(auto, using(crate::proofs::Laws::few_all, crate::proofs::Laws::few_past), unfolding(crate::specs::Tens::few_of))]
pub fn few(decimals: u8) -> u8
    ensures { FewGiven decimals result }
{
    decimals.min(4)
}

// Ten for each of so many decimals; of more than 4 decimals, for each of 4.
#[tactic(auto, using(crate::proofs::Laws::power_four), unfolding(crate::specs::Tens::power_of, crate::specs::Tens::few_of))]
pub fn power(decimals: u8) -> u64
    ensures { PowerGiven decimals result }
{
    match decimals {
        0 => 1,
        1 => 10,
        2 => 100,
        3 => 1000,
        _ => 10000,
    }
}
