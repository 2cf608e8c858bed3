// Two to five digits at a place, read in a straight line: one test of the length, then the digits one after the other.
#![tactic(auto)]

ghost use Rattle.std.specs.Prelude.{◌≤◌};
ghost use Rattle.rules.specs.Promises.{DigitsGiven};

// The number that N digits at a place of s spell, as `byte_number::digits` gives it. The digits are so many at any call, so that the compiler reads them in a straight line.
fn digits<const N: usize>(s: &[u8], at: usize) -> Option<u64>
    requires { (1 ≤ N) × (N ≤ 18) }
    ensures { DigitsGiven s.now at N result }
{
    if s.len().saturating_sub(at) < N {
        return None;
    }
    byte_number::spelt(&s[at..at + N])
}

// The number that two digits at a place of s spell, as `byte_number::digits` gives it.
pub fn two(s: &[u8], at: usize) -> Option<u64>
    ensures { DigitsGiven s.now at 2 result }
{
    digits::<2>(s, at)
}

// The number that three digits at a place of s spell, as `byte_number::digits` gives it.
pub fn three(s: &[u8], at: usize) -> Option<u64>
    ensures { DigitsGiven s.now at 3 result }
{
    digits::<3>(s, at)
}

// The number that four digits at a place of s spell, as `byte_number::digits` gives it.
pub fn four(s: &[u8], at: usize) -> Option<u64>
    ensures { DigitsGiven s.now at 4 result }
{
    digits::<4>(s, at)
}

// The number that five digits at a place of s spell, as `byte_number::digits` gives it.
pub fn five(s: &[u8], at: usize) -> Option<u64>
    ensures { DigitsGiven s.now at 5 result }
{
    digits::<5>(s, at)
}
