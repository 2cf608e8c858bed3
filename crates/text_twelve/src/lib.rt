// The twelve numbers of a summary by their places in a list, and how long the flight lasted.
#![tactic(auto)]

ghost use Rattle.text_twelve.specs.Twelve.{NumberAt, NaturalAt, NoneTest, FlightLasted};

use rules::Height;

// The number at a place of a list, 0 past its end; held as an altitude is, which is one signed number.
pub fn number_at(list: &[i32], i: usize) -> Height
    ensures { NumberAt list.now i result }
{
    if i < list.len() {
        return Height { metres: list[i] };
    }
    Height { metres: 0 }
}

// The number at a place, or 0 where it is below zero.
pub fn natural_at(list: &[i32], i: usize) -> u32
    ensures { NaturalAt list.now i result }
{
    let z = number_at(list, i).metres;
    if 0 <= z {
        return z as u32;
    }
    0
}

// Whether the number at a place is 0.
pub fn is_none(list: &[i32], i: usize) -> bool
    ensures { NoneTest list.now i result }
{
    rules_values::magnitude(number_at(list, i)) == 0
}

// How many seconds the flight lasted, from the first fix to the last; 0 where the last is not after the first.
pub fn lasted(list: &[i32]) -> u64
    ensures { FlightLasted list.now result }
{
    let begin = natural_at(list, 1) as u64 * 86400 + natural_at(list, 2) as u64;
    let end = natural_at(list, 3) as u64 * 86400 + natural_at(list, 4) as u64;
    end.saturating_sub(begin)
}
