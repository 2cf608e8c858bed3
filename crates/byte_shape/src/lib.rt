// What every kind of line is checked for first: its length, then its characters.
#![tactic(auto)]

ghost use Rattle.rules.specs.Refusals.{result_told};
ghost use Rattle.rules.specs.Promises.{ShapeChecked};
ghost use Rattle.rules.specs.Lines.{is_sized};
ghost use Rattle.rules.specs.Chars.{characters};
ghost use Rattle.std.specs.Prelude.{◌≡◌};

use rules::{Reason, Refusal};

// Whether a line has from least to most bytes.
#[tactic(auto, unfolding(rules::specs::Lines::is_sized))]
fn is_sized(least: u8, most: u8, line: &[u8]) -> bool
    ensures { result ≡ is_sized least most line.now }
{
    usize::from(least) <= line.len() && line.len() <= usize::from(most)
}

// LENGTH at 0 where a line has not from least to most bytes; then CHARACTER at the first invalid one; in an H line the comma is valid.
#[tactic(auto, using(rules::proofs::Links::fields), unfolding(rules::specs::Lines::shaped, rules::specs::Refusals::result_told, rules::specs::Chars::characters))]
pub fn shaped(line: &[u8], least: u8, most: u8, in_h: bool) -> Result<(), Refusal>
    ensures { ShapeChecked least most in_h line.now result }
{
    if !is_sized(least, most, line) {
        return Err(Refusal {
            reason: Reason::Length,
            line: 0,
            byte: 0,
        });
    }
    match byte_chars::first_invalid(in_h, line) {
        Some(i) => Err(Refusal {
            reason: Reason::Character,
            line: 0,
            byte: (i + 1) as u32,
        }),
        None => Ok(()),
    }
}
