// What the words behind `igc shelf SHELF` mean: what is asked of the shelf, and a flight number.
ghost use Rattle.igc_words.specs.Deeds.{DeedGiven, FlightGiven};

use crate::is_same;

// What is asked of a shelf.
#[derive(Clone, Copy, Debug, PartialEq, Eq)]
pub enum Deed {
    Add,
    List,
    Get,
    Remove,
    Pack,
}

// What a word asks of a shelf; None where it is no such word.
#[tactic(auto, unfolding(crate::specs::Deeds::deed_of, rules::specs::Choice::bytes))]
pub fn deed_of(word: &[u8]) -> Option<Deed>
    ensures { DeedGiven word.now result }
{
    if is_same(word, b"add") {
        return Some(Deed::Add);
    }
    if is_same(word, b"list") {
        return Some(Deed::List);
    }
    if is_same(word, b"get") {
        return Some(Deed::Get);
    }
    if is_same(word, b"remove") {
        return Some(Deed::Remove);
    }
    if is_same(word, b"pack") {
        return Some(Deed::Pack);
    }
    None
}

// The flight number that a word is: 1 to 18 digits, at most 4,294,967,295.
#[tactic(auto, unfolding(crate::specs::Deeds::flight_in))]
pub fn flight_of(word: &[u8]) -> Option<u32>
    ensures { FlightGiven word.now result }
{
    if word.len() == 0 {
        return None;
    }
    let v = byte_number::digits(word, 0, word.len())?;
    u32::try_from(v).ok()
}
