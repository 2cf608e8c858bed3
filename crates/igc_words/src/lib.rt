// What the words of the program igc mean.
#![tactic(auto)]

mod deeds;

ghost use Rattle.std.specs.Prelude.{◌≡◌};
ghost use Rattle.igc_words.specs.Words.{same, about_of, VerbGiven, OptionTest, NamesTest};

pub use deeds::{Deed, deed_of, flight_of};

// What is asked of the program.
#[derive(Clone, Copy, Debug, PartialEq, Eq)]
pub enum Verb {
    List,
    Check,
    Track,
    Summary,
    Merge,
    Shelf,
    Help,
    Version,
}

// Whether two texts are the same.
pub(crate) fn is_same(a: &[u8], b: &[u8]) -> bool
    ensures { result ≡ same a.now b.now }
{
    a == b
}

// The verb that a word is, of those that are about the program itself.
#[tactic(auto, unfolding(crate::specs::Words::about_of, rules::specs::Choice::bytes))]
fn about(word: &[u8]) -> Option<Verb>
    ensures { result ≡ about_of word.now }
{
    if is_same(word, b"help") || is_same(word, b"--help") {
        return Some(Verb::Help);
    }
    if is_same(word, b"version") || is_same(word, b"--version") {
        return Some(Verb::Version);
    }
    None
}

// The verb that a word is; None where it is none.
#[tactic(auto, unfolding(crate::specs::Words::verb_of, rules::specs::Choice::bytes))]
pub fn verb_of(word: &[u8]) -> Option<Verb>
    ensures { VerbGiven word.now result }
{
    if is_same(word, b"list") {
        return Some(Verb::List);
    }
    if is_same(word, b"check") {
        return Some(Verb::Check);
    }
    if is_same(word, b"track") {
        return Some(Verb::Track);
    }
    if is_same(word, b"summary") {
        return Some(Verb::Summary);
    }
    if is_same(word, b"merge") {
        return Some(Verb::Merge);
    }
    if is_same(word, b"shelf") {
        return Some(Verb::Shelf);
    }
    about(word)
}

// Whether a word begins with a dash, as no file's name does before `--`.
pub fn is_option(word: &[u8]) -> bool
    ensures { OptionTest word.now result }
{
    byte_chars::byte(word, 0) == b'-'
}

// Whether a word is the one behind which every word is a name.
#[tactic(auto, unfolding(rules::specs::Choice::bytes))]
pub fn begins_names(word: &[u8]) -> bool
    ensures { NamesTest word.now result }
{
    is_same(word, b"--")
}
