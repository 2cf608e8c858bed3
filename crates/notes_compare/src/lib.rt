// Texts compared where they stand: a text starts at a place of the bytes and goes up to the first CR.
#![tactic(auto)]

ghost use Rattle.std.specs.Prelude.{◌≡◌};
ghost use Rattle.notes_rules.specs.Places.{text_at};
ghost use Rattle.notes_compare.specs.Letters.{letter, TextsCompared, WhoseGiven, PlacesCompared, TextGoesOn};

use std::cmp::Ordering;

// Whether a byte of text stands behind i bytes: there is one, and it is not CR.
pub fn in_text(s: &[u8], i: usize) -> bool
    ensures { TextGoesOn s.now i result }
{
    i < s.len() && s[i] != b'\r'
}

// The byte of the text there; none where the text has ended.
fn letter_at(s: &[u8], i: usize) -> Option<u8>
    ensures { result ≡ letter (text_at s.now i) }
{
    if in_text(s, i) { Some(s[i]) } else { None }
}

// Whether the text behind i bytes of s does not come after the text behind j bytes of t: by byte value, a text that begins the other first.
pub fn at_most(s: &[u8], i: usize, t: &[u8], j: usize) -> bool
    ensures { TextsCompared s.now i t.now j result }
{
    let mut x = i;
    let mut y = j;
    // counted by hand: it walks in two texts at once, and neither has an end of its own before its CR
    loop {
        let Some(b) = letter_at(s, x) else {
            return true;
        };
        let Some(c) = letter_at(t, y) else {
            return false;
        };
        if b != c {
            return b < c;
        }
        x += 1;
        y += 1;
    }
}

// Whose text comes first, of the one behind i bytes of s and the one behind j bytes of t: `Less` the first's, `Greater` the second's, `Equal` that of both, which are the same.
pub fn whose(s: &[u8], i: usize, t: &[u8], j: usize) -> Ordering
    ensures { WhoseGiven s.now i t.now j result }
{
    if !at_most(s, i, t, j) {
        return Ordering::Greater;
    }
    if at_most(t, j, s, i) {
        return Ordering::Equal;
    }
    Ordering::Less
}

// Whether the note at i does not come after the note at j: by their texts, and then by where they stand.
pub fn is_earlier(s: &[u8], i: usize, j: usize) -> bool
    ensures { PlacesCompared s.now i j result }
{
    if i <= j {
        at_most(s, i, s, j)
    } else {
        !at_most(s, j, s, i)
    }
}
