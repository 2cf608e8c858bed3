// Where the column of a code stands, by the entries of a layout.
#![tactic(auto)]

ghost use Rattle.layout_coded.specs.Spots.{SpotFound, CarriesTest};

use rules::{Layout, Span};

// Where the column of a code stands. Nowhere, where no entry has the code.
pub fn look(l: Layout, code: u32) -> Option<Span>
    ensures { SpotFound l code result }
{
    for (i, e) in l.entries.iter().enumerate() {
        if l.count <= i {
            return None;
        }
        if e.code == code {
            return Some(Span {
                first: e.first,
                last: e.last,
            });
        }
    }
    None
}

// Whether an entry has the code.
pub fn carries(l: Layout, code: u32) -> bool
    ensures { CarriesTest l code result }
{
    look(l, code).is_some()
}
