// The smallest start where a body fits between the others.
#![tactic(auto)]

ghost use Rattle.std.specs.Prelude.{◌≡◌};
ghost use Rattle.shelf_rules.specs.Shelf.{blocker_of};
ghost use Rattle.shelf_gap.specs.Runs.{PlaceFound};

// The first entry whose body overlaps `size` bytes from a start on.
fn blocker(b: &[u8], at: usize, size: usize) -> Option<usize>
    ensures { result ≡ blocker_of b.now size at }
{
    for n in 0..64 {
        if !shelf_slot::is_clear(at, size, shelf_slot::slot_at(b, n)) {
            return Some(n);
        }
    }
    None
}

// The smallest start where a body of `size` bytes fits: wherever a body is in the way, none fits before that body's end. Nothing, where it fits nowhere.
pub fn place_for(b: &[u8], size: usize) -> Option<usize>
    ensures { PlaceFound b.now size result }
{
    // No `for`: the place jumps to the end of the body in the way.
    let mut at = 768;
    while at < b.len() {
        if b.len() - at < size {
            return None;
        }
        let Some(n) = blocker(b, at, size) else {
            return Some(at);
        };
        let s = shelf_slot::slot_at(b, n);
        at = s.start as usize + s.size as usize;
    }
    None
}
