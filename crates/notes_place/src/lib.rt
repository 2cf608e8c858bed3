// Where a slice of notes is read on, run by run; and whether the runs of two slices are through.
#![tactic(auto)]

ghost use Rattle.notes_place.specs.Through.{BothThrough};

// Where a slice is read on: how many notes its run has, how many of them are taken, and where the last one taken stands.
#[derive(Clone, Copy)]
pub struct Place {
    pub n: usize,
    pub i: usize,
    pub last: usize,
}

// Whether no note of either run is left.
pub fn is_over(x: Place, y: Place) -> bool
    ensures { BothThrough x y result }
{
    x.n <= x.i && y.n <= y.i
}
