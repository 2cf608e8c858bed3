// The shelf of flights: its entries, and the answers of its calls, as values. What a shelf is, and what each call says, is told in specs/; what holds of that, in proofs/.
#![tactic(auto)]

// An entry of the table of contents; flight number 0 is a free entry.
#[derive(Clone, Copy, Debug, Default, PartialEq, Eq)]
pub struct Slot {
    pub number: u32,
    pub start: u32,
    pub size: u32,
}

// A free place for a body: the number of its entry, and where the body begins.
#[derive(Clone, Copy, Debug, PartialEq, Eq)]
pub struct Spot {
    pub entry: usize,
    pub start: usize,
}

// Where a body stands: where it begins, and how many bytes it has.
#[derive(Clone, Copy, Debug, PartialEq, Eq)]
pub struct Extent {
    pub start: usize,
    pub size: usize,
}
