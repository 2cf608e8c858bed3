// The time order, and the numbers that a body line moves: the clock, the place, and the counts.
#![tactic(auto)]

ghost use Rattle.std.specs.Prelude.{◌≡◌};
ghost use Rattle.check_clock.specs.Times.{BackTest, has_room, AfterTime};

use rules::Counts;

// Whether a time falls from the one before it, and not to the next day.
#[tactic(auto, unfolding(rules::specs::Order::passing))]
pub fn is_back(before: u32, now: u32) -> bool
    ensures { BackTest before «now» result }
{
    now < before && before - now <= 43200
}

// The numbers that a body line moves: the place of the next line, the part of the file, the last time, and the counts of lines and of each family's.
#[derive(Clone, Copy)]
pub struct Pace {
    pub at: usize,
    pub stage: u8,
    pub clock: u32,
    pub lines: u32,
    pub counts: Counts,
}

// Whether the counts have room for one line more.
#[tactic(auto, unfolding(crate::specs::Times::has_room))]
fn has_room(p: Pace) -> bool
    ensures { result ≡ has_room p }
{
    p.lines <= 33554432 && check_counts::are_few(p.counts)
}

// After a line of this time, with these counts. Unsure where the counts before it have no room for one line more.
pub fn after_time(time: Option<u32>, p: Pace, next: usize, counts: Counts) -> Option<Pace>
    ensures { AfterTime time p next counts result }
{
    if !has_room(p) {
        return None;
    }
    let t = time?;
    if is_back(p.clock, t) {
        return None;
    }
    Some(Pace {
        at: next,
        stage: line_order::IN_BODY,
        clock: t,
        lines: p.lines + 1,
        counts,
    })
}
