// What the call from C that makes a file's track answers: what was told of the track, in numbers. The list of records is touched by the exported function alone.
ghost use Rattle.c_flights.specs.Tracks.{TrackTold};

use rules::Refusal;

// What was told of a track: the count, or the refusal. 17 where the answer has another length; then it is not changed.
pub fn tell_track(answer: &mut [u64], tracked: Result<usize, Refusal>) -> u32
    ensures { TrackTold answer.old tracked result answer.new }
{
    c_answers::give(answer, c_answers::count(tracked))
}
