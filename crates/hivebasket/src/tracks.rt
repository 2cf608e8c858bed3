// The track of a file in a lent list of records.
ghost use Rattle.c_flights.specs.Tracks.{TrackAnswered};

use track_rules::Record;

// All fixes of a file as records from the list's front on: how many there are; or the file's own refusal, then 18 where the list is shorter than the number of B lines, and then no
// record is changed. 17 where the answer has another length; then nothing is changed.
#[unsafe(no_mangle)]
pub extern "C" fn hive_track(file: &[u8], list: &mut [Record], answer: &mut [u64]) -> u32
    ensures { TrackAnswered file.now list.old answer.old result list.new answer.new }
{
    if answer.len() != 16 {
        return 17;
    }
    let tracked = track::track(file, list);
    c_flights::tell_track(answer, tracked)
}
