//! Records as words.
ghost use Rattle.std.specs.Prelude.{◌≡◌, ℕ, ◌+◌, ◌*◌, ◌<◌, ◌≤◌, length, drop};
ghost use Rattle.route.specs.Reading.{track_of};
ghost use Rattle.enquiry.specs.Records.{record_on};

use route::Route;

/// Writes the record of the route to the front of the words, and gives its count; there is room for every record.
pub(crate) fn write_record(route: &Route, words: &mut [u16]) -> usize
    requires { 770 ≤ length words.old }
    ensures count { result ≡ 2 + 3 * route.now.len }
    ensures wrote { words.new ≡ record_on (track_of route.now) (drop result words.old) }
{
    words[0] = route.len as u16;
    words[1] = route.start as u16;
    // by place: nothing is known of what a slice ends as where its chunks are written
    for i in 0..route.len {
        let at = 2 + 3 * i;
        words[at] = route.passages[i] as u16;
        words[at + 1] = route.zones[i] as u16;
        words[at + 2] = route.marks[i] as u16;
    }
    2 + 3 * route.len
}
