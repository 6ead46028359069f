// The setting of a booking (pseg.rs: schedule_tx) where the list stands, its array and its count lent apart as the C interface's kept calls have them: only the segments that it touches are written, and those after them moved.
// Stays beside `Bookings::set`, which promises `set_bookings` of any list of 64 segments at most: here each has to start where the one before it ends.
ghost use Rattle.std.specs.Prelude.{◌≡◌, true, ◌++◌, map, ◌+◌, ◌≤◌, length, take, drop};
ghost use Rattle.units.specs.Limits.{listed_max};
ghost use Rattle.units.specs.Logic.{all_of};
ghost use Rattle.bookings.specs.Cut.{sent_of, set_bookings, bookings_in};
ghost use Rattle.bookings.specs.Listed.{no_booking};
ghost use Rattle.bookings.specs.Granted.{Ended, Begun, Follows, placed};

use crate::{BookingSegment, Bookings, Level};
use units::refusal::Refusal;
use units::{Date, Interval};

// The place of the first segment that ends after a date; their number, where there is none. Not `partition_point`, which asks for an order; not one function with `first_from`, which would take the test as a closure with a clause for each segment.
fn first_after(listed: &[BookingSegment], date: Date) -> usize
    ensures { Ended listed.now date.0 result }
{
    for (i, g) in listed.iter().enumerate() {
        if date < g.end {
            return i;
        }
    }
    listed.len()
}

// The place of the first segment that does not start before a date; their number, where there is none.
fn first_from(listed: &[BookingSegment], date: Date) -> usize
    ensures { Begun listed.now date.0 result }
{
    for (i, g) in listed.iter().enumerate() {
        if date <= g.start {
            return i;
        }
    }
    listed.len()
}

// The segments of a stretch of places, moved up by so many, each with what is in the send interval, at the level.
fn set_between(
    segments: &mut [BookingSegment],
    a: usize,
    b: usize,
    by: usize,
    send: Interval,
    level: Level,
)
    requires ordered { a ≤ b }
    requires room { b + by ≤ length segments.old }
    ensures { segments.new ≡ take (a + by) segments.old ++ (map (sent_of send.start.0 send.end.0 level.0) (drop a (take b segments.old)) ++ drop (b + by) segments.old) }
{
    for k in (a..b).rev() {
        let g = segments[k];
        segments[k + by] = BookingSegment {
            start: units::later(g.start, send.start),
            end: units::sooner(g.end, send.end),
            level,
        };
    }
}

// [send start, send end) set to the level; 10, and the list as it was, where it would be longer than 64.
pub fn set(
    segments: &mut [BookingSegment; Bookings::COUNT_MAX],
    count: &mut usize,
    send: Interval,
    level: Level,
) -> Result<(), Refusal>
    requires few { count.old ≤ listed_max }
    requires follows { Follows (take count.old segments.old) }
    requires unused { all_of no_booking (drop count.old segments.old) ≡ true }
    ensures { placed (bookings_in segments.new count.new) result ≡ set_bookings (bookings_in segments.old count.old) send.start.0 send.end.0 level.0 }
{
    let n = *count;
    let a = first_after(&segments[..n], send.start);
    let b = a + first_from(&segments[a..n], send.end);
    if a == b {
        return Ok(());
    }
    let first = segments[a];
    let last = segments[b - 1];
    let before = usize::from(first.start < send.start);
    let after = usize::from(send.end < last.end);
    if Bookings::COUNT_MAX < n + before + after {
        return Err(Refusal::Full);
    }
    segments.copy_within(b..n, b + before + after);
    set_between(segments, a, b, before, send, level);
    if after == 1 {
        segments[b + before] = BookingSegment {
            start: send.end,
            ..last
        };
    }
    if before == 1 {
        segments[a] = BookingSegment {
            end: send.start,
            ..first
        };
    }
    *count = n + before + after;
    Ok(())
}
