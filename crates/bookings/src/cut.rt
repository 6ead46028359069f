// The setting of a booking (pseg.rs: schedule_tx): each segment leaves the parts before, in and after the send interval.
ghost use Rattle.std.specs.Prelude.{◌≡◌, ◌≤◌, MatchResult};
ghost use Rattle.units.specs.Limits.{listed_max};
ghost use Rattle.bookings.specs.Cut.{parts_of, set_bookings};
ghost use Rattle.bookings.specs.Granted.{part_of, laid_parts, Tidy, Holds, Overflows, set_in};

use crate::{BookingSegment, Bookings, Level, Parts, Set};
use units::Interval;
use units::refusal::Refusal;

// What a booking leaves of one segment.
pub fn parts(g: BookingSegment, send: Interval, level: Level) -> Parts
    ensures { laid_parts result ≡ parts_of send.start.0 send.end.0 level.0 g }
{
    if g.end <= send.start || send.end <= g.start {
        return Parts {
            before: None,
            middle: g,
            after: None,
        };
    }
    let before = BookingSegment {
        end: send.start,
        ..g
    };
    let after = BookingSegment {
        start: send.end,
        ..g
    };
    Parts {
        before: (g.start < send.start).then_some(before),
        middle: BookingSegment {
            start: units::later(g.start, send.start),
            end: units::sooner(g.end, send.end),
            level,
        },
        after: (send.end < g.end).then_some(after),
    }
}

impl Bookings {
    // The list with [send start, send end) set to the level; 10 where it would be longer than 64.
    pub fn set(self, send: Interval, level: Level) -> Result<Bookings, Refusal>
        requires few { self.count ≤ listed_max }
        ensures { set_in self result ≡ set_bookings self send.start.0 send.end.0 level.0 }
    {
        let mut list = Bookings::default();
        for g in self.listed() {
            list.lay(parts(*g, send, level))?;
        }
        Ok(list)
    }

    // Lists what a booking leaves of one more segment; 10 where there is no room.
    fn lay(&mut self, parts: Parts) -> Result<(), Refusal>
        requires tidy { Tidy self.old }
        ensures { MatchResult result (λ _. Holds self.old (laid_parts parts) self.new) (λ e. Overflows self.old (laid_parts parts) e) }
    {
        self.push(parts.before)?;
        self.push(Some(parts.middle))?;
        self.push(parts.after)
    }

    // Lists one more segment, if there is one; 10 where the list is full.
    fn push(&mut self, part: Option<BookingSegment>) -> Result<(), Refusal>
        requires tidy { Tidy self.old }
        ensures { MatchResult result (λ _. Holds self.old (part_of part) self.new) (λ e. Overflows self.old (part_of part) e) }
    {
        let Some(g) = part else {
            return Ok(());
        };
        if Bookings::COUNT_MAX <= self.count {
            return Err(Refusal::Full);
        }
        self.segments[self.count] = g;
        self.count += 1;
        Ok(())
    }
}

impl Set {
    // The answer that a setting gives: 0 and the list with the booking, or the refusal's number and the list as it came.
    pub fn told(came: Bookings, done: Result<Bookings, Refusal>) -> Set
        ensures { result ≡ set_in came done }
    {
        match done {
            Ok(bookings) => Set {
                number: 0,
                bookings,
            },
            Err(refusal) => Set {
                number: refusal.number(),
                bookings: came,
            },
        }
    }
}
