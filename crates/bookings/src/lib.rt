// Lists of booked time: their test, the search for a run, the setting of a booking.
#![tactic(auto)]

ghost use Rattle.std.specs.Prelude.{◌≡◌, ℕ, ◌+◌, ◌<◌, ◌≤◌, length, take, List, [], ◌∷◌};
ghost use Rattle.std.specs.declared.ops.ControlFlow.TheVariants.{Continue};
ghost use Rattle.units.specs.Limits.{listed_max};
ghost use Rattle.segmentation.specs.Granted.{Covers};
ghost use Rattle.segmentation.specs.End.{end_of};
ghost use Rattle.bookings.specs.Listed.{follows, cover_ok, no_booking, listed};
ghost use Rattle.bookings.specs.Cut.{list_in};
ghost use Rattle.bookings.specs.Search.{rule_of, reach_of, begin_of, turn_of, search_of};
ghost use Rattle.bookings.specs.Granted.{From};

use segmentation::{Edition, VolumeSegment};
use std::ops::ControlFlow;
use units::blank::Place;
use units::{Date, Interval, Priority, Volume};

pub mod cut;
pub mod place;

// One above the priority booked, 0 where nothing is: the source's -1 to 127. A number and no Option: the C interface has it so, and any number may come (`follows`).
#[repr(C)]
#[derive(Clone, Copy, PartialEq, Eq, PartialOrd, Ord, Default)]
pub struct Level(pub u64);

// Segment<i8>
#[repr(C)]
#[derive(Clone, Copy, PartialEq, Eq, Default)]
pub struct BookingSegment {
    pub start: Date,
    pub end: Date,
    pub level: Level,
}

// An array and a count: the C interface. Not one `List<T>` with free_list's: C's records, and specs/ speak of each.
#[repr(C)]
#[derive(Clone, Copy)]
pub struct Bookings {
    pub segments: [BookingSegment; Bookings::COUNT_MAX],
    pub count: usize,
}

// What a booking leaves of a segment: the part in the send interval, and what lies before and after it.
#[derive(Clone, Copy)]
pub struct Parts {
    pub before: Option<BookingSegment>,
    pub middle: BookingSegment,
    pub after: Option<BookingSegment>,
}

// A setting's answer: 0 and the list with the booking, or 10 and the list as it came. A number beside a list: `set_bookings` answers so, and `PrioritySeg::set` with it.
#[repr(C)]
#[derive(Clone, Copy)]
pub struct Set {
    pub number: u8,
    pub bookings: Bookings,
}

// What a run is searched by: the end rule's edition and rate segments, the window in which it is to end, and what is asked.
#[derive(Clone, Copy)]
pub struct Search<'a> {
    pub edition: Edition,
    pub rates: &'a [VolumeSegment],
    pub window: Interval,
    pub asked: Date,
    pub size: Volume,
    pub priority: Priority,
    ghost sized: { 0 < size.0 },
}

impl Level {
    pub const MAX: u64 = Priority::MAX as u64 + 1;
}

// The level that a priority is booked at.
impl From<Priority> for Level {
    ghost from_gives = { λ p l. l.0 ≡ p.0 + 1 };

    fn from(priority: Priority) -> Level {
        Level(u64::from(priority.0) + 1)
    }
}

impl Place for BookingSegment {
    ghost blank = { no_booking };

    #[tactic(auto, unfolding(crate::specs::Listed::no_booking, units::specs::Logic::both))]
    fn is_blank(self) -> bool {
        self == BookingSegment::default()
    }
}

impl BookingSegment {
    // Does the segment go on at the date, forward, with a level that stands for -1 to 127?
    #[tactic(auto, unfolding(crate::specs::Listed::follows, units::specs::Logic::both))]
    pub fn follows(self, at: Date) -> bool
        ensures { result ≡ follows at.0 self }
    {
        self.start == at && self.start <= self.end && self.level.0 <= Level::MAX
    }
}

// A list with nothing in it. Not derived: an array of 64 has no Default, as in Rust.
impl Default for Bookings {
    ghost is_default = { λ r. r ≡ list_in [] };

    #[tactic(auto, unfolding(units::specs::Arrays::padded))]
    fn default() -> Bookings {
        Bookings {
            segments: [BookingSegment::default(); Bookings::COUNT_MAX],
            count: 0,
        }
    }
}

impl Bookings {
    pub const COUNT_MAX: usize = Interval::LISTED_MAX;

    // A list of one segment.
    #[tactic(auto, unfolding(units::specs::Arrays::padded))]
    pub fn only(g: BookingSegment) -> Bookings
        ensures { result ≡ list_in (g ∷ []) }
    {
        let mut list = Bookings::default();
        list.segments[0] = g;
        list.count = 1;
        list
    }

    // The listed segments.
    pub fn listed(&self) -> &[BookingSegment]
        requires { self.now.count ≤ listed_max }
        ensures { result.now ≡ listed self.now }
    {
        &self.segments[..self.count]
    }
}

// Do the segments cover the window without a gap? Not contact's `covers`: an empty segment may stand here (`follows`), and contact is no crate below.
pub fn cover_ok(segments: &[BookingSegment], window: Interval) -> bool
    ensures { result ≡ cover_ok window.start.0 window.end.0 segments.now }
{
    let mut at = window.start;
    for g in segments {
        if !g.follows(at) {
            return false;
        }
        at = g.end;
    }
    at == window.end
}

// A run at a segment that ends at this date: the offer, if the segment reaches the run's end; else it goes on.
#[tactic(auto, unfolding(crate::specs::Search::reach_of))]
pub fn reach(to: Date, run: Interval) -> ControlFlow<Interval, Option<Interval>>
    ensures { result ≡ reach_of to.0 run }
{
    if run.end <= to {
        return ControlFlow::Break(run);
    }
    ControlFlow::Continue(Some(run))
}

// `covered` is a clause of each and no ghost field: `Covers` holds the date that the rates run from, and a ghost field holds no data.
impl Search<'_> {
    // dry_run_tx: the first run of segments below the priority that reaches its end, or the run that goes on at their end.
    pub fn find_run(&self, segments: &[BookingSegment]) -> ControlFlow<Interval, Option<Interval>>
        requires covered { Covers self.now.window.start.0 self.now.rates.now }
        requires inside { From self.now.window.start.0 segments.now }
        ensures { result ≡ search_of (rule_of self.now.edition.0 self.now.rates.now self.now.size.0 self.now.window.end.0) self.now.asked.0 self.now.priority.0 segments.now (Continue None) }
    {
        let mut run = None;
        for g in segments {
            run = self.turn(*g, ControlFlow::Continue(run))?;
        }
        ControlFlow::Continue(run)
    }

    // One segment's turn, with what the search has come to before it. An offer stays.
    #[tactic(auto, unfolding(crate::specs::Search::turn_of, crate::specs::Search::free_of, crate::specs::Search::broken_of, units::specs::Logic::pick))]
    pub fn turn(
        &self,
        g: BookingSegment,
        now: ControlFlow<Interval, Option<Interval>>,
    ) -> ControlFlow<Interval, Option<Interval>>
        requires covered { Covers g.start.0 self.now.rates.now }
        ensures { result ≡ turn_of (rule_of self.now.edition.0 self.now.rates.now self.now.size.0 self.now.window.end.0) self.now.asked.0 self.now.priority.0 g now }
    {
        let run = now?;
        if g.end <= self.asked {
            return ControlFlow::Continue(run);
        }
        if Level::from(self.priority) <= g.level {
            return ControlFlow::Continue(None);
        }
        match run {
            Some(run) => reach(g.end, run),
            None => self.begin(g.end, units::later(g.start, self.asked)),
        }
    }

    // A run begins, if there is an end by the window's end.
    #[tactic(auto, unfolding(crate::specs::Search::begin_of))]
    pub fn begin(&self, to: Date, start: Date) -> ControlFlow<Interval, Option<Interval>>
        requires covered { Covers start.0 self.now.rates.now }
        ensures { result ≡ begin_of to.0 start.0 (end_of self.now.edition.0 self.now.rates.now start.0 self.now.size.0 self.now.window.end.0) }
    {
        match segmentation::find_end(self.edition, self.rates, start, self.size, self.window.end) {
            Some(end) => reach(to, Interval { start, end }),
            None => ControlFlow::Continue(None),
        }
    }
}
