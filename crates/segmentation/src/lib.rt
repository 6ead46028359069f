// The rounding and lookup rules (segmentation/mod.rs): the end of a send, the volume between two dates, the delays.
#![tactic(auto)]

ghost use Rattle.std.specs.Prelude.{◌≡◌, ℕ, ◌+◌, ◌-◌, ◌*◌, ◌/◌, ◌<◌, ◌≤◌, min, max, eqb, length, take, drop, List, [], ◌∷◌};
ghost use Rattle.units.specs.Limits.{date_max, volume_max, segments_max};
ghost use Rattle.units.specs.Logic.{pick};
ghost use Rattle.segmentation.specs.Capacity.{rate_of, capacity};
ghost use Rattle.segmentation.specs.End.{by_deadline, end_of};
ghost use Rattle.segmentation.specs.Delay.{belongs, from_date, delays_of, answer_of};
ghost use Rattle.segmentation.specs.Blank.{no_volume, no_delay};
ghost use Rattle.segmentation.specs.Granted.{SegOk, Covers, Runs, Short, onward_of, ticks_of};

use units::blank::Place;
use units::refusal::Refusal;
use units::{Date, Delay, Interval, Offer, Rate, TxData, Volume};

// The edition of the end rule: 1 is the source's, 2 ends a send when its final unit has left. A number and no enum, as `Rule` and poly's `Mode`: the C interface has the choices so, and each may be any number, which `choices_ok` tests.
#[repr(C)]
#[derive(Clone, Copy, PartialEq, Eq, Default)]
pub struct Edition(pub u64);

impl Edition {
    pub const FIRST: u64 = 1;

    pub const SECOND: u64 = 2;

    // What a part of a tick counts: a whole one in edition 2, else nothing.
    fn part(self) -> u64
        ensures { result ≡ pick (eqb self.0 2) 1 0 }
    {
        if self.0 == Edition::SECOND { 1 } else { 0 }
    }
}

// The rule of the delay lookup: 1 is the source's, in 2 a boundary belongs to what follows.
#[repr(C)]
#[derive(Clone, Copy, PartialEq, Eq, Default)]
pub struct Rule(pub u64);

impl Rule {
    pub const FIRST: u64 = 1;

    pub const SECOND: u64 = 2;

    // Does the date belong to the segment that has so many after it?
    #[tactic(auto, unfolding(crate::specs::Delay::belongs, units::specs::Logic::both))]
    pub fn belongs(self, date: Date, s: DelaySegment, after: usize) -> bool
        ensures { result ≡ belongs self.0 date.0 s after }
    {
        if self.0 != Rule::SECOND {
            return date <= s.end;
        }
        s.start <= date && (date < s.end || after == 0 && date == s.end)
    }

    // Where the end's lookup goes on: by rule 1 from what the start's found.
    pub fn onward<'a>(
        self,
        all: &'a [DelaySegment],
        found: &'a [DelaySegment],
    ) -> &'a [DelaySegment]
        ensures { result.now ≡ onward_of self.0 all.now found.now }
    {
        if self.0 == Rule::SECOND { all } else { found }
    }
}

// Three types of segments, bookings has a fourth, and no `Segment<T>`: C's records, and the definitions of specs/ name each with its own field.
// Segment<DataRate>: what an opening is given.
#[repr(C)]
#[derive(Clone, Copy, PartialEq, Eq, Default)]
pub struct RateSegment {
    pub start: Date,
    pub end: Date,
    pub rate: Rate,
}

// Segment<Volume>: a rate times its length, or a listed stretch of free time with its volume.
#[repr(C)]
#[derive(Clone, Copy, PartialEq, Eq, Default)]
pub struct VolumeSegment {
    pub start: Date,
    pub end: Date,
    pub volume: Volume,
}

// Segment<Duration>
#[repr(C)]
#[derive(Clone, Copy, PartialEq, Eq, Default)]
pub struct DelaySegment {
    pub start: Date,
    pub end: Date,
    pub delay: Delay,
}

// The delays at the start and at the end of a send interval.
#[derive(Clone, Copy, PartialEq, Eq, Default)]
pub struct Delays {
    pub first: Delay,
    pub last: Delay,
}

impl RateSegment {
    pub const COUNT_MAX: usize = Interval::SEGMENTS_MAX;
}

impl DelaySegment {
    pub const COUNT_MAX: usize = Interval::SEGMENTS_MAX;
}

impl Place for VolumeSegment {
    ghost blank = { no_volume };

    #[tactic(auto, unfolding(crate::specs::Blank::no_volume, units::specs::Logic::both))]
    fn is_blank(self) -> bool {
        self == VolumeSegment::default()
    }
}

impl Place for DelaySegment {
    ghost blank = { no_delay };

    #[tactic(auto, unfolding(crate::specs::Blank::no_delay, units::specs::Logic::both))]
    fn is_blank(self) -> bool {
        self == DelaySegment::default()
    }
}

impl VolumeSegment {
    // From a volume to a rate: the segment holds its rate times its length.
    fn rate(self) -> Rate
        requires { SegOk self }
        ensures { result.0 ≡ rate_of self }
    {
        Rate(self.volume.0 / (self.end.0 - self.start.0))
    }

    // From dates to a volume: what the segment still carries from the date on, its volume less what is past.
    pub fn carried(self, from: Date) -> Volume
        requires whole { SegOk self }
        requires inside { (self.start.0 ≤ from.0) × (from.0 ≤ self.end.0) }
        ensures { result.0 ≡ rate_of self * (self.end.0 - from.0) }
    {
        let rate = self.rate();
        Volume(self.volume.0 - rate.0 * (from.0 - self.start.0))
    }

    // From a volume to a date: when the rest is sent that starts at the date and that the segment covers, rounded down in edition 1 and up in edition 2: one division for both.
    pub fn sent(self, edition: Edition, from: Date, rest: Volume) -> Date
        requires whole { SegOk self }
        requires carried { (from.0 ≤ self.end.0) × ((0 < rest.0) × (rest.0 ≤ self.volume.0)) }
        ensures { result.0 ≡ from.0 + ticks_of edition.0 rest.0 (rate_of self) }
    {
        let rate = self.rate();
        let part = edition.part();
        Date(from.0 + ((rest.0 - part) / rate.0 + part))
    }

    // What the segment carries between two dates.
    pub fn part(self, start: Date, end: Date) -> Volume
        requires { SegOk self }
        ensures is { result.0 ≡ capacity (self ∷ []) start.0 end.0 }
        ensures small { result.0 ≤ volume_max }
    {
        let lo = units::later(start, self.start);
        let hi = units::sooner(end, self.end);
        if hi <= lo {
            return Volume(0);
        }
        let rate = self.rate();
        Volume(rate.0 * (hi.0 - lo.0))
    }
}

// An end, if it is not after the deadline.
pub fn by_deadline(end: Date, deadline: Date) -> Option<Date>
    ensures { result ≡ by_deadline deadline.0 end.0 }
{
    if end <= deadline { Some(end) } else { None }
}

// get_tx_end: the end of a send of this size from this start, by the deadline, or none.
pub fn find_end(
    edition: Edition,
    rates: &[VolumeSegment],
    start: Date,
    size: Volume,
    deadline: Date,
) -> Option<Date>
    requires sized { 0 < size.0 }
    requires covered { Covers start.0 rates.now }
    ensures { result ≡ end_of edition.0 rates.now start.0 size.0 deadline.0 }
{
    let mut at = start;
    let mut rest = size;
    'search: {
        for s in rates {
            if at <= s.end {
                let here = s.carried(at);
                if rest <= here {
                    break 'search by_deadline(s.sent(edition, at, rest), deadline);
                }
                rest = Volume(rest.0 - here.0);
                at = s.end;
            }
        }
        None
    }
}

// get_volume: the exact capacity between two dates. `few` and `in_turn` stay clauses, here and in free_list: a type with them would be made at each call.
pub fn volume_between(rates: &[VolumeSegment], start: Date, end: Date) -> Volume
    requires few { length rates.now ≤ segments_max }
    requires in_turn { Runs rates.now }
    ensures { result.0 ≡ capacity rates.now start.0 end.0 }
{
    let mut sum = 0;
    for s in rates {
        sum += s.part(start, end).0;
    }
    Volume(sum)
}

// The segments from the first on that the date belongs to.
pub fn from_date(rule: Rule, delays: &[DelaySegment], date: Date) -> &[DelaySegment]
    ensures { result.now ≡ from_date rule.0 delays.now date.0 }
{
    let count = delays.len();
    for (i, s) in delays.iter().enumerate() {
        if rule.belongs(date, *s, count - i - 1) {
            return &delays[i..];
        }
    }
    &delays[count..]
}

// get_delays: the delays at both ends of a send interval, by the rule. Always inline: as a call of its own its answer goes through memory, which a kept dry run of 24 ns feels.
#[inline(always)]
#[tactic(auto, unfolding(crate::specs::Delay::delays_of))]
pub fn find_delays(rule: Rule, delays: &[DelaySegment], send: Interval) -> Option<Delays>
    ensures { result ≡ delays_of rule.0 delays.now send.start.0 send.end.0 }
{
    let first = from_date(rule, delays, send.start);
    let last = from_date(rule, rule.onward(delays, first), send.end);
    Some(Delays {
        first: first.first()?.delay,
        last: last.first()?.delay,
    })
}

// The answer to a dry run that found this send interval.
pub fn answer(send: Interval, delays: Option<Delays>) -> Offer
    requires dated { (send.start.0 ≤ date_max) × (send.end.0 ≤ date_max) }
    requires short { Short delays }
    ensures { result ≡ answer_of send.start.0 send.end.0 delays }
{
    let Some(found) = delays else {
        return Offer::refused(Refusal::NoDelay.number());
    };
    let recv = Interval {
        start: send.start.after(found.first),
        end: send.end.after(found.last),
    };
    Offer {
        number: 0,
        dates: TxData { send, recv },
    }
}
