// The test of a free list in one loop: each turn ends with a listed segment or moves on to the next rate segment, never back.
ghost use Rattle.std.specs.Prelude.{◌≡◌, ◌-◌, ◌*◌, ◌≤◌, ◌<◌, min, max, eqb, length, Some, None};
ghost use Rattle.units.specs.Limits.{date_max, segments_max, listed_max};
ghost use Rattle.units.specs.Logic.{both, pick};
ghost use Rattle.segmentation.specs.Granted.{SegOk};
ghost use Rattle.contact.specs.Segments.{rate_segment};
ghost use Rattle.free_list.specs.Listed.{list_ok};
ghost use Rattle.free_list.specs.Room.{room_of};
ghost use Rattle.free_list.specs.Granted.{Window, WalkOk, start_of, turn_of, next_of};

use segmentation::{RateSegment, VolumeSegment};
use units::{Date, Interval, Rate, Volume};

// The place in the free list, the least start allowed there, the room before it, the capacity found so far; the rate segment in hand, and its place.
#[derive(Clone, Copy)]
pub struct Walk {
    pub i: usize,
    pub low: Date,
    pub room: Volume,
    pub sum: Volume,
    pub place: usize,
    pub hand: RateSegment,
}

// The rate segment that a volume segment keeps: taken in hand, it is divided once.
fn in_hand(s: VolumeSegment) -> RateSegment
    requires { SegOk s }
    ensures { result ≡ rate_segment s }
{
    RateSegment {
        start: s.start,
        end: s.end,
        rate: Rate(s.volume.0 / (s.end.0 - s.start.0)),
    }
}

impl Walk {
    // The walk at the first rate segment.
    pub fn begin(s: VolumeSegment, low: Date) -> Walk
        requires { SegOk s }
        ensures { result ≡ start_of s low }
    {
        Walk {
            i: 0,
            low,
            room: Volume(0),
            sum: Volume(0),
            place: 0,
            hand: in_hand(s),
        }
    }

    // What the rate segment in hand carries between two dates. Not `VolumeSegment::part`, which divides at each call: the one in hand is divided once.
    pub fn piece(self, a: Date, b: Date) -> Volume
        requires { WalkOk self }
        ensures { result.0 ≡ self.hand.rate.0 * (min b.0 self.hand.end.0 - max a.0 self.hand.start.0) }
    {
        let lo = units::later(a, self.hand.start);
        let hi = units::sooner(b, self.hand.end);
        if hi <= lo {
            return Volume(0);
        }
        Volume(self.hand.rate.0 * (hi.0 - lo.0))
    }

    // One turn, with the listed segment at the walk's place and the rate segment after the one in hand: none where the list breaks its rules.
    #[tactic(auto, unfolding(crate::specs::Granted::turn_of))]
    pub fn turn(self, g: VolumeSegment, s: VolumeSegment, to: Date) -> Option<Walk>
        requires walking { WalkOk self }
        requires kept { SegOk s }
        requires dated { to.0 ≤ date_max }
        ensures { result ≡ turn_of self g s to.0 }
    {
        if g.start < self.low || g.end < g.start || to < g.end {
            return None;
        }
        let more = self.piece(g.start, g.end);
        let sum = Volume(self.sum.0 + more.0);
        if self.hand.end < g.end {
            return Some(Walk {
                sum,
                place: self.place + 1,
                hand: in_hand(s),
                ..self
            });
        }
        if sum < g.volume {
            return None;
        }
        Some(Walk {
            i: self.i + 1,
            low: Date(g.end.0 + 1),
            room: Volume(self.room.0 + g.volume.0),
            sum: Volume(0),
            ..self
        })
    }
}

// The place after, or the last one. Place and count: the public `next` promises `next_of` of them.
#[tactic(auto, unfolding(crate::specs::Granted::next_of))]
pub fn next(place: usize, m: usize) -> usize
    requires { place < m }
    ensures { result ≡ next_of place m }
{
    let k = place + 1;
    if k < m { k } else { place }
}

// The room of a free list that keeps its rules: in the window, in order, each volume within the exact capacity; none of another.
fn room_in(rates: &[VolumeSegment], free: &[VolumeSegment], window: Interval) -> Option<Volume>
    requires some { 0 < length rates.now }
    requires few { length rates.now ≤ segments_max }
    requires short { length free.now ≤ listed_max }
    requires windowed { Window rates.now window.start.0 window.end.0 }
    ensures { result ≡ pick (list_ok rates.now window.start.0 window.end.0 free.now) (Some (record { 0 = room_of free.now })) None }
{
    let mut w = Walk::begin(rates[0], window.start);
    // It stays no `for`, and the places stay the walk's: a turn goes on in one of the two lists, and which one it finds out itself (`turn`, `turn-unique`).
    while let Some(g) = free.get(w.i) {
        let s = rates[next(w.place, rates.len())];
        w = w.turn(*g, s, window.end)?;
    }
    Some(w.room)
}

// Does the free list keep its rules? And is the room its sum?
pub fn listed_ok(
    rates: &[VolumeSegment],
    free: &[VolumeSegment],
    window: Interval,
    room: Volume,
) -> bool
    requires some { 0 < length rates.now }
    requires few { length rates.now ≤ segments_max }
    requires short { length free.now ≤ listed_max }
    requires windowed { Window rates.now window.start.0 window.end.0 }
    ensures { result ≡ both (list_ok rates.now window.start.0 window.end.0 free.now) (eqb room.0 (room_of free.now)) }
{
    room_in(rates, free, window) == Some(room)
}
