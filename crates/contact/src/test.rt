// The tests of an opening's delays, and of the segments that a record uses.
ghost use Rattle.std.specs.Prelude.{◌≡◌, true, false, MatchOption, take, drop};
ghost use Rattle.units.specs.Logic.{both, all_of};
ghost use Rattle.contact.specs.Segments.{delay_ok, delays_ok, no_volume, no_delay};
ghost use Rattle.contact.specs.Granted.{takes_of, volumes_ok, counted_volumes};

use crate::span;
use crate::span::Span;
use segmentation::{DelaySegment, RateSegment, VolumeSegment};
use units::blank::unused;
use units::{Date, Delay, Interval, Rate, Volume};

// Is each delay inside its limits?
pub fn short(delays: &[DelaySegment]) -> bool
    ensures { result ≡ all_of delay_ok delays.now }
{
    delays.iter().all(|s| s.delay.0 <= Delay::MAX)
}

// try_init's second loop: the delay segments that a list of so many uses, if they are 1 to 16, cover the window exactly, and are short.
pub fn delays_are(
    delays: &[DelaySegment; DelaySegment::COUNT_MAX],
    count: usize,
    window: Interval,
) -> Option<&[DelaySegment]>
    ensures { MatchOption result (delays_ok window count delays.now ≡ false) (λ l. (delays_ok window count delays.now ≡ true) × (l.now ≡ take count delays.now)) }
{
    let list = span::covering(delays, count, window)?;
    short(list).then_some(list)
}

// Does the volume segment follow, is it not empty, within the volume that is left, and a rate inside its limits times its length?
#[tactic(auto, unfolding(crate::specs::Granted::takes_of, units::specs::Logic::both))]
pub fn takes(s: VolumeSegment, at: Date, room: Volume) -> bool
    ensures { result ≡ takes_of s at.0 room.0 }
{
    s.follows(at)
        && s.volume <= room
        && s.volume.0 / (s.end.0 - s.start.0) <= Rate::MAX
        && s.volume.0 % (s.end.0 - s.start.0) == 0
}

// Do the volume segments keep the record's rules: what an opening tests of their rates, and a rate times its length each?
pub fn volumes_ok(rates: &[VolumeSegment], window: Interval) -> bool
    ensures { result ≡ volumes_ok window rates.now }
{
    // Not `span::covers`: the volume left goes on from segment to segment beside the date, in one pass.
    let mut at = window.start;
    let mut room = Volume(Volume::MAX);
    for s in rates {
        if !takes(*s, at, room) {
            return false;
        }
        room = Volume(room.0 - s.volume.0);
        at = s.end;
    }
    at == window.end
}

// The record's rates: 1 to 16 volume segments that keep the rules, and nothing past them.
pub fn rates_kept(
    rates: &[VolumeSegment; RateSegment::COUNT_MAX],
    count: usize,
    window: Interval,
) -> bool
    ensures { result ≡ both (counted_volumes window count rates.now) (all_of no_volume (drop count rates.now)) }
{
    match span::used(rates, count) {
        Some(list) => volumes_ok(list, window) && unused(&rates[count..]),
        None => false,
    }
}

// The record's delays: what an opening tests of them, and nothing past them.
pub fn delays_kept(
    delays: &[DelaySegment; DelaySegment::COUNT_MAX],
    count: usize,
    window: Interval,
) -> bool
    ensures { result ≡ both (delays_ok window count delays.now) (all_of no_delay (drop count delays.now)) }
{
    match delays_are(delays, count, window) {
        Some(_) => unused(&delays[count..]),
        None => false,
    }
}
