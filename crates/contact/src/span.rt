// Lists of segments that are exactly a window.
ghost use Rattle.std.specs.Prelude.{◌≡◌, true, false, ◌<◌, ◌≤◌, ◌⊎◌, MatchOption, eqb, ltb, take};
ghost use Rattle.units.specs.declared.Interval.{Interval};
ghost use Rattle.units.specs.Limits.{segments_max};
ghost use Rattle.units.specs.Logic.{both};
ghost use Rattle.contact.specs.Segments.{rate_span, volume_span, delay_span, spans, covers};

use segmentation::{DelaySegment, RateSegment, VolumeSegment};
use units::{Date, Interval};

// A segment of a list: something in force from a date to another.
pub trait Span: Copy {
    ghost span: { Self → Interval };

    // From when to when?
    fn dates(self) -> Interval
        ensures { result ≡ span self };

    // Does it begin at the date, and is it not empty?
    #[tactic(auto, unfolding(units::specs::Logic::both))]
    fn follows(self, at: Date) -> bool
        ensures { result ≡ both (eqb (span self).start.0 at.0) (ltb (span self).start.0 (span self).end.0) }
    {
        let dates = self.dates();
        dates.start == at && dates.start < dates.end
    }
}

impl Span for RateSegment {
    ghost span = { rate_span };

    fn dates(self) -> Interval {
        Interval {
            start: self.start,
            end: self.end,
        }
    }
}

impl Span for VolumeSegment {
    ghost span = { volume_span };

    fn dates(self) -> Interval {
        Interval {
            start: self.start,
            end: self.end,
        }
    }
}

impl Span for DelaySegment {
    ghost span = { delay_span };

    fn dates(self) -> Interval {
        Interval {
            start: self.start,
            end: self.end,
        }
    }
}

// try_init's loops: do the segments cover the window exactly?
pub fn covers<T: Span>(list: &[T], window: Interval) -> bool
    ensures { result ≡ spans T.span window.start.0 window.end.0 list.now }
{
    let mut at = window.start;
    for s in list {
        if !s.follows(at) {
            return false;
        }
        at = s.dates().end;
    }
    at == window.end
}

// The segments that a list of so many uses, if they are 1 to 16.
pub fn used<T>(places: &[T; Interval::SEGMENTS_MAX], count: usize) -> Option<&[T]>
    ensures { MatchOption result ((count < 1) ⊎ (segments_max < count)) (λ l. (1 ≤ count) × (count ≤ segments_max) × (l.now ≡ take count places.now)) }
{
    if count == 0 {
        return None;
    }
    places.get(..count)
}

// The same, if they cover the window exactly.
pub fn covering<T: Span>(
    places: &[T; Interval::SEGMENTS_MAX],
    count: usize,
    window: Interval,
) -> Option<&[T]>
    ensures { MatchOption result (covers T.span window count places.now ≡ false) (λ l. (covers T.span window count places.now ≡ true) × (l.now ≡ take count places.now)) }
{
    let list = used(places, count)?;
    covers(list, window).then_some(list)
}
