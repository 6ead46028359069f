// Frames 01 and 02: start, end, rate count, delay count, the rate segments, the delay segments; 21 and 22: and the rule.
ghost use Rattle.std.specs.Prelude.{◌≡◌, ◌<◌, ◌^◌};
ghost use Rattle.layout.specs.Fields.{has_bytes};
ghost use Rattle.layout.specs.Segments.{rates_at, delays_at};
ghost use Rattle.layout.specs.Opening.{opening_end, opening_length, opening_of};

use crate::row::rows_at;
use crate::{count_at, interval_at, rule};
use segmentation::{DelaySegment, RateSegment, Rule};
use units::Interval;

// What an opening with segments is given. Arrays with their counts, as the managers' openings, which C calls, take them: they refuse a count that is too high.
#[repr(C)]
#[derive(Clone, Copy, PartialEq, Eq, Default)]
pub struct Opening {
    pub rule: Rule,
    pub window: Interval,
    pub rates: [RateSegment; RateSegment::COUNT_MAX],
    pub rate_count: usize,
    pub delays: [DelaySegment; DelaySegment::COUNT_MAX],
    pub delay_count: usize,
}

// The rate segments from a place on; of more than there are places for the first, since the opening refuses the count.
#[tactic(auto, unfolding(crate::specs::Segments::rates_at))]
pub fn rates_at(line: &[u8], at: usize, n: usize) -> [RateSegment; RateSegment::COUNT_MAX]
    requires { at < 2 ^ 60 }
    ensures { result ≡ rates_at line.now at n }
{
    rows_at(line, at, n)
}

// The delay segments, likewise.
#[tactic(auto, unfolding(crate::specs::Segments::delays_at))]
pub fn delays_at(line: &[u8], at: usize, n: usize) -> [DelaySegment; DelaySegment::COUNT_MAX]
    requires { at < 2 ^ 60 }
    ensures { result ≡ delays_at line.now at n }
{
    rows_at(line, at, n)
}

// Where the segments end, as the counts ask.
fn end(line: &[u8]) -> usize
    ensures { (result ≡ opening_end line.now) × (result < 2 ^ 61) }
{
    19 + 24 * (count_at(line, 17) + count_at(line, 18))
}

// Is the line as long as its counts and its kind ask? As the polynomial's, over its own `end`: a trait would be longer than the two lines.
pub fn fits(line: &[u8]) -> bool
    ensures { result ≡ has_bytes line.now (opening_length line.now) }
{
    rule::fits(line, end(line))
}

#[tactic(auto, unfolding(crate::specs::Opening::opening_of))]
pub fn read(line: &[u8]) -> Opening
    ensures { result ≡ opening_of line.now }
{
    let rate_count = count_at(line, 17);
    let delay_count = count_at(line, 18);
    Opening {
        rule: rule::at(line, end(line)),
        window: interval_at(line, 1),
        rates: rates_at(line, 19, rate_count),
        rate_count,
        delays: delays_at(line, 19 + 24 * rate_count, delay_count),
        delay_count,
    }
}
