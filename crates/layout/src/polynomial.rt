// Frame 03: start, end, offset, four coefficients, delay count, the delay segments; 23: and the rule.
ghost use Rattle.std.specs.Prelude.{◌≡◌, ◌<◌, ◌^◌};
ghost use Rattle.layout.specs.Fields.{has_bytes};
ghost use Rattle.layout.specs.Polynomial.{polynome_of, polynomial_end, polynomial_length, polynomial_of};

use crate::opening::delays_at;
use crate::{count_at, date_at, interval_at, rule};
use hexadecimal::signed_at;
use poly::Polynome;
use segmentation::{DelaySegment, Rule};
use units::Interval;

// What the polynomial manager's opening is given, which C calls: an array with its count.
#[repr(C)]
#[derive(Clone, Copy, PartialEq, Eq, Default)]
pub struct PolynomialOpening {
    pub rule: Rule,
    pub window: Interval,
    pub polynome: Polynome,
    pub delays: [DelaySegment; DelaySegment::COUNT_MAX],
    pub delay_count: usize,
}

// Where the delay segments end, as the count asks.
fn end(line: &[u8]) -> usize
    ensures { (result ≡ polynomial_end line.now) × (result < 2 ^ 61) }
{
    58 + 24 * count_at(line, 57)
}

// Is the line as long as its count and its kind ask?
pub fn fits(line: &[u8]) -> bool
    ensures { result ≡ has_bytes line.now (polynomial_length line.now) }
{
    rule::fits(line, end(line))
}

fn polynome(line: &[u8]) -> Polynome
    ensures { result ≡ polynome_of line.now }
{
    Polynome {
        coefficients: [
            signed_at(line, 25),
            signed_at(line, 33),
            signed_at(line, 41),
            signed_at(line, 49),
        ],
        offset: date_at(line, 17),
    }
}

#[tactic(auto, unfolding(crate::specs::Polynomial::polynomial_of))]
pub fn read(line: &[u8]) -> PolynomialOpening
    ensures { result ≡ polynomial_of line.now }
{
    let delay_count = count_at(line, 57);
    PolynomialOpening {
        rule: rule::at(line, end(line)),
        window: interval_at(line, 1),
        polynome: polynome(line),
        delays: delays_at(line, 58, delay_count),
        delay_count,
    }
}
