// The capacity polynomial (poly.rs: Polynome) in its two modes: its range rule, and its terms, over which the end is searched.
#![tactic(auto)]

ghost use Rattle.std.specs.Prelude.{◌≡◌, ◌+◌, ◌*◌, ◌<◌, ◌≤◌, nat_abs, is_some};
ghost use Rattle.units.specs.Limits.{volume_max};
ghost use Rattle.poly.specs.Poly.{step_max, term_of, term, range_ok, far_of, coefficient_ok, coefficients_ok, poly_ok};
ghost use Rattle.poly.specs.Search.{wanted_of};
ghost use Rattle.poly.specs.Granted.{terms_of, in_limit, Ranged};

use terms::{Terms, WindowTerms};
use units::{Date, Interval, Volume};

pub mod terms;

// How capacity is counted: 1 is the source's, 2 is the exact integral, in twelfths.
// A number and no enum: it lies in C's records, where any number can stand (`choices_ok` of poly_seg).
#[repr(C)]
#[derive(Clone, Copy, PartialEq, Eq, Default)]
pub struct Mode(pub u64);

impl Mode {
    pub const PORTED: u64 = 1;

    pub const EXACT: u64 = 2;

    // What an exact unit is divided into, so that halves, thirds and quarters are whole.
    pub const PARTS: u64 = 12;

    // A size as the mode counts it.
    #[tactic(auto, unfolding(crate::specs::Search::wanted_of))]
    pub fn wanted(self, size: Volume) -> u64
        requires { size.0 ≤ volume_max }
        ensures { result ≡ wanted_of self.0 size.0 }
    {
        if self.0 == Mode::EXACT {
            Mode::PARTS * size.0
        } else {
            size.0
        }
    }

    // A coefficient over k, towards zero, or in the exact mode the parts of that, where they do not pass 2^61.
    fn term(self, c: i64, k: u64) -> i64
        requires { (0 < k) × (k < 5) × (nat_abs (term_of self.0 c k) ≤ step_max) }
        ensures { result ≡ term_of self.0 c k }
    {
        if self.0 == Mode::EXACT {
            (Mode::PARTS / k) as i64 * c
        } else {
            c / k as i64
        }
    }

    // The magnitude of a coefficient's term, where it does not pass the limit of a step.
    fn magnitude(self, c: i64, k: u64) -> Option<u64>
        requires { (0 < k) × (k < 5) }
        ensures { result ≡ in_limit (nat_abs (term_of self.0 c k)) }
    {
        let a = c.unsigned_abs();
        if self.0 == Mode::EXACT {
            step(Mode::PARTS / k, a, 0)
        } else {
            step(0, 0, a / k)
        }
    }
}

#[repr(C)]
#[derive(Clone, Copy, PartialEq, Eq, Default)]
pub struct Polynome {
    pub coefficients: [i64; Polynome::COEFFICIENTS],
    pub offset: Date,
}

// One step of the range rule, v * m + q, where it does not pass the limit.
fn step(v: u64, m: u64, q: u64) -> Option<u64>
    ensures { result ≡ in_limit (v * m + q) }
{
    let sum = v.checked_mul(m)?.checked_add(q)?;
    (sum <= Polynome::STEP_MAX).then_some(sum)
}

// Is a coefficient inside its limits?
fn coefficient_ok(c: i64) -> bool
    ensures { result ≡ coefficient_ok c }
{
    c.unsigned_abs() <= Polynome::COEFFICIENT_MAX
}

impl Polynome {
    pub const COEFFICIENTS: usize = 4;

    pub const COEFFICIENT_MAX: u64 = 1 << 61;

    // What no step of the range rule passes.
    pub const STEP_MAX: u64 = 1 << 61;

    // Is each coefficient inside its limits?
    #[tactic(auto, unfolding(crate::specs::Poly::coefficients_ok, units::specs::Logic::both))]
    fn coefficients_ok(self) -> bool
        ensures { result ≡ coefficients_ok self.coefficients }
    {
        let [c0, c1, c2, c3] = self.coefficients;
        coefficient_ok(c0) && coefficient_ok(c1) && coefficient_ok(c2) && coefficient_ok(c3)
    }

    // The last step of the range rule at a distance from the offset, where no step passes the limit.
    fn steps(self, mode: Mode, m: u64) -> Option<u64>
        ensures { is_some result ≡ range_ok (term mode.0 self 0) (term mode.0 self 1) (term mode.0 self 2) (term mode.0 self 3) m }
    {
        let [c0, c1, c2, c3] = self.coefficients;
        let v3 = mode.magnitude(c3, 4)?;
        let q2 = mode.magnitude(c2, 3)?;
        let q1 = mode.magnitude(c1, 2)?;
        let q0 = mode.magnitude(c0, 1)?;
        let v2 = step(v3, m, q2)?;
        let v1 = step(v2, m, q1)?;
        let v0 = step(v1, m, q0)?;
        step(v0, m, 0)
    }

    // The largest distance of a window end from the offset.
    fn far(self, window: Interval) -> u64
        ensures { result ≡ far_of self window }
    {
        let a = window.start.0.abs_diff(self.offset.0);
        let b = window.end.0.abs_diff(self.offset.0);
        a.max(b)
    }

    // Are the offset and the coefficients inside their limits, and the polynomial inside its mode's range rule over the window?
    #[tactic(auto, unfolding(crate::specs::Poly::poly_ok, units::specs::Logic::both))]
    pub fn ok(self, mode: Mode, window: Interval) -> bool
        ensures { result ≡ poly_ok mode.0 self window }
    {
        self.offset.0 <= Date::MAX
            && self.coefficients_ok()
            && self.steps(mode, self.far(window)).is_some()
    }

    // The terms as the mode counts them, of a polynomial that is inside its range over the window.
    pub fn terms(self, mode: Mode, window: Interval) -> WindowTerms
        requires { Ranged (terms_of mode.0 self) window }
        ensures terms { result.terms ≡ terms_of mode.0 self }
        ensures window { result.window ≡ window }
    {
        let [c0, c1, c2, c3] = self.coefficients;
        let each = [
            mode.term(c0, 1),
            mode.term(c1, 2),
            mode.term(c2, 3),
            mode.term(c3, 4),
        ];
        let terms = Terms {
            each,
            offset: self.offset,
        };
        WindowTerms { terms, window }
    }
}
