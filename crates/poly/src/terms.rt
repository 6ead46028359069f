// A polynomial's terms as its mode counts them: the capacity to a date by Horner's rule, and the end search.
ghost use Rattle.std.specs.Prelude.{◌≡◌, ◌+◌, ◌-◌, ◌≤◌, nat_abs, ◌*ℤ◌};
ghost use Rattle.poly.specs.Poly.{step_max, coefficient, horner_of};
ghost use Rattle.poly.specs.Search.{area_from, halve_of, find_end};
ghost use Rattle.poly.specs.Granted.{capacity_by, InRangeOf, Ranged};

use units::{Date, Interval};

// Formed once for a search, so that its steps neither divide nor ask for the mode.
#[derive(Clone, Copy, PartialEq, Eq)]
pub struct Terms {
    pub each: [i64; Terms::COUNT],
    pub offset: Date,
}

// Terms that are inside their range over the window: at no date of it does a step pass 2^61.
#[derive(Clone, Copy)]
pub struct WindowTerms {
    pub terms: Terms,
    pub window: Interval,
    pub ghost ranged: { Ranged terms window },
}

impl Terms {
    pub const COUNT: usize = 4;

    // Horner's rule over the terms, times d at last.
    fn horner(self, d: i64) -> i64
        requires { InRangeOf self (nat_abs d) }
        ensures { result ≡ horner_of (coefficient self.each 0) (coefficient self.each 1) (coefficient self.each 2) (coefficient self.each 3) d *ℤ d }
    {
        let [t0, t1, t2, t3] = self.each;
        let v2 = t3 * d + t2;
        let v1 = v2 * d + t1;
        let v0 = v1 * d + t0;
        v0 * d
    }
}

impl WindowTerms {
    // evaluate_exact_integral: the capacity to a date of the window.
    pub fn capacity(self, x: Date) -> i64
        requires { (self.window.start.0 ≤ x.0) × (x.0 ≤ self.window.end.0) }
        ensures value { result ≡ capacity_by self.terms x.0 }
        ensures small { nat_abs result ≤ step_max }
    {
        let d = x.0 as i64 - self.terms.offset.0 as i64;
        self.terms.horner(d)
    }

    // The capacity from a date on, whose own capacity is known, to another.
    fn area(self, known: i64, y: Date) -> i64
        requires inside { (self.window.start.0 ≤ y.0) × (y.0 ≤ self.window.end.0) }
        requires small { nat_abs known ≤ step_max }
        ensures { result ≡ area_from (capacity_by self.terms) known y.0 }
    {
        self.capacity(y) - known
    }

    // The halving between two dates, both included. No `for` or library search: its steps decide where the capacity falls (`halve_of`), over dates and no list.
    fn halve(self, known: i64, target: i64, from: Date, end: Date) -> Date
        requires inside { (self.window.start.0 ≤ from.0) × (end.0 ≤ self.window.end.0) × (from.0 ≤ end.0) }
        requires small { nat_abs known ≤ step_max }
        ensures { result.0 ≡ halve_of (end.0 + 1 - from.0) (area_from (capacity_by self.terms) known) target from.0 (end.0 + 1) }
    {
        let mut low = from.0;
        let mut top = end.0 + 1;
        while low < top {
            let y = low + (top - low - 1) / 2;
            let a = self.area(known, Date(y));
            if a < target {
                low = y + 1;
            } else if target < a {
                top = y;
            } else {
                return Date(y);
            }
        }
        Date(low)
    }

    // find_end_bundle: the end of a send of this size, as the terms count it, from a date on, in a free segment.
    pub fn find_end(self, segment: Interval, from: Date, size: u64) -> Option<Date>
        requires inside { (self.window.start.0 ≤ segment.start.0) × (segment.end.0 ≤ self.window.end.0) }
        requires small { size ≤ step_max }
        ensures { result ≡ find_end (capacity_by self.terms) segment.start.0 segment.end.0 from.0 size }
    {
        if from < segment.start || segment.end <= from {
            return None;
        }
        let known = self.capacity(from);
        let all = self.area(known, segment.end);
        let target = size as i64;
        if all < target {
            return None;
        }
        Some(self.halve(known, target, from, segment.end))
    }
}
