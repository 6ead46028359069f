// Rows of a frame: so many bytes each, one after the other.
ghost use Rattle.std.specs.Prelude.{◌≡◌, ℕ, ◌+◌, ◌*◌, ◌<◌, ◌^◌, List, min};
ghost use Rattle.units.specs.Arrays.{padded};
ghost use Rattle.std.proofs.Common.{rules};
ghost use Rattle.layout.specs.Segments.{rows, rate_at, delay_at, no_rate, no_delay};
ghost use Rattle.layout.specs.Queue.{budget_at, no_budget};

use crate::date_at;
use hexadecimal::number_at;
use segmentation::{DelaySegment, RateSegment};
use units::{Delay, Rate, Volume};

// What stands in a row, how long one is, and what an array holds past its rows: `none`, which is the default.
pub trait Row: Copy + Default {
    ghost BYTES: { ℕ };

    // How long a row is.
    const BYTES: usize;

    ghost row_at: { List ℕ → ℕ → Self };

    ghost none: { Self };

    // The row at a place.
    fn at(line: &[u8], at: usize) -> Self
        requires { at < 2 ^ 61 }
        ensures { result ≡ row_at line.now at };

    // The default is none.
    ghost blank: { (x : Self) → Self.is_default x → x ≡ none };
}

impl Row for RateSegment {
    ghost BYTES = { 24 };

    const BYTES: usize = 24;

    ghost row_at = { rate_at };

    ghost none = { no_rate };

    fn at(line: &[u8], at: usize) -> RateSegment {
        RateSegment {
            start: date_at(line, at),
            end: date_at(line, at + 8),
            rate: Rate(number_at(line, at + 16)),
        }
    }

    ghost blank = { λ x h. Prim.search rules };
}

impl Row for DelaySegment {
    ghost BYTES = { 24 };

    const BYTES: usize = 24;

    ghost row_at = { delay_at };

    ghost none = { no_delay };

    fn at(line: &[u8], at: usize) -> DelaySegment {
        DelaySegment {
            start: date_at(line, at),
            end: date_at(line, at + 8),
            delay: Delay(number_at(line, at + 16)),
        }
    }

    ghost blank = { λ x h. Prim.search rules };
}

impl Row for Volume {
    ghost BYTES = { 8 };

    const BYTES: usize = 8;

    ghost row_at = { budget_at };

    ghost none = { no_budget };

    fn at(line: &[u8], at: usize) -> Volume {
        Volume(number_at(line, at))
    }

    ghost blank = { λ x h. Prim.search rules };
}

// The n rows from a place on; of more than the array has places for as many as it has.
pub fn rows_at<T: Row, const N: usize>(line: &[u8], at: usize, n: usize) -> [T; N]
    requires near { at + T.BYTES * N < 2 ^ 61 }
    ensures { result ≡ padded N T.none (rows (T.row_at line.now) T.BYTES at (min N n)) }
{
    let mut rows = [T::default(); N];
    for (i, row) in rows[..n.min(N)].iter_mut().enumerate() {
        *row = T::at(line, at + T::BYTES * i);
    }
    rows
}
