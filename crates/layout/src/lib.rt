// Where a frame's fields stand. A place is counted in bytes; the kind stands at 0. Every line is read: a place past its end counts 0, and `has` tells its length.
#![tactic(auto)]

pub mod opening;
pub mod polynomial;
pub mod queue;
mod row;
pub mod rule;

ghost use Rattle.std.specs.Prelude.{◌≡◌, ◌<◌, ◌^◌};
ghost use Rattle.hexadecimal.specs.Digits.{byte_at};
ghost use Rattle.layout.specs.Fields.{date_at, interval_at, dates_at, bundle_at, has_bytes};

use hexadecimal::{byte_at, number_at};
use units::{Bundle, Date, Interval, Priority, TxData, Volume};

// Does the line have this many bytes?
#[tactic(auto, unfolding(crate::specs::Fields::has_bytes))]
pub fn has(line: &[u8], bytes: usize) -> bool
    requires { bytes < 2 ^ 62 }
    ensures { result ≡ has_bytes line.now bytes }
{
    line.len() == 2 * bytes
}

// A count of one byte.
pub fn count_at(line: &[u8], at: usize) -> usize
    ensures { (result ≡ byte_at line.now at) × (result < 256) }
{
    usize::from(byte_at(line, at))
}

pub fn date_at(line: &[u8], at: usize) -> Date
    ensures { result ≡ date_at line.now at }
{
    Date(number_at(line, at))
}

pub fn interval_at(line: &[u8], at: usize) -> Interval
    requires { at < 2 ^ 62 }
    ensures { result ≡ interval_at line.now at }
{
    Interval {
        start: date_at(line, at),
        end: date_at(line, at + 8),
    }
}

// Send start, send end, receive start, receive end. Of the shape of `interval_at`: one function for both would need a trait for the fields of two structs.
pub fn dates_at(line: &[u8], at: usize) -> TxData
    requires { at < 2 ^ 61 }
    ensures { result ≡ dates_at line.now at }
{
    TxData {
        send: interval_at(line, at),
        recv: interval_at(line, at + 16),
    }
}

// Size and priority.
pub fn bundle_at(line: &[u8], at: usize) -> Bundle
    requires { at < 2 ^ 62 }
    ensures { result ≡ bundle_at line.now at }
{
    Bundle {
        size: Volume(number_at(line, at)),
        priority: Priority(byte_at(line, at + 8)),
    }
}
