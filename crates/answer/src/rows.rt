// The rows of a list, one after the other from the line's fourth digit on; where they end.
ghost use Rattle.std.specs.Prelude.{◌≡◌, ℕ, ◌+◌, ◌*◌, ◌≤◌, List, length};
ghost use Rattle.units.specs.Limits.{listed_max};
ghost use Rattle.text.specs.Line.{room, written};
ghost use Rattle.text.specs.Text.{list_text, bits_of};
ghost use Rattle.bookings.specs.Listed.{value_of};
ghost use Rattle.answer.specs.Rows.{row_text, volume_text, booking_text, queue_text};

use bookings::BookingSegment;
use segmentation::VolumeSegment;
use text::LINE;
use units::{Date, Volume};

// What a list has a row for.
pub trait Row {
    ghost text: { Self → List ℕ };

    // The row from a place on; where it ends.
    fn put(&self, out: &mut [u8; LINE], at: usize) -> usize
        requires { at + 48 ≤ room }
        ensures value { result ≡ at + length (text self.now) }
        ensures out_after { out.new ≡ written out.old at (text self.now) }
        ensures three_numbers { result ≤ at + 48 };
}

// A stretch of free time: its volume, which is 0 for polynomial.
impl Row for VolumeSegment {
    ghost text = { volume_text };

    fn put(&self, out: &mut [u8; LINE], at: usize) -> usize {
        put_row(out, at, self.start, self.end, self.volume.0)
    }
}

// A booked stretch: its priority.
impl Row for BookingSegment {
    ghost text = { booking_text };

    fn put(&self, out: &mut [u8; LINE], at: usize) -> usize {
        put_row(out, at, self.start, self.end, value(self.level.0))
    }
}

// A class's queue.
impl Row for Volume {
    ghost text = { queue_text };

    fn put(&self, out: &mut [u8; LINE], at: usize) -> usize {
        text::put_number(out, at, self.0);
        at + 16
    }
}

// Start, end and a value.
fn put_row(out: &mut [u8; LINE], at: usize, start: Date, end: Date, value: u64) -> usize
    requires { at + 48 ≤ room }
    ensures value { result ≡ at + length (row_text start end value) }
    ensures out_after { out.new ≡ written out.old at (row_text start end value) }
    ensures three_numbers { result ≤ at + 48 }
{
    text::put_number(out, at, start.0);
    text::put_number(out, at + 16, end.0);
    text::put_number(out, at + 32, value);
    at + 48
}

// The priority of a level as two's complement: -1 for 0.
fn value(level: u64) -> u64
    ensures { result ≡ bits_of (value_of (record { 0 = level })) }
{
    if level == 0 { u64::MAX } else { level - 1 }
}

pub fn put_rows<R: Row>(out: &mut [u8; LINE], rows: &[R]) -> usize
    requires { length rows.now ≤ listed_max }
    ensures value { result ≡ 4 + length (list_text R.text rows.now) }
    ensures out_after { out.new ≡ written out.old 4 (list_text R.text rows.now) }
    ensures three_numbers { result ≤ 4 + 48 * length rows.now }
{
    let mut at = 4;
    for row in rows {
        at = row.put(out, at);
    }
    at
}
