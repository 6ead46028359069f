// Answers as text: each writer stores its text at a place of the lent line and leaves every other byte as it was.
// The line and the place are two parameters and no struct: the promise of each call, here and up to `frames::step`, speaks of the line alone (`written`).
#![tactic(auto)]

ghost use Rattle.std.specs.Prelude.{◌≡◌, [], ◌∷◌, ◌+◌, ◌<◌, ◌≤◌};
ghost use Rattle.text.specs.Text.{digit_of, byte_text, number_text, signed_text, interval_text, dates_text};
ghost use Rattle.text.specs.Line.{room, written};

use units::{Date, Interval, TxData};

// The longest answer: a number, a count and 64 segments of three numbers of 8 bytes, two digits a byte, and the line end.
pub const LINE: usize = 2 * (2 + 24 * Interval::LISTED_MAX) + 1;

// The kit's `hex` writes them too, but answers a Result for a length that is right here always.
const DIGITS: &[u8; 16] = b"0123456789abcdef";

fn digit(v: u8) -> u8
    requires { v < 16 }
    ensures { result ≡ digit_of v }
{
    DIGITS[usize::from(v)]
}

#[tactic(auto, unfolding(crate::specs::Text::byte_text, crate::specs::Line::written))]
pub fn put_byte(out: &mut [u8; LINE], at: usize, b: u8)
    requires { at + 2 ≤ room }
    ensures { out.new ≡ written out.old at (byte_text b) }
{
    out[at] = digit(b / 16);
    out[at + 1] = digit(b % 16);
}

pub fn put_number(out: &mut [u8; LINE], at: usize, x: u64)
    requires { at + 16 ≤ room }
    ensures { out.new ≡ written out.old at (number_text x) }
{
    for (i, byte) in x.to_be_bytes().iter().enumerate() {
        put_byte(out, at + 2 * i, *byte);
    }
}

pub fn put_signed(out: &mut [u8; LINE], at: usize, z: i64)
    requires { at + 16 ≤ room }
    ensures { out.new ≡ written out.old at (signed_text z) }
{
    put_number(out, at, z.cast_unsigned());
}

pub fn put_interval(out: &mut [u8; LINE], at: usize, w: Interval)
    requires { at + 32 ≤ room }
    ensures { out.new ≡ written out.old at (interval_text w) }
{
    put_number(out, at, w.start.0);
    put_number(out, at + 16, w.end.0);
}

// Send start, send end, receive start, receive end.
pub fn put_dates(out: &mut [u8; LINE], at: usize, d: TxData)
    requires { at + 64 ≤ room }
    ensures { out.new ≡ written out.old at (dates_text d) }
{
    put_interval(out, at, d.send);
    put_interval(out, at + 32, d.recv);
}

#[tactic(auto, unfolding(crate::specs::Line::written))]
pub fn put_line_end(out: &mut [u8; LINE], at: usize)
    requires { at + 1 ≤ room }
    ensures { out.new ≡ written out.old at (10 ∷ []) }
{
    out[at] = b'\n';
}
