// Which frame a line is, if any: its digits, its kind and its length, all tested.
ghost use Rattle.std.specs.Prelude.{◌≡◌, Bool};
ghost use Rattle.frames.specs.Granted.{frame_of, when_of};

// The four openings, with a stated rule or without, the calls, and 13 and 14 together.
#[derive(Clone, Copy)]
pub enum Frame {
    Free,
    Priority,
    Polynomial,
    Queue,
    Offer,
    Booking,
    Listing,
    Queueing,
    Room,
}

// The frame, if its line passed its test.
fn when(fits: bool, frame: Frame) -> Option<Frame>
    ensures { result ≡ when_of fits frame }
{
    if fits { Some(frame) } else { None }
}

// The kinds are 01's bytes, as in `kind_frame`.
pub fn of(line: &[u8]) -> Option<Frame>
    ensures { result ≡ frame_of line.now }
{
    if !crate::is_line(line) {
        return None;
    }
    let kind = hexadecimal::byte_at(line, 0);
    match kind {
        1 | 33 => when(layout::opening::fits(line), Frame::Free),
        2 | 34 => when(layout::opening::fits(line), Frame::Priority),
        3 | 35 => when(layout::polynomial::fits(line), Frame::Polynomial),
        4 => when(layout::queue::fits(line), Frame::Queue),
        16 => when(layout::has(line, 18), Frame::Offer),
        17 => when(layout::has(line, 50), Frame::Booking),
        18 => when(layout::has(line, 1), Frame::Listing),
        19 => when(layout::has(line, 10), Frame::Queueing),
        20 => when(layout::has(line, 10), Frame::Queueing),
        21 => when(layout::has(line, 1), Frame::Room),
        _ => None,
    }
}
