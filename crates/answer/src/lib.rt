// An answer's line: the number in one byte, what stands after it, and the line end. Each writer stores its line at the front of the lent one and gives its length.
// The number stands beside its value, as in the managers' answers that C reads (`Offer`, `Listing`, `RoomLeft`) and in `list_line` and `room_line`.
#![tactic(auto)]

pub mod rows;

ghost use Rattle.std.specs.Prelude.{◌≡◌, ◌≤◌, length};
ghost use Rattle.units.specs.Limits.{listed_max};
ghost use Rattle.text.specs.Line.{written};
ghost use Rattle.text.specs.Text.{list_text};
ghost use Rattle.answer.specs.Lines.{number_line, offer_line, list_line, room_line};

use rows::Row;
use text::LINE;
use units::{Offer, Volume};

// The number alone.
pub fn put_number(out: &mut [u8; LINE], number: u8) -> usize
    ensures value { result ≡ length (number_line number) }
    ensures out_after { out.new ≡ written out.old 0 (number_line number) }
{
    text::put_byte(out, 0, number);
    text::put_line_end(out, 2);
    3
}

// A dry run's answer: after 0, four dates.
pub fn put_offer(out: &mut [u8; LINE], offer: Offer) -> usize
    ensures value { result ≡ length (offer_line offer) }
    ensures out_after { out.new ≡ written out.old 0 (offer_line offer) }
{
    if offer.number != 0 {
        return put_number(out, offer.number);
    }
    text::put_byte(out, 0, 0);
    text::put_dates(out, 2, offer.dates);
    text::put_line_end(out, 66);
    67
}

// A list: after 0, how many rows, and the rows. Of free time (start, end, volume)s, of booked time (start, end, priority)s, of a queue record each class's queue.
pub fn put_list<R: Row>(out: &mut [u8; LINE], number: u8, list: &[R]) -> usize
    requires { length list.now ≤ listed_max }
    ensures value { result ≡ length (list_line number (length list.now) (list_text R.text list.now)) }
    ensures out_after { out.new ≡ written out.old 0 (list_line number (length list.now) (list_text R.text list.now)) }
{
    if number != 0 {
        return put_number(out, number);
    }
    text::put_byte(out, 0, 0);
    text::put_byte(out, 2, list.len() as u8);
    let at = rows::put_rows(out, list);
    text::put_line_end(out, at);
    at + 1
}

// The room: after 0, the sum of the listed volumes.
pub fn put_room(out: &mut [u8; LINE], number: u8, room: Volume) -> usize
    ensures value { result ≡ length (room_line number room) }
    ensures out_after { out.new ≡ written out.old 0 (room_line number room) }
{
    if number != 0 {
        return put_number(out, number);
    }
    text::put_byte(out, 0, 0);
    text::put_number(out, 2, room.0);
    text::put_line_end(out, 18);
    19
}
