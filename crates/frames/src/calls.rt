// Frames 10 to 14: a line of the wrong length is ff; else the manager whose record is held answers.
ghost use Rattle.std.specs.Prelude.{◌≡◌, length};
ghost use Rattle.text.specs.Line.{written};
ghost use Rattle.frames.specs.Calls.{offer_frame, book_frame, list_held, list_frame, enqueue_frame, dequeue_frame, room_held, room_frame};

use crate::NO_FRAME;
use held::{Done, Held};
use text::LINE;
use units::Offer;
use units::refusal::Refusal;

// Frame 10: time, size, priority.
pub fn offer(line: &[u8], held: Held) -> Offer
    ensures { result ≡ offer_frame line.now held }
{
    if !layout::has(line, 18) {
        return Offer::refused(NO_FRAME);
    }
    held.dry_run(layout::date_at(line, 1), layout::bundle_at(line, 9))
}

// Frame 11: the same, and four dates.
pub fn book(line: &[u8], held: Held) -> Done
    ensures { result ≡ book_frame line.now held }
{
    if !layout::has(line, 50) {
        return held.refused(NO_FRAME);
    }
    held.book(
        layout::date_at(line, 1),
        layout::bundle_at(line, 9),
        layout::dates_at(line, 18),
    )
}

// Frame 13: size, priority.
pub fn enqueue(line: &[u8], held: Held) -> Done
    ensures { result ≡ enqueue_frame line.now held }
{
    if !layout::has(line, 10) {
        return held.refused(NO_FRAME);
    }
    held.enqueue(layout::bundle_at(line, 1))
}

// Frame 14: size, priority. As frame 13, with the other call: one function over both would be no shorter.
pub fn dequeue(line: &[u8], held: Held) -> Done
    ensures { result ≡ dequeue_frame line.now held }
{
    if !layout::has(line, 10) {
        return held.refused(NO_FRAME);
    }
    held.dequeue(layout::bundle_at(line, 1))
}

// The list of what is held.
fn put_list(out: &mut [u8; LINE], held: Held) -> usize
    ensures value { result ≡ length (list_held held) }
    ensures out_after { out.new ≡ written out.old 0 (list_held held) }
{
    match held {
        Held::Nothing => answer::put_number(out, Refusal::Record.number()),
        Held::Free(r) => {
            let l = r.list();
            let rows = &l.list.segments[..l.list.count];
            answer::put_list(out, l.number, rows)
        }
        Held::Priority(r) => {
            let l = r.list();
            let rows = &l.list.segments[..l.list.count];
            answer::put_list(out, l.number, rows)
        }
        Held::Polynomial(r) => {
            let l = r.list();
            let rows = &l.list.segments[..l.list.count];
            answer::put_list(out, l.number, rows)
        }
        Held::Queue(r) => {
            let l = r.list();
            let rows = &l.queues[..l.classes];
            answer::put_list(out, l.number, rows)
        }
    }
}

// Frame 12.
pub fn list(out: &mut [u8; LINE], line: &[u8], held: Held) -> usize
    ensures value { result ≡ length (list_frame line.now held) }
    ensures out_after { out.new ≡ written out.old 0 (list_frame line.now held) }
{
    if !layout::has(line, 1) {
        return answer::put_number(out, NO_FRAME);
    }
    put_list(out, held)
}

// The room of what is held.
#[tactic(auto, unfolding(crate::specs::Calls::room_held))]
fn put_room(out: &mut [u8; LINE], held: Held) -> usize
    ensures value { result ≡ length (room_held held) }
    ensures out_after { out.new ≡ written out.old 0 (room_held held) }
{
    match held {
        Held::Nothing => answer::put_number(out, Refusal::Record.number()),
        Held::Free(r) => {
            let a = r.room();
            answer::put_room(out, a.number, a.room)
        }
        Held::Priority(_) | Held::Polynomial(_) | Held::Queue(_) => {
            answer::put_number(out, Refusal::SelfUpdate.number())
        }
    }
}

// Frame 15. As frame 12, with the other answer.
pub fn room(out: &mut [u8; LINE], line: &[u8], held: Held) -> usize
    ensures value { result ≡ length (room_frame line.now held) }
    ensures out_after { out.new ≡ written out.old 0 (room_frame line.now held) }
{
    if !layout::has(line, 1) {
        return answer::put_number(out, NO_FRAME);
    }
    put_room(out, held)
}
