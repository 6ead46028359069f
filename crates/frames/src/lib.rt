// One line of the trace program: the frame kind decides the layout and the call; the answer's line is written, and what is held next is returned.
#![tactic(auto)]

pub mod calls;
pub mod frame;
pub mod opening;
pub mod queueing;

ghost use Rattle.std.specs.Prelude.{◌≡◌, length};
ghost use Rattle.hexadecimal.specs.Digits.{byte_at};
ghost use Rattle.text.specs.Line.{written};
ghost use Rattle.frames.specs.Step.{is_line, changes, change_of, show_of, step_of, stepped_of};

use held::{Done, Held};
use legacy::Queue;
use poly_seg::PolySeg;
use pseg::PrioritySeg;
use seg::FreeVolume;
use text::LINE;

// How long the answer's line is, and what is held after it.
#[derive(Clone, Copy)]
pub struct Stepped {
    pub length: usize,
    pub held: Held,
}

// The digits of the longest frame.
pub const DIGITS_MAX: usize = 2048;

// A line that is no frame is answered ff.
pub const NO_FRAME: u8 = 255;

// Does the line hold digits alone, and no more than a frame's?
#[tactic(auto, unfolding(crate::specs::Step::is_line, units::specs::Logic::both))]
pub fn is_line(line: &[u8]) -> bool
    ensures { result ≡ is_line line.now }
{
    line.len() <= DIGITS_MAX && hexadecimal::clean(line)
}

// Kinds stay 01's numbers here and below, as in `changes`, `change_of` and `show_of` (specs/Step); `frame::of` tests the length too.
// Can the line's kind change what is held? The others only show it.
pub fn can_change(line: &[u8]) -> bool
    ensures { result ≡ changes (byte_at line.now 0) }
{
    let kind = hexadecimal::byte_at(line, 0);
    matches!(kind, 1 | 2 | 3 | 4 | 17 | 19 | 20 | 33 | 34 | 35)
}

// A frame that can change what is held: its number, and what is held then.
pub fn change(line: &[u8], held: Held) -> Done
    ensures { result ≡ change_of (byte_at line.now 0) line.now held }
{
    let kind = hexadecimal::byte_at(line, 0);
    match kind {
        1 | 33 => opening::open::<FreeVolume>(line, held),
        2 | 34 => opening::open::<PrioritySeg>(line, held),
        3 | 35 => opening::open::<PolySeg>(line, held),
        4 => opening::open::<Queue>(line, held),
        17 => calls::book(line, held),
        19 => calls::enqueue(line, held),
        20 => calls::dequeue(line, held),
        _ => held.refused(NO_FRAME),
    }
}

// A frame that only shows what is held, and every unknown kind: the answer's line.
pub fn show(out: &mut [u8; LINE], line: &[u8], held: Held) -> usize
    ensures value { result ≡ length (show_of (byte_at line.now 0) line.now held) }
    ensures out_after { out.new ≡ written out.old 0 (show_of (byte_at line.now 0) line.now held) }
{
    let kind = hexadecimal::byte_at(line, 0);
    match kind {
        16 => answer::put_offer(out, calls::offer(line, held)),
        18 => calls::list(out, line, held),
        21 => calls::room(out, line, held),
        _ => answer::put_number(out, NO_FRAME),
    }
}

// Every line, whatever is held: the answer's line at the front of the lent one, and what is held next.
pub fn step(out: &mut [u8; LINE], line: &[u8], held: Held) -> Stepped
    ensures value { result ≡ stepped_of (step_of line.now held) }
    ensures out_after { out.new ≡ written out.old 0 (step_of line.now held).0 }
{
    if !is_line(line) {
        let length = answer::put_number(out, NO_FRAME);
        return Stepped { length, held };
    }
    if can_change(line) {
        let done = change(line, held);
        let length = answer::put_number(out, done.number);
        return Stepped {
            length,
            held: done.held,
        };
    }
    let length = show(out, line, held);
    Stepped { length, held }
}
