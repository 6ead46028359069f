// Frames 01 to 04 and 21 to 23: a line of the wrong length is ff, a refused opening keeps the old record.
ghost use Rattle.std.specs.Prelude.{◌≡◌, Bool, List, ℕ, true};
ghost use Rattle.layout.specs.Fields.{has_bytes};
ghost use Rattle.layout.specs.Opening.{opening_length};
ghost use Rattle.layout.specs.Polynomial.{polynomial_length};
ghost use Rattle.layout.specs.Queue.{is_queue};
ghost use Rattle.held.specs.Rules.{held_ok};
ghost use Rattle.held.specs.declared.Done.{Done};
ghost use Rattle.frames.specs.Opening.{choosing, choosing_polynomial, opening_frame, free_done, priority_done, polynomial_done, queue_done};

use crate::NO_FRAME;
use held::{Done, Held};
use legacy::Queue;
use poly_seg::PolySeg;
use pseg::PrioritySeg;
use seg::FreeVolume;
use segmentation::Rule;

// A manager whose record a line opens.
pub trait Opens {
    ghost of_length: { List ℕ → Bool };

    ghost opening: { List ℕ → Done };

    // Is the line as long as its frame asks?
    fn fits(line: &[u8]) -> bool
        ensures { result ≡ of_length line.now };

    // What a line of the right length opens: 01's number, and the record that is held from then on where it is 0.
    fn opened(line: &[u8]) -> Done
        ensures is { result ≡ opening line.now }
        ensures keeps_rules { result.number ≡ 0 → held_ok result.held ≡ true };
}

// Frames 01 and 21.
impl Opens for FreeVolume {
    ghost of_length = { λ line. has_bytes line (opening_length line) };

    ghost opening = { free_done };

    fn fits(line: &[u8]) -> bool {
        layout::opening::fits(line)
    }

    fn opened(line: &[u8]) -> Done {
        let f = layout::opening::read(line);
        let o = FreeVolume::open(
            choosing(f.rule),
            f.window,
            f.rates,
            f.rate_count,
            f.delays,
            f.delay_count,
        );
        Done {
            number: o.number,
            held: Held::Free(o.manager),
        }
    }
}

// Frames 02 and 22.
impl Opens for PrioritySeg {
    ghost of_length = { λ line. has_bytes line (opening_length line) };

    ghost opening = { priority_done };

    fn fits(line: &[u8]) -> bool {
        layout::opening::fits(line)
    }

    fn opened(line: &[u8]) -> Done {
        let f = layout::opening::read(line);
        let o = PrioritySeg::open(
            choosing(f.rule),
            f.window,
            f.rates,
            f.rate_count,
            f.delays,
            f.delay_count,
        );
        Done {
            number: o.number,
            held: Held::Priority(o.manager),
        }
    }
}

// Frames 03 and 23.
impl Opens for PolySeg {
    ghost of_length = { λ line. has_bytes line (polynomial_length line) };

    ghost opening = { polynomial_done };

    fn fits(line: &[u8]) -> bool {
        layout::polynomial::fits(line)
    }

    fn opened(line: &[u8]) -> Done {
        let f = layout::polynomial::read(line);
        let o = PolySeg::open(
            choosing_polynomial(f.rule),
            f.window,
            f.polynome,
            f.delays,
            f.delay_count,
        );
        Done {
            number: o.number,
            held: Held::Polynomial(o.manager),
        }
    }
}

// Frame 04.
impl Opens for Queue {
    ghost of_length = { is_queue };

    ghost opening = { queue_done };

    fn fits(line: &[u8]) -> bool {
        layout::queue::fits(line)
    }

    fn opened(line: &[u8]) -> Done {
        let f = layout::queue::read(line);
        let o = Queue::open(
            legacy::Choices::ported(),
            f.window,
            f.rate,
            f.delay,
            f.classes,
            f.flags,
            f.budgets,
        );
        Done {
            number: o.number,
            held: Held::Queue(o.manager),
        }
    }
}

// A frame states its rule, and nothing else of what an opening chooses.
fn choosing(rule: Rule) -> contact::Choices
    ensures { result ≡ choosing rule }
{
    contact::Choices {
        rule,
        ..contact::Choices::ported()
    }
}

// The same of the polynomial manager's choices, which are of another type.
// A trait for the one field of two structs that C has would be longer than both functions.
fn choosing_polynomial(rule: Rule) -> poly_seg::Choices
    ensures { result ≡ choosing_polynomial rule }
{
    poly_seg::Choices {
        rule,
        ..poly_seg::Choices::ported()
    }
}

// The frame of a manager's opening.
pub fn open<M: Opens>(line: &[u8], held: Held) -> Done
    ensures { result ≡ opening_frame M.of_length M.opening line.now held }
{
    if !M::fits(line) {
        return held.refused(NO_FRAME);
    }
    let o = M::opened(line);
    held.kept(o.number, o.held)
}
