// Frame 04: flags, class count, start, end, rate, delay, eight budgets.
ghost use Rattle.std.specs.Prelude.{◌≡◌};
ghost use Rattle.layout.specs.Queue.{flags_of, budgets_at, is_queue, queue_of};

use crate::row::rows_at;
use crate::{count_at, interval_at};
use hexadecimal::number_at;
use legacy::{Flags, Queue};
use units::{Delay, Interval, Rate, Volume};

// What the queue manager's opening is given, which C calls: eight budgets, of which as many count as there are classes.
#[repr(C)]
#[derive(Clone, Copy, PartialEq, Eq, Default)]
pub struct QueueOpening {
    pub window: Interval,
    pub rate: Rate,
    pub delay: Delay,
    pub classes: usize,
    pub flags: Flags,
    pub budgets: [Volume; Queue::CLASSES_MAX],
}

// All three flags.
const FLAGS_MAX: usize = 7;

// 1 added delay, 2 self-update, 4 budgeted.
#[tactic(auto, unfolding(crate::specs::Queue::flags_of))]
fn flags(n: usize) -> Flags
    ensures { result ≡ flags_of n }
{
    Flags {
        add_delay: n % 2 == 1,
        self_update: n / 2 % 2 == 1,
        budgeted: n / 4 % 2 == 1,
    }
}

fn budgets_at(line: &[u8]) -> [Volume; Queue::CLASSES_MAX]
    ensures { result ≡ budgets_at line.now 35 }
{
    rows_at(line, 35, Queue::CLASSES_MAX)
}

// Is the line as long as a queue's opening, with flags of at most 7?
#[tactic(auto, unfolding(crate::specs::Queue::is_queue, units::specs::Logic::both))]
pub fn fits(line: &[u8]) -> bool
    ensures { result ≡ is_queue line.now }
{
    crate::has(line, 99) && count_at(line, 1) <= FLAGS_MAX
}

#[tactic(auto, unfolding(crate::specs::Queue::queue_of))]
pub fn read(line: &[u8]) -> QueueOpening
    ensures { result ≡ queue_of line.now }
{
    QueueOpening {
        window: interval_at(line, 3),
        rate: Rate(number_at(line, 19)),
        delay: Delay(number_at(line, 27)),
        classes: count_at(line, 2),
        flags: flags(count_at(line, 1)),
        budgets: budgets_at(line),
    }
}
