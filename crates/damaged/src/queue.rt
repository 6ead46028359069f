// The queue manager: [0,10), rate 10, delay 2, 3 classes, unbudgeted, both flags.
use crate::contacts::span;
use crate::out::{self, Answers, Asked, Record};
use crate::over;
use legacy::{Choices, Flags, Queue};
use std::io;
use units::{Bundle, Date, Delay, Priority, Rate, Strict, TxData, Volume};

impl Record for Queue {
    fn answers(self, asked: &Asked) -> Answers {
        Answers {
            good: self.ok(),
            dry_run: self.dry_run(asked.at, asked.bundle).number,
            book: self.book(asked.at, asked.bundle, asked.dates).number,
            list: self.list().number,
        }
    }
}

// At 0, size 25, priority 1: the offer is send 0,2, receive 2,4. Then the numbers of manual queueing in the place of dry run and booking.
fn report(rt: &impl Print, label: char, r: Queue) -> io::Result<()> {
    let asked = Asked {
        at: Date(0),
        bundle: Bundle {
            size: Volume(25),
            priority: Priority(1),
        },
        dates: TxData {
            send: span(0, 2),
            recv: span(2, 4),
        },
    };
    out::report(rt, 'q', label, &asked, r)?;
    let manual = Answers {
        dry_run: r.enqueue(asked.bundle).number,
        book: r.dequeue(asked.bundle).number,
        ..r.answers(&asked)
    };
    println!(rt; "m{label} {manual}")
}

// The queue of this end, rate, delay and class count, with a first and a fourth queue and a first budget.
fn queue(
    end: u64,
    rate: u64,
    delay: u64,
    classes: usize,
    flags: Flags,
    first: u64,
    fourth: u64,
    budget: u64,
) -> Queue {
    let mut queues = [Volume::default(); Queue::CLASSES_MAX];
    queues[0] = Volume(first);
    queues[3] = Volume(fourth);
    let mut budgets = [Volume::default(); Queue::CLASSES_MAX];
    budgets[0] = Volume(budget);
    Queue {
        choices: Choices::ported(),
        window: span(0, end),
        rate: Rate(rate),
        delay: Delay(delay),
        classes,
        flags,
        queues,
        budgets,
    }
}

// The record with another flag for sends of zero length.
fn named(r: Queue, strict: u64) -> Queue {
    let choices = Choices {
        strict: Strict(strict),
    };
    Queue { choices, ..r }
}

// At 0, size 9, priority 1: the offer is send 0,0, receive 2,2.
fn briefly(rt: &impl Print, label: char, r: Queue) -> io::Result<()> {
    let asked = Asked {
        at: Date(0),
        bundle: Bundle {
            size: Volume(9),
            priority: Priority(1),
        },
        dates: TxData {
            send: span(0, 0),
            recv: span(2, 2),
        },
    };
    out::report(rt, 'u', label, &asked, r)
}

fn flags(self_update: bool, budgeted: bool) -> Flags {
    Flags {
        add_delay: true,
        self_update,
        budgeted,
    }
}

pub fn run(rt: &impl Print) -> io::Result<()> {
    let f = flags(true, false);
    let by_hand = flags(false, false);
    let budgeted = flags(true, true);
    // valid: fresh; queued by hand; a queue, a budget and the classes at their limits
    report(rt, 'a', queue(10, 10, 2, 3, f, 0, 0, 0))?;
    report(rt, 'b', queue(10, 10, 2, 3, by_hand, 25, 0, 0))?;
    report(
        rt,
        'c',
        queue(10, 10, 2, 3, by_hand, Queue::QUEUE_MAX, 0, 0),
    )?;
    report(
        rt,
        'd',
        queue(10, 10, 2, 3, budgeted, 0, 0, Queue::BUDGET_MAX),
    )?;
    report(rt, 'e', queue(10, 10, 2, Queue::CLASSES_MAX, f, 0, 1, 0))?;
    // the window, the rate, the total, the delay
    report(rt, 'A', queue(0, 10, 2, 3, f, 0, 0, 0))?;
    report(rt, 'B', queue(over::LENGTH, 10, 2, 3, f, 0, 0, 0))?;
    report(rt, 'C', queue(10, 0, 2, 3, f, 0, 0, 0))?;
    report(rt, 'D', queue(10, over::RATE, 2, 3, f, 0, 0, 0))?;
    report(rt, 'E', queue(10, over::RATE_OF_TEN, 2, 3, f, 0, 0, 0))?;
    report(rt, 'F', queue(10, 10, over::DELAY, 3, f, 0, 0, 0))?;
    // class counts, a queue above its limit, a queue past the classes, budgets
    report(rt, 'G', queue(10, 10, 2, 0, f, 0, 0, 0))?;
    report(rt, 'H', queue(10, 10, 2, over::CLASSES, f, 0, 0, 0))?;
    report(rt, 'I', queue(10, 10, 2, 3, f, over::QUEUE, 0, 0))?;
    report(rt, 'J', queue(10, 10, 2, 3, f, 0, 1, 0))?;
    report(rt, 'K', queue(10, 10, 2, 3, f, 0, 0, 1))?;
    report(rt, 'L', queue(10, 10, 2, 3, budgeted, 0, 0, over::BUDGET))?;
    // valid: strict, which answers the same of a send that lasts; flags: one too many, 255, the largest
    let fresh = queue(10, 10, 2, 3, f, 0, 0, 0);
    let manual = queue(10, 10, 2, 3, by_hand, 0, 0, 0);
    report(rt, 'f', named(fresh, Strict::ON))?;
    report(rt, 'M', named(fresh, over::STRICT))?;
    report(rt, 'N', named(fresh, 255))?;
    report(rt, 'O', named(fresh, u64::MAX))?;
    // a send of zero length is booked with the flag off, 17 with it on, under self-update or not
    briefly(rt, 'a', fresh)?;
    briefly(rt, 'f', named(fresh, Strict::ON))?;
    briefly(rt, 'g', named(manual, Strict::ON))
}
