// The queue manager from C or Rust: its record is lent, and no enum crosses. The calls whose names end in _kept test nothing: whoever holds the record keeps its rules.
// A call that changes the record is two lines, and stands once for each: a function over them would be as long as each of them.
ghost use Rattle.std.specs.Prelude.{◌≡◌, true};
ghost use Rattle.legacy.specs.Open.{open_of};
ghost use Rattle.legacy.specs.Record.{record_ok};
ghost use Rattle.legacy.specs.DryRun.{dry_run_of};
ghost use Rattle.legacy.specs.Book.{book_of};
ghost use Rattle.legacy.specs.List.{list_of};
ghost use Rattle.legacy.specs.Queueing.{enqueue_of, dequeue_of};

use legacy::{Choices, Flags, Queue};
use units::{Bundle, Date, Delay, Interval, Offer, Rate, TxData, Volume};

// An opening's choices and figures.
#[repr(C)]
#[derive(Clone, Copy)]
pub struct QueueOpening {
    pub choices: Choices,
    pub window: Interval,
    pub rate: Rate,
    pub delay: Delay,
    pub classes: usize,
    pub flags: Flags,
    pub budgets: [Volume; Queue::CLASSES_MAX],
}

// The opening by value, with its figures in one record.
pub fn opened(x: QueueOpening) -> legacy::Opened
    ensures { result ≡ open_of x.choices x.window x.rate x.delay x.classes x.flags x.budgets }
{
    Queue::open(
        x.choices, x.window, x.rate, x.delay, x.classes, x.flags, x.budgets,
    )
}

pub fn hk_queue_open(x: &QueueOpening) -> legacy::Opened
    ensures { result ≡ open_of x.now.choices x.now.window x.now.rate x.now.delay x.now.classes x.now.flags x.now.budgets }
{
    opened(*x)
}

// Does the record keep its rules?
pub fn hk_queue_ok(m: &Queue) -> bool
    ensures { result ≡ record_ok m.now }
{
    m.ok()
}

pub fn hk_queue_list(m: &Queue) -> legacy::Listing
    ensures { result ≡ list_of m.now }
{
    m.list()
}

pub fn hk_queue_dry_run(m: &Queue, at: Date, bundle: Bundle) -> Offer
    ensures { result ≡ dry_run_of m.now at bundle }
{
    m.dry_run(at, bundle)
}

pub fn hk_queue_dry_run_kept(m: &Queue, at: Date, bundle: Bundle) -> Offer
    requires { record_ok m.now ≡ true }
    ensures { result ≡ dry_run_of m.now at bundle }
{
    m.dry_run_kept(at, bundle)
}

pub fn hk_queue_book(m: &mut Queue, at: Date, bundle: Bundle, dates: &TxData) -> u8
    ensures { (result ≡ (book_of m.old at bundle dates.now).number) × (m.new ≡ (book_of m.old at bundle dates.now).manager) }
{
    let done = m.book(at, bundle, *dates);
    *m = done.manager;
    done.number
}

pub fn hk_queue_book_kept(m: &mut Queue, at: Date, bundle: Bundle, dates: &TxData) -> u8
    requires { record_ok m.old ≡ true }
    ensures { (result ≡ (book_of m.old at bundle dates.now).number) × (m.new ≡ (book_of m.old at bundle dates.now).manager) }
{
    let done = m.book_kept(at, bundle, *dates);
    *m = done.manager;
    done.number
}

pub fn hk_queue_enqueue(m: &mut Queue, bundle: Bundle) -> u8
    ensures { (result ≡ (enqueue_of m.old bundle).number) × (m.new ≡ (enqueue_of m.old bundle).manager) }
{
    let done = m.enqueue(bundle);
    *m = done.manager;
    done.number
}

pub fn hk_queue_enqueue_kept(m: &mut Queue, bundle: Bundle) -> u8
    requires { record_ok m.old ≡ true }
    ensures { (result ≡ (enqueue_of m.old bundle).number) × (m.new ≡ (enqueue_of m.old bundle).manager) }
{
    let done = m.enqueue_kept(bundle);
    *m = done.manager;
    done.number
}

pub fn hk_queue_dequeue(m: &mut Queue, bundle: Bundle) -> u8
    ensures { (result ≡ (dequeue_of m.old bundle).number) × (m.new ≡ (dequeue_of m.old bundle).manager) }
{
    let done = m.dequeue(bundle);
    *m = done.manager;
    done.number
}

pub fn hk_queue_dequeue_kept(m: &mut Queue, bundle: Bundle) -> u8
    requires { record_ok m.old ≡ true }
    ensures { (result ≡ (dequeue_of m.old bundle).number) × (m.new ≡ (dequeue_of m.old bundle).manager) }
{
    let done = m.dequeue_kept(bundle);
    *m = done.manager;
    done.number
}
