// The queue manager (legacy/mod.rs: LegacyManager): open, dry run, book, list, and manual queueing.
#![tactic(auto)]

ghost use Rattle.std.specs.Prelude.{◌≡◌, true, ◌≤◌};
ghost use Rattle.units.specs.Limits.{date_max, volume_max, window_ok};
ghost use Rattle.units.specs.Refusal.{told};
ghost use Rattle.legacy.specs.Choices.{ported, choices_ok};
ghost use Rattle.legacy.specs.Open.{open_of, rate_ok, budgets_ok};
ghost use Rattle.legacy.specs.Record.{queue_max, record_ok};
ghost use Rattle.legacy.specs.DryRun.{dry_run_of, class_of, queue_at, budget_at, start_at};
ghost use Rattle.legacy.specs.Queueing.{enqueue_at, dequeue_at, enqueue_of, dequeue_of};
ghost use Rattle.legacy.specs.Book.{book_of};
ghost use Rattle.legacy.specs.List.{list_of};
ghost use Rattle.legacy.specs.Granted.{offer_by, left_by, manual_refusal};

use units::blank::unused;
use units::refusal::Refusal;
use units::{Bundle, Date, Delay, Interval, Offer, Priority, Rate, Strict, TxData, Volume};

pub mod volumes;

// What an opening chooses and the record names: the strict flag.
#[repr(C)]
#[derive(Clone, Copy, PartialEq, Eq, Default)]
pub struct Choices {
    pub strict: Strict,
}

impl Choices {
    // What the source has.
    pub fn ported() -> Choices
        ensures { result ≡ ported }
    {
        Choices {
            strict: Strict(Strict::OFF),
        }
    }

    // Is each choice one that there is?
    #[tactic(auto, unfolding(crate::specs::Choices::choices_ok))]
    pub fn ok(self) -> bool
        ensures { result ≡ choices_ok self }
    {
        self.strict.ok()
    }
}

#[repr(C)]
#[derive(Clone, Copy, PartialEq, Eq, Default)]
pub struct Flags {
    pub add_delay: bool,
    pub self_update: bool,
    pub budgeted: bool,
}

// The C interface's layout: arrays beside their count, and a budget beside each queue.
#[repr(C)]
#[derive(Clone, Copy, PartialEq, Eq, Default)]
pub struct Queue {
    pub choices: Choices,
    pub window: Interval,
    pub rate: Rate,
    pub delay: Delay,
    pub classes: usize,
    pub flags: Flags,
    pub queues: [Volume; Queue::CLASSES_MAX],
    pub budgets: [Volume; Queue::CLASSES_MAX],
}

// The answers are the C interface's: a number and a value beside it. Inside, what may be refused is a Result. Each manager has its own types of answers, of which its `open_of`, `book_of` and `list_of` speak.
// The answer of an opening: 01's number and the record, which is zero on a refusal.
#[repr(C)]
#[derive(Clone, Copy, PartialEq, Eq, Default)]
pub struct Opened {
    pub number: u8,
    pub manager: Queue,
}

// The answer of a booking or of manual queueing: 01's number and the record, which is the one that came on a refusal.
#[repr(C)]
#[derive(Clone, Copy, PartialEq, Eq, Default)]
pub struct Booked {
    pub number: u8,
    pub manager: Queue,
}

// The answer of a list: 01's number, the class count and each class's queue, zero on a refusal.
#[repr(C)]
#[derive(Clone, Copy, PartialEq, Eq, Default)]
pub struct Listing {
    pub number: u8,
    pub classes: usize,
    pub queues: [Volume; Queue::CLASSES_MAX],
}

// What a dry run answers.
fn offer(dates: Result<TxData, Refusal>) -> Offer
    ensures { result ≡ offer_by dates }
{
    match dates {
        Ok(dates) => Offer { number: 0, dates },
        Err(refusal) => Offer::refused(refusal.number()),
    }
}

// The number of what is done, or refused.
fn number(done: Result<(), Refusal>) -> u8
    ensures { result ≡ told done }
{
    match done {
        Ok(()) => 0,
        Err(refusal) => refusal.number(),
    }
}

// `record_ok` stays a clause of the kept calls and of what is inside: they take a record as C holds it, docs/CALLS.md names them with that clause (`dry_run_kept`, `book_kept`), and a type with it as its invariant would ask more of their callers.
impl Queue {
    pub const CLASSES_MAX: usize = 8;

    pub const BUDGET_MAX: u64 = Volume::MAX;

    // Eight budgets: under self-update a booking is never refused for its queue's limit.
    pub const QUEUE_MAX: u64 = Queue::CLASSES_MAX as u64 * Queue::BUDGET_MAX;

    // Are the rate, and the window's length times it, inside their limits?
    #[tactic(auto, unfolding(crate::specs::Open::rate_ok, units::specs::Logic::both))]
    pub fn rate_ok(window: Interval, rate: Rate) -> bool
        requires { window_ok window ≡ true }
        ensures { result ≡ rate_ok window rate.0 }
    {
        (1..=Rate::MAX).contains(&rate.0) && rate.0 <= Volume::MAX / (window.end.0 - window.start.0)
    }

    // 1 to 8 classes, and a budget inside its limits for each where there are budgets; else zero. Its arguments, as those of
    // `rate_ok` and `open`, are no struct's: the calls keep their signatures, of which proofs/Unique speaks.
    pub fn budgets_ok(classes: usize, flags: Flags, budgets: [Volume; Queue::CLASSES_MAX]) -> bool
        ensures { result ≡ budgets_ok classes flags budgets }
    {
        Queue::budgets_hold(classes, flags, &budgets)
    }

    // The same of budgets where they stand, as a record's.
    #[tactic(auto, unfolding(crate::specs::Open::budgets_ok, units::specs::Logic::both))]
    fn budgets_hold(classes: usize, flags: Flags, budgets: &[Volume; Queue::CLASSES_MAX]) -> bool
        ensures { result ≡ budgets_ok classes flags budgets.now }
    {
        let used = if flags.budgeted { classes } else { 0 };
        (1..=Queue::CLASSES_MAX).contains(&classes)
            && volumes::within(&budgets[..used], Queue::BUDGET_MAX)
            && unused(&budgets[used..])
    }

    // An opening's tests: 2 for a choice that there is not, then 3, 6, 5, 14 in this order.
    #[tactic(auto, unfolding(crate::specs::Open::open_of))]
    fn check(&self) -> Result<(), Refusal>
        ensures { let m = self.now in let o = open_of m.choices m.window m.rate m.delay m.classes m.flags m.budgets in told result ≡ o.number }
    {
        if !self.choices.ok() {
            return Err(Refusal::Bundle);
        }
        if !self.window.is_window() {
            return Err(Refusal::Window);
        }
        if !Queue::rate_ok(self.window, self.rate) {
            return Err(Refusal::Volume);
        }
        if Delay::MAX < self.delay.0 {
            return Err(Refusal::Delays);
        }
        if !Queue::budgets_hold(self.classes, self.flags, &self.budgets) {
            return Err(Refusal::Classes);
        }
        Ok(())
    }

    // LegacyManager::new and try_init: 2, 3, 6, 5, 14; all queues begin at zero.
    pub fn open(
        choices: Choices,
        window: Interval,
        rate: Rate,
        delay: Delay,
        classes: usize,
        flags: Flags,
        budgets: [Volume; Queue::CLASSES_MAX],
    ) -> Opened
        ensures { result ≡ open_of choices window rate delay classes flags budgets }
    {
        let zero = Queue::default();
        let mut opened = Opened {
            number: 0,
            manager: Queue {
                choices,
                window,
                rate,
                delay,
                classes,
                flags,
                budgets,
                ..zero
            },
        };
        match opened.manager.check() {
            Ok(()) => opened,
            Err(refusal) => {
                opened.number = refusal.number();
                opened.manager = zero;
                opened
            }
        }
    }

    // Does the record keep its rules?
    pub fn ok(self) -> bool
        ensures { result ≡ record_ok self }
    {
        self.keeps()
    }

    // The same of a record where it stands.
    #[tactic(auto, unfolding(crate::specs::Record::record_ok, units::specs::Logic::both))]
    fn keeps(&self) -> bool
        ensures { result ≡ record_ok self.now }
    {
        self.check().is_ok()
            && volumes::within(&self.queues[..self.classes], Queue::QUEUE_MAX)
            && unused(&self.queues[self.classes..])
    }

    // The class of a priority: the priority, at most the last.
    pub fn class(self, priority: Priority) -> usize
        requires { record_ok self ≡ true }
        ensures { result ≡ class_of self.classes priority.0 }
    {
        (priority.0 as usize).min(self.classes - 1)
    }

    // get_queue_size
    fn queue(&self, priority: Priority) -> Volume
        requires { record_ok self.now ≡ true }
        ensures { result.0 ≡ queue_at self.now priority.0 }
    {
        self.queues[self.class(priority)]
    }

    // get_budget
    fn budget(&self, priority: Priority) -> Volume
        requires { record_ok self.now ≡ true }
        ensures { result.0 ≡ budget_at self.now priority.0 }
    {
        if self.flags.budgeted {
            return self.budgets[self.class(priority)];
        }
        Volume((self.window.end.0 - self.window.start.0) * self.rate.0)
    }

    // The send start: with added delay the queue before the bundle is sent first.
    fn start(&self, at: Date, queue: Volume) -> Date
        requires kept { record_ok self.now ≡ true }
        requires low { (at.0 ≤ date_max) × (queue.0 ≤ queue_max) }
        ensures { result.0 ≡ start_at self.now at.0 queue.0 }
    {
        let from = self.window.start;
        let wait = queue.0 / self.rate.0;
        if !self.flags.add_delay {
            return from.max(at);
        }
        if self.flags.self_update {
            return Date(from.0 + wait).max(at);
        }
        Date(from.max(at).0 + wait)
    }

    // The dates of the offer, on a record that keeps its rules: 2, then 7.
    fn answer(&self, at: Date, bundle: Bundle) -> Result<TxData, Refusal>
        requires { record_ok self.now ≡ true }
        ensures { offer_by result ≡ dry_run_of self.now at bundle }
    {
        if !bundle.ok_at(at) {
            return Err(Refusal::Bundle);
        }
        let queue = self.queue(bundle.priority);
        if self.budget(bundle.priority).0 < queue.0 + bundle.size.0 {
            return Err(Refusal::NoOffer);
        }
        let start = self.start(at, queue);
        let end = Date(start.0 + bundle.size.0 / self.rate.0);
        if self.window.end < end {
            return Err(Refusal::NoOffer);
        }
        Ok(TxData {
            send: Interval { start, end },
            recv: Interval {
                start: start.after(self.delay),
                end: end.after(self.delay),
            },
        })
    }

    // The dry run on a record that keeps its rules, without testing it again: for a caller who holds such a record.
    pub fn dry_run_kept(self, at: Date, bundle: Bundle) -> Offer
        requires { record_ok self ≡ true }
        ensures { result ≡ dry_run_of self at bundle }
    {
        offer(self.answer(at, bundle))
    }

    // dry_run_tx: 1, 2, then 7.
    #[tactic(auto, unfolding(crate::specs::DryRun::dry_run_of))]
    pub fn dry_run(self, at: Date, bundle: Bundle) -> Offer
        ensures { result ≡ dry_run_of self at bundle }
    {
        if !self.keeps() {
            return Offer::refused(Refusal::Record.number());
        }
        offer(self.answer(at, bundle))
    }

    // `put` and `pull`, and the calls over them, stay two of a shape: each promises a definition of its own (`enqueue_at`, `dequeue_at`), and one function would take the test and the change as closures, each with a clause.
    // VolumeManager::enqueue: the size is added to classes 0 to the bundle's own, all or none: 13.
    fn put(&mut self, bundle: Bundle) -> Result<(), Refusal>
        requires kept { record_ok self.old ≡ true }
        requires small { bundle.size.0 ≤ volume_max }
        ensures { left_by self.new result ≡ enqueue_at self.old bundle }
    {
        let reached = self.class(bundle.priority) + 1;
        if !volumes::within(&self.queues[..reached], Queue::QUEUE_MAX - bundle.size.0) {
            return Err(Refusal::Queue);
        }
        volumes::add(&mut self.queues[..reached], bundle.size);
        Ok(())
    }

    // VolumeManager::dequeue: the size is taken from classes 0 to the bundle's own, all or none: 13.
    fn pull(&mut self, bundle: Bundle) -> Result<(), Refusal>
        requires { record_ok self.old ≡ true }
        ensures { left_by self.new result ≡ dequeue_at self.old bundle }
    {
        let reached = self.class(bundle.priority) + 1;
        if !volumes::hold(&self.queues[..reached], bundle.size) {
            return Err(Refusal::Queue);
        }
        volumes::take(&mut self.queues[..reached], bundle.size);
        Ok(())
    }

    // The booking where the record stands, which a refusal leaves as it came: 2, 9, 17, then 13.
    fn try_book(&mut self, at: Date, bundle: Bundle, dates: TxData) -> Result<(), Refusal>
        requires { record_ok self.old ≡ true }
        ensures { left_by self.new result ≡ book_of self.old at bundle dates }
    {
        offer(self.answer(at, bundle)).check(self.choices.strict, dates)?;
        if self.flags.self_update {
            return self.put(bundle);
        }
        Ok(())
    }

    // The booking on such a record.
    pub fn book_kept(self, at: Date, bundle: Bundle, dates: TxData) -> Booked
        requires { record_ok self ≡ true }
        ensures { result ≡ book_of self at bundle dates }
    {
        let mut done = Booked {
            number: 0,
            manager: self,
        };
        done.number = number(done.manager.try_book(at, bundle, dates));
        done
    }

    // schedule_tx, with the time that the dry run was asked: 1, 2, 9, 17, then 13; enqueues only under self-update.
    #[tactic(auto, unfolding(crate::specs::Book::book_of))]
    pub fn book(self, at: Date, bundle: Bundle, dates: TxData) -> Booked
        ensures { result ≡ book_of self at bundle dates }
    {
        let mut done = Booked {
            number: Refusal::Record.number(),
            manager: self,
        };
        if !done.manager.keeps() {
            return done;
        }
        done.number = number(done.manager.try_book(at, bundle, dates));
        done
    }

    // The tests of manual queueing: 2, 12.
    #[tactic(auto, unfolding(crate::specs::Granted::manual_refusal))]
    fn check_manual(&self, bundle: Bundle) -> Result<(), Refusal>
        ensures { told result ≡ manual_refusal self.now bundle }
    {
        if !bundle.ok() {
            return Err(Refusal::Bundle);
        }
        if self.flags.self_update {
            return Err(Refusal::SelfUpdate);
        }
        Ok(())
    }

    // Manual queueing where the record stands, which a refusal leaves as it came: 2, 12, then 13.
    fn try_enqueue(&mut self, bundle: Bundle) -> Result<(), Refusal>
        requires { record_ok self.old ≡ true }
        ensures { left_by self.new result ≡ enqueue_of self.old bundle }
    {
        self.check_manual(bundle)?;
        self.put(bundle)
    }

    fn try_dequeue(&mut self, bundle: Bundle) -> Result<(), Refusal>
        requires { record_ok self.old ≡ true }
        ensures { left_by self.new result ≡ dequeue_of self.old bundle }
    {
        self.check_manual(bundle)?;
        self.pull(bundle)
    }

    // manual_enqueue on a record that keeps its rules.
    pub fn enqueue_kept(self, bundle: Bundle) -> Booked
        requires { record_ok self ≡ true }
        ensures { result ≡ enqueue_of self bundle }
    {
        let mut done = Booked {
            number: 0,
            manager: self,
        };
        done.number = number(done.manager.try_enqueue(bundle));
        done
    }

    // manual_enqueue: 1, 2, 12, 13.
    #[tactic(auto, unfolding(crate::specs::Queueing::enqueue_of))]
    pub fn enqueue(self, bundle: Bundle) -> Booked
        ensures { result ≡ enqueue_of self bundle }
    {
        let mut done = Booked {
            number: Refusal::Record.number(),
            manager: self,
        };
        if !done.manager.keeps() {
            return done;
        }
        done.number = number(done.manager.try_enqueue(bundle));
        done
    }

    // manual_dequeue on a record that keeps its rules.
    pub fn dequeue_kept(self, bundle: Bundle) -> Booked
        requires { record_ok self ≡ true }
        ensures { result ≡ dequeue_of self bundle }
    {
        let mut done = Booked {
            number: 0,
            manager: self,
        };
        done.number = number(done.manager.try_dequeue(bundle));
        done
    }

    // manual_dequeue: 1, 2, 12, 13.
    #[tactic(auto, unfolding(crate::specs::Queueing::dequeue_of))]
    pub fn dequeue(self, bundle: Bundle) -> Booked
        ensures { result ≡ dequeue_of self bundle }
    {
        let mut done = Booked {
            number: Refusal::Record.number(),
            manager: self,
        };
        if !done.manager.keeps() {
            return done;
        }
        done.number = number(done.manager.try_dequeue(bundle));
        done
    }

    // The class count and each class's queue: 1.
    #[tactic(auto, unfolding(crate::specs::List::list_of))]
    pub fn list(self) -> Listing
        ensures { result ≡ list_of self }
    {
        if !self.keeps() {
            return Listing {
                number: Refusal::Record.number(),
                ..Listing::default()
            };
        }
        // Through a variable: Rattle does not move a field that is an array straight into another.
        let queues = self.queues;
        Listing {
            number: 0,
            classes: self.classes,
            queues,
        }
    }
}
