// The priority manager (pseg.rs: PSegmentationManager): open, dry run, book, list.
#![tactic(auto)]

ghost use Rattle.std.specs.Prelude.{◌≡◌, true, [], ◌∷◌, ◌≤◌, MatchResult};
ghost use Rattle.std.specs.declared.ops.ControlFlow.TheVariants.{Break};
ghost use Rattle.units.specs.Limits.{priority_max, bundle_ok};
ghost use Rattle.units.specs.Answer.{refused};
ghost use Rattle.units.specs.Refusal.{number_of};
ghost use Rattle.bookings.specs.Cut.{list_in};
ghost use Rattle.pseg.specs.Open.{open_of, refused_opening, whole_window};
ghost use Rattle.pseg.specs.Record.{record_ok};
ghost use Rattle.pseg.specs.DryRun.{dry_run_of, run_of};
ghost use Rattle.pseg.specs.Book.{book_of, set_list, refused_booking};
ghost use Rattle.pseg.specs.List.{list_of};
ghost use Rattle.pseg.specs.Granted.{left_by};

use bookings::{BookingSegment, Bookings, Level, Search, Set};
use contact::{Choices, Contact};
use segmentation::{DelaySegment, RateSegment};
use units::refusal::Refusal;
use units::{Bundle, Date, Interval, Offer, Priority, TxData};

#[repr(C)]
#[derive(Clone, Copy, Default)]
pub struct PrioritySeg {
    pub contact: Contact,
    pub bookings: Bookings,
}

// Numbers beside values: the C interface has the answers so, and `open_of`, `book_of` and `list_of` say them so.

// The answer of an opening: 01's number and the record, which is zero on a refusal.
#[repr(C)]
#[derive(Clone, Copy)]
pub struct Opened {
    pub number: u8,
    pub manager: PrioritySeg,
}

// The answer of a booking: 01's number and the record, which is the one that came on a refusal.
#[repr(C)]
#[derive(Clone, Copy)]
pub struct Booked {
    pub number: u8,
    pub manager: PrioritySeg,
}

// The answer of a list: 01's number and the listed segments, none on a refusal.
#[repr(C)]
#[derive(Clone, Copy)]
pub struct Listing {
    pub number: u8,
    pub list: Bookings,
}

// That a record keeps its rules is a clause and no part of its type: C hands records over that do not, and the clauses of the calls stay as they were.
impl PrioritySeg {
    // The whole window is listed, with -1.
    fn accepted_opening(contact: Contact, window: Interval) -> Opened
        ensures { result ≡ record { number = 0; manager = record { contact = contact; bookings = list_in (whole_window window ∷ []) } } }
    {
        let nothing = BookingSegment {
            start: window.start,
            end: window.end,
            level: Level::default(),
        };
        let manager = PrioritySeg {
            contact,
            bookings: Bookings::only(nothing),
        };
        Opened { number: 0, manager }
    }

    fn refused_opening(refusal: Refusal) -> Opened
        ensures { result ≡ refused_opening (number_of refusal) }
    {
        Opened {
            number: refusal.number(),
            manager: PrioritySeg::default(),
        }
    }

    fn refused_booking(self, refusal: Refusal) -> Booked
        ensures { result ≡ refused_booking (number_of refusal) self }
    {
        Booked {
            number: refusal.number(),
            manager: self,
        }
    }

    // new and try_init: 2 for a choice, then 3, 4, 6, 5 in this order; the whole window is listed, with -1.
    // The arrays with their counts are what C gives.
    pub fn open(
        choices: Choices,
        window: Interval,
        rates: [RateSegment; RateSegment::COUNT_MAX],
        rate_count: usize,
        delays: [DelaySegment; DelaySegment::COUNT_MAX],
        delay_count: usize,
    ) -> Opened
        ensures { result ≡ open_of choices window rates rate_count delays delay_count }
    {
        match Contact::opened(choices, window, &rates, rate_count, &delays, delay_count) {
            Ok((contact, _)) => PrioritySeg::accepted_opening(contact, window),
            Err(refusal) => PrioritySeg::refused_opening(refusal),
        }
    }

    // Does the record keep its rules?
    #[tactic(auto, unfolding(crate::specs::Record::record_ok, crate::specs::Record::bookings_ok, units::specs::Logic::both))]
    pub fn ok(self) -> bool
        ensures { result ≡ record_ok self }
    {
        let list = &self.bookings;
        self.contact.ok()
            && (1..=Bookings::COUNT_MAX).contains(&list.count)
            && bookings::cover_ok(list.listed(), self.contact.window)
            && units::blank::unused(&list.segments[list.count..])
    }

    // The run that is offered: 2 or 7.
    fn found(&self, at: Date, bundle: Bundle) -> Result<Interval, Refusal>
        requires kept { record_ok self.now ≡ true }
        ensures { MatchResult result (λ send. (bundle_ok at bundle ≡ true) × (run_of self.now at.0 bundle ≡ Break send)) (λ e. dry_run_of self.now at bundle ≡ refused (number_of e)) }
    {
        if !bundle.ok_at(at) {
            return Err(Refusal::Bundle);
        }
        let search = Search {
            edition: self.contact.choices.edition,
            rates: self.contact.rates(),
            window: self.contact.window,
            asked: at,
            size: bundle.size,
            priority: bundle.priority,
        };
        search
            .find_run(self.bookings.listed())
            .break_value()
            .ok_or(Refusal::NoOffer)
    }

    // What a dry run answers on a record that keeps its rules, which is lent, so that no call within copies it.
    fn offer(&self, at: Date, bundle: Bundle) -> Offer
        requires { record_ok self.now ≡ true }
        ensures { result ≡ dry_run_of self.now at bundle }
    {
        match self.found(at, bundle) {
            Ok(send) => self.contact.answer(send),
            Err(refusal) => Offer::refused(refusal.number()),
        }
    }

    // The dry run on a record that keeps its rules, without testing it again: for a caller who holds such a record.
    pub fn dry_run_kept(self, at: Date, bundle: Bundle) -> Offer
        requires { record_ok self ≡ true }
        ensures { result ≡ dry_run_of self at bundle }
    {
        self.offer(at, bundle)
    }

    // dry_run_tx: 1, 2, then 7 or 8.
    #[tactic(auto, unfolding(crate::specs::DryRun::dry_run_of))]
    pub fn dry_run(self, at: Date, bundle: Bundle) -> Offer
        ensures { result ≡ dry_run_of self at bundle }
    {
        if !self.ok() {
            return Offer::refused(Refusal::Record.number());
        }
        self.offer(at, bundle)
    }

    // The booking on such a record, where it stands: 2, 9, 17, then 10, and the record as it was. By value each booking would copy it.
    pub fn book_here(&mut self, at: Date, bundle: Bundle, dates: TxData) -> Result<(), Refusal>
        requires kept { record_ok self.old ≡ true }
        ensures { left_by self.new result ≡ book_of self.old at bundle dates }
    {
        self.offer(at, bundle)
            .check(self.contact.choices.strict, dates)?;
        let level = Level::from(bundle.priority);
        let (segments, count) = (&mut self.bookings.segments, &mut self.bookings.count);
        bookings::place::set(segments, count, dates.send, level)
    }

    // The booking on such a record.
    pub fn book_kept(mut self, at: Date, bundle: Bundle, dates: TxData) -> Booked
        requires { record_ok self ≡ true }
        ensures { result ≡ book_of self at bundle dates }
    {
        match self.book_here(at, bundle, dates) {
            Ok(()) => Booked {
                number: 0,
                manager: self,
            },
            Err(refusal) => self.refused_booking(refusal),
        }
    }

    // schedule_tx, with the time that the dry run was asked: 1, 2, 9, 17, then 10.
    #[tactic(auto, unfolding(crate::specs::Book::book_of))]
    pub fn book(self, at: Date, bundle: Bundle, dates: TxData) -> Booked
        ensures { result ≡ book_of self at bundle dates }
    {
        if !self.ok() {
            return self.refused_booking(Refusal::Record);
        }
        self.book_kept(at, bundle, dates)
    }

    // What a booking leaves of the list, on a record that keeps its rules.
    pub fn set(self, send: Interval, priority: Priority) -> Set
        requires fact_1 { record_ok self ≡ true }
        requires fact_2 { priority.0 ≤ priority_max }
        ensures { result ≡ set_list self send priority.0 }
    {
        let done = self.bookings.set(send, Level::from(priority));
        Set::told(self.bookings, done)
    }

    // The listed segments: 1.
    #[tactic(auto, unfolding(crate::specs::List::list_of))]
    pub fn list(self) -> Listing
        ensures { result ≡ list_of self }
    {
        if !self.ok() {
            return Listing {
                number: Refusal::Record.number(),
                list: Bookings::default(),
            };
        }
        Listing {
            number: 0,
            list: self.bookings,
        }
    }
}
