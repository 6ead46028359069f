// The free-volume manager (seg.rs: SegmentationManager): open, dry run, book, list.
#![tactic(auto)]

ghost use Rattle.std.specs.Prelude.{◌≡◌, true};
ghost use Rattle.units.specs.Refusal.{number_of};
ghost use Rattle.free_list.specs.Granted.{Inside, Changes};
ghost use Rattle.seg.specs.Open.{open_of, refused_opening};
ghost use Rattle.seg.specs.Record.{record_ok};
ghost use Rattle.seg.specs.DryRun.{dry_run_of};
ghost use Rattle.seg.specs.Book.{book_of, cut_free, refused_booking};
ghost use Rattle.seg.specs.List.{list_of};
ghost use Rattle.seg.specs.Room.{room_in, refused_room, room_answer};
ghost use Rattle.seg.specs.Granted.{chosen_of, left_by};

use contact::{Choices, Contact};
use free_list::{Chosen, Cut, FreeList};
use segmentation::{DelaySegment, RateSegment};
use units::blank::unused;
use units::refusal::Refusal;
use units::{Bundle, Date, Interval, Offer, TxData, Volume};

#[repr(C)]
#[derive(Clone, Copy, Default)]
pub struct FreeVolume {
    pub contact: Contact,
    pub free: FreeList,
    pub room: Volume,
}

// The answers: 01's number beside a value, as the C interface has them. Each manager has its own types of answers, of which its `open_of`, `book_of` and `list_of` speak.
// The answer of an opening: 01's number and the record, which is zero on a refusal.
#[repr(C)]
#[derive(Clone, Copy, Default)]
pub struct Opened {
    pub number: u8,
    pub manager: FreeVolume,
}

// The answer of a booking: 01's number and the record, which is the one that came on a refusal.
#[repr(C)]
#[derive(Clone, Copy)]
pub struct Booked {
    pub number: u8,
    pub manager: FreeVolume,
}

// The answer of a list: 01's number and the listed segments, none on a refusal.
#[repr(C)]
#[derive(Clone, Copy, Default)]
pub struct Listing {
    pub number: u8,
    pub list: FreeList,
}

// The answer of the room: 01's number and the sum of the listed volumes, 0 on a refusal.
#[repr(C)]
#[derive(Clone, Copy, PartialEq, Eq, Default)]
pub struct RoomLeft {
    pub number: u8,
    pub room: Volume,
}

impl RoomLeft {
    // A refusal shows no room.
    fn refused(refusal: Refusal) -> RoomLeft
        ensures { result ≡ refused_room (number_of refusal) }
    {
        RoomLeft {
            number: refusal.number(),
            ..RoomLeft::default()
        }
    }
}

// `record_ok` stays a clause of the kept calls and of what is inside: they take a record as C holds it, docs/CALLS.md names them with that clause (`dry_run_kept`, `book_kept`), and a type with it as its invariant would ask more of their callers.
impl FreeVolume {
    fn refused_opening(refusal: Refusal) -> Opened
        ensures { result ≡ refused_opening (number_of refusal) }
    {
        Opened {
            number: refusal.number(),
            ..Opened::default()
        }
    }

    fn refused_booking(self, refusal: Refusal) -> Booked
        ensures { result ≡ refused_booking (number_of refusal) self }
    {
        Booked {
            number: refusal.number(),
            manager: self,
        }
    }

    // new and try_init: 2 for a choice, then 3, 4, 6, 5 in this order; the whole window is listed, with the total volume.
    // The arrays with their counts are what C gives.
    pub fn open(
        choices: Choices,
        window: Interval,
        rates: [RateSegment; RateSegment::COUNT_MAX],
        rate_count: usize,
        delays: [DelaySegment; DelaySegment::COUNT_MAX],
        delay_count: usize,
    ) -> Opened
        ensures { result ≡ open_of choices window rates rate_count delays delay_count }
    {
        match Contact::opened(choices, window, &rates, rate_count, &delays, delay_count) {
            Ok((contact, total)) => Opened {
                number: 0,
                manager: FreeVolume {
                    contact,
                    free: FreeList::whole(window, total),
                    room: total,
                },
            },
            Err(refusal) => FreeVolume::refused_opening(refusal),
        }
    }

    // Does the record keep its rules?
    pub fn ok(self) -> bool
        ensures { result ≡ record_ok self }
    {
        self.contact.ok()
            && (1..=FreeList::COUNT_MAX).contains(&self.free.count)
            && free_list::walk::listed_ok(
                self.contact.rates(),
                self.free.listed(),
                self.contact.window,
                self.room,
            )
            && unused(&self.free.segments[self.free.count..])
    }

    // What a dry run finds on a record that keeps its rules, which is lent, so that no call within copies it.
    // Its refusals stay numbers: the public answer `Chosen` has its number in the offer, where the delays' 8 stands too.
    fn found(&self, at: Date, bundle: Bundle) -> Chosen
        requires { record_ok self.now ≡ true }
        ensures { result ≡ chosen_of self.now at bundle }
    {
        if !bundle.ok_at(at) {
            return Chosen::refused(Refusal::Bundle.number());
        }
        let Some(fit) = free_list::find_offer(
            self.contact.choices.edition,
            self.contact.rates(),
            self.free.listed(),
            at,
            bundle.size,
        ) else {
            return Chosen::refused(Refusal::NoOffer.number());
        };
        Chosen {
            offer: self.contact.answer(fit.send),
            place: fit.place,
        }
    }

    // What a dry run finds on a record that keeps its rules: its answer, and where it comes from.
    pub fn chosen(self, at: Date, bundle: Bundle) -> Chosen
        requires { record_ok self ≡ true }
        ensures { result ≡ chosen_of self at bundle }
    {
        self.found(at, bundle)
    }

    // The dry run on such a record, without testing it again: for a caller who holds one.
    pub fn dry_run_kept(self, at: Date, bundle: Bundle) -> Offer
        requires { record_ok self ≡ true }
        ensures { result ≡ dry_run_of self at bundle }
    {
        self.found(at, bundle).offer
    }

    // dry_run_tx: 1, 2, then 7 or 8.
    #[tactic(auto, unfolding(crate::specs::DryRun::dry_run_of))]
    pub fn dry_run(self, at: Date, bundle: Bundle) -> Offer
        ensures { result ≡ dry_run_of self at bundle }
    {
        if !self.ok() {
            return Offer::refused(Refusal::Record.number());
        }
        self.dry_run_kept(at, bundle)
    }

    // The booking on such a record, where it stands: 2, 9, 17, then 10, and the record as it came.
    pub fn book_here(&mut self, at: Date, bundle: Bundle, dates: TxData) -> Result<(), Refusal>
        requires { record_ok self.old ≡ true }
        ensures { left_by self.new result ≡ book_of self.old at bundle dates }
    {
        let found = self.found(at, bundle);
        found.offer.check(self.contact.choices.strict, dates)?;
        // The whole array is read, not used: only so is the length of what stands behind a `&mut` known.
        let _read = &self.free.segments[..];
        let (segments, count) = (&mut self.free.segments, &mut self.free.count);
        let change = free_list::place::cut(
            segments,
            count,
            self.contact.choices.edition,
            self.contact.rates(),
            found.place,
            dates.send,
            bundle.size,
        )?;
        let room = free_list::changed(self.room, change.off, change.on);
        self.room = room;
        Ok(())
    }

    // The booking on a copy of such a record.
    pub fn book_kept(mut self, at: Date, bundle: Bundle, dates: TxData) -> Booked
        requires { record_ok self ≡ true }
        ensures { result ≡ book_of self at bundle dates }
    {
        match self.book_here(at, bundle, dates) {
            Ok(()) => Booked {
                number: 0,
                manager: self,
            },
            Err(refusal) => self.refused_booking(refusal),
        }
    }

    // schedule_tx, with the time that the dry run was asked: 1, 2, 9, 17, then 10.
    #[tactic(auto, unfolding(crate::specs::Book::book_of))]
    pub fn book(self, at: Date, bundle: Bundle, dates: TxData) -> Booked
        ensures { result ≡ book_of self at bundle dates }
    {
        if !self.ok() {
            return self.refused_booking(Refusal::Record);
        }
        self.book_kept(at, bundle, dates)
    }

    // What a booking leaves of the list, on a record that keeps its rules.
    pub fn cut(self, place: usize, send: Interval, size: Volume) -> Cut
        requires fact_1 { record_ok self ≡ true }
        requires fact_2 { Inside self.free place size.0 }
        ensures fact_1 { result ≡ cut_free self place send size.0 }
        ensures fact_2 { Changes self.room.0 result }
    {
        self.free.cut(
            self.contact.choices.edition,
            self.contact.rates(),
            place,
            send,
            size,
        )
    }

    // The room on a record that keeps its rules.
    pub fn room_kept(self) -> Volume
        requires { record_ok self ≡ true }
        ensures { result ≡ room_in self }
    {
        self.room
    }

    // The sum of the listed volumes: 1.
    #[tactic(auto, unfolding(crate::specs::Room::room_answer))]
    pub fn room(self) -> RoomLeft
        ensures { result ≡ room_answer self }
    {
        if !self.ok() {
            return RoomLeft::refused(Refusal::Record);
        }
        RoomLeft {
            number: 0,
            room: self.room,
        }
    }

    // The listed segments: 1.
    #[tactic(auto, unfolding(crate::specs::List::list_of))]
    pub fn list(self) -> Listing
        ensures { result ≡ list_of self }
    {
        if !self.ok() {
            return Listing {
                number: Refusal::Record.number(),
                ..Listing::default()
            };
        }
        Listing {
            number: 0,
            list: self.free,
        }
    }
}
