// The priority manager: contact [0,10), rate 10, delay 3. Its contact part is tested as the free-volume manager's.
use crate::contacts::{self, span};
use crate::out::{self, Answers, Asked, Record};
use crate::over;
use bookings::{BookingSegment, Bookings, Level};
use pseg::PrioritySeg;
use segmentation::{Edition, Rule};
use std::io;
use units::{Bundle, Date, Priority, Strict, TxData, Volume};

impl Record for PrioritySeg {
    fn answers(self, asked: &Asked) -> Answers {
        Answers {
            good: self.ok(),
            dry_run: self.dry_run(asked.at, asked.bundle).number,
            book: self.book(asked.at, asked.bundle, asked.dates).number,
            list: self.list().number,
        }
    }
}

// At 3, size 15, priority 5: the offer is send 3,4, receive 6,7.
fn report(rt: &impl Print, label: char, r: PrioritySeg) -> io::Result<()> {
    let asked = Asked {
        at: Date(3),
        bundle: Bundle {
            size: Volume(15),
            priority: Priority(5),
        },
        dates: TxData {
            send: span(3, 4),
            recv: span(6, 7),
        },
    };
    out::report(rt, 'p', label, &asked, r)
}

// At 5, size 9: the offer is send 5,5, receive 8,8.
fn briefly(rt: &impl Print, label: char, r: PrioritySeg) -> io::Result<()> {
    let asked = Asked {
        at: Date(5),
        bundle: Bundle {
            size: Volume(9),
            priority: Priority(5),
        },
        dates: TxData {
            send: span(5, 5),
            recv: span(8, 8),
        },
    };
    out::report(rt, 't', label, &asked, r)
}

fn fresh() -> PrioritySeg {
    let choices = contact::Choices::ported();
    PrioritySeg::open(
        choices,
        span(0, 10),
        contacts::rates(),
        1,
        contacts::delays(),
        1,
    )
    .manager
}

fn segment(start: u64, end: u64, level: u64) -> BookingSegment {
    BookingSegment {
        start: Date(start),
        end: Date(end),
        level: Level(level),
    }
}

// The record with another list of two places and a count.
fn listing(r: PrioritySeg, g: BookingSegment, h: BookingSegment, count: usize) -> PrioritySeg {
    let segments = contacts::two(g, h);
    PrioritySeg {
        bookings: Bookings { segments, count },
        ..r
    }
}

// The record with other choices.
fn named(r: PrioritySeg, edition: u64, rule: u64, strict: u64) -> PrioritySeg {
    PrioritySeg {
        contact: contacts::named(r.contact, edition, rule, strict),
        ..r
    }
}

fn lists(rt: &impl Print, r: PrioritySeg) -> io::Result<()> {
    let whole = segment(0, 10, 0);
    let zero = segment(0, 0, 0);
    // valid: as opened; two segments; an empty one; the highest level; booked at the priority itself
    report(rt, 'a', r)?;
    report(rt, 'b', listing(r, segment(0, 5, 0), segment(5, 10, 3), 2))?;
    report(rt, 'c', listing(r, segment(0, 0, 6), segment(0, 10, 0), 2))?;
    report(rt, 'd', listing(r, segment(0, 10, Level::MAX), zero, 1))?;
    report(rt, 'e', listing(r, segment(0, 10, 6), zero, 1))?;
    report(rt, 'f', listing(r, segment(0, 10, 5), zero, 1))?;
    // no segment, too many, a count beyond the places, a second one that is unused
    report(rt, 'A', listing(r, whole, zero, 0))?;
    report(rt, 'B', listing(r, whole, zero, over::LISTED))?;
    report(rt, 'C', listing(r, whole, zero, usize::MAX))?;
    report(rt, 'D', listing(r, whole, zero, 2))?;
    // a gap, an overlap, backward, short of the window, past it, a level above the highest
    report(rt, 'E', listing(r, segment(0, 5, 0), segment(6, 10, 0), 2))?;
    report(rt, 'F', listing(r, segment(0, 5, 0), segment(4, 10, 0), 2))?;
    report(
        rt,
        'G',
        listing(r, segment(0, 12, 0), segment(12, 10, 0), 2),
    )?;
    report(rt, 'H', listing(r, segment(0, 9, 0), zero, 1))?;
    report(rt, 'I', listing(r, segment(0, 11, 0), zero, 1))?;
    report(rt, 'J', listing(r, segment(0, 10, over::LEVEL), zero, 1))?;
    // something in an unused place: a start, an end, a level
    report(rt, 'K', listing(r, whole, segment(1, 0, 0), 1))?;
    report(rt, 'L', listing(r, whole, segment(0, 1, 0), 1))?;
    report(rt, 'M', listing(r, whole, segment(0, 0, 1), 1))
}

fn choosing(rt: &impl Print, r: PrioritySeg) -> io::Result<()> {
    // valid: edition 2, in which the send is 3,5, so that the booking stated is not offered; editions: none, one too many, the largest
    report(rt, 'g', named(r, Edition::SECOND, Rule::FIRST, Strict::OFF))?;
    report(rt, 'N', named(r, 0, Rule::FIRST, Strict::OFF))?;
    report(rt, 'O', named(r, over::EDITION, Rule::FIRST, Strict::OFF))?;
    report(rt, 'P', named(r, u64::MAX, Rule::FIRST, Strict::OFF))?;
    // valid: rule 2, which has the same delay of these dates; rules: none, one too many, 255, the largest
    report(rt, 'h', named(r, Edition::FIRST, Rule::SECOND, Strict::OFF))?;
    report(rt, 'Q', named(r, Edition::FIRST, 0, Strict::OFF))?;
    report(rt, 'R', named(r, Edition::FIRST, over::RULE, Strict::OFF))?;
    report(rt, 'S', named(r, Edition::FIRST, 255, Strict::OFF))?;
    report(rt, 'T', named(r, Edition::FIRST, u64::MAX, Strict::OFF))?;
    // valid: strict, which answers the same of a send that lasts; flags: one too many, 255, the largest
    let strict = named(r, Edition::FIRST, Rule::FIRST, Strict::ON);
    report(rt, 'i', strict)?;
    report(rt, 'U', named(r, Edition::FIRST, Rule::FIRST, over::STRICT))?;
    report(rt, 'V', named(r, Edition::FIRST, Rule::FIRST, 255))?;
    report(rt, 'W', named(r, Edition::FIRST, Rule::FIRST, u64::MAX))?;
    // a send of zero length is booked with the flag off, 17 with it on
    briefly(rt, 'a', r)?;
    briefly(rt, 'i', strict)
}

pub fn run(rt: &impl Print) -> io::Result<()> {
    let r = fresh();
    lists(rt, r)?;
    choosing(rt, r)
}
