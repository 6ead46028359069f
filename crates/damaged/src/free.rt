// The free-volume manager: contact [0,10), rate 10, delay 3.
use crate::contacts::{self, delay, segment, span};
use crate::out::{self, Answers, Asked, Record};
use crate::over;
use contact::Contact;
use free_list::FreeList;
use seg::FreeVolume;
use segmentation::{DelaySegment, Edition, Rule, VolumeSegment};
use std::io;
use units::{Bundle, Date, Priority, Strict, TxData, Volume};

impl Record for FreeVolume {
    fn answers(self, asked: &Asked) -> Answers {
        Answers {
            good: self.ok(),
            dry_run: self.dry_run(asked.at, asked.bundle).number,
            book: self.book(asked.at, asked.bundle, asked.dates).number,
            list: self.list().number,
        }
    }
}

// At 3, size 15: on contact [0,10), rate 10, delay 3 the offer is send 3,4, receive 6,7. Then the room of three digits beside its number.
fn report(rt: &impl Print, label: char, r: FreeVolume) -> io::Result<()> {
    let asked = Asked {
        at: Date(3),
        bundle: Bundle {
            size: Volume(15),
            priority: Priority(0),
        },
        dates: TxData {
            send: span(3, 4),
            recv: span(6, 7),
        },
    };
    out::report(rt, 'f', label, &asked, r)?;
    let left = r.room();
    println!(rt; "r{label} {:02} {:03}", left.number, left.room.0)
}

// At 5, size 9: the offer is send 5,5, receive 8,8.
fn briefly(rt: &impl Print, label: char, r: FreeVolume) -> io::Result<()> {
    let asked = Asked {
        at: Date(5),
        bundle: Bundle {
            size: Volume(9),
            priority: Priority(0),
        },
        dates: TxData {
            send: span(5, 5),
            recv: span(8, 8),
        },
    };
    out::report(rt, 's', label, &asked, r)
}

fn fresh() -> FreeVolume {
    let choices = contact::Choices::ported();
    FreeVolume::open(
        choices,
        span(0, 10),
        contacts::rates(),
        1,
        contacts::delays(),
        1,
    )
    .manager
}

// What the first places of a list hold, so many of them as the count says: the room, so that each record breaks its own rule alone.
fn room_of(g: VolumeSegment, h: VolumeSegment, count: usize) -> Volume {
    match count {
        0 => Volume(0),
        1 => g.volume,
        _ => Volume(g.volume.0 % 1_000 + h.volume.0 % 1_000),
    }
}

// The record with another free list of two places and a count, and the room of that.
fn listing(r: FreeVolume, g: VolumeSegment, h: VolumeSegment, count: usize) -> FreeVolume {
    let segments = contacts::two(g, h);
    FreeVolume {
        free: FreeList { segments, count },
        room: room_of(g, h, count),
        ..r
    }
}

// The record with another room.
fn roomed(r: FreeVolume, room: u64) -> FreeVolume {
    FreeVolume {
        room: Volume(room),
        ..r
    }
}

// The record with another contact.
fn with(r: FreeVolume, contact: Contact) -> FreeVolume {
    FreeVolume { contact, ..r }
}

// The record with another window.
fn windowed(r: FreeVolume, start: u64, end: u64) -> FreeVolume {
    let window = span(start, end);
    with(
        r,
        Contact {
            window,
            ..r.contact
        },
    )
}

// The record with other rate segments of two places and a count.
fn rated(r: FreeVolume, g: VolumeSegment, h: VolumeSegment, count: usize) -> FreeVolume {
    let contact = Contact {
        rates: contacts::two(g, h),
        rate_count: count,
        ..r.contact
    };
    with(r, contact)
}

// The record with other delay segments of two places and a count.
fn delayed(r: FreeVolume, g: DelaySegment, h: DelaySegment, count: usize) -> FreeVolume {
    let contact = Contact {
        delays: contacts::two(g, h),
        delay_count: count,
        ..r.contact
    };
    with(r, contact)
}

// The record with other choices.
fn named(r: FreeVolume, edition: u64, rule: u64, strict: u64) -> FreeVolume {
    with(r, contacts::named(r.contact, edition, rule, strict))
}

fn free_lists(rt: &impl Print, r: FreeVolume) -> io::Result<()> {
    let whole = segment(0, 10, 100);
    let zero = segment(0, 0, 0);
    // valid: as opened; two segments apart; empty ones; less than the capacity
    report(rt, 'a', r)?;
    report(
        rt,
        'b',
        listing(r, segment(0, 3, 30), segment(4, 10, 60), 2),
    )?;
    report(rt, 'c', listing(r, segment(0, 0, 0), segment(1, 10, 90), 2))?;
    report(rt, 'd', listing(r, segment(0, 10, 15), zero, 1))?;
    // no segment, too many, a count beyond the places, a second one that is unused
    report(rt, 'A', listing(r, whole, zero, 0))?;
    report(rt, 'B', listing(r, whole, zero, over::LISTED))?;
    report(rt, 'C', listing(r, whole, zero, usize::MAX))?;
    report(rt, 'D', listing(r, whole, zero, 2))?;
    // touching, out of order, backward, past the window, above the capacity
    report(
        rt,
        'E',
        listing(r, segment(0, 3, 30), segment(3, 10, 70), 2),
    )?;
    report(
        rt,
        'F',
        listing(r, segment(4, 10, 60), segment(0, 3, 30), 2),
    )?;
    report(rt, 'G', listing(r, segment(5, 4, 0), zero, 1))?;
    report(rt, 'H', listing(r, segment(0, 11, 100), zero, 1))?;
    report(rt, 'I', listing(r, segment(0, 10, 101), zero, 1))?;
    report(
        rt,
        'J',
        listing(r, segment(0, 3, 31), segment(4, 10, 60), 2),
    )?;
    // something in an unused place: a start, an end, a volume
    report(rt, 'K', listing(r, whole, segment(1, 0, 0), 1))?;
    report(rt, 'L', listing(r, whole, segment(0, 1, 0), 1))?;
    report(rt, 'M', listing(r, whole, segment(0, 0, 1), 1))?;
    // a room that is not the sum: one less, one more, none, the largest
    report(rt, '4', roomed(r, 99))?;
    report(rt, '5', roomed(r, 101))?;
    report(rt, '6', roomed(r, 0))?;
    report(rt, '7', roomed(r, u64::MAX))
}

fn contacts(rt: &impl Print, r: FreeVolume) -> io::Result<()> {
    let rate = segment(0, 10, 100);
    let zero = segment(0, 0, 0);
    let nil = delay(0, 0, 0);
    let three = delay(0, 10, 3);
    // windows: empty, backward, too long, past the last date
    report(rt, 'N', windowed(r, 10, 10))?;
    report(rt, 'O', windowed(r, 10, 0))?;
    report(rt, 'P', windowed(r, 0, over::LENGTH))?;
    report(rt, 'Q', windowed(r, over::LATE, over::DATE))?;
    // rates: counts, a gap, short, not a multiple of the length, a total above its limit, an unused place
    report(rt, 'R', rated(r, rate, zero, 0))?;
    report(rt, 'S', rated(r, rate, zero, over::SEGMENTS))?;
    report(rt, 'T', rated(r, segment(0, 5, 50), segment(6, 10, 40), 2))?;
    report(rt, 'U', rated(r, segment(0, 9, 90), zero, 1))?;
    report(rt, 'V', rated(r, segment(0, 10, 101), zero, 1))?;
    report(
        rt,
        'W',
        rated(r, segment(0, 10, over::VOLUME_OF_TEN), zero, 1),
    )?;
    report(rt, 'X', rated(r, rate, segment(0, 0, 1), 1))?;
    // valid: two rate segments of the same rate
    report(rt, 'e', rated(r, segment(0, 5, 50), segment(5, 10, 50), 2))?;
    // delays: counts, a gap, an empty one, above its limit, an unused place
    report(rt, 'Y', delayed(r, three, nil, 0))?;
    report(rt, 'Z', delayed(r, three, nil, over::SEGMENTS))?;
    report(rt, '0', delayed(r, delay(0, 5, 3), delay(6, 10, 3), 2))?;
    report(rt, '1', delayed(r, delay(0, 0, 3), delay(0, 10, 3), 2))?;
    report(rt, '2', delayed(r, delay(0, 10, over::DELAY), nil, 1))?;
    report(rt, '3', delayed(r, three, delay(0, 0, 1), 1))?;
    // valid: two delay segments
    report(rt, 'f', delayed(r, delay(0, 5, 3), delay(5, 10, 3), 2))
}

fn choosing(rt: &impl Print, r: FreeVolume) -> io::Result<()> {
    // valid: edition 2, in which the send is 3,5, so that the booking stated is not offered
    report(rt, 'g', named(r, Edition::SECOND, Rule::FIRST, Strict::OFF))?;
    // editions: none, one too many, the largest
    report(rt, '8', named(r, 0, Rule::FIRST, Strict::OFF))?;
    report(rt, '9', named(r, over::EDITION, Rule::FIRST, Strict::OFF))?;
    report(rt, '#', named(r, u64::MAX, Rule::FIRST, Strict::OFF))?;
    // valid: rule 2, which has the same delay of these dates; rules: none, one too many, 255, the largest
    report(rt, 'h', named(r, Edition::FIRST, Rule::SECOND, Strict::OFF))?;
    report(rt, '$', named(r, Edition::FIRST, 0, Strict::OFF))?;
    report(rt, '%', named(r, Edition::FIRST, over::RULE, Strict::OFF))?;
    report(rt, '&', named(r, Edition::FIRST, 255, Strict::OFF))?;
    report(rt, '\'', named(r, Edition::FIRST, u64::MAX, Strict::OFF))?;
    // valid: strict, which answers the same of a send that lasts; flags: one too many, 255, the largest
    let strict = named(r, Edition::FIRST, Rule::FIRST, Strict::ON);
    report(rt, 'i', strict)?;
    report(rt, '(', named(r, Edition::FIRST, Rule::FIRST, over::STRICT))?;
    report(rt, ')', named(r, Edition::FIRST, Rule::FIRST, 255))?;
    report(rt, '*', named(r, Edition::FIRST, Rule::FIRST, u64::MAX))?;
    // a send of zero length is booked with the flag off, 17 with it on
    briefly(rt, 'a', r)?;
    briefly(rt, 'i', strict)
}

pub fn run(rt: &impl Print) -> io::Result<()> {
    let r = fresh();
    free_lists(rt, r)?;
    contacts(rt, r)?;
    choosing(rt, r)
}
