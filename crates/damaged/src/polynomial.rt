// The polynomial manager: window [0,10), coefficients 10,0,0,0, offset 0, delay 3.
use crate::contacts::{self, delay, segment, span};
use crate::out::{self, Answers, Asked, Record};
use crate::over;
use free_list::FreeList;
use poly::{Mode, Polynome};
use poly_seg::{Choices, PolySeg};
use segmentation::{DelaySegment, Rule, VolumeSegment};
use std::io;
use units::{Bundle, Date, Delay, Priority, Strict, TxData, Volume};

impl Record for PolySeg {
    fn answers(self, asked: &Asked) -> Answers {
        Answers {
            good: self.ok(),
            dry_run: self.dry_run(asked.at, asked.bundle).number,
            book: self.book(asked.at, asked.bundle, asked.dates).number,
            list: self.list().number,
        }
    }
}

// At 3, size 15: the offer is send 3,5, receive 6,8.
fn report(rt: &impl Print, label: char, r: PolySeg) -> io::Result<()> {
    let asked = Asked {
        at: Date(3),
        bundle: Bundle {
            size: Volume(15),
            priority: Priority(5),
        },
        dates: TxData {
            send: span(3, 5),
            recv: span(6, 8),
        },
    };
    out::report(rt, 'y', label, &asked, r)
}

// The polynomial of a first and a last coefficient.
fn polynomial(first: i64, last: i64, offset: u64) -> Polynome {
    Polynome {
        coefficients: [first, 0, 0, last],
        offset: Date(offset),
    }
}

fn fresh() -> PolySeg {
    let polynome = polynomial(10, 0, 0);
    PolySeg::open(
        Choices::ported(),
        span(0, 10),
        polynome,
        contacts::delays(),
        1,
    )
    .manager
}

// The record with another list of two places and a count.
fn listing(r: PolySeg, g: VolumeSegment, h: VolumeSegment, count: usize) -> PolySeg {
    let segments = contacts::two(g, h);
    PolySeg {
        free: FreeList { segments, count },
        ..r
    }
}

// The record with another window.
fn window(r: PolySeg, start: u64, end: u64) -> PolySeg {
    PolySeg {
        window: span(start, end),
        ..r
    }
}

// The record with another first coefficient and offset.
fn polynome(r: PolySeg, first: i64, offset: u64) -> PolySeg {
    PolySeg {
        polynome: polynomial(first, 0, offset),
        ..r
    }
}

// The record with another last coefficient.
fn cubic(r: PolySeg, last: i64) -> PolySeg {
    PolySeg {
        polynome: polynomial(10, last, 0),
        ..r
    }
}

// The record with two other delay segments and a count.
fn delays(r: PolySeg, s: DelaySegment, t: DelaySegment, count: usize) -> PolySeg {
    PolySeg {
        delays: contacts::two(s, t),
        delay_count: count,
        ..r
    }
}

// The record with other choices.
fn named(r: PolySeg, mode: u64, rule: u64, strict: u64) -> PolySeg {
    let choices = Choices {
        mode: Mode(mode),
        rule: Rule(rule),
        strict: Strict(strict),
    };
    PolySeg { choices, ..r }
}

fn valid(rt: &impl Print, r: PolySeg) -> io::Result<()> {
    let zero = segment(0, 0, 0);
    let none = delay(0, 0, 0);
    // as opened; two segments; an empty one; nothing left; an offset past the window; a coefficient at its limit
    report(rt, 'a', r)?;
    report(rt, 'b', listing(r, segment(0, 2, 0), segment(3, 10, 0), 2))?;
    report(rt, 'c', listing(r, segment(1, 1, 0), segment(3, 9, 0), 2))?;
    report(rt, 'd', listing(r, segment(10, 10, 0), zero, 1))?;
    report(rt, 'e', polynome(r, 10, Date::MAX))?;
    report(rt, 'f', polynome(r, over::FIRST_WITHIN_TEN, 0))?;
    report(rt, 'g', polynome(r, -10, 0))?;
    // no delay, a delay that covers nothing, one backward, dates and delay at their limits
    report(rt, 'h', delays(r, none, none, 0))?;
    report(rt, 'i', delays(r, delay(20, 30, 1), none, 1))?;
    report(rt, 'j', delays(r, delay(9, 2, 3), delay(0, 10, 3), 2))?;
    report(rt, 'k', delays(r, delay(0, Date::MAX, Delay::MAX), none, 1))
}

fn broken_rules(rt: &impl Print, r: PolySeg) -> io::Result<()> {
    let zero = segment(0, 0, 0);
    let none = delay(0, 0, 0);
    // an empty window, a backward one, one date or one length too high
    report(rt, 'A', window(r, 10, 10))?;
    report(rt, 'B', window(r, 11, 10))?;
    report(rt, 'C', window(r, over::LATE, over::DATE))?;
    report(rt, 'D', window(r, 0, over::LENGTH))?;
    // a capacity, an offset or a coefficient one too high; the last product too high; a number that wraps
    report(rt, 'E', polynome(r, over::FIRST_OF_TEN, 0))?;
    report(rt, 'F', polynome(r, 10, over::DATE))?;
    report(rt, 'G', polynome(r, 9_223_372_036_854_775_807, 0))?;
    report(rt, 'H', polynome(r, -9_223_372_036_854_775_807, 0))?;
    report(rt, 'I', cubic(r, over::LAST_OF_TEN))?;
    // delays: one count too high, a count beyond the places, a start, an end or a delay one too high, something unused
    report(rt, 'J', delays(r, delay(0, 10, 3), none, over::SEGMENTS))?;
    report(rt, 'K', delays(r, delay(0, 10, 3), none, usize::MAX))?;
    report(rt, 'L', delays(r, delay(over::DATE, 10, 3), none, 1))?;
    report(rt, 'M', delays(r, delay(0, over::DATE, 3), none, 1))?;
    report(rt, 'N', delays(r, delay(0, 10, over::DELAY), none, 1))?;
    report(rt, 'O', delays(r, delay(0, 10, 3), delay(0, 0, 1), 1))?;
    // the list: no segment, too many, a second one that is unused, touching, backward, outside, a volume, something unused
    report(rt, 'P', listing(r, segment(0, 10, 0), zero, 0))?;
    report(rt, 'Q', listing(r, segment(0, 10, 0), zero, over::LISTED))?;
    report(rt, 'R', listing(r, segment(0, 10, 0), zero, 2))?;
    report(rt, 'S', listing(r, segment(0, 2, 0), segment(2, 10, 0), 2))?;
    report(rt, 'T', listing(r, segment(5, 4, 0), zero, 1))?;
    report(rt, 'U', listing(r, segment(0, 11, 0), zero, 1))?;
    report(rt, 'V', listing(r, segment(0, 10, 1), zero, 1))?;
    report(rt, 'W', listing(r, segment(0, 10, 0), segment(1, 0, 0), 1))?;
    report(rt, 'X', listing(r, segment(0, 10, 0), segment(0, 0, 1), 1))
}

fn modes(rt: &impl Print, r: PolySeg) -> io::Result<()> {
    let exact = named(r, Mode::EXACT, Rule::FIRST, Strict::OFF);
    // valid: mode 2, which offers the same of this polynomial; the highest first and last coefficient of its range rule
    report(rt, 'l', exact)?;
    report(rt, 'm', polynome(exact, over::EXACT_WITHIN_TEN, 0))?;
    report(rt, 'n', cubic(exact, over::EXACT_LAST_WITHIN_TEN))?;
    // one too high in mode 2, and what only mode 1 takes
    report(rt, '1', polynome(exact, over::EXACT_OF_TEN, 0))?;
    report(rt, '2', cubic(exact, over::EXACT_LAST_OF_TEN))?;
    report(rt, '3', polynome(exact, over::FIRST_WITHIN_TEN, 0))?;
    // modes: none, one too many, 255, the largest
    report(rt, '4', named(r, 0, Rule::FIRST, Strict::OFF))?;
    report(rt, '5', named(r, over::MODE, Rule::FIRST, Strict::OFF))?;
    report(rt, '6', named(r, 255, Rule::FIRST, Strict::OFF))?;
    report(rt, '7', named(r, u64::MAX, Rule::FIRST, Strict::OFF))
}

fn rules(rt: &impl Print, r: PolySeg) -> io::Result<()> {
    let second = named(r, Mode::PORTED, Rule::SECOND, Strict::OFF);
    let none = delay(0, 0, 0);
    // valid: rule 2, with one delay segment and with two that cover the window
    report(rt, 'o', second)?;
    report(rt, 'p', delays(second, delay(0, 5, 3), delay(5, 10, 3), 2))?;
    // what rule 1 takes: no delay, a gap, an overlap, late, early, past the window, an empty one
    report(rt, '(', delays(second, none, none, 0))?;
    report(rt, ')', delays(second, delay(0, 5, 3), delay(6, 10, 3), 2))?;
    report(rt, '*', delays(second, delay(0, 5, 3), delay(4, 10, 3), 2))?;
    report(rt, '+', delays(second, delay(1, 10, 3), none, 1))?;
    report(rt, ',', delays(second, delay(0, 9, 3), none, 1))?;
    report(rt, '-', delays(second, delay(0, 11, 3), none, 1))?;
    report(rt, '.', delays(second, delay(0, 0, 3), delay(0, 10, 3), 2))?;
    // rules: none, one too many, 255, the largest
    report(rt, '$', named(r, Mode::PORTED, 0, Strict::OFF))?;
    report(rt, '%', named(r, Mode::PORTED, over::RULE, Strict::OFF))?;
    report(rt, '&', named(r, Mode::PORTED, 255, Strict::OFF))?;
    report(rt, '\'', named(r, Mode::PORTED, u64::MAX, Strict::OFF))?;
    // valid: strict, of which no offer has zero length; flags: one too many, 255, the largest
    report(rt, 'q', named(r, Mode::PORTED, Rule::FIRST, Strict::ON))?;
    report(rt, '<', named(r, Mode::PORTED, Rule::FIRST, over::STRICT))?;
    report(rt, '=', named(r, Mode::PORTED, Rule::FIRST, 255))?;
    report(rt, '>', named(r, Mode::PORTED, Rule::FIRST, u64::MAX))
}

pub fn run(rt: &impl Print) -> io::Result<()> {
    let r = fresh();
    valid(rt, r)?;
    broken_rules(rt, r)?;
    modes(rt, r)?;
    rules(rt, r)
}
