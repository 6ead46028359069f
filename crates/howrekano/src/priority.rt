// The priority manager from C or Rust: its record is lent, and no enum crosses. The calls whose names end in _kept test nothing, since whoever holds the record keeps its rules, and have its parts lent, so that nothing is copied.
ghost use Rattle.std.specs.Prelude.{◌≡◌, true};
ghost use Rattle.pseg.specs.Open.{open_of};
ghost use Rattle.pseg.specs.Record.{record_ok};
ghost use Rattle.pseg.specs.DryRun.{dry_run_of};
ghost use Rattle.pseg.specs.Book.{book_of};
ghost use Rattle.pseg.specs.List.{list_of};
ghost use Rattle.howrekano.specs.Words.{priority_seg_in};

use crate::Opening;
use bookings::{BookingSegment, Bookings, Level, Search};
use contact::Choices;
use pseg::PrioritySeg;
use segmentation::{DelaySegment, RateSegment, VolumeSegment};
use units::refusal::Refusal;
use units::{Bundle, Date, Interval, Offer, TxData};

// The opening by value, with its figures in one record.
pub fn opened(x: Opening) -> pseg::Opened
    ensures { result ≡ open_of x.choices x.window x.rates x.rate_count x.delays x.delay_count }
{
    PrioritySeg::open(
        x.choices,
        x.window,
        x.rates,
        x.rate_count,
        x.delays,
        x.delay_count,
    )
}

pub fn hk_priority_open(x: &Opening) -> pseg::Opened
    ensures { result ≡ open_of x.now.choices x.now.window x.now.rates x.now.rate_count x.now.delays x.now.delay_count }
{
    opened(*x)
}

// Does the record keep its rules?
pub fn hk_priority_ok(m: &PrioritySeg) -> bool
    ensures { result ≡ record_ok m.now }
{
    m.ok()
}

pub fn hk_priority_list(m: &PrioritySeg) -> pseg::Listing
    ensures { result ≡ list_of m.now }
{
    m.list()
}

pub fn hk_priority_dry_run(m: &PrioritySeg, at: Date, bundle: Bundle) -> Offer
    ensures { result ≡ dry_run_of m.now at bundle }
{
    m.dry_run(at, bundle)
}

pub fn hk_priority_book(m: &mut PrioritySeg, at: Date, bundle: Bundle, dates: &TxData) -> u8
    ensures { (result ≡ (book_of m.old at bundle dates.now).number) × (m.new ≡ (book_of m.old at bundle dates.now).manager) }
{
    let done = m.book(at, bundle, *dates);
    *m = done.manager;
    done.number
}

pub fn hk_priority_dry_run_kept(
    window: Interval,
    rates: &[VolumeSegment; RateSegment::COUNT_MAX],
    rate_count: usize,
    delays: &[DelaySegment; DelaySegment::COUNT_MAX],
    delay_count: usize,
    bookings: &[BookingSegment; Bookings::COUNT_MAX],
    count: usize,
    at: Date,
    bundle: Bundle,
    choices: &Choices,
) -> Offer
    requires { record_ok (priority_seg_in choices.now window rates.now rate_count delays.now delay_count bookings.now count) ≡ true }
    ensures { result ≡ dry_run_of (priority_seg_in choices.now window rates.now rate_count delays.now delay_count bookings.now count) at bundle }
{
    if !bundle.ok_at(at) {
        return Offer::refused(Refusal::Bundle.number());
    }
    let search = Search {
        edition: choices.edition,
        rates: &rates[..rate_count],
        window,
        asked: at,
        size: bundle.size,
        priority: bundle.priority,
    };
    let Some(send) = search.find_run(&bookings[..count]).break_value() else {
        return Offer::refused(Refusal::NoOffer.number());
    };
    let found = segmentation::find_delays(choices.rule, &delays[..delay_count], send);
    segmentation::answer(send, found)
}

// The booking is set where the list stands.
pub fn hk_priority_book_kept(
    window: Interval,
    rates: &[VolumeSegment; RateSegment::COUNT_MAX],
    rate_count: usize,
    delays: &[DelaySegment; DelaySegment::COUNT_MAX],
    delay_count: usize,
    bookings: &mut [BookingSegment; Bookings::COUNT_MAX],
    count: &mut usize,
    at: Date,
    bundle: Bundle,
    dates: &TxData,
    choices: &Choices,
) -> u8
    requires { record_ok (priority_seg_in choices.now window rates.now rate_count delays.now delay_count bookings.old count.old) ≡ true }
    ensures number { result ≡ (book_of (priority_seg_in choices.now window rates.now rate_count delays.now delay_count bookings.old count.old) at bundle dates.now).number }
    ensures manager { priority_seg_in choices.now window rates.now rate_count delays.now delay_count bookings.new count.new ≡ (book_of (priority_seg_in choices.now window rates.now rate_count delays.now delay_count bookings.old count.old) at bundle dates.now).manager }
{
    let offer = hk_priority_dry_run_kept(
        window,
        rates,
        rate_count,
        delays,
        delay_count,
        bookings,
        *count,
        at,
        bundle,
        choices,
    );
    if let Err(refusal) = offer.check(choices.strict, *dates) {
        return refusal.number();
    }
    let level = Level::from(bundle.priority);
    match bookings::place::set(bookings, count, dates.send, level) {
        Ok(()) => 0,
        Err(refusal) => refusal.number(),
    }
}
