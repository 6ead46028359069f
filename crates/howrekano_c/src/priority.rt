// The priority manager for C: each call is the one of its name in the crate howrekano, and promises the same.
ghost use Rattle.std.specs.Prelude.{◌≡◌, true};
ghost use Rattle.pseg.specs.Open.{open_of};
ghost use Rattle.pseg.specs.Record.{record_ok};
ghost use Rattle.pseg.specs.DryRun.{dry_run_of};
ghost use Rattle.pseg.specs.Book.{book_of};
ghost use Rattle.pseg.specs.List.{list_of};
ghost use Rattle.howrekano.specs.Words.{priority_seg_in};

use bookings::{BookingSegment, Bookings};
use contact::Choices;
use howrekano::Opening;
use pseg::PrioritySeg;
use segmentation::{DelaySegment, RateSegment, VolumeSegment};
use units::{Bundle, Date, Interval, Offer, TxData};

#[unsafe(no_mangle)]
pub extern "C" fn hk_priority_open(x: &Opening) -> pseg::Opened
    ensures { result ≡ open_of x.now.choices x.now.window x.now.rates x.now.rate_count x.now.delays x.now.delay_count }
{
    howrekano::priority::hk_priority_open(x)
}

// Does the record keep its rules?
#[unsafe(no_mangle)]
pub extern "C" fn hk_priority_ok(m: &PrioritySeg) -> bool
    ensures { result ≡ record_ok m.now }
{
    howrekano::priority::hk_priority_ok(m)
}

#[unsafe(no_mangle)]
pub extern "C" fn hk_priority_list(m: &PrioritySeg) -> pseg::Listing
    ensures { result ≡ list_of m.now }
{
    howrekano::priority::hk_priority_list(m)
}

#[unsafe(no_mangle)]
pub extern "C" fn hk_priority_dry_run(m: &PrioritySeg, at: Date, bundle: Bundle) -> Offer
    ensures { result ≡ dry_run_of m.now at bundle }
{
    howrekano::priority::hk_priority_dry_run(m, at, bundle)
}

#[unsafe(no_mangle)]
pub extern "C" fn hk_priority_book(
    m: &mut PrioritySeg,
    at: Date,
    bundle: Bundle,
    dates: &TxData,
) -> u8
    ensures { (result ≡ (book_of m.old at bundle dates.now).number) × (m.new ≡ (book_of m.old at bundle dates.now).manager) }
{
    howrekano::priority::hk_priority_book(m, at, bundle, dates)
}

#[unsafe(no_mangle)]
pub extern "C" fn hk_priority_dry_run_kept(
    window: Interval,
    rates: &[VolumeSegment; RateSegment::COUNT_MAX],
    rate_count: usize,
    delays: &[DelaySegment; DelaySegment::COUNT_MAX],
    delay_count: usize,
    bookings: &[BookingSegment; Bookings::COUNT_MAX],
    count: usize,
    at: Date,
    bundle: Bundle,
    choices: &Choices,
) -> Offer
    requires { record_ok (priority_seg_in choices.now window rates.now rate_count delays.now delay_count bookings.now count) ≡ true }
    ensures { result ≡ dry_run_of (priority_seg_in choices.now window rates.now rate_count delays.now delay_count bookings.now count) at bundle }
{
    howrekano::priority::hk_priority_dry_run_kept(
        window,
        rates,
        rate_count,
        delays,
        delay_count,
        bookings,
        count,
        at,
        bundle,
        choices,
    )
}

// The booking is set where the list stands.
#[unsafe(no_mangle)]
pub extern "C" fn hk_priority_book_kept(
    window: Interval,
    rates: &[VolumeSegment; RateSegment::COUNT_MAX],
    rate_count: usize,
    delays: &[DelaySegment; DelaySegment::COUNT_MAX],
    delay_count: usize,
    bookings: &mut [BookingSegment; Bookings::COUNT_MAX],
    count: &mut usize,
    at: Date,
    bundle: Bundle,
    dates: &TxData,
    choices: &Choices,
) -> u8
    requires { record_ok (priority_seg_in choices.now window rates.now rate_count delays.now delay_count bookings.old count.old) ≡ true }
    ensures number { result ≡ (book_of (priority_seg_in choices.now window rates.now rate_count delays.now delay_count bookings.old count.old) at bundle dates.now).number }
    ensures manager { priority_seg_in choices.now window rates.now rate_count delays.now delay_count bookings.new count.new ≡ (book_of (priority_seg_in choices.now window rates.now rate_count delays.now delay_count bookings.old count.old) at bundle dates.now).manager }
{
    howrekano::priority::hk_priority_book_kept(
        window,
        rates,
        rate_count,
        delays,
        delay_count,
        bookings,
        count,
        at,
        bundle,
        dates,
        choices,
    )
}
