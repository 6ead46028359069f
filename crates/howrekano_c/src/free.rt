// The free-volume manager for C: each call is the one of its name in the crate howrekano, and promises the same.
ghost use Rattle.std.specs.Prelude.{◌≡◌, true};
ghost use Rattle.seg.specs.Open.{open_of};
ghost use Rattle.seg.specs.Record.{record_ok};
ghost use Rattle.seg.specs.DryRun.{dry_run_of};
ghost use Rattle.seg.specs.Book.{book_of};
ghost use Rattle.seg.specs.List.{list_of};
ghost use Rattle.free_list.specs.Cut.{listed, free_in};
ghost use Rattle.free_list.specs.Room.{room_of};
ghost use Rattle.seg.specs.Room.{room_in, room_answer};
ghost use Rattle.howrekano.specs.Words.{free_volume_in};

use contact::Choices;
use free_list::FreeList;
use howrekano::Opening;
use seg::FreeVolume;
use segmentation::{DelaySegment, RateSegment, VolumeSegment};
use units::{Bundle, Date, Interval, Offer, TxData, Volume};

#[unsafe(no_mangle)]
pub extern "C" fn hk_free_open(x: &Opening) -> seg::Opened
    ensures { result ≡ open_of x.now.choices x.now.window x.now.rates x.now.rate_count x.now.delays x.now.delay_count }
{
    howrekano::free::hk_free_open(x)
}

// Does the record keep its rules?
#[unsafe(no_mangle)]
pub extern "C" fn hk_free_ok(m: &FreeVolume) -> bool
    ensures { result ≡ record_ok m.now }
{
    howrekano::free::hk_free_ok(m)
}

#[unsafe(no_mangle)]
pub extern "C" fn hk_free_list(m: &FreeVolume) -> seg::Listing
    ensures { result ≡ list_of m.now }
{
    howrekano::free::hk_free_list(m)
}

#[unsafe(no_mangle)]
pub extern "C" fn hk_free_room(m: &FreeVolume) -> seg::RoomLeft
    ensures { result ≡ room_answer m.now }
{
    howrekano::free::hk_free_room(m)
}

#[unsafe(no_mangle)]
pub extern "C" fn hk_free_room_kept(m: &FreeVolume) -> Volume
    requires { record_ok m.now ≡ true }
    ensures { result ≡ room_in m.now }
{
    howrekano::free::hk_free_room_kept(m)
}

#[unsafe(no_mangle)]
pub extern "C" fn hk_free_dry_run(m: &FreeVolume, at: Date, bundle: Bundle) -> Offer
    ensures { result ≡ dry_run_of m.now at bundle }
{
    howrekano::free::hk_free_dry_run(m, at, bundle)
}

#[unsafe(no_mangle)]
pub extern "C" fn hk_free_book(m: &mut FreeVolume, at: Date, bundle: Bundle, dates: &TxData) -> u8
    ensures { (result ≡ (book_of m.old at bundle dates.now).number) × (m.new ≡ (book_of m.old at bundle dates.now).manager) }
{
    howrekano::free::hk_free_book(m, at, bundle, dates)
}

#[unsafe(no_mangle)]
pub extern "C" fn hk_free_dry_run_kept(
    window: Interval,
    rates: &[VolumeSegment; RateSegment::COUNT_MAX],
    rate_count: usize,
    delays: &[DelaySegment; DelaySegment::COUNT_MAX],
    delay_count: usize,
    free: &[VolumeSegment; FreeList::COUNT_MAX],
    count: usize,
    at: Date,
    bundle: Bundle,
    choices: &Choices,
) -> Offer
    requires { record_ok (free_volume_in choices.now window rates.now rate_count delays.now delay_count free.now count) ≡ true }
    ensures { result ≡ dry_run_of (free_volume_in choices.now window rates.now rate_count delays.now delay_count free.now count) at bundle }
{
    howrekano::free::hk_free_dry_run_kept(
        window,
        rates,
        rate_count,
        delays,
        delay_count,
        free,
        count,
        at,
        bundle,
        choices,
    )
}

#[unsafe(no_mangle)]
pub extern "C" fn hk_free_book_kept(
    window: Interval,
    rates: &[VolumeSegment; RateSegment::COUNT_MAX],
    rate_count: usize,
    delays: &[DelaySegment; DelaySegment::COUNT_MAX],
    delay_count: usize,
    free: &mut [VolumeSegment; FreeList::COUNT_MAX],
    count: &mut usize,
    room: &mut u64,
    at: Date,
    bundle: Bundle,
    dates: &TxData,
    choices: &Choices,
) -> u8
    requires kept { record_ok (free_volume_in choices.now window rates.now rate_count delays.now delay_count free.old count.old) ≡ true }
    requires room { room.old ≡ room_of (listed (free_in free.old count.old)) }
    ensures number { result ≡ (book_of (free_volume_in choices.now window rates.now rate_count delays.now delay_count free.old count.old) at bundle dates.now).number }
    ensures manager { free_volume_in choices.now window rates.now rate_count delays.now delay_count free.new count.new ≡ (book_of (free_volume_in choices.now window rates.now rate_count delays.now delay_count free.old count.old) at bundle dates.now).manager }
    ensures room { room.new ≡ room_of (listed (free_in free.new count.new)) }
{
    howrekano::free::hk_free_book_kept(
        window,
        rates,
        rate_count,
        delays,
        delay_count,
        free,
        count,
        room,
        at,
        bundle,
        dates,
        choices,
    )
}
