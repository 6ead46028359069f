// The free-volume manager from C or Rust: its record is lent, and no enum crosses. The calls whose names end in _kept test nothing, since whoever holds the record keeps its rules, and have its parts lent, so that nothing is copied.
ghost use Rattle.std.specs.Prelude.{◌≡◌, true};
ghost use Rattle.seg.specs.Open.{open_of};
ghost use Rattle.seg.specs.Record.{record_ok};
ghost use Rattle.seg.specs.DryRun.{dry_run_of};
ghost use Rattle.seg.specs.Book.{book_of};
ghost use Rattle.seg.specs.List.{list_of};
ghost use Rattle.seg.specs.Granted.{chosen_of};
ghost use Rattle.free_list.specs.Cut.{listed, free_in};
ghost use Rattle.free_list.specs.Room.{room_of};
ghost use Rattle.seg.specs.Room.{room_in, room_answer};
ghost use Rattle.howrekano.specs.Words.{free_volume_in};

use crate::Opening;
use contact::Choices;
use free_list::{Chosen, Fit, FreeList};
use seg::FreeVolume;
use segmentation::{DelaySegment, RateSegment, VolumeSegment};
use units::refusal::Refusal;
use units::{Bundle, Date, Interval, Offer, TxData, Volume};

// The opening by value, with its figures in one record.
pub fn opened(x: Opening) -> seg::Opened
    ensures { result ≡ open_of x.choices x.window x.rates x.rate_count x.delays x.delay_count }
{
    FreeVolume::open(
        x.choices,
        x.window,
        x.rates,
        x.rate_count,
        x.delays,
        x.delay_count,
    )
}

pub fn hk_free_open(x: &Opening) -> seg::Opened
    ensures { result ≡ open_of x.now.choices x.now.window x.now.rates x.now.rate_count x.now.delays x.now.delay_count }
{
    opened(*x)
}

// Does the record keep its rules?
pub fn hk_free_ok(m: &FreeVolume) -> bool
    ensures { result ≡ record_ok m.now }
{
    m.ok()
}

pub fn hk_free_list(m: &FreeVolume) -> seg::Listing
    ensures { result ≡ list_of m.now }
{
    m.list()
}

pub fn hk_free_room(m: &FreeVolume) -> seg::RoomLeft
    ensures { result ≡ room_answer m.now }
{
    m.room()
}

pub fn hk_free_room_kept(m: &FreeVolume) -> Volume
    requires { record_ok m.now ≡ true }
    ensures { result ≡ room_in m.now }
{
    m.room_kept()
}

pub fn hk_free_dry_run(m: &FreeVolume, at: Date, bundle: Bundle) -> Offer
    ensures { result ≡ dry_run_of m.now at bundle }
{
    m.dry_run(at, bundle)
}

pub fn hk_free_book(m: &mut FreeVolume, at: Date, bundle: Bundle, dates: &TxData) -> u8
    ensures { (result ≡ (book_of m.old at bundle dates.now).number) × (m.new ≡ (book_of m.old at bundle dates.now).manager) }
{
    let done = m.book(at, bundle, *dates);
    *m = done.manager;
    done.number
}

// What a dry run finds on the record that these parts make.
// Its parameters are the kept call's own, and its answer what `chosen_of` says, a refusal's number in the offer: a struct of lent parts for two callers is no plainer.
fn chosen(
    window: Interval,
    rates: &[VolumeSegment; RateSegment::COUNT_MAX],
    rate_count: usize,
    delays: &[DelaySegment; DelaySegment::COUNT_MAX],
    delay_count: usize,
    free: &[VolumeSegment; FreeList::COUNT_MAX],
    count: usize,
    at: Date,
    bundle: Bundle,
    choices: &Choices,
) -> Chosen
    requires { record_ok (free_volume_in choices.now window rates.now rate_count delays.now delay_count free.now count) ≡ true }
    ensures { result ≡ chosen_of (free_volume_in choices.now window rates.now rate_count delays.now delay_count free.now count) at bundle }
{
    if !bundle.ok_at(at) {
        return Chosen::refused(Refusal::Bundle.number());
    }
    let Some(Fit { place, send }) = free_list::find_offer(
        choices.edition,
        &rates[..rate_count],
        &free[..count],
        at,
        bundle.size,
    ) else {
        return Chosen::refused(Refusal::NoOffer.number());
    };
    let found = segmentation::find_delays(choices.rule, &delays[..delay_count], send);
    let offer = segmentation::answer(send, found);
    Chosen { offer, place }
}

// Not by `chosen`, which would make its record of offer and place for the offer alone: over lists lent as numbers that took 3 ns of 24 more.
pub fn hk_free_dry_run_kept(
    window: Interval,
    rates: &[VolumeSegment; RateSegment::COUNT_MAX],
    rate_count: usize,
    delays: &[DelaySegment; DelaySegment::COUNT_MAX],
    delay_count: usize,
    free: &[VolumeSegment; FreeList::COUNT_MAX],
    count: usize,
    at: Date,
    bundle: Bundle,
    choices: &Choices,
) -> Offer
    requires { record_ok (free_volume_in choices.now window rates.now rate_count delays.now delay_count free.now count) ≡ true }
    ensures { result ≡ dry_run_of (free_volume_in choices.now window rates.now rate_count delays.now delay_count free.now count) at bundle }
{
    if !bundle.ok_at(at) {
        return Offer::refused(Refusal::Bundle.number());
    }
    let Some(fit) = free_list::find_offer(
        choices.edition,
        &rates[..rate_count],
        &free[..count],
        at,
        bundle.size,
    ) else {
        return Offer::refused(Refusal::NoOffer.number());
    };
    let found = segmentation::find_delays(choices.rule, &delays[..delay_count], fit.send);
    segmentation::answer(fit.send, found)
}

pub fn hk_free_book_kept(
    window: Interval,
    rates: &[VolumeSegment; RateSegment::COUNT_MAX],
    rate_count: usize,
    delays: &[DelaySegment; DelaySegment::COUNT_MAX],
    delay_count: usize,
    free: &mut [VolumeSegment; FreeList::COUNT_MAX],
    count: &mut usize,
    room: &mut u64,
    at: Date,
    bundle: Bundle,
    dates: &TxData,
    choices: &Choices,
) -> u8
    requires kept { record_ok (free_volume_in choices.now window rates.now rate_count delays.now delay_count free.old count.old) ≡ true }
    requires room { room.old ≡ room_of (listed (free_in free.old count.old)) }
    ensures number { result ≡ (book_of (free_volume_in choices.now window rates.now rate_count delays.now delay_count free.old count.old) at bundle dates.now).number }
    ensures manager { free_volume_in choices.now window rates.now rate_count delays.now delay_count free.new count.new ≡ (book_of (free_volume_in choices.now window rates.now rate_count delays.now delay_count free.old count.old) at bundle dates.now).manager }
    ensures room { room.new ≡ room_of (listed (free_in free.new count.new)) }
{
    let found = chosen(
        window,
        rates,
        rate_count,
        delays,
        delay_count,
        free,
        *count,
        at,
        bundle,
        choices,
    );
    if let Err(refusal) = found.offer.check(choices.strict, *dates) {
        return refusal.number();
    }
    let send = dates.send;
    match free_list::place::cut(
        free,
        count,
        choices.edition,
        &rates[..rate_count],
        found.place,
        send,
        bundle.size,
    ) {
        Ok(change) => {
            *room = free_list::changed(Volume(*room), change.off, change.on).0;
            0
        }
        Err(refusal) => refusal.number(),
    }
}
