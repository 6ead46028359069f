// The polynomial manager from C or Rust: its record is lent, and no enum crosses. The calls whose names end in _kept test nothing, since whoever holds the record keeps its rules, and have its parts lent, so that nothing is copied.
ghost use Rattle.std.specs.Prelude.{◌≡◌, true};
ghost use Rattle.poly_seg.specs.Open.{open_of};
ghost use Rattle.poly_seg.specs.Record.{record_ok};
ghost use Rattle.poly_seg.specs.DryRun.{dry_run_of};
ghost use Rattle.poly_seg.specs.Book.{book_of};
ghost use Rattle.poly_seg.specs.List.{list_of};
ghost use Rattle.poly_seg.specs.Granted.{chosen_of};
ghost use Rattle.howrekano.specs.Words.{polynome_in, poly_seg_in};

use free_list::{Chosen, Fit, FreeList};
use poly::Polynome;
use poly_seg::{Choices, PolySeg};
use segmentation::{DelaySegment, Edition, VolumeSegment};
use units::refusal::Refusal;
use units::{Bundle, Date, Interval, Offer, TxData, Volume};

// An opening's choices and figures.
#[repr(C)]
#[derive(Clone, Copy)]
pub struct PolynomialOpening {
    pub choices: Choices,
    pub window: Interval,
    pub polynome: Polynome,
    pub delays: [DelaySegment; DelaySegment::COUNT_MAX],
    pub delay_count: usize,
}

// The opening by value, with its figures in one record.
pub fn opened(x: PolynomialOpening) -> poly_seg::Opened
    ensures { result ≡ open_of x.choices x.window x.polynome x.delays x.delay_count }
{
    PolySeg::open(x.choices, x.window, x.polynome, x.delays, x.delay_count)
}

pub fn hk_polynomial_open(x: &PolynomialOpening) -> poly_seg::Opened
    ensures { result ≡ open_of x.now.choices x.now.window x.now.polynome x.now.delays x.now.delay_count }
{
    opened(*x)
}

// Does the record keep its rules?
pub fn hk_polynomial_ok(m: &PolySeg) -> bool
    ensures { result ≡ record_ok m.now }
{
    m.ok()
}

pub fn hk_polynomial_list(m: &PolySeg) -> poly_seg::Listing
    ensures { result ≡ list_of m.now }
{
    m.list()
}

pub fn hk_polynomial_dry_run(m: &PolySeg, at: Date, bundle: Bundle) -> Offer
    ensures { result ≡ dry_run_of m.now at bundle }
{
    m.dry_run(at, bundle)
}

pub fn hk_polynomial_book(m: &mut PolySeg, at: Date, bundle: Bundle, dates: &TxData) -> u8
    ensures { (result ≡ (book_of m.old at bundle dates.now).number) × (m.new ≡ (book_of m.old at bundle dates.now).manager) }
{
    let done = m.book(at, bundle, *dates);
    *m = done.manager;
    done.number
}

// What a dry run finds on the record that these parts make.
// Its parameters are the kept call's own, and its answer what `chosen_of` says, a refusal's number in the offer: a struct of lent parts for two callers is no plainer.
fn chosen(
    window: Interval,
    polynome: Polynome,
    delays: &[DelaySegment; DelaySegment::COUNT_MAX],
    delay_count: usize,
    free: &[VolumeSegment; FreeList::COUNT_MAX],
    count: usize,
    at: Date,
    bundle: Bundle,
    choices: &Choices,
) -> Chosen
    requires { record_ok (poly_seg_in choices.now window polynome delays.now delay_count free.now count) ≡ true }
    ensures { result ≡ chosen_of (poly_seg_in choices.now window polynome delays.now delay_count free.now count) at bundle }
{
    if !bundle.ok_at(at) {
        return Chosen::refused(Refusal::Bundle.number());
    }
    let terms = polynome.terms(choices.mode, window);
    let size = choices.mode.wanted(bundle.size);
    let Some(Fit { place, send }) = poly_seg::find_offer(terms, &free[..count], at, size) else {
        return Chosen::refused(Refusal::NoOffer.number());
    };
    let found = segmentation::find_delays(choices.rule, &delays[..delay_count], send);
    let offer = segmentation::answer(send, found);
    Chosen { offer, place }
}

// Not by `chosen`, as the free-volume manager's.
pub fn hk_polynomial_dry_run_kept(
    window: Interval,
    coefficients: &[i64; Polynome::COEFFICIENTS],
    offset: Date,
    delays: &[DelaySegment; DelaySegment::COUNT_MAX],
    delay_count: usize,
    free: &[VolumeSegment; FreeList::COUNT_MAX],
    count: usize,
    at: Date,
    bundle: Bundle,
    choices: &Choices,
) -> Offer
    requires { record_ok (poly_seg_in choices.now window (polynome_in coefficients.now offset) delays.now delay_count free.now count) ≡ true }
    ensures { result ≡ dry_run_of (poly_seg_in choices.now window (polynome_in coefficients.now offset) delays.now delay_count free.now count) at bundle }
{
    if !bundle.ok_at(at) {
        return Offer::refused(Refusal::Bundle.number());
    }
    let polynome = Polynome {
        coefficients: *coefficients,
        offset,
    };
    let terms = polynome.terms(choices.mode, window);
    let size = choices.mode.wanted(bundle.size);
    let Some(fit) = poly_seg::find_offer(terms, &free[..count], at, size) else {
        return Offer::refused(Refusal::NoOffer.number());
    };
    let found = segmentation::find_delays(choices.rule, &delays[..delay_count], fit.send);
    segmentation::answer(fit.send, found)
}

// The list is cut where it stands. There are no rates, and the list has no room.
pub fn hk_polynomial_book_kept(
    window: Interval,
    coefficients: &[i64; Polynome::COEFFICIENTS],
    offset: Date,
    delays: &[DelaySegment; DelaySegment::COUNT_MAX],
    delay_count: usize,
    free: &mut [VolumeSegment; FreeList::COUNT_MAX],
    count: &mut usize,
    at: Date,
    bundle: Bundle,
    dates: &TxData,
    choices: &Choices,
) -> u8
    requires { record_ok (poly_seg_in choices.now window (polynome_in coefficients.now offset) delays.now delay_count free.old count.old) ≡ true }
    ensures number { result ≡ (book_of (poly_seg_in choices.now window (polynome_in coefficients.now offset) delays.now delay_count free.old count.old) at bundle dates.now).number }
    ensures manager { poly_seg_in choices.now window (polynome_in coefficients.now offset) delays.now delay_count free.new count.new ≡ (book_of (poly_seg_in choices.now window (polynome_in coefficients.now offset) delays.now delay_count free.old count.old) at bundle dates.now).manager }
{
    let polynome = Polynome {
        coefficients: *coefficients,
        offset,
    };
    let found = chosen(
        window,
        polynome,
        delays,
        delay_count,
        free,
        *count,
        at,
        bundle,
        choices,
    );
    if let Err(refusal) = found.offer.check(choices.strict, *dates) {
        return refusal.number();
    }
    match free_list::place::cut(
        free,
        count,
        Edition(Edition::FIRST),
        &[],
        found.place,
        dates.send,
        Volume(0),
    ) {
        Ok(_) => 0,
        Err(refusal) => refusal.number(),
    }
}
