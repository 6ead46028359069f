// The polynomial manager for C: each call is the one of its name in the crate howrekano, and promises the same.
ghost use Rattle.std.specs.Prelude.{◌≡◌, true};
ghost use Rattle.poly_seg.specs.Open.{open_of};
ghost use Rattle.poly_seg.specs.Record.{record_ok};
ghost use Rattle.poly_seg.specs.DryRun.{dry_run_of};
ghost use Rattle.poly_seg.specs.Book.{book_of};
ghost use Rattle.poly_seg.specs.List.{list_of};
ghost use Rattle.howrekano.specs.Words.{polynome_in, poly_seg_in};

use free_list::FreeList;
use howrekano::polynomial::PolynomialOpening;
use poly::Polynome;
use poly_seg::{Choices, PolySeg};
use segmentation::{DelaySegment, VolumeSegment};
use units::{Bundle, Date, Interval, Offer, TxData};

#[unsafe(no_mangle)]
pub extern "C" fn hk_polynomial_open(x: &PolynomialOpening) -> poly_seg::Opened
    ensures { result ≡ open_of x.now.choices x.now.window x.now.polynome x.now.delays x.now.delay_count }
{
    howrekano::polynomial::hk_polynomial_open(x)
}

// Does the record keep its rules?
#[unsafe(no_mangle)]
pub extern "C" fn hk_polynomial_ok(m: &PolySeg) -> bool
    ensures { result ≡ record_ok m.now }
{
    howrekano::polynomial::hk_polynomial_ok(m)
}

#[unsafe(no_mangle)]
pub extern "C" fn hk_polynomial_list(m: &PolySeg) -> poly_seg::Listing
    ensures { result ≡ list_of m.now }
{
    howrekano::polynomial::hk_polynomial_list(m)
}

#[unsafe(no_mangle)]
pub extern "C" fn hk_polynomial_dry_run(m: &PolySeg, at: Date, bundle: Bundle) -> Offer
    ensures { result ≡ dry_run_of m.now at bundle }
{
    howrekano::polynomial::hk_polynomial_dry_run(m, at, bundle)
}

#[unsafe(no_mangle)]
pub extern "C" fn hk_polynomial_book(
    m: &mut PolySeg,
    at: Date,
    bundle: Bundle,
    dates: &TxData,
) -> u8
    ensures { (result ≡ (book_of m.old at bundle dates.now).number) × (m.new ≡ (book_of m.old at bundle dates.now).manager) }
{
    howrekano::polynomial::hk_polynomial_book(m, at, bundle, dates)
}

#[unsafe(no_mangle)]
pub extern "C" fn hk_polynomial_dry_run_kept(
    window: Interval,
    coefficients: &[i64; Polynome::COEFFICIENTS],
    offset: Date,
    delays: &[DelaySegment; DelaySegment::COUNT_MAX],
    delay_count: usize,
    free: &[VolumeSegment; FreeList::COUNT_MAX],
    count: usize,
    at: Date,
    bundle: Bundle,
    choices: &Choices,
) -> Offer
    requires { record_ok (poly_seg_in choices.now window (polynome_in coefficients.now offset) delays.now delay_count free.now count) ≡ true }
    ensures { result ≡ dry_run_of (poly_seg_in choices.now window (polynome_in coefficients.now offset) delays.now delay_count free.now count) at bundle }
{
    howrekano::polynomial::hk_polynomial_dry_run_kept(
        window,
        coefficients,
        offset,
        delays,
        delay_count,
        free,
        count,
        at,
        bundle,
        choices,
    )
}

// The list is cut where it stands. There are no rates, and the list has no room.
#[unsafe(no_mangle)]
pub extern "C" fn hk_polynomial_book_kept(
    window: Interval,
    coefficients: &[i64; Polynome::COEFFICIENTS],
    offset: Date,
    delays: &[DelaySegment; DelaySegment::COUNT_MAX],
    delay_count: usize,
    free: &mut [VolumeSegment; FreeList::COUNT_MAX],
    count: &mut usize,
    at: Date,
    bundle: Bundle,
    dates: &TxData,
    choices: &Choices,
) -> u8
    requires { record_ok (poly_seg_in choices.now window (polynome_in coefficients.now offset) delays.now delay_count free.old count.old) ≡ true }
    ensures number { result ≡ (book_of (poly_seg_in choices.now window (polynome_in coefficients.now offset) delays.now delay_count free.old count.old) at bundle dates.now).number }
    ensures manager { poly_seg_in choices.now window (polynome_in coefficients.now offset) delays.now delay_count free.new count.new ≡ (book_of (poly_seg_in choices.now window (polynome_in coefficients.now offset) delays.now delay_count free.old count.old) at bundle dates.now).manager }
{
    howrekano::polynomial::hk_polynomial_book_kept(
        window,
        coefficients,
        offset,
        delays,
        delay_count,
        free,
        count,
        at,
        bundle,
        dates,
        choices,
    )
}
