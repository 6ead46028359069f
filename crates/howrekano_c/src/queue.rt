// The queue manager for C: each call is the one of its name in the crate howrekano, and promises the same.
ghost use Rattle.std.specs.Prelude.{◌≡◌, true};
ghost use Rattle.legacy.specs.Open.{open_of};
ghost use Rattle.legacy.specs.Record.{record_ok};
ghost use Rattle.legacy.specs.DryRun.{dry_run_of};
ghost use Rattle.legacy.specs.Book.{book_of};
ghost use Rattle.legacy.specs.List.{list_of};
ghost use Rattle.legacy.specs.Queueing.{enqueue_of, dequeue_of};

use howrekano::queue::QueueOpening;
use legacy::Queue;
use units::{Bundle, Date, Offer, TxData};

#[unsafe(no_mangle)]
pub extern "C" fn hk_queue_open(x: &QueueOpening) -> legacy::Opened
    ensures { result ≡ open_of x.now.choices x.now.window x.now.rate x.now.delay x.now.classes x.now.flags x.now.budgets }
{
    howrekano::queue::hk_queue_open(x)
}

// Does the record keep its rules?
#[unsafe(no_mangle)]
pub extern "C" fn hk_queue_ok(m: &Queue) -> bool
    ensures { result ≡ record_ok m.now }
{
    howrekano::queue::hk_queue_ok(m)
}

#[unsafe(no_mangle)]
pub extern "C" fn hk_queue_list(m: &Queue) -> legacy::Listing
    ensures { result ≡ list_of m.now }
{
    howrekano::queue::hk_queue_list(m)
}

#[unsafe(no_mangle)]
pub extern "C" fn hk_queue_dry_run(m: &Queue, at: Date, bundle: Bundle) -> Offer
    ensures { result ≡ dry_run_of m.now at bundle }
{
    howrekano::queue::hk_queue_dry_run(m, at, bundle)
}

#[unsafe(no_mangle)]
pub extern "C" fn hk_queue_dry_run_kept(m: &Queue, at: Date, bundle: Bundle) -> Offer
    requires { record_ok m.now ≡ true }
    ensures { result ≡ dry_run_of m.now at bundle }
{
    howrekano::queue::hk_queue_dry_run_kept(m, at, bundle)
}

#[unsafe(no_mangle)]
pub extern "C" fn hk_queue_book(m: &mut Queue, at: Date, bundle: Bundle, dates: &TxData) -> u8
    ensures { (result ≡ (book_of m.old at bundle dates.now).number) × (m.new ≡ (book_of m.old at bundle dates.now).manager) }
{
    howrekano::queue::hk_queue_book(m, at, bundle, dates)
}

#[unsafe(no_mangle)]
pub extern "C" fn hk_queue_book_kept(m: &mut Queue, at: Date, bundle: Bundle, dates: &TxData) -> u8
    requires { record_ok m.old ≡ true }
    ensures { (result ≡ (book_of m.old at bundle dates.now).number) × (m.new ≡ (book_of m.old at bundle dates.now).manager) }
{
    howrekano::queue::hk_queue_book_kept(m, at, bundle, dates)
}

#[unsafe(no_mangle)]
pub extern "C" fn hk_queue_enqueue(m: &mut Queue, bundle: Bundle) -> u8
    ensures { (result ≡ (enqueue_of m.old bundle).number) × (m.new ≡ (enqueue_of m.old bundle).manager) }
{
    howrekano::queue::hk_queue_enqueue(m, bundle)
}

#[unsafe(no_mangle)]
pub extern "C" fn hk_queue_enqueue_kept(m: &mut Queue, bundle: Bundle) -> u8
    requires { record_ok m.old ≡ true }
    ensures { (result ≡ (enqueue_of m.old bundle).number) × (m.new ≡ (enqueue_of m.old bundle).manager) }
{
    howrekano::queue::hk_queue_enqueue_kept(m, bundle)
}

#[unsafe(no_mangle)]
pub extern "C" fn hk_queue_dequeue(m: &mut Queue, bundle: Bundle) -> u8
    ensures { (result ≡ (dequeue_of m.old bundle).number) × (m.new ≡ (dequeue_of m.old bundle).manager) }
{
    howrekano::queue::hk_queue_dequeue(m, bundle)
}

#[unsafe(no_mangle)]
pub extern "C" fn hk_queue_dequeue_kept(m: &mut Queue, bundle: Bundle) -> u8
    requires { record_ok m.old ≡ true }
    ensures { (result ≡ (dequeue_of m.old bundle).number) × (m.new ≡ (dequeue_of m.old bundle).manager) }
{
    howrekano::queue::hk_queue_dequeue_kept(m, bundle)
}
