// The record that is held, and what each frame asks of it. A record is changed where it stands: by value it would be copied at every line.
ghost use Rattle.std.specs.Prelude.{◌≡◌, true};
ghost use Rattle.seg.specs.Record.{record_ok as free_ok};
ghost use Rattle.pseg.specs.Record.{record_ok as priority_ok};
ghost use Rattle.poly_seg.specs.Record.{record_ok as polynomial_ok};
ghost use Rattle.held.specs.Rules.{held_ok};

use frames::NO_FRAME;
use frames::frame::Frame;
use frames::opening::Opens;
use held::Held;
use legacy::Queue;
use poly_seg::PolySeg;
use pseg::PrioritySeg;
use seg::FreeVolume;
use text::LINE;
use units::refusal::Refusal;
use units::{Bundle, Date, Offer, TxData};

// What is held keeps its rules, from one line to the next.
#[derive(Drop)]
pub struct Keeper {
    held: Held,
    ghost keeps_rules: { held_ok held ≡ true },
}

impl Keeper {
    pub fn new() -> Keeper {
        Keeper {
            held: Held::nothing(),
        }
    }

    // The answer to a line, and how long it is.
    pub fn answer(&mut self, out: &mut [u8; LINE], line: &[u8]) -> usize {
        let Some(frame) = frames::frame::of(line) else {
            return answer::put_number(out, NO_FRAME);
        };
        match frame {
            Frame::Free => answer::put_number(out, self.open::<FreeVolume>(line)),
            Frame::Priority => answer::put_number(out, self.open::<PrioritySeg>(line)),
            Frame::Polynomial => answer::put_number(out, self.open::<PolySeg>(line)),
            Frame::Queue => answer::put_number(out, self.open::<Queue>(line)),
            Frame::Offer => answer::put_offer(out, self.dry_run(line)),
            Frame::Booking => answer::put_number(out, self.book(line)),
            Frame::Listing => self.put_list(out, line),
            Frame::Queueing => answer::put_number(out, self.queueing(line)),
            Frame::Room => self.put_room(out),
        }
    }

    // A refused opening keeps the old record.
    #[inline(never)]
    fn open<M: Opens>(&mut self, line: &[u8]) -> u8 {
        let o = M::opened(line);
        if o.number == 0 {
            self.held = o.held;
        }
        o.number
    }

    fn dry_run(&self, line: &[u8]) -> Offer {
        let at = layout::date_at(line, 1);
        let bundle = layout::bundle_at(line, 9);
        match &self.held {
            Held::Nothing => Offer::refused(Refusal::Record.number()),
            Held::Free(r) => r.chosen(at, bundle).offer,
            Held::Priority(r) => r.dry_run_kept(at, bundle),
            Held::Polynomial(r) => r.chosen(at, bundle).offer,
            Held::Queue(r) => r.dry_run_kept(at, bundle),
        }
    }

    fn book(&mut self, line: &[u8]) -> u8 {
        let at = layout::date_at(line, 1);
        let bundle = layout::bundle_at(line, 9);
        let dates = layout::dates_at(line, 18);
        match &mut self.held {
            Held::Nothing => Refusal::Record.number(),
            Held::Free(r) => book_free(r, at, bundle, dates),
            Held::Priority(r) => book_priority(r, at, bundle, dates),
            Held::Polynomial(r) => book_polynomial(r, at, bundle, dates),
            Held::Queue(r) => {
                let b = r.book_kept(at, bundle, dates);
                *r = b.manager;
                b.number
            }
        }
    }

    fn queueing(&mut self, line: &[u8]) -> u8 {
        match &mut self.held {
            Held::Nothing => Refusal::Record.number(),
            Held::Queue(r) => {
                let b = frames::queueing::call(line, *r);
                *r = b.manager;
                b.number
            }
            Held::Free(_) | Held::Priority(_) | Held::Polynomial(_) => Refusal::SelfUpdate.number(),
        }
    }

    #[inline(never)]
    fn put_list(&self, out: &mut [u8; LINE], line: &[u8]) -> usize {
        frames::calls::list(out, line, self.held)
    }

    fn put_room(&self, out: &mut [u8; LINE]) -> usize {
        match &self.held {
            Held::Nothing => answer::put_number(out, Refusal::Record.number()),
            Held::Free(r) => answer::put_room(out, 0, r.room_kept()),
            Held::Priority(_) | Held::Polynomial(_) | Held::Queue(_) => {
                answer::put_number(out, Refusal::SelfUpdate.number())
            }
        }
    }
}

// A booking's number; what is booked is off the list. A number here and above, and no Result: the answer's line is a number. One function for each manager: so do the rules differ that the record keeps.
fn book_free(r: &mut FreeVolume, at: Date, bundle: Bundle, dates: TxData) -> u8
    requires { free_ok r.old ≡ true }
    ensures { free_ok r.new ≡ true }
{
    match r.book_here(at, bundle, dates) {
        Ok(()) => 0,
        Err(refusal) => refusal.number(),
    }
}

fn book_priority(r: &mut PrioritySeg, at: Date, bundle: Bundle, dates: TxData) -> u8
    requires { priority_ok r.old ≡ true }
    ensures { priority_ok r.new ≡ true }
{
    match r.book_here(at, bundle, dates) {
        Ok(()) => 0,
        Err(refusal) => refusal.number(),
    }
}

fn book_polynomial(r: &mut PolySeg, at: Date, bundle: Bundle, dates: TxData) -> u8
    requires { polynomial_ok r.old ≡ true }
    ensures { polynomial_ok r.new ≡ true }
{
    let c = r.chosen(at, bundle);
    if let Err(refusal) = c.offer.check(r.choices.strict, dates) {
        return refusal.number();
    }
    let d = r.cut(c.place, dates.send);
    r.free = d.list;
    d.number
}
