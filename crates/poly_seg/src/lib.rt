// The polynomial manager (poly_seg.rs: PolySegManager): open, dry run, book, list.
#![tactic(auto)]

ghost use Rattle.std.specs.Prelude.{◌≡◌, true, false, [], ◌≤◌, MatchOption, IfOk, take};
ghost use Rattle.units.specs.Limits.{date_max, volume_max, window_ok};
ghost use Rattle.units.specs.Refusal.{number_of, told};
ghost use Rattle.free_list.specs.Listed.{segment_ok, list_ok};
ghost use Rattle.free_list.specs.Granted.{Inside};
ghost use Rattle.poly.specs.Poly.{step_max};
ghost use Rattle.poly.specs.Granted.{capacity_by};
ghost use Rattle.poly_seg.specs.Choices.{ported, choices_ok};
ghost use Rattle.poly_seg.specs.Open.{open_of, delay_ok, delays_ok, delays_by};
ghost use Rattle.poly_seg.specs.Record.{record_ok, answer_in};
ghost use Rattle.poly_seg.specs.DryRun.{end_in, offer_of, found_of, dry_run_of};
ghost use Rattle.poly_seg.specs.Book.{book_of, cut_free, refused_booking};
ghost use Rattle.poly_seg.specs.List.{list_of};
ghost use Rattle.poly_seg.specs.Granted.{number_by, figures_ok, free_ok, chosen_of};

use contact::span::Span;
use free_list::{Chosen, Cut, Fit, FreeList};
use poly::terms::WindowTerms;
use poly::{Mode, Polynome};
use segmentation::{DelaySegment, Edition, Rule, VolumeSegment};
use units::blank::unused;
use units::refusal::Refusal;
use units::{Bundle, Date, Delay, Interval, Offer, Strict, TxData, Volume};

// What an opening chooses and the record names: the mode in which capacity is counted, the rule of the delays and the strict flag.
// A type of its own beside contact's: both are C's records, and each has its `choices_ok` and `ported`.
#[repr(C)]
#[derive(Clone, Copy, PartialEq, Eq, Default)]
pub struct Choices {
    pub mode: Mode,
    pub rule: Rule,
    pub strict: Strict,
}

impl Choices {
    // What the source has.
    pub fn ported() -> Choices
        ensures { result ≡ ported }
    {
        Choices {
            mode: Mode(Mode::PORTED),
            rule: Rule(Rule::FIRST),
            strict: Strict(Strict::OFF),
        }
    }

    // Is each choice one that there is?
    #[tactic(auto, unfolding(crate::specs::Choices::choices_ok, units::specs::Logic::both))]
    pub fn ok(self) -> bool
        ensures { result ≡ choices_ok self }
    {
        units::one_or_two(self.mode.0) && units::one_or_two(self.rule.0) && self.strict.ok()
    }
}

// An array with a count: the C interface's layout.
#[repr(C)]
#[derive(Clone, Copy, Default)]
pub struct PolySeg {
    pub choices: Choices,
    pub window: Interval,
    pub polynome: Polynome,
    pub delays: [DelaySegment; DelaySegment::COUNT_MAX],
    pub delay_count: usize,
    pub free: FreeList,
}

// The answer of an opening: 01's number and the record, which is zero on a refusal.
// A number beside a value here and in the next two: C's answers, of which this manager's own `open_of`, `book_of` and `list_of` speak.
#[repr(C)]
#[derive(Clone, Copy, Default)]
pub struct Opened {
    pub number: u8,
    pub manager: PolySeg,
}

// The answer of a booking: 01's number and the record, which is the one that came on a refusal.
#[repr(C)]
#[derive(Clone, Copy)]
pub struct Booked {
    pub number: u8,
    pub manager: PolySeg,
}

// The answer of a list: 01's number and the listed segments, none on a refusal.
#[repr(C)]
#[derive(Clone, Copy)]
pub struct Listing {
    pub number: u8,
    pub list: FreeList,
}

// Are the delay's dates and the delay inside their limits?
#[tactic(auto, unfolding(crate::specs::Open::delay_ok, units::specs::Logic::both))]
pub fn delay_ok(s: DelaySegment) -> bool
    ensures { result ≡ delay_ok s }
{
    s.start.0 <= Date::MAX && s.end.0 <= Date::MAX && s.delay.0 <= Delay::MAX
}

// An array with a count: the count is what an opening is given, untested, and the slice that is answered is the list.
// The delay segments that a list of so many uses, if they are at most 16 with each number inside its limits, and nothing else.
pub fn delays_ok(
    delays: &[DelaySegment; DelaySegment::COUNT_MAX],
    count: usize,
) -> Option<&[DelaySegment]>
    ensures { MatchOption result (delays_ok count delays.now ≡ false) (λ l. (delays_ok count delays.now ≡ true) × (l.now ≡ take count delays.now)) }
{
    let list = delays.get(..count)?;
    list.iter().all(|s| delay_ok(*s)).then_some(list)
}

// The same by the rule: by rule 2 they cover the window as the other managers' do.
pub fn delays_by(
    rule: Rule,
    window: Interval,
    delays: &[DelaySegment; DelaySegment::COUNT_MAX],
    count: usize,
) -> Option<&[DelaySegment]>
    ensures { MatchOption result (delays_by rule.0 window count delays.now ≡ false) (λ l. (delays_by rule.0 window count delays.now ≡ true) × (l.now ≡ take count delays.now)) }
{
    if rule.0 == Rule::SECOND {
        contact::test::delays_are(delays, count, window)
    } else {
        delays_ok(delays, count)
    }
}

// A listed segment in its turn: in the window from a date on, forward, with no volume.
#[tactic(auto, using(crate::proofs::NoRates::bare_test), unfolding(free_list::specs::Listed::segment_ok, units::specs::Logic::both))]
pub fn bare_segment(g: VolumeSegment, low: Date, hi: Date) -> bool
    ensures { result ≡ segment_ok [] low.0 hi.0 g }
{
    low.0 <= g.start.0 && g.start.0 <= g.end.0 && g.end.0 <= hi.0 && g.volume.0 == 0
}

// Does the free list keep its rules: in the window, in order, no volumes?
pub fn bare_ok(segments: &[VolumeSegment], window: Interval) -> bool
    requires { window_ok window ≡ true }
    ensures { result ≡ list_ok [] window.start.0 window.end.0 segments.now }
{
    let mut low = window.start;
    for g in segments {
        if !bare_segment(*g, low, window.end) {
            return false;
        }
        low = Date(g.end.0 + 1);
    }
    true
}

// And has it 1 to 64 segments, and nothing in the places from the count on?
fn free_ok(free: &FreeList, window: Interval) -> bool
    requires { window_ok window ≡ true }
    ensures { result ≡ free_ok window free.now }
{
    (1..=FreeList::COUNT_MAX).contains(&free.count)
        && bare_ok(free.listed(), window)
        && unused(&free.segments[free.count..])
}

// The end that a listed segment has for a size as the terms count it: none if it ends before the asked time. `small` stands at each: a type for one number that `search` makes once is no plainer.
pub fn end_in(terms: WindowTerms, g: VolumeSegment, asked: Date, size: u64) -> Option<Date>
    requires inside { (terms.window.start.0 ≤ g.start.0) × (g.end.0 ≤ terms.window.end.0) }
    requires small { size ≤ step_max }
    ensures { result ≡ end_in (capacity_by terms.terms) g asked.0 size }
{
    if g.end < asked {
        return None;
    }
    terms.find_end(g.dates(), units::later(g.start, asked), size)
}

// The first listed segment that has an end for the size: one that has none is passed over.
// Not free_list's `find_offer`: one function over the two ends would take a closure whose clause carries `inside` and `small`, or `covered`, of each segment, and is no plainer; each manager has its own `offer_of`.
pub fn find_offer(terms: WindowTerms, free: &[VolumeSegment], asked: Date, size: u64) -> Option<Fit>
    requires ruled { list_ok [] terms.window.start.0 terms.window.end.0 free.now ≡ true }
    requires small { size ≤ step_max }
    ensures { result ≡ offer_of (capacity_by terms.terms) free.now asked.0 size }
{
    for (place, g) in free.iter().enumerate() {
        let Some(end) = end_in(terms, *g, asked, size) else {
            continue;
        };
        let start = units::later(g.start, asked);
        return Some(Fit {
            place,
            send: Interval { start, end },
        });
    }
    None
}

// `record_ok` stays a clause of the kept calls and of what is inside: they take a record as C holds it, docs/CALLS.md names them with that clause (`dry_run_kept`, `book_kept`), and a type with it as its invariant would ask more of their callers.
impl PolySeg {
    fn refused_booking(self, refusal: Refusal) -> Booked
        ensures { result ≡ refused_booking (number_of refusal) self }
    {
        Booked {
            number: refusal.number(),
            manager: self,
        }
    }

    // An opening with these figures, which a record's own are held to: the delay segments used, or 2 for a choice that there is not, 3, 5 where the delays do not hold, 11, in this order.
    fn opening(
        choices: Choices,
        window: Interval,
        polynome: Polynome,
        delays: &[DelaySegment; DelaySegment::COUNT_MAX],
        delay_count: usize,
    ) -> Result<&[DelaySegment], Refusal>
        ensures number { told result ≡ number_by choices window polynome (delays_by choices.rule.0 window delay_count delays.now) }
        ensures used { IfOk result (λ l. l.now ≡ take delay_count delays.now) }
    {
        if !choices.ok() {
            return Err(Refusal::Bundle);
        }
        if !window.is_window() {
            return Err(Refusal::Window);
        }
        let used = delays_by(choices.rule, window, delays, delay_count).ok_or(Refusal::Delays)?;
        if !polynome.ok(choices.mode, window) {
            return Err(Refusal::Polynomial);
        }
        Ok(used)
    }

    // new and try_init: refused with that number; the whole window is listed, bare. The delays by value with their count: the signature that the docs name (`open_of`, `open-unique`).
    pub fn open(
        choices: Choices,
        window: Interval,
        polynome: Polynome,
        delays: [DelaySegment; DelaySegment::COUNT_MAX],
        delay_count: usize,
    ) -> Opened
        ensures { result ≡ open_of choices window polynome delays delay_count }
    {
        match PolySeg::opening(choices, window, polynome, &delays, delay_count) {
            Ok(used) => Opened {
                number: 0,
                manager: PolySeg {
                    choices,
                    window,
                    polynome,
                    delays: contact::opening::delays_of(used),
                    delay_count,
                    free: FreeList::whole(window, Volume(0)),
                },
            },
            Err(refusal) => Opened {
                number: refusal.number(),
                ..Opened::default()
            },
        }
    }

    // Does an opening take the record's figures, and is nothing in the delays' places from their count on?
    fn figures_ok(&self) -> bool
        ensures { result ≡ figures_ok self.now }
    {
        let delays = &self.delays;
        let count = self.delay_count;
        match PolySeg::opening(self.choices, self.window, self.polynome, delays, count) {
            Ok(_) => unused(&delays[count..]),
            Err(_) => false,
        }
    }

    // Does the record keep its rules?
    pub fn ok(self) -> bool
        ensures { result ≡ record_ok self }
    {
        self.figures_ok() && free_ok(&self.free, self.window)
    }

    // The search of a dry run, on a record that keeps its rules.
    fn search(&self, asked: Date, size: Volume) -> Option<Fit>
        requires kept { record_ok self.now ≡ true }
        requires small { size.0 ≤ volume_max }
        ensures { result ≡ found_of self.now asked.0 size.0 }
    {
        let mode = self.choices.mode;
        let terms = self.polynome.terms(mode, self.window);
        find_offer(terms, self.free.listed(), asked, mode.wanted(size))
    }

    // The offer of a send interval, with its delays.
    fn answer(&self, send: Interval) -> Offer
        requires kept { record_ok self.now ≡ true }
        requires dated { (send.start.0 ≤ date_max) × (send.end.0 ≤ date_max) }
        ensures { result ≡ answer_in self.now send }
    {
        let delays = &self.delays[..self.delay_count];
        let found = segmentation::find_delays(self.choices.rule, delays, send);
        segmentation::answer(send, found)
    }

    // What a dry run finds on a record that keeps its rules: its answer, and where it comes from. Its refusals stay numbers: the public answer `Chosen` has its number in the offer (`chosen_of`).
    pub fn chosen(self, at: Date, bundle: Bundle) -> Chosen
        requires { record_ok self ≡ true }
        ensures { result ≡ chosen_of self at bundle }
    {
        if !bundle.ok_at(at) {
            return Chosen::refused(Refusal::Bundle.number());
        }
        let Some(Fit { place, send }) = self.search(at, bundle.size) else {
            return Chosen::refused(Refusal::NoOffer.number());
        };
        Chosen {
            offer: self.answer(send),
            place,
        }
    }

    // The dry run on such a record, without testing it again: for a caller who holds one.
    pub fn dry_run_kept(self, at: Date, bundle: Bundle) -> Offer
        requires { record_ok self ≡ true }
        ensures { result ≡ dry_run_of self at bundle }
    {
        self.chosen(at, bundle).offer
    }

    // dry_run_tx: 1, 2, then 7 or 8.
    pub fn dry_run(self, at: Date, bundle: Bundle) -> Offer
        ensures { result ≡ dry_run_of self at bundle }
    {
        if !self.ok() {
            return Offer::refused(Refusal::Record.number());
        }
        self.dry_run_kept(at, bundle)
    }

    // The booking on such a record.
    pub fn book_kept(self, at: Date, bundle: Bundle, dates: TxData) -> Booked
        requires { record_ok self ≡ true }
        ensures { result ≡ book_of self at bundle dates }
    {
        let Chosen { offer, place } = self.chosen(at, bundle);
        if let Err(refusal) = offer.check(self.choices.strict, dates) {
            return self.refused_booking(refusal);
        }
        let done = self.cut(place, dates.send);
        Booked {
            number: done.number,
            manager: PolySeg {
                free: done.list,
                ..self
            },
        }
    }

    // schedule_tx, with the time that the dry run was asked: 1, 2, 9, 17, then 10.
    pub fn book(self, at: Date, bundle: Bundle, dates: TxData) -> Booked
        ensures { result ≡ book_of self at bundle dates }
    {
        if !self.ok() {
            return self.refused_booking(Refusal::Record);
        }
        self.book_kept(at, bundle, dates)
    }

    // What a booking leaves of the list, on a record that keeps its rules: no rates, so no volumes.
    pub fn cut(self, place: usize, send: Interval) -> Cut
        requires { Inside self.free place 0 }
        ensures { result ≡ cut_free self place send }
    {
        self.free
            .cut(Edition(Edition::FIRST), &[], place, send, Volume(0))
    }

    // The listed segments: 1.
    pub fn list(self) -> Listing
        ensures { result ≡ list_of self }
    {
        if !self.ok() {
            return Listing {
                number: Refusal::Record.number(),
                list: FreeList::default(),
            };
        }
        Listing {
            number: 0,
            list: self.free,
        }
    }
}
