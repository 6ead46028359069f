// What the free-volume and the priority record share: the window, the rate and the delay segments, their opening and their test.
#![tactic(auto)]

ghost use Rattle.std.specs.Prelude.{◌≡◌, true, ◌≤◌, take};
ghost use Rattle.units.specs.Limits.{date_max, segments_max};
ghost use Rattle.contact.specs.Choices.{ported, choices_ok};
ghost use Rattle.contact.specs.Open.{open_contact, refused_contact};
ghost use Rattle.contact.specs.Record.{contact_ok, answer_in};
ghost use Rattle.contact.specs.Granted.{opened_by};

use segmentation::{DelaySegment, Edition, RateSegment, Rule, VolumeSegment};
use units::refusal::Refusal;
use units::{Interval, Offer, Strict, Volume};

pub mod opening;
pub mod span;
pub mod test;

// What an opening chooses and the record names: the edition of the end rule, the rule of the delays and the strict flag.
#[repr(C)]
#[derive(Clone, Copy, PartialEq, Eq, Default)]
pub struct Choices {
    pub edition: Edition,
    pub rule: Rule,
    pub strict: Strict,
}

impl Choices {
    // What the source has.
    pub fn ported() -> Choices
        ensures { result ≡ ported }
    {
        Choices {
            edition: Edition(Edition::FIRST),
            rule: Rule(Rule::FIRST),
            strict: Strict(Strict::OFF),
        }
    }

    // Is each choice one that there is?
    #[tactic(auto, unfolding(crate::specs::Choices::choices_ok, units::specs::Logic::both))]
    pub fn ok(self) -> bool
        ensures { result ≡ choices_ok self }
    {
        units::one_or_two(self.edition.0) && units::one_or_two(self.rule.0) && self.strict.ok()
    }
}

// Arrays with counts: the C interface's layout. `rates` and `delays` lend what is used of them.
#[repr(C)]
#[derive(Clone, Copy, PartialEq, Eq, Default)]
pub struct Contact {
    pub choices: Choices,
    pub window: Interval,
    pub rates: [VolumeSegment; RateSegment::COUNT_MAX],
    pub rate_count: usize,
    pub delays: [DelaySegment; DelaySegment::COUNT_MAX],
    pub delay_count: usize,
}

// An opening's answer: 01's number, the total volume and the contact, all zero on a refusal. A number beside a value: `open_contact` and `Contact::open` keep it.
#[repr(C)]
#[derive(Clone, Copy, PartialEq, Eq, Default)]
pub struct Opened {
    pub number: u8,
    pub total: Volume,
    pub contact: Contact,
}

impl Contact {
    // The contact that a refused opening returns. Any number and no `Refusal`: that would ask more of callers (`refused-unique`).
    pub fn refused(number: u8) -> Opened
        ensures { result ≡ refused_contact number }
    {
        Opened {
            number,
            ..Opened::default()
        }
    }

    // try_init: 2 for a choice that there is not, then 3, 4, 6, 5 in this order. The arrays with their counts are what C gives; a count may be any number.
    pub fn open(
        choices: Choices,
        window: Interval,
        rates: [RateSegment; RateSegment::COUNT_MAX],
        rate_count: usize,
        delays: [DelaySegment; DelaySegment::COUNT_MAX],
        delay_count: usize,
    ) -> Opened
        ensures { result ≡ open_contact choices window rates rate_count delays delay_count }
    {
        match Contact::opened(choices, window, &rates, rate_count, &delays, delay_count) {
            Ok((contact, total)) => Opened {
                number: 0,
                total,
                contact,
            },
            Err(refusal) => Contact::refused(refusal.number()),
        }
    }

    // The same for Rust: the contact and its total volume, or the refusal. The counts stay beside the lists: whether they fit is what is asked.
    pub fn opened(
        choices: Choices,
        window: Interval,
        rates: &[RateSegment; RateSegment::COUNT_MAX],
        rate_count: usize,
        delays: &[DelaySegment; DelaySegment::COUNT_MAX],
        delay_count: usize,
    ) -> Result<(Contact, Volume), Refusal>
        ensures { opened_by result ≡ open_contact choices window rates.now rate_count delays.now delay_count }
    {
        if !choices.ok() {
            return Err(Refusal::Bundle);
        }
        if !window.is_window() {
            return Err(Refusal::Window);
        }
        let rates = span::covering(rates, rate_count, window).ok_or(Refusal::Rates)?;
        let total = opening::total_of(rates).ok_or(Refusal::Volume)?;
        let delays = test::delays_are(delays, delay_count, window).ok_or(Refusal::Delays)?;
        let contact = Contact {
            choices,
            window,
            rates: opening::volumes_of(rates),
            rate_count,
            delays: opening::delays_of(delays),
            delay_count,
        };
        Ok((contact, total))
    }

    // Does the contact keep the record rules?
    #[tactic(auto, using(crate::proofs::Records::contact_is), unfolding(units::specs::Logic::both))]
    pub fn ok(self) -> bool
        ensures { result ≡ contact_ok self }
    {
        self.choices.ok()
            && self.window.is_window()
            && test::rates_kept(&self.rates, self.rate_count, self.window)
            && test::delays_kept(&self.delays, self.delay_count, self.window)
    }

    // The rate segments that it uses.
    pub fn rates(&self) -> &[VolumeSegment]
        requires { self.now.rate_count ≤ segments_max }
        ensures { result.now ≡ take self.now.rate_count self.now.rates }
    {
        &self.rates[..self.rate_count]
    }

    // The delay segments that it uses.
    pub fn delays(&self) -> &[DelaySegment]
        requires { self.now.delay_count ≤ segments_max }
        ensures { result.now ≡ take self.now.delay_count self.now.delays }
    {
        &self.delays[..self.delay_count]
    }

    // The answer to a dry run that found this send interval: its dates with the delays, or 8.
    pub fn answer(&self, send: Interval) -> Offer
        requires kept { contact_ok self.now ≡ true }
        requires dated { (send.start.0 ≤ date_max) × (send.end.0 ≤ date_max) }
        ensures { result ≡ answer_in self.now send }
    {
        let found = segmentation::find_delays(self.choices.rule, self.delays(), send);
        segmentation::answer(send, found)
    }
}
