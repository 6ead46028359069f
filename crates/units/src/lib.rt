// The numbers of document 01 with their units, and the words that every manager answers in.
#![tactic(auto)]

ghost use Rattle.std.specs.Prelude.{◌≡◌, ◌+◌, ◌≤◌, min, max};
ghost use Rattle.units.specs.Limits.{date_max, delay_max, bundle_ok, load_ok, one_or_two, window_ok};
ghost use Rattle.units.specs.Answer.{refused, offers};
ghost use Rattle.units.specs.Strict.{strict_ok, forbids};
ghost use Rattle.units.specs.Granted.{refusal_of};
ghost use Rattle.units.specs.Refusal.{told};

pub mod blank;
pub mod refusal;

use refusal::Refusal;

#[repr(C)]
#[derive(Clone, Copy, PartialEq, Eq, PartialOrd, Ord, Default)]
pub struct Date(pub u64);

#[repr(C)]
#[derive(Clone, Copy, PartialEq, Eq, PartialOrd, Ord, Default)]
pub struct Volume(pub u64);

#[repr(C)]
#[derive(Clone, Copy, PartialEq, Eq, PartialOrd, Ord, Default)]
pub struct Rate(pub u64);

#[repr(C)]
#[derive(Clone, Copy, PartialEq, Eq, PartialOrd, Ord, Default)]
pub struct Delay(pub u64);

#[repr(C)]
#[derive(Clone, Copy, PartialEq, Eq, PartialOrd, Ord, Default)]
pub struct Priority(pub u8);

// types.rs: TimeInterval
#[repr(C)]
#[derive(Clone, Copy, PartialEq, Eq, Default)]
pub struct Interval {
    pub start: Date,
    pub end: Date,
}

// 02, R-7: whether a record refuses to book sends of zero length. A number and no enum: the C interface has the choice so, and it may be any number, which `strict_ok` tests.
#[repr(C)]
#[derive(Clone, Copy, PartialEq, Eq, Default)]
pub struct Strict(pub u64);

// contact_manager/mod.rs: ContactManagerTxData
#[repr(C)]
#[derive(Clone, Copy, PartialEq, Eq, Default)]
pub struct TxData {
    pub send: Interval,
    pub recv: Interval,
}

// bundle.rs: Bundle
#[repr(C)]
#[derive(Clone, Copy, PartialEq, Eq, Default)]
pub struct Bundle {
    pub size: Volume,
    pub priority: Priority,
}

// What a dry run answers: 01's number, and the four dates, which are zero unless the number is. A number beside dates: the C interface; `refused`, `offers` and `refusal_of` say it so.
#[repr(C)]
#[derive(Clone, Copy, PartialEq, Eq, Default)]
pub struct Offer {
    pub number: u8,
    pub dates: TxData,
}

impl Date {
    pub const MAX: u64 = 1 << 40;

    // The date at which what leaves at this one arrives.
    pub fn after(self, delay: Delay) -> Date
        requires { (self.0 ≤ date_max) × (delay.0 ≤ delay_max) }
        ensures { result.0 ≡ self.0 + delay.0 }
    {
        Date(self.0 + delay.0)
    }
}

impl Volume {
    pub const MAX: u64 = 1 << 38;
}

impl Rate {
    pub const MAX: u64 = 1 << 38;
}

impl Delay {
    pub const MAX: u64 = 1 << 40;
}

impl Priority {
    pub const MAX: u8 = 127;
}

impl Interval {
    pub const LENGTH_MAX: u64 = 1 << 24;

    // The parts that a record keeps of its window: rate or delay segments, and listed ones.
    pub const SEGMENTS_MAX: usize = 16;

    pub const LISTED_MAX: usize = 64;

    // Is this a contact's window? (contact.rs: ContactInfo::try_init, with 01's limits)
    #[tactic(auto, unfolding(crate::specs::Limits::window_ok, crate::specs::Logic::both))]
    pub fn is_window(self) -> bool
        ensures { result ≡ window_ok self }
    {
        self.start < self.end
            && self.end.0 <= Date::MAX
            && self.end.0 - self.start.0 <= Interval::LENGTH_MAX
    }
}

impl Strict {
    pub const OFF: u64 = 0;

    pub const ON: u64 = 1;

    // Is it a flag that there is?
    #[tactic(auto, unfolding(crate::specs::Strict::strict_ok))]
    pub fn ok(self) -> bool
        ensures { result ≡ strict_ok self.0 }
    {
        self.0 <= Strict::ON
    }

    // Is a booking of this send interval refused?
    #[tactic(auto, unfolding(crate::specs::Strict::forbids, crate::specs::Logic::both))]
    pub fn forbids(self, send: Interval) -> bool
        ensures { result ≡ forbids self.0 send }
    {
        self.0 == Strict::ON && send.start == send.end
    }
}

impl Bundle {
    // Are the asked time, the size and the priority inside their limits?
    #[tactic(auto, unfolding(crate::specs::Limits::bundle_ok, crate::specs::Logic::both))]
    pub fn ok_at(self, at: Date) -> bool
        ensures { result ≡ bundle_ok at self }
    {
        at.0 <= Date::MAX && self.ok()
    }

    // Are the size and the priority inside their limits?
    #[tactic(auto, unfolding(crate::specs::Limits::load_ok, crate::specs::Logic::both))]
    pub fn ok(self) -> bool
        ensures { result ≡ load_ok self }
    {
        (1..=Volume::MAX).contains(&self.size.0) && self.priority.0 <= Priority::MAX
    }
}

impl Offer {
    // Is this an offer with these four dates?
    #[tactic(auto, unfolding(crate::specs::Answer::offers, crate::specs::Answer::same_dates, crate::specs::Logic::both))]
    pub fn is(self, dates: TxData) -> bool
        ensures { result ≡ offers self dates }
    {
        self.number == 0 && self.dates == dates
    }

    // A booking with these dates before anything is cut or queued, where this is what the dry run answers: 2, 9, then 17.
    #[tactic(auto, unfolding(crate::specs::Granted::refusal_of))]
    pub fn check(self, strict: Strict, dates: TxData) -> Result<(), Refusal>
        ensures { told result ≡ refusal_of strict.0 self dates }
    {
        if self.number == Refusal::Bundle.number() {
            return Err(Refusal::Bundle);
        }
        if !self.is(dates) {
            return Err(Refusal::NotOffered);
        }
        if strict.forbids(dates.send) {
            return Err(Refusal::ZeroLength);
        }
        Ok(())
    }

    // Any number and no `Refusal`: that would ask more of callers (`refused-unique`; the trace program's ff).
    pub fn refused(number: u8) -> Offer
        ensures { result ≡ refused number }
    {
        Offer {
            number,
            dates: TxData::default(),
        }
    }
}

// Is it a choice that there is? 02's editions, rules and modes are 1 and 2.
#[tactic(auto, unfolding(crate::specs::Limits::one_or_two, crate::specs::Logic::both))]
pub fn one_or_two(choice: u64) -> bool
    ensures { result ≡ one_or_two choice }
{
    (1..=2).contains(&choice)
}

// `later` and `sooner` stay beside `max` and `min`: public functions, whose promises say the number.
pub fn later(a: Date, b: Date) -> Date
    ensures { result.0 ≡ max a.0 b.0 }
{
    a.max(b)
}

pub fn sooner(a: Date, b: Date) -> Date
    ensures { result.0 ≡ min a.0 b.0 }
{
    a.min(b)
}
