// 01's refusals, each with its number; 0 is done.
ghost use Rattle.std.specs.Prelude.{◌≡◌};
ghost use Rattle.units.specs.Refusal.{number_of};

#[derive(Clone, Copy, Debug, PartialEq, Eq)]
pub enum Refusal {
    Record = 1,
    // 02: a choice at an opening that there is not has the same number.
    Bundle = 2,
    Window = 3,
    Rates = 4,
    Delays = 5,
    Volume = 6,
    NoOffer = 7,
    NoDelay = 8,
    NotOffered = 9,
    Full = 10,
    Polynomial = 11,
    SelfUpdate = 12,
    Queue = 13,
    Classes = 14,
    // 02, R-7: what is offered has zero length, and the record is strict.
    ZeroLength = 17,
}

impl Refusal {
    // Its number in an answer.
    pub fn number(self) -> u8
        ensures { result ≡ number_of self }
    {
        self as u8
    }
}
