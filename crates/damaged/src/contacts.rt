// What the free-volume and the priority record share: the contact [0,10), rate 10, delay 3, and contacts that differ from it.
ghost use Rattle.std.specs.Prelude.{◌≤◌};

use contact::{Choices, Contact};
use segmentation::{DelaySegment, Edition, RateSegment, Rule, VolumeSegment};
use units::{Date, Delay, Interval, Rate, Strict, Volume};

// An interval of these dates.
pub fn span(start: u64, end: u64) -> Interval {
    Interval {
        start: Date(start),
        end: Date(end),
    }
}

pub fn delay(start: u64, end: u64, delay: u64) -> DelaySegment {
    DelaySegment {
        start: Date(start),
        end: Date(end),
        delay: Delay(delay),
    }
}

pub fn segment(start: u64, end: u64, volume: u64) -> VolumeSegment {
    VolumeSegment {
        start: Date(start),
        end: Date(end),
        volume: Volume(volume),
    }
}

// These first two of a list, and nothing after them.
pub fn two<T: Copy + Default, const N: usize>(first: T, second: T) -> [T; N]
    requires { 2 ≤ N }
{
    let mut places = [T::default(); N];
    places[0] = first;
    places[1] = second;
    places
}

// The rate segments of the opening, and the delay segments.
pub fn rates() -> [RateSegment; RateSegment::COUNT_MAX] {
    let rate = RateSegment {
        start: Date(0),
        end: Date(10),
        rate: Rate(10),
    };
    two(rate, RateSegment::default())
}

pub fn delays() -> [DelaySegment; DelaySegment::COUNT_MAX] {
    two(delay(0, 10, 3), DelaySegment::default())
}

// The contact with other choices.
pub fn named(contact: Contact, edition: u64, rule: u64, strict: u64) -> Contact {
    let choices = Choices {
        edition: Edition(edition),
        rule: Rule(rule),
        strict: Strict(strict),
    };
    Contact { choices, ..contact }
}
