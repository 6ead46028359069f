// Every call of every manager on lent records, for Rust, and for C by the static library of howrekano_c. The total calls are thin ones over the managers' own calls by value.
// Each manager has its own calls under its own names, and the kept ones take a record's parts one by one: the C interface.
#![tactic(auto)]

pub mod free;
pub mod polynomial;
pub mod priority;
pub mod queue;

use contact::Choices;
use segmentation::{DelaySegment, RateSegment};
use units::Interval;

// An opening's choices and figures.
#[repr(C)]
#[derive(Clone, Copy)]
pub struct Opening {
    pub choices: Choices,
    pub window: Interval,
    pub rates: [RateSegment; RateSegment::COUNT_MAX],
    pub rate_count: usize,
    pub delays: [DelaySegment; DelaySegment::COUNT_MAX],
    pub delay_count: usize,
}
