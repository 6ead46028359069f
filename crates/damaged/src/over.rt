// One more than each limit of 01, for records that must be refused: it moves with the limit.
use bookings::Level;
use legacy::Queue;
use poly::{Mode, Polynome};
use segmentation::{Edition, Rule};
use units::{Date, Delay, Interval, Rate, Strict, Volume};

pub const DATE: u64 = Date::MAX + 1;

pub const LENGTH: u64 = Interval::LENGTH_MAX + 1;

pub const RATE: u64 = Rate::MAX + 1;

pub const DELAY: u64 = Delay::MAX + 1;

pub const LEVEL: u64 = Level::MAX + 1;

pub const SEGMENTS: usize = Interval::SEGMENTS_MAX + 1;

pub const LISTED: usize = Interval::LISTED_MAX + 1;

pub const CLASSES: usize = Queue::CLASSES_MAX + 1;

pub const BUDGET: u64 = Queue::BUDGET_MAX + 1;

pub const QUEUE: u64 = Queue::QUEUE_MAX + 1;

pub const EDITION: u64 = Edition::SECOND + 1;

pub const RULE: u64 = Rule::SECOND + 1;

pub const MODE: u64 = Mode::EXACT + 1;

pub const STRICT: u64 = Strict::ON + 1;

// The least rate and volume by which ten ticks carry more than a contact may.
pub const RATE_OF_TEN: u64 = Volume::MAX / 10 + 1;

pub const VOLUME_OF_TEN: u64 = 10 * RATE_OF_TEN;

// The least first coefficient by which ten ticks pass the range rule, the highest by which they do not, the least last one.
pub const FIRST_OF_TEN: i64 = (Polynome::STEP_MAX / 10 + 1) as i64;

pub const FIRST_WITHIN_TEN: i64 = FIRST_OF_TEN - 1;

pub const LAST_OF_TEN: i64 = 4 * (Polynome::STEP_MAX / 10_000 + 1) as i64;

// The same of mode 2, where the last one stands beside a first one of 10.
pub const EXACT_OF_TEN: i64 = (Polynome::STEP_MAX / (10 * Mode::PARTS) + 1) as i64;

pub const EXACT_WITHIN_TEN: i64 = EXACT_OF_TEN - 1;

pub const EXACT_LAST_WITHIN_TEN: i64 = ((Polynome::STEP_MAX - 100 * Mode::PARTS)
    / (2_500 * Mode::PARTS)) as i64;

pub const EXACT_LAST_OF_TEN: i64 = EXACT_LAST_WITHIN_TEN + 1;

// A start near the last date, for a window that passes it.
pub const LATE: u64 = Date::MAX - 6;
