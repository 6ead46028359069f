// What is asked of each of a record's volumes, and done to each: the places of queues and budgets that are used.
ghost use Rattle.std.specs.Prelude.{◌≡◌, true, ◌≤◌, length};
ghost use Rattle.units.specs.Limits.{volume_max};
ghost use Rattle.units.specs.Logic.{all_of};
ghost use Rattle.legacy.specs.Open.{at_most, at_least};
ghost use Rattle.legacy.specs.Queueing.{add_to, take_from};
ghost use Rattle.legacy.specs.Record.{queue_max};

use units::Volume;

// Two tests and two changes: one function for both would say them by a closure's terms, where `within-unique`, `hold-unique`,
// `add-unique` and `take-unique` (proofs/Unique) speak of each.

// Is each at most so much?
pub fn within(volumes: &[Volume], most: u64) -> bool
    ensures { result ≡ all_of (at_most most) volumes.now }
{
    volumes.iter().all(|v| v.0 <= most)
}

// Is each at least the size?
pub fn hold(volumes: &[Volume], size: Volume) -> bool
    ensures { result ≡ all_of (at_least size.0) volumes.now }
{
    volumes.iter().all(|v| size <= *v)
}

// The size added to each.
pub fn add(volumes: &mut [Volume], size: Volume)
    requires small { size.0 ≤ volume_max }
    requires low { all_of (at_most queue_max) volumes.old ≡ true }
    ensures { volumes.new ≡ add_to (length volumes.old) size.0 volumes.old }
{
    for volume in volumes {
        volume.0 += size.0;
    }
}

// The size taken from each.
pub fn take(volumes: &mut [Volume], size: Volume)
    requires { all_of (at_least size.0) volumes.old ≡ true }
    ensures { volumes.new ≡ take_from (length volumes.old) size.0 volumes.old }
{
    for volume in volumes {
        volume.0 -= size.0;
    }
}
