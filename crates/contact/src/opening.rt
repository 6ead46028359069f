// The opening's sums and conversions (segmentation/mod.rs: try_init; seg.rs: SegmentationManager::new).
ghost use Rattle.std.specs.Prelude.{◌≡◌, ◌≤◌, length, map};
ghost use Rattle.units.specs.Limits.{segments_max};
ghost use Rattle.units.specs.Arrays.{padded};
ghost use Rattle.contact.specs.Segments.{volume_of, zero_volume, zero_delay};
ghost use Rattle.contact.specs.Granted.{Fitting, AllFitting, Forward, total_within};

use segmentation::{DelaySegment, RateSegment, VolumeSegment};
use units::{Rate, Volume};

// SegmentationManager::new: a rate times its length.
pub fn volume_of(s: RateSegment) -> VolumeSegment
    requires { Fitting s }
    ensures { result ≡ volume_of s }
{
    VolumeSegment {
        start: s.start,
        end: s.end,
        volume: Volume(s.rate.0 * (s.end.0 - s.start.0)),
    }
}

// The total volume of the rate segments, if it and each rate are inside their limits.
pub fn total_of(rates: &[RateSegment]) -> Option<Volume>
    requires forward { Forward rates.now }
    ensures { result ≡ total_within rates.now }
{
    let mut sum = Volume::default();
    for s in rates {
        if Rate::MAX < s.rate.0 {
            return None;
        }
        if (Volume::MAX - sum.0) / (s.end.0 - s.start.0) < s.rate.0 {
            return None;
        }
        sum = Volume(sum.0 + volume_of(*s).volume.0);
    }
    Some(sum)
}

// The volume segments of a rate list, and zero at the places past them.
pub fn volumes_of(rates: &[RateSegment]) -> [VolumeSegment; RateSegment::COUNT_MAX]
    requires few { length rates.now ≤ segments_max }
    requires fitting { AllFitting rates.now }
    ensures { result ≡ padded segments_max zero_volume (map volume_of rates.now) }
{
    let mut out = [VolumeSegment::default(); RateSegment::COUNT_MAX];
    for (i, s) in rates.iter().enumerate() {
        out[i] = volume_of(*s);
    }
    out
}

// The delay segments given, and zero at the places past them.
pub fn delays_of(delays: &[DelaySegment]) -> [DelaySegment; DelaySegment::COUNT_MAX]
    requires few { length delays.now ≤ segments_max }
    ensures { result ≡ padded segments_max zero_delay delays.now }
{
    let mut out = [DelaySegment::default(); DelaySegment::COUNT_MAX];
    out[..delays.len()].copy_from_slice(delays);
    out
}
