// A list of free time changed where it stands: the cut of a booking. Its array and its count are lent apart, and no `&mut FreeList`, as the C interface's kept calls have them.
ghost use Rattle.std.specs.Prelude.{◌≡◌, ◌<◌, ◌≤◌, length};
ghost use Rattle.units.specs.Limits.{segments_max};
ghost use Rattle.segmentation.specs.Granted.{Runs};
ghost use Rattle.free_list.specs.Cut.{list_cut, free_in};
ghost use Rattle.free_list.specs.Granted.{Inside, insert_of, cut_in};

use crate::{FreeList, rest, stretch};
use segmentation::{Edition, VolumeSegment};
use units::refusal::Refusal;
use units::{Interval, Volume};

// What a cut took off the listed volumes, and what it put in.
#[derive(Clone, Copy, PartialEq, Eq, Default)]
pub struct Change {
    pub off: Volume,
    pub on: Volume,
}

// One more segment at a place, those from it on moved up. `n` stays beside the slice: the promise is over all places of the array (`insert_of`).
pub fn insert(segments: &mut [VolumeSegment], n: usize, i: usize, s: VolumeSegment)
    requires within { i ≤ n }
    requires room { n < length segments.old }
    ensures { segments.new ≡ insert_of segments.old n i s }
{
    segments.copy_within(i..n, i + 1);
    segments[i] = s;
}

// schedule_tx: what a booking leaves of the list; 10, and the list as it was, where there is no room for one more.
pub fn cut(
    segments: &mut [VolumeSegment; FreeList::COUNT_MAX],
    count: &mut usize,
    edition: Edition,
    rates: &[VolumeSegment],
    place: usize,
    send: Interval,
    size: Volume,
) -> Result<Change, Refusal>
    requires few { length rates.now ≤ segments_max }
    requires in_turn { Runs rates.now }
    requires inside { Inside (free_in segments.old count.old) place size.0 }
    ensures { cut_in (free_in segments.new count.new) result ≡ list_cut edition.0 rates.now (free_in segments.old count.old) place send.start.0 send.end.0 size.0 }
{
    let g = segments[place];
    if g.start == send.start {
        let kept = rest(edition, rates, g, send.end, size);
        segments[place] = kept;
        return Ok(Change {
            off: g.volume,
            on: kept.volume,
        });
    }
    let before = stretch(rates, g.start, send.start);
    if send.start == send.end {
        segments[place] = before;
        return Ok(Change {
            off: g.volume,
            on: before.volume,
        });
    }
    if FreeList::COUNT_MAX <= *count {
        return Err(Refusal::Full);
    }
    let after = stretch(rates, send.end, g.end);
    insert(segments, *count, place + 1, after);
    segments[place] = before;
    *count += 1;
    Ok(Change {
        off: g.volume,
        on: Volume(before.volume.0 + after.volume.0),
    })
}
