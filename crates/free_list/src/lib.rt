// Lists of free time: their test in one pass, the search for an offer, the cut of a booking.
#![tactic(auto)]

ghost use Rattle.std.specs.Prelude.{◌≡◌, List, [], ◌∷◌, ◌+◌, ◌-◌, ◌<◌, ◌≤◌, ◌^◌, length};
ghost use Rattle.units.specs.Limits.{segments_max, listed_max};
ghost use Rattle.segmentation.specs.Granted.{Runs, Covers};
ghost use Rattle.segmentation.specs.End.{end_of};
ghost use Rattle.free_list.specs.Offer.{offer_of};
ghost use Rattle.free_list.specs.Cut.{rest_of, stretch_of, list_cut, list_in, listed, whole_window};
ghost use Rattle.free_list.specs.Granted.{Inside, Ruled, none_chosen, end_in};

use place::Change;
use segmentation::{Edition, VolumeSegment};
use units::{Date, Interval, Offer, Volume};

pub mod place;
pub mod walk;

// Not one `List<T>` with bookings' list, nor with poly_seg's: C's records, and specs/ speak of each.
#[repr(C)]
#[derive(Clone, Copy)]
pub struct FreeList {
    pub segments: [VolumeSegment; FreeList::COUNT_MAX],
    // It stays beside the array: fixed memory, and the C interface, which has the record as words.
    pub count: usize,
}

impl FreeList {
    pub const COUNT_MAX: usize = Interval::LISTED_MAX;
}

// The listed segment that makes an offer, and the send interval.
#[derive(Clone, Copy, PartialEq, Eq)]
pub struct Fit {
    pub place: usize,
    pub send: Interval,
}

// What a dry run finds: its answer, and the place of the listed segment behind it, 0 on a refusal.
// It stays a record, with the number in its offer: the managers' public `chosen` answer with it.
#[repr(C)]
#[derive(Clone, Copy, PartialEq, Eq)]
pub struct Chosen {
    pub offer: Offer,
    pub place: usize,
}

// A cut's answer: 0 and the list that is left, or 10 and the list as it came; what it took off the listed volumes, and what it put in.
// It stays a record with a number: the public `FreeVolume::cut` answers with it, and its two promises (`cut_free`, `Changes`) speak of its parts.
#[repr(C)]
#[derive(Clone, Copy)]
pub struct Cut {
    pub number: u8,
    pub list: FreeList,
    pub off: Volume,
    pub on: Volume,
}

impl Chosen {
    // Any number and no `Refusal`: that would ask more of callers (`refused-unique`).
    pub fn refused(number: u8) -> Chosen
        ensures { result ≡ none_chosen number }
    {
        Chosen {
            offer: Offer::refused(number),
            place: 0,
        }
    }
}

// The end that a listed segment has for the bundle: none if it ends before the asked time or lists less than the size.
// Edition and rates stay two parameters here and below, as in segmentation's rules: a struct for four calls is no plainer.
pub fn end_in(
    edition: Edition,
    rates: &[VolumeSegment],
    g: VolumeSegment,
    asked: Date,
    size: Volume,
) -> Option<Date>
    requires sized { 0 < size.0 }
    requires covered { Covers g.start.0 rates.now }
    ensures { result ≡ end_in (end_of edition.0 rates.now) g asked.0 size.0 }
{
    if g.end < asked || g.volume < size {
        return None;
    }
    segmentation::find_end(edition, rates, units::later(g.start, asked), size, g.end)
}

// dry_run_tx: the first listed segment that has an end for the bundle. Not one function with poly_seg's `find_offer`: its line there.
pub fn find_offer(
    edition: Edition,
    rates: &[VolumeSegment],
    free: &[VolumeSegment],
    asked: Date,
    size: Volume,
) -> Option<Fit>
    requires sized { 0 < size.0 }
    requires ruled { Ruled rates.now free.now }
    ensures { result ≡ offer_of (end_of edition.0 rates.now) free.now asked.0 size.0 }
{
    for (place, g) in free.iter().enumerate() {
        let Some(end) = end_in(edition, rates, *g, asked, size) else {
            continue;
        };
        let start = units::later(g.start, asked);
        return Some(Fit {
            place,
            send: Interval { start, end },
        });
    }
    None
}

// A stretch of free time with its volume worked out anew.
// That the rates are few and in turn stays a clause here, in `rest` and in `cut`: a record's test shows it once, and a type would wrap the slice at each call.
pub fn stretch(rates: &[VolumeSegment], start: Date, end: Date) -> VolumeSegment
    requires few { length rates.now ≤ segments_max }
    requires in_turn { Runs rates.now }
    ensures { result ≡ stretch_of rates.now start.0 end.0 }
{
    let volume = segmentation::volume_between(rates, start, end);
    VolumeSegment { start, end, volume }
}

// A booking at the segment's start: it begins at the send end, with the size less, or with its volume worked out anew in edition 2.
pub fn rest(
    edition: Edition,
    rates: &[VolumeSegment],
    g: VolumeSegment,
    end: Date,
    size: Volume,
) -> VolumeSegment
    requires few { length rates.now ≤ segments_max }
    requires in_turn { Runs rates.now }
    requires held { size.0 ≤ g.volume.0 }
    ensures { result ≡ rest_of edition.0 rates.now g end.0 size.0 }
{
    if edition.0 == Edition::SECOND {
        return stretch(rates, end, g.end);
    }
    VolumeSegment {
        start: end,
        end: g.end,
        volume: Volume(g.volume.0 - size.0),
    }
}

// The room after a cut: off goes what it took, on comes what it put in. No struct of the two: `Cut` has them apart, and `Changes` speaks of them so.
pub fn changed(room: Volume, off: Volume, on: Volume) -> Volume
    requires { (off.0 ≤ room.0) × (room.0 - off.0 + on.0 < 2 ^ 64) }
    ensures { result.0 ≡ room.0 - off.0 + on.0 }
{
    Volume(room.0 - off.0 + on.0)
}

// A list with nothing in it. Not derived: an array of 64 has no Default, as in Rust.
impl Default for FreeList {
    ghost is_default = { λ r. r ≡ list_in [] };

    #[tactic(auto, unfolding(units::specs::Arrays::padded))]
    fn default() -> FreeList {
        FreeList {
            segments: [VolumeSegment::default(); FreeList::COUNT_MAX],
            count: 0,
        }
    }
}

impl FreeList {
    // A list of the whole window, with a volume.
    #[tactic(auto, unfolding(units::specs::Arrays::padded))]
    pub fn whole(window: Interval, total: Volume) -> FreeList
        ensures { result ≡ list_in (whole_window window total.0 ∷ []) }
    {
        let mut list = FreeList::default();
        list.segments[0] = VolumeSegment {
            start: window.start,
            end: window.end,
            volume: total,
        };
        list.count = 1;
        list
    }

    // The listed segments.
    pub fn listed(&self) -> &[VolumeSegment]
        requires { self.now.count ≤ listed_max }
        ensures { result.now ≡ listed self.now }
    {
        &self.segments[..self.count]
    }

    // schedule_tx: what a booking leaves of the list; 10, and the list as it came, where there is no room for one more.
    pub fn cut(
        mut self,
        edition: Edition,
        rates: &[VolumeSegment],
        place: usize,
        send: Interval,
        size: Volume,
    ) -> Cut
        requires few { length rates.now ≤ segments_max }
        requires in_turn { Runs rates.now }
        requires inside { Inside self place size.0 }
        ensures { result ≡ list_cut edition.0 rates.now self place send.start.0 send.end.0 size.0 }
    {
        let (segments, count) = (&mut self.segments, &mut self.count);
        match place::cut(segments, count, edition, rates, place, send, size) {
            Ok(Change { off, on }) => Cut {
                number: 0,
                list: self,
                off,
                on,
            },
            Err(refusal) => Cut {
                number: refusal.number(),
                list: self,
                off: Volume(0),
                on: Volume(0),
            },
        }
    }
}
