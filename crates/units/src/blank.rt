// The places of a record's list that hold nothing.
ghost use Rattle.std.specs.Prelude.{◌≡◌, Bool, eqb};
ghost use Rattle.units.specs.Logic.{all_of};

use crate::Volume;

// What stands at a place of a record's list.
pub trait Place: Copy {
    ghost blank: { Self → Bool };

    // Is nothing there?
    fn is_blank(self) -> bool
        ensures { result ≡ blank self };
}

impl Place for Volume {
    ghost blank = { λ v. eqb v.0 0 };

    fn is_blank(self) -> bool {
        self == Volume::default()
    }
}

// Is nothing at any of these places?
pub fn unused<T: Place>(places: &[T]) -> bool
    ensures { result ≡ all_of T.blank places.now }
{
    for place in places {
        if !place.is_blank() {
            return false;
        }
    }
    true
}
