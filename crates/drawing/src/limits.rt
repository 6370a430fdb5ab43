// How many contours may be drawn.
ghost use Rattle.std.specs.Prelude.{◌≡◌, ◌-◌, ◌≤◌, nat_le};
ghost use Rattle.drawing.specs.declared.faults.EditFault.TheVariants.{SecondContour, TooManyContours};

use crate::faults::EditFault;
use outline::MOST_CONTOURS;

// The most contours that a source may draw, and what refuses another.
#[derive(Clone, Copy)]
pub struct ContourLimit {
    pub(crate) most: usize,
    pub(crate) beyond: EditFault,
    ghost few: { most ≤ 128 },
}

impl ContourLimit {
    pub fn new(most: usize, beyond: EditFault) -> ContourLimit
        requires { most ≤ 128 }
        ensures most { result.most ≡ most }
        ensures beyond { result.beyond ≡ beyond }
    {
        ContourLimit { most, beyond }
    }

    // As many as fit beside the `held` ones of a sheet.
    pub fn beside(held: usize) -> ContourLimit
        requires { held ≤ 128 }
        ensures most { result.most ≡ 128 - held }
        ensures beyond { result.beyond ≡ TooManyContours }
    {
        ContourLimit::new(MOST_CONTOURS - held, EditFault::TooManyContours)
    }

    // One alone, in the place of another.
    pub fn one() -> ContourLimit
        ensures most { result.most ≡ 1 }
        ensures beyond { result.beyond ≡ SecondContour }
    {
        ContourLimit::new(1, EditFault::SecondContour)
    }

    // Whether no further contour may open beside `held` that are drawn.
    pub(crate) fn is_reached(self, held: usize) -> bool
        ensures { result ≡ nat_le self.most held }
    {
        held >= self.most
    }
}
