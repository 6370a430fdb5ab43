// The words in which values are told.
ghost use Rattle.std.specs.Prelude.{Some, codes};
ghost use Rattle.std.specs.Option.{option_map_or};

use outline::{Orientation, PointKind};
use std::fmt;

// A `match` here and below: these words are this text's alone, and Display would be taken for the type's own.
pub fn orientation_word(orientation: Option<Orientation>) -> &'static str {
    match orientation {
        Some(Orientation::CounterClockwise) => "CounterClockwise",
        Some(Orientation::Clockwise) => "Clockwise",
        None => "None",
    }
}

pub fn kind_word(kind: PointKind) -> &'static str {
    match kind {
        PointKind::Control => "off",
        PointKind::OnCurve => "on",
    }
}

// A value, or a dash where there is none.
#[derive(Drop)]
pub struct OrDash<T>(pub Option<T>);

impl<T: fmt::Display> fmt::Display for OrDash<T> {
    ghost output = { λ d. option_map_or T.output d.0 (Some (codes "-")) };

    fn fmt<W: fmt::Write>(&self, f: &mut fmt::Formatter<W>) -> fmt::Result {
        match &self.0 {
            Some(value) => write!(f, "{value}"),
            None => write!(f, "-"),
        }
    }
}
