// The terms that every layer shares: directions, points, contours, settings, corner rules.
#![tactic(auto)]

mod contours;
mod corners;
mod directions;
mod limits;
mod orientations;
mod points;
mod units;
mod words;

pub use contours::Contour;
pub use corners::{Aot, CornerRule, Jit};
pub use directions::Direction;
pub use limits::{LIMIT, MOST_CONTOURS, MOST_POINTS};
pub use orientations::Orientation;
pub use points::{DrawnPoint, Point, PointFlags, PointKind};
pub use units::Settings;
pub use units::checks::SettingsFault;
pub use words::area_word;
