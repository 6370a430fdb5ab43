// Drawings as sources of points: tables, records, and placements over any source.
#![tactic(auto)]

mod faults;
mod headers;
mod placements;
mod points;
mod records;
mod sources;
mod tables;

pub use faults::{FaultReason, SourceFault};
pub use headers::{CornerCode, Header, RecordFault};
pub use placements::Placement;
pub use points::UnscaledPoint;
pub use records::RecordPoints;
pub use sources::Source;
pub use tables::PointTable;
