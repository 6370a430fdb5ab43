// A line for each value: what was drawn, each point's record, each segment as it was built, and what
// linking made of it.
use crate::words::{OrDash, kind_word, orientation_word};
use outline::{Direction, Orientation, Point, area_word};
use segments::{Dimension, Segment};
use std::fmt;

#[derive(Drop)]
pub struct SheetLine {
    pub points: usize,
    pub contours: usize,
    pub orientation: Option<Orientation>,
}

impl fmt::Display for SheetLine {
    fn fmt<W: fmt::Write>(&self, f: &mut fmt::Formatter<W>) -> fmt::Result {
        write!(f, "sheet points {} contours {}", self.points, self.contours)?;
        let name = orientation_word(self.orientation);
        let sign = area_word(self.orientation);
        write!(f, " orientation {name} area {sign}")
    }
}

#[derive(Drop)]
pub struct PointLine {
    pub index: usize,
    pub point: Point,
}

impl fmt::Display for PointLine {
    fn fmt<W: fmt::Write>(&self, f: &mut fmt::Formatter<W>) -> fmt::Result {
        let point = &self.point;
        let kind = kind_word(point.flags.kind);
        let near = OrDash(point.flags.near.then_some('N'));
        let weak = OrDash(point.flags.weak_interpolation.then_some('W'));
        write!(f, "P {} {} {} {kind}", self.index, point.x, point.y)?;
        write!(f, " {near}{weak} in {} out {}", point.in_dir, point.out_dir)?;
        write!(f, " next {} prev {}", point.next_ix, point.prev_ix)
    }
}

// How many segments an axis has, and its major direction.
#[derive(Drop)]
pub struct AnswerLine {
    pub dimension: Dimension,
    pub count: usize,
    pub major: Direction,
}

impl fmt::Display for AnswerLine {
    fn fmt<W: fmt::Write>(&self, f: &mut fmt::Formatter<W>) -> fmt::Result {
        write!(
            f,
            "{} answer ok {} major {}",
            self.dimension, self.count, self.major
        )
    }
}

#[derive(Drop)]
pub struct BuiltLine<'a> {
    pub dimension: Dimension,
    pub index: usize,
    pub segment: &'a Segment,
}

impl fmt::Display for BuiltLine<'_> {
    fn fmt<W: fmt::Write>(&self, f: &mut fmt::Formatter<W>) -> fmt::Result {
        let segment = self.segment;
        write!(f, "{} built {} {}", self.dimension, self.index, segment.dir)?;
        write!(f, " first {} last {}", segment.first, segment.last)?;
        write!(f, " pos {} delta {}", segment.pos.0, segment.delta)?;
        let min = segment.min_coord.0;
        let max = segment.max_coord.0;
        let height = segment.height;
        let round = OrDash(segment.round.then_some('r'));
        write!(f, " min {min} max {max} height {height} {round}")
    }
}

#[derive(Drop)]
pub struct LinkedLine<'a> {
    pub dimension: Dimension,
    pub index: usize,
    pub segment: &'a Segment,
}

impl fmt::Display for LinkedLine<'_> {
    fn fmt<W: fmt::Write>(&self, f: &mut fmt::Formatter<W>) -> fmt::Result {
        let segment = self.segment;
        write!(f, "{} linked {}", self.dimension, self.index)?;
        let link = OrDash(segment.link);
        let serif = OrDash(segment.serif);
        write!(f, " score {} link {link} serif {serif}", segment.score)
    }
}
