// Making the records of a drawing.
ghost use Rattle.std.specs.Prelude.{◌≡◌, ◌<◌, ◌≤◌, [], length, IfOk, vec_len, vec_capacity};
ghost use Rattle.outline.specs.Units.{near_limit};
ghost use Rattle.analysis.specs.Outlines.{outline_records};
ghost use Rattle.drawing.specs.Books.{book};
ghost use Rattle.drawing.specs.Changes.{contour_replaced};

use super::Records;
use crate::drawings::Drawing;
use analysis::{Leg, Mark, analyze_span};
use outline::{CornerRule, MOST_POINTS, Point, Settings};
use std::alloc::{AllocError, Global};

impl Records {
    // No records, with room for all that may come.
    pub fn new(heap: Global) -> Result<Records, AllocError>
        ensures { IfOk result (λ x. x.points.items ≡ []) }
    {
        let points = Vec::with_capacity(heap, MOST_POINTS)?;
        let legs = vec![in heap; Leg::default(); MOST_POINTS]?;
        let marks = vec![in heap; Mark::default(); MOST_POINTS]?;
        Ok(Records {
            points,
            legs,
            marks,
        })
    }

    // The records of a drawing, in the place of what was held.
    pub fn analyze<R: CornerRule>(&mut self, rule: &R, settings: &Settings, drawing: &Drawing)
        ensures value { self.new.points.items ≡ outline_records (R.CornerRule.flat rule.now) (near_limit settings.now.units) 0 (book drawing.now) }
        ensures len { vec_len self.new.points ≡ vec_len drawing.now.points }
    {
        // there is room for them
        let _ = self.points.resize(drawing.point_count(), Point::default());
        drawing.analyze(
            rule,
            settings,
            &mut self.legs,
            &mut self.marks,
            &mut self.points,
        );
    }

    // The records of contour `k`, at its place among those that are held; the others stay.
    pub fn analyze_contour<R: CornerRule>(
        &mut self,
        rule: &R,
        settings: &Settings,
        drawing: &Drawing,
        k: usize,
    )
        requires there { k < length (book drawing.now) }
        requires counted { vec_len self.old.points ≡ vec_len drawing.now.points }
        ensures value { self.new.points.items ≡ contour_replaced (R.CornerRule.flat rule.now) (near_limit settings.now.units) (book drawing.now) k self.old.points.items }
        ensures len { vec_len self.new.points ≡ vec_len drawing.now.points }
    {
        analyze_span(
            rule,
            settings,
            drawing.points(),
            drawing.contour(k),
            &mut self.legs,
            &mut self.marks,
            &mut self.points,
        );
    }

    // No records, as of an empty drawing.
    pub fn clear(&mut self)
        ensures value { self.new.points.items ≡ [] }
        ensures len { vec_len self.new.points ≡ 0 }
    {
        self.points.clear();
    }

    pub fn points(&self) -> &[Point]
        ensures value { result.now ≡ self.now.points.items }
    {
        self.points.as_slice()
    }
}
