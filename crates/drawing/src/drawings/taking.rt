// Taking in a source's points.
ghost use Rattle.std.specs.Prelude.{◌≡◌, ℕ, ◌+◌, ◌-◌, ◌<◌, ◌≤◌, true, false, ◌||◌, [], ◌∷◌, ◌++◌, length, is_ok, IfOk, vec_len, ◌==◌, nat_le, nat_lt, slice_index_or};
ghost use Rattle.unscaled.specs.Entries.{past_count};
ghost use Rattle.unscaled.specs.Placements.{in_range};
ghost use Rattle.drawing.specs.Books.{book};
ghost use Rattle.drawing.specs.Placing.{admitted, lengthened, extended, entered, drawn_from, placed, with_contours};
ghost use Rattle.drawing.specs.Ranges.{is_inside};
ghost use Rattle.drawing.specs.declared.faults.EditFault.TheVariants.{TooManyContours};

use super::Drawing;
use crate::faults::EditFault;
use crate::limits::ContourLimit;
use outline::{Contour, DrawnPoint, LIMIT, MOST_CONTOURS, MOST_POINTS};
use std::alloc::{AllocError, Global};
use unscaled::{Source, UnscaledPoint};

// As a placement's test, which is of a wider sum.
fn is_within(c: i32) -> bool
    ensures { result ≡ in_range c }
{
    -LIMIT <= c && c <= LIMIT
}

// The point as a sheet holds it. No TryFrom: both types are other crates'.
pub fn admit(point: UnscaledPoint) -> Result<DrawnPoint, EditFault>
    ensures value { result ≡ admitted point }
    ensures inside { IfOk result (λ q. is_inside q ≡ true) }
{
    if !is_within(point.x) || !is_within(point.y) {
        return Err(EditFault::OutOfRange);
    }
    Ok(DrawnPoint {
        x: point.x as i16,
        y: point.y as i16,
        kind: point.kind,
    })
}

// Whether a point is the first of a contour, where `held` contours are there.
fn is_first(opens: bool, held: usize) -> bool
    ensures { result ≡ (opens || held == 0) }
{
    opens || held == 0
}

// Whether `count` points more are too many beside those that are held.
fn is_too_many(held: usize, count: usize) -> bool
    requires { held ≤ 2048 }
    ensures { result ≡ nat_lt 2048 (held + count) }
{
    count > MOST_POINTS - held
}

impl Drawing {
    // An empty drawing, with room for all that it may hold.
    pub fn new(heap: Global) -> Result<Drawing, AllocError>
        ensures { IfOk result (λ d. book d ≡ []) }
    {
        let points = Vec::with_capacity(heap, MOST_POINTS)?;
        let contours = Vec::with_capacity(heap, MOST_CONTOURS)?;
        Ok(Drawing { points, contours })
    }

    pub fn clear(&mut self)
        ensures book { book self.new ≡ [] }
        ensures points { vec_len self.new.points ≡ 0 }
        ensures contours { vec_len self.new.contours ≡ 0 }
    {
        self.points.clear();
        self.contours.clear();
    }

    // `is_inside` and the room stay clauses of these calls: a type of points within the range would narrow what is analysed.
    fn open_contour(&mut self, point: DrawnPoint)
        requires points { vec_len self.old.points < 2048 }
        requires contours { vec_len self.old.contours < 128 }
        requires inside { is_inside point ≡ true }
        ensures book { book self.new ≡ book self.old ++ (point ∷ []) ∷ [] }
        ensures points { vec_len self.new.points ≡ vec_len self.old.points + 1 }
        ensures contours { vec_len self.new.contours ≡ vec_len self.old.contours + 1 }
    {
        let at = self.points.len();
        self.contours.push_reserved(Contour {
            first: at,
            end: at + 1,
        });
        self.points.push_reserved(point);
    }

    fn lengthen_contour(&mut self, point: DrawnPoint)
        requires points { vec_len self.old.points < 2048 }
        requires contours { 0 < vec_len self.old.contours }
        requires inside { is_inside point ≡ true }
        ensures book { book self.new ≡ lengthened (book self.old) point }
        ensures points { vec_len self.new.points ≡ vec_len self.old.points + 1 }
        ensures contours { vec_len self.new.contours ≡ vec_len self.old.contours }
    {
        let end = self.points.len() + 1;
        let last = self.contours.len() - 1;
        let first = self.contours[last].first;
        self.contours[last] = Contour { first, end };
        self.points.push_reserved(point);
    }

    // Adds a point at the end: it opens a contour, or lengthens the last. Refused, it adds nothing.
    fn add_point(
        &mut self,
        point: DrawnPoint,
        opens: bool,
        limit: ContourLimit,
    ) -> Result<(), EditFault>
        requires room { vec_len self.old.points < 2048 }
        requires few { vec_len self.old.contours ≤ limit.most }
        requires inside { is_inside point ≡ true }
        ensures book { with_contours result (book self.new) ≡ extended limit.most limit.beyond (book self.old) opens point }
        ensures points { is_ok result ≡ true → vec_len self.new.points ≡ vec_len self.old.points + 1 }
        ensures contours { vec_len self.new.contours ≤ limit.most }
    {
        let held = self.contours.len();
        if !is_first(opens, held) {
            self.lengthen_contour(point);
            return Ok(());
        }
        if limit.is_reached(held) {
            return Err(limit.beyond);
        }
        self.open_contour(point);
        Ok(())
    }

    // Takes in the entry at `index`.
    fn take_entry<S: Source>(
        &mut self,
        source: &S,
        index: usize,
        limit: ContourLimit,
    ) -> Result<(), EditFault>
        requires room { vec_len self.old.points < 2048 }
        requires few { vec_len self.old.contours ≤ limit.most }
        ensures book { with_contours result (book self.new) ≡ entered limit.most limit.beyond (book self.old) (slice_index_or (S.Source.list source.now) index (past_count (S.Source.placed source.now) index)) }
        ensures points { is_ok result ≡ true → vec_len self.new.points ≡ vec_len self.old.points + 1 }
        ensures contours { vec_len self.new.contours ≤ limit.most }
    {
        let point = source.entry(index)?;
        let drawn = admit(point)?;
        self.add_point(drawn, point.is_contour_start, limit)
    }

    // Takes in all entries of a source, in order, in the place of what was drawn.
    fn take_all<S: Source>(&mut self, source: &S, limit: ContourLimit) -> Result<(), EditFault>
        requires few { length (S.Source.list source.now) ≤ 2048 }
        ensures book { with_contours result (book self.new) ≡ drawn_from limit.most limit.beyond [] (S.Source.list source.now) }
        ensures points { is_ok result ≡ true → vec_len self.new.points ≡ length (S.Source.list source.now) }
        ensures contours { vec_len self.new.contours ≤ limit.most }
    {
        self.clear();
        // by index: a source tells one entry at a time, and lends no list to go over
        for i in 0..source.count() {
            self.take_entry(source, i, limit)?;
        }
        Ok(())
    }

    // Draws a source's contours in the place of what was drawn: as many as the limit lets it, and at most 2,048 points
    // with the `held` ones of a sheet. Refused, the drawing is of no use.
    pub fn take<S: Source>(
        &mut self,
        source: &S,
        held: usize,
        limit: ContourLimit,
    ) -> Result<(), EditFault>
        requires held { held ≤ 2048 }
        ensures book { with_contours result (book self.new) ≡ placed held limit.most limit.beyond (S.Source.list source.now) }
        ensures points { is_ok result ≡ true → held + vec_len self.new.points ≤ 2048 }
        ensures contours { is_ok result ≡ true → vec_len self.new.contours ≤ limit.most }
    {
        let count = source.count();
        if count == 0 {
            return Err(EditFault::NoPoints);
        }
        if is_too_many(held, count) {
            return Err(EditFault::TooManyPoints);
        }
        self.take_all(source, limit)
    }

    // Draws a source's contours in the place of what was drawn, as on an empty sheet; refused, it leaves an empty drawing.
    pub fn draw<S: Source>(&mut self, source: &S) -> Result<(), EditFault>
        ensures book { with_contours result (book self.new) ≡ placed 0 128 TooManyContours (S.Source.list source.now) }
        ensures refused { is_ok result ≡ false → book self.new ≡ [] }
    {
        let drawn = self.take(source, 0, ContourLimit::beside(0));
        if drawn.is_err() {
            self.clear();
        }
        drawn
    }
}
