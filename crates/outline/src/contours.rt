// Where a contour's points stand among an outline's: from `first` up to, and without, `end`.
ghost use Rattle.std.specs.Prelude.{◌≡◌, ◌≤◌, length};
ghost use Rattle.std.specs.List.{between};

#[derive(Debug, Clone, Copy, PartialEq, Eq)]
pub struct Contour {
    pub first: usize,
    pub end: usize,
}

impl Contour {
    // Its part of a list that has one item for each point of the outline.
    pub fn slice<T>(self, points: &[T]) -> &[T]
        requires in_order { self.first ≤ self.end }
        requires inside { self.end ≤ length points.now }
        ensures { result.now ≡ between self.first self.end points.now }
    {
        &points[self.first..self.end]
    }
}
