// The second pass: control points, points inside a line, spikes and flat corners turn weak.
ghost use Rattle.std.specs.Prelude.{◌≡◌, ◌<◌, length, slice_index_or};
ghost use Rattle.walk.specs.Marks.{blank};
ghost use Rattle.analysis.specs.Passes.{judged_directed, judged_corner, judged, applied, checked_at, checked};

use crate::bends::is_undirected;
use crate::chains::Chain;
use outline::{CornerRule, Direction, PointKind};

// What the pass makes of a point.
#[derive(Clone, Copy)]
pub enum Verdict {
    Keep,
    Weaken,
    Bypass,
}

fn judge_directed(in_dir: Direction, out_dir: Direction) -> Verdict
    ensures { result ≡ judged_directed in_dir out_dir }
{
    if in_dir == out_dir || in_dir.is_opposite(out_dir) {
        Verdict::Weaken
    } else {
        Verdict::Keep
    }
}

impl Chain<'_> {
    fn judge_corner<R: CornerRule>(&self, rule: &R, i: usize) -> Verdict
        requires { i < length self.now.points.now }
        ensures { result ≡ judged_corner (R.flat rule.now) self.now.points.now i (slice_index_or self.now.marks.now i blank) }
    {
        let (came, goes) = self.vectors(i);
        if rule.is_flat(came.dx, came.dy, goes.dx, goes.dy) {
            Verdict::Bypass
        } else {
            Verdict::Keep
        }
    }

    fn judge<R: CornerRule>(&self, rule: &R, i: usize) -> Verdict
        requires { i < length self.now.points.now }
        ensures { result ≡ judged (R.flat rule.now) self.now.points.now i (slice_index_or self.now.marks.now i blank) }
    {
        let mark = self.marks[i];
        if mark.weak {
            Verdict::Keep
        } else if self.points[i].kind != PointKind::OnCurve {
            Verdict::Weaken
        } else if is_undirected(mark) {
            self.judge_corner(rule, i)
        } else {
            judge_directed(mark.in_dir, mark.out_dir)
        }
    }

    fn apply_verdict(&mut self, verdict: Verdict, i: usize)
        requires { i < length self.old.points.now }
        ensures marks { self.new.marks.now ≡ applied verdict i (slice_index_or self.old.marks.now i blank) self.old.marks.now }
        ensures points { self.new.points.now ≡ self.old.points.now }
    {
        match verdict {
            Verdict::Keep => {}
            Verdict::Weaken => {
                self.marks[i].weak = true;
            }
            Verdict::Bypass => self.bypass(i),
        }
    }

    fn check_at<R: CornerRule>(&mut self, rule: &R, i: usize)
        requires { i < length self.old.points.now }
        ensures marks { self.new.marks.now ≡ checked_at (R.flat rule.now) self.old.points.now i self.old.marks.now }
        ensures points { self.new.points.now ≡ self.old.points.now }
    {
        let verdict = self.judge(rule, i);
        self.apply_verdict(verdict, i);
    }

    pub fn check_remaining_weak_points<R: CornerRule>(&mut self, rule: &R)
        ensures marks { self.new.marks.now ≡ checked (R.flat rule.now) self.old.points.now self.old.marks.now }
        ensures points { self.new.points.now ≡ self.old.points.now }
    {
        // by index: a step writes the marks of a point's neighbours too
        for i in 0..self.points.len() {
            self.check_at(rule, i);
        }
    }
}
