// Where the walk round a contour begins.
ghost use Rattle.std.specs.Prelude.{◌≡◌, ◌<◌, ◌&&◌, map, length};
ghost use Rattle.segments.specs.Measures.{seen, on_line};
ghost use Rattle.segments.specs.Starts.{IsLastOff, run_of, start_of};

use crate::measures::Dimension;
use outline::{Direction, Point};

// The last point that is not left along the axis line.
fn last_off(points: &[Point], dim: Dimension) -> Option<usize>
    ensures { IsLastOff dim points.now result }
{
    points.iter().rposition(|point| !dim.holds(point.out_dir))
}

// The earliest place from which on all points are left along the axis line.
fn last_run(points: &[Point], dim: Dimension) -> usize
    ensures { result ≡ run_of dim (map (seen dim) points.now) }
{
    last_off(points, dim).map_or(0, |at| at + 1)
}

// Whether the first point and its predecessor, the last one, are both left along the axis line.
fn is_inside_run(first: Direction, last: Direction, dim: Dimension) -> bool
    ensures { result ≡ (on_line dim first && on_line dim last) }
{
    dim.holds(first) && dim.holds(last)
}

// The place at which the walk begins.
pub fn find_start(points: &[Point], dim: Dimension) -> usize
    requires { 0 < length points.now }
    ensures value { result ≡ start_of dim (map (seen dim) points.now) }
    ensures within { result < length points.now }
{
    let last = points.len() - 1;
    if is_inside_run(points[0].out_dir, points[last].out_dir, dim) {
        last_run(points, dim)
    } else {
        0
    }
}
