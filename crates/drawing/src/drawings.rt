// What is drawn on a sheet: points, and where its contours lie among them.
ghost use Rattle.std.specs.Prelude.{◌≡◌, ◌≤◌, true, vec_len, vec_capacity};
ghost use Rattle.drawing.specs.Tilings.{tiles};
ghost use Rattle.drawing.specs.Ranges.{all_inside};

use outline::{Contour, DrawnPoint};

// At most 2,048 points within ±16,383, in at most 128 contours, which cover the points one after another.
// The room for them is reserved when the drawing is made, so that no later call wants memory.
#[derive(Drop)]
pub struct Drawing {
    points: Vec<DrawnPoint>,
    contours: Vec<Contour>,
    ghost few_points: { vec_len points ≤ 2048 },
    ghost few_contours: { vec_len contours ≤ 128 },
    ghost points_room: { 2048 ≤ vec_capacity points },
    ghost contours_room: { 128 ≤ vec_capacity contours },
    ghost tiled: { tiles 0 (vec_len points) contours.items ≡ true },
    ghost inside: { all_inside points.items ≡ true },
}

pub mod joining;
pub mod questions;
pub mod taking;
