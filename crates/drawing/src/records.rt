// The records of a drawing's points, with the room that the analysis works in.
ghost use Rattle.std.specs.Prelude.{◌≡◌, ◌≤◌, [], vec_items, vec_len, vec_capacity};

use outline::Point;
use walk::{Leg, Mark};

#[derive(Drop)]
pub struct Records {
    points: Vec<Point>,
    legs: Vec<Leg>,
    marks: Vec<Mark>,
    ghost points_room: { 2048 ≤ vec_capacity points },
    ghost legs_room: { vec_len legs ≡ 2048 },
    ghost marks_room: { vec_len marks ≡ 2048 },
}

pub mod analyzing;
