// Directions of vectors.
ghost use Rattle.std.specs.Prelude.{◌≡◌, Decides};
ghost use Rattle.outline.specs.Directions.{direction, opposite, Opposite, same_axis, SameAxis};

// `None` stays a variant: it is skrifa's and FreeType's name, and lies on one axis with itself alone.
#[derive(Debug, Clone, Copy, PartialEq, Eq, Default)]
pub enum Direction {
    #[default]
    None,
    Right,
    Left,
    Up,
    Down,
}

// A vector has a direction where its longer arm is more than this many times the shorter.
const ARM_RATIO: u64 = 14;

impl Direction {
    // The side of a vector's longer arm; None where the arms do not differ enough.
    pub fn new(dx: i32, dy: i32) -> Self
        ensures { result ≡ direction dx dy }
    {
        let width = dx.unsigned_abs();
        let height = dy.unsigned_abs();
        let (side, long_arm, short_arm) = if width > height {
            let side = if dx < 0 {
                Direction::Left
            } else {
                Direction::Right
            };
            (side, width, height)
        } else {
            let side = if dy < 0 {
                Direction::Down
            } else {
                Direction::Up
            };
            (side, height, width)
        };
        if long_arm as u64 <= ARM_RATIO * short_arm as u64 {
            Direction::None
        } else {
            side
        }
    }

    // Whether the two point opposite ways; None has no opposite.
    pub fn is_opposite(self, other: Self) -> bool
        ensures value { result ≡ opposite self other }
        ensures means { Decides result (Opposite self other) }
    {
        matches!(
            (self, other),
            (Self::Right, Self::Left)
                | (Self::Left, Self::Right)
                | (Self::Up, Self::Down)
                | (Self::Down, Self::Up)
        )
    }

    // Whether the two lie on one line; None lies on a line with None alone.
    pub fn is_same_axis(self, other: Self) -> bool
        ensures value { result ≡ same_axis self other }
        ensures means { Decides result (SameAxis self other) }
    {
        matches!(
            (self, other),
            (Self::Right | Self::Left, Self::Right | Self::Left)
                | (Self::Up | Self::Down, Self::Up | Self::Down)
                | (Self::None, Self::None)
        )
    }
}
