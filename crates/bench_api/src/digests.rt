// A digest of all that a sheet tells, so that two programs can be seen to find the same. Variants count in their order.
use outline::{Orientation, Point};
use segments::Segment;

// FNV-1a, but a number at a time.
const BASIS: u64 = 0xcbf29ce484222325;

const PRIME: u64 = 0x100000001b3;

// What stands for an index that is not there.
const NO_INDEX: u64 = 65536;

#[derive(Clone, Copy)]
pub struct Digest(u64);

impl Digest {
    pub fn new() -> Digest {
        Digest(BASIS)
    }

    pub fn value(self) -> u64 {
        self.0
    }

    pub fn number(self, value: u64) -> Digest {
        Digest((self.0 ^ value).wrapping_mul(PRIME))
    }

    fn signed(self, value: i16) -> Digest {
        self.number((value as i32 + 32768) as u64)
    }

    fn index(self, index: Option<u16>) -> Digest {
        self.number(index.map_or(NO_INDEX, |i| i as u64))
    }

    // None counts as 0.
    pub fn orientation(self, way: Option<Orientation>) -> Digest {
        self.number(way.map_or(0, |way| way as u64 + 1))
    }

    pub fn point(self, point: &Point) -> Digest {
        self.signed(point.x)
            .signed(point.y)
            .number(point.flags.kind as u64)
            .number(point.flags.near as u64)
            .number(point.flags.weak_interpolation as u64)
            .number(point.in_dir as u64)
            .number(point.out_dir as u64)
            .number(point.next_ix as u64)
            .number(point.prev_ix as u64)
    }

    pub fn segment(self, segment: &Segment) -> Digest {
        self.number(segment.dir as u64)
            .signed(segment.pos.0)
            .signed(segment.delta)
            .signed(segment.min_coord.0)
            .signed(segment.max_coord.0)
            .number(segment.round as u64)
            .number(segment.score as u64)
            .index(segment.link)
            .index(segment.serif)
            .number(segment.first as u64)
            .number(segment.last as u64)
    }
}
