// All the memory that a sheet can want, before it is known what the sheet is for.
ghost use Rattle.std.specs.Prelude.{◌≡◌, vec_len};

use drawing::{Drawing, Records};
use std::alloc::{AllocError, Global};

// Nothing is drawn in it.
#[derive(Drop)]
pub struct SheetRoom {
    pub(crate) drawing: Drawing,
    pub(crate) taken: Drawing,
    pub(crate) next: Drawing,
    pub(crate) records: Records,
    ghost no_points: { vec_len drawing.points ≡ 0 },
    ghost no_contours: { vec_len drawing.contours ≡ 0 },
    ghost no_records: { vec_len records.points ≡ 0 },
}

impl SheetRoom {
    pub fn new(heap: Global) -> Result<SheetRoom, AllocError> {
        let drawing = Drawing::new(heap)?;
        let taken = Drawing::new(heap)?;
        let next = Drawing::new(heap)?;
        let records = Records::new(heap)?;
        Ok(SheetRoom {
            drawing,
            taken,
            next,
            records,
        })
    }
}
