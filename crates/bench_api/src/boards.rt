// A sheet with the table that it is read into: both are made once and used again.
use crate::digests::Digest;
use crate::exports::Move;
use drawing::EditFault;
use reading::ReadFault;
use segments::{Dimension, Segment, TABLE_LEN};
use sheet::Sheet;
use std::alloc::{AllocError, Global};
use unscaled::{CornerCode, Header, RecordPoints};

#[derive(Drop)]
pub struct Board {
    sheet: Sheet<CornerCode>,
    table: Vec<Segment>,
}

// What an edit adds to a sum: what it answers, or the number of its refusal. The exported calls answer one number.
fn summand(done: Result<usize, EditFault>) -> u64 {
    match done {
        Ok(count) => count as u64,
        Err(fault) => u64::from(fault.number()),
    }
}

impl Board {
    pub fn new(heap: Global, header: Header) -> Result<Board, AllocError> {
        let sheet = Sheet::new(heap, header.settings, header.corner)?;
        let table = vec![in heap; Segment::blank(); TABLE_LEN]?;
        Ok(Board { sheet, table })
    }

    fn place(&mut self, record: &[u8]) -> Result<usize, EditFault> {
        self.sheet.clear();
        self.sheet.place(&RecordPoints::of_record(record))?;
        Ok(self.sheet.point_count())
    }

    // The record's points in the place of what was drawn: how many there are.
    pub fn draw(&mut self, record: &[u8]) -> u64 {
        summand(self.place(record))
    }

    // Whether the record can be placed and read along both axes.
    pub fn accepts(&mut self, record: &[u8]) -> bool {
        self.place(record).is_ok()
            && self
                .sheet
                .read(Dimension::Horizontal, &mut self.table)
                .is_ok()
            && self
                .sheet
                .read(Dimension::Vertical, &mut self.table)
                .is_ok()
    }

    pub fn move_point(&mut self, step: &Move) -> u64 {
        let contour = step.contour as usize;
        let point = step.point as usize;
        let done = self.sheet.move_point(contour, point, step.x, step.y);
        summand(done.map(|()| 1))
    }

    // How many segments an axis has, and the last one's score, added.
    fn read(&mut self, dim: Dimension) -> Result<u64, ReadFault> {
        let count = self.sheet.read(dim, &mut self.table)?;
        let last = self.table.as_slice()[..count].last();
        Ok(last.map_or(0, |segment| count as u64 + segment.score as u64))
    }

    // 0 for an axis that is refused: the exported calls answer one number.
    pub fn read_both(&mut self) -> u64 {
        let across = self.read(Dimension::Horizontal).unwrap_or(0);
        across.wrapping_add(self.read(Dimension::Vertical).unwrap_or(0))
    }

    // Of what a reading answers, and of every segment.
    fn digest_axis(&mut self, dim: Dimension, so_far: Digest) -> Digest {
        match self.sheet.read(dim, &mut self.table) {
            Ok(count) => self.table.as_slice()[..count]
                .iter()
                .fold(so_far.number(count as u64), |digest, segment| {
                    digest.segment(segment)
                }),
            Err(fault) => so_far.number(u64::from(fault.number())),
        }
    }

    // Of every point's record, the orientation, and every segment of both axes.
    pub fn digest(&mut self) -> Digest {
        let begun = Digest::new().orientation(self.sheet.orientation());
        let points = self.sheet.points().iter();
        let digest = points.fold(begun, |digest, point| digest.point(point));
        let digest = self.digest_axis(Dimension::Horizontal, digest);
        self.digest_axis(Dimension::Vertical, digest)
    }
}
