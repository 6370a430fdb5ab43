// The points of a call, as they are stored: a record's bytes in hexadecimal digits, or a table of
// numbers; and the placements over them, the lowest first.
use anyhow::anyhow;
use outline::PointKind;
use std::alloc::Global;
use std::str::FromStr;
use telling::from_hex;
use unscaled::{Placement, UnscaledPoint};

// Stands for no points at all.
const NO_POINTS: &str = "-";

#[derive(Drop)]
pub enum StoredPoints {
    Record(Vec<u8>),
    Table(Vec<UnscaledPoint>),
}

#[derive(Clone, Copy)]
pub struct Offset {
    pub dx: i32,
    pub dy: i32,
}

impl FromStr for Offset {
    type Err = anyhow::Error;

    fn from_str(text: &str) -> anyhow::Result<Offset> {
        let Some((dx, dy)) = text.split_once(',') else {
            return Err(anyhow!("a placement has two numbers"));
        };
        Ok(Offset {
            dx: dx.parse()?,
            dy: dy.parse()?,
        })
    }
}

impl Offset {
    // A placement by this over what is below.
    pub fn over<S>(self, below: S) -> Placement<S> {
        Placement {
            below,
            dx: self.dx,
            dy: self.dy,
        }
    }
}

#[derive(Drop)]
pub struct StoredSource {
    pub points: StoredPoints,
    pub offsets: Vec<Offset>,
}

// A point of a table: x, y and the kind of a record, 0 to 3. By the kind's bits, since a greater one is no error here.
fn read_point(heap: Global, text: &str) -> anyhow::Result<UnscaledPoint> {
    let numbers: Vec<&str> = text.split(',').collect(heap)?;
    let [x, y, kind] = numbers.as_slice() else {
        return Err(anyhow!("a point has three numbers"));
    };
    let kind: u8 = kind.parse()?;
    Ok(UnscaledPoint {
        x: x.parse()?,
        y: y.parse()?,
        kind: if kind % 2 == 1 {
            PointKind::OnCurve
        } else {
            PointKind::Control
        },
        is_contour_start: kind >= 2,
    })
}

fn read_table(heap: Global, text: &str) -> anyhow::Result<Vec<UnscaledPoint>> {
    text.split(';')
        .map(|point| read_point(heap, point))
        .try_collect(heap)
}

fn read_points(heap: Global, form: &str, text: &str) -> anyhow::Result<StoredPoints> {
    match (form, text) {
        ("record", NO_POINTS) => Ok(StoredPoints::Record(Vec::new(heap))),
        ("record", digits) => Ok(StoredPoints::Record(from_hex(heap, digits.as_bytes())?)),
        ("table", NO_POINTS) => Ok(StoredPoints::Table(Vec::new(heap))),
        ("table", points) => Ok(StoredPoints::Table(read_table(heap, points)?)),
        _ => Err(anyhow!("points stand in a record or in a table")),
    }
}

pub fn read_source(heap: Global, words: &[&str]) -> anyhow::Result<StoredSource> {
    let [form, points, offsets @ ..] = words else {
        return Err(anyhow!("a source has a form and points"));
    };
    Ok(StoredSource {
        points: read_points(heap, form, points)?,
        offsets: offsets.iter().map(|word| word.parse()).try_collect(heap)?,
    })
}
