use crate::asking::{Refusal, point_at, settings_of};
use outline::PointKind;
use std::test::Fail;
use unscaled::{Placement, RecordPoints, SourceFault, UnscaledPoint};

// Three points: a start on the curve at (100, -2), a control at (16000, 0), and one of an unknown kind.
const RECORD: &[u8; 23] = b"\x01\x00\x14\x03\xE8\x00\x5A\x01\
    \x00\x64\xFF\xFE\x03\
    \x3E\x80\x00\x00\x00\
    \x00\x00\x00\x00\x04";

// The entry at the index under three placements, the middle one far to the right.
fn asked_under_three(index: usize) -> Result<UnscaledPoint, Refusal> {
    let source = Placement {
        below: Placement {
            below: Placement {
                below: RecordPoints::of_record(RECORD),
                dx: 10,
                dy: 20,
            },
            dx: 1000,
            dy: 0,
        },
        dx: -1,
        dy: -7,
    };
    point_at(&source, index)
}

fn fault_under_three(index: usize) -> Result<SourceFault, Fail> {
    match asked_under_three(index) {
        Err(Refusal::Source(fault)) => Ok(fault),
        _ => Err(Fail::new("no fault of the source")),
    }
}

#[test]
fn moves_a_point_three_times(rt: HostRuntime) -> Result<(), Fail> {
    let point = match asked_under_three(0) {
        Ok(point) => point,
        Err(_) => return Err(Fail::new("refused")),
    };
    assert!(rt; point.x == 1109 && point.y == 11 && point.is_contour_start);
    match point.kind {
        PointKind::OnCurve => Ok(()),
        PointKind::Control => Err(Fail::new("a control")),
    }
}

// The middle placement finds the fault, so that one stands above it.
#[test]
fn tells_a_point_moved_out(rt: HostRuntime) -> Result<(), Fail> {
    let fault = fault_under_three(1)?;
    assert!(rt; fault.number() == 8 && fault.index == 1 && fault.placements == 1);
    Ok(())
}

#[test]
fn tells_an_unknown_kind(rt: HostRuntime) -> Result<(), Fail> {
    let fault = fault_under_three(2)?;
    assert!(rt; fault.number() == 9 && fault.index == 2 && fault.placements == 3);
    Ok(())
}

#[test]
fn tells_an_index_past_the_count(rt: HostRuntime) -> Result<(), Fail> {
    let fault = fault_under_three(3)?;
    assert!(rt; fault.number() == 7 && fault.index == 3 && fault.placements == 3);
    Ok(())
}

#[test]
fn reads_a_header(rt: HostRuntime) -> Result<(), Fail> {
    match settings_of(RECORD) {
        Ok(settings) => {
            assert!(rt; settings.units() == 1000 && settings.width() == 90);
            Ok(())
        },
        Err(_) => Err(Fail::new("refused")),
    }
}

fn refused(bytes: &[u8]) -> u8 {
    match settings_of(bytes) {
        Err(Refusal::Record(fault)) => fault.number(),
        _ => 0,
    }
}

#[test]
fn refuses_a_record(rt: HostRuntime) {
    assert!(rt; refused(&[1, 0, 4, 3, 232, 0, 0]) == 3);
    assert!(rt; refused(&[2, 0, 9, 0, 0, 255, 255, 9]) == 4);
    assert!(rt; refused(&[1, 0, 6, 0, 0, 255, 255, 9]) == 5);
    assert!(rt; refused(&[1, 0, 6, 0, 0, 255, 255, 9, 0]) == 5);
    assert!(rt; refused(&[1, 0, 5, 0, 0, 255, 255, 2]) == 6);
    assert!(rt; refused(&[1, 0, 5, 0, 15, 255, 255, 1]) == 1);
    assert!(rt; refused(&[1, 0, 5, 0, 16, 64, 0, 1]) == 2);
    assert!(rt; refused(&[1, 0, 5, 0, 16, 63, 255, 1]) == 0);
}
