// Examples of a record's card through a sheet, and of a sheet made of a drawing. In a crate of their own: a crate with tests is proved twice.
#![tactic(auto)]

#[cfg(test)]
mod tests {
    use drawing::Drawing;
    use outline::Jit;
    use record_card::CardRoom;
    use segments::{Dimension, Segment, TABLE_LEN};
    use sheet::Sheet;
    use std::test::Fail;
    use unscaled::{Header, RecordPoints};

    // The corners (100, 0), (200, 0), (200, 700) and (100, 700), 1,000 units, no stem width, the octagonal length.
    const RECTANGLE: &[u8; 28] = b"\x01\x00\x19\x03\xE8\x00\x00\x00\
        \x00\x64\x00\x00\x03\
        \x00\xC8\x00\x00\x01\
        \x00\xC8\x02\xBC\x01\
        \x00\x64\x02\xBC\x01";

    #[test]
    fn shows_a_card(rt: HostRuntime) -> Result<(), Fail> {
        let room = CardRoom::new(rt.alloc())?;
        assert!(rt;
            room.stem_card(RECTANGLE).as_str()
                == "points 4 contours 1 area +\nH 0 up 200 0 0 700 700 - 104 1 -\nH 1 down 100 0 0 700 700 - 104 0 -\nV 0 right 0 0 100 200 100 - 729 1 -\nV 1 left 700 0 100 200 100 - 729 0 -\nstems 2\n"
        );
        Ok(())
    }

    #[test]
    fn shows_a_refusal(rt: HostRuntime) -> Result<(), Fail> {
        let room = CardRoom::new(rt.alloc())?;
        assert!(rt; room.stem_card(b"\x01\x00").as_str() == "refused 3\n");
        Ok(())
    }

    // By a rule that is lent.
    #[test]
    fn reads_a_drawing(rt: HostRuntime) -> Result<(), Fail> {
        let heap = rt.alloc();
        let Ok(header) = Header::read(RECTANGLE) else {
            return Err(Fail::new("the header is refused"));
        };
        let mut drawing = Drawing::new(heap)?;
        assert!(rt; drawing.draw(&RecordPoints::of_record(RECTANGLE)).is_ok());
        let sheet = Sheet::from_drawing(heap, header.settings, &Jit, drawing)?;
        let mut table = vec![in heap; Segment::blank(); TABLE_LEN]?;
        assert!(rt; matches!(sheet.read(Dimension::Horizontal, &mut table), Ok(2)));
        assert!(rt; table[0].link == Some(1) && table[1].link == Some(0));
        Ok(())
    }
}
