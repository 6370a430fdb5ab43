// Examples of the card. In a crate of their own: a crate with tests is proved twice.
#![tactic(auto)]

#[cfg(test)]
mod tests {
    use card::{Card, card_line, refused_into, refused_text, stem_count};
    use outline::{Direction, Orientation};
    use segments::{Coordinate, Dimension, Position, Segment};
    use std::test::Fail;

    // One side of an upright stem from 100 to 200, or of a level one from 0 to 700.
    fn side(dir: Direction, pos: i16, min_coord: i16, max_coord: i16, link: u16) -> Segment {
        let upright = min_coord == 0;
        Segment {
            dir,
            pos: Position(pos),
            delta: 0,
            min_coord: Coordinate(min_coord),
            max_coord: Coordinate(max_coord),
            height: if upright { 700 } else { 100 },
            round: false,
            score: if upright { 104 } else { 729 },
            link: Some(link),
            serif: None,
            first: 0,
            last: 0,
        }
    }

    fn rest(dir: Direction) -> Segment {
        Segment {
            dir,
            pos: Position(-32768),
            delta: -1,
            min_coord: Coordinate(-32767),
            max_coord: Coordinate(32767),
            height: 65534,
            round: true,
            score: 32000,
            link: None,
            serif: Some(65535),
            first: 0,
            last: 0,
        }
    }

    const EMPTY: Card = Card {
        points: 0,
        contours: 0,
        orientation: None,
        horizontal: &[],
        vertical: &[],
    };

    #[test]
    fn shows_a_card(rt: HostRuntime) -> Result<(), Fail> {
        let horizontal = [
            side(Direction::Up, 200, 0, 700, 1),
            side(Direction::Down, 100, 0, 700, 0),
        ];
        let vertical = [
            side(Direction::Right, 0, 100, 200, 1),
            side(Direction::Left, 700, 100, 200, 0),
        ];
        let card = Card {
            points: 4,
            contours: 1,
            orientation: Some(Orientation::CounterClockwise),
            horizontal: &horizontal,
            vertical: &vertical,
        };
        let text = card.text(rt.alloc())?;
        assert!(rt;
            text.as_str()
                == "points 4 contours 1 area +\nH 0 up 200 0 0 700 700 - 104 1 -\nH 1 down 100 0 0 700 700 - 104 0 -\nV 0 right 0 0 100 200 100 - 729 1 -\nV 1 left 700 0 100 200 100 - 729 0 -\nstems 2\n"
        );
        Ok(())
    }

    #[test]
    fn shows_an_empty_card(rt: HostRuntime) -> Result<(), Fail> {
        let text = EMPTY.text(rt.alloc())?;
        assert!(rt; text.as_str() == "points 0 contours 0 area 0\nstems 0\n");
        Ok(())
    }

    #[test]
    fn shows_a_card_in_room(rt: HostRuntime) -> Result<(), Fail> {
        let text = EMPTY.text_into(String::new(rt.alloc()))?;
        assert!(rt; text.as_str() == "points 0 contours 0 area 0\nstems 0\n");
        Ok(())
    }

    #[test]
    fn shows_a_refusal(rt: HostRuntime) -> Result<(), Fail> {
        assert!(rt; refused_text(rt.alloc(), 17)?.as_str() == "refused 17\n");
        Ok(())
    }

    #[test]
    fn shows_a_refusal_in_room(rt: HostRuntime) -> Result<(), Fail> {
        let room = String::new(rt.alloc());
        assert!(rt; refused_into(room, 17)?.as_str() == "refused 17\n");
        Ok(())
    }

    #[test]
    fn writes_a_line(rt: HostRuntime) -> Result<(), Fail> {
        let mut buffer = [7u8; 100];
        let segment = rest(Direction::None);
        match card_line(&mut buffer, Dimension::Vertical, 65535, &segment) {
            Ok(len) => assert!(rt; len == 58),
            Err(_) => return Err(Fail::new("refused")),
        }
        assert!(rt;
            &buffer[0..58]
                == b"V 65535 none -32768 -1 -32767 32767 65534 r 32000 - 65535\n".as_slice()
        );
        assert!(rt; buffer[58] == 7 && buffer[99] == 7);
        Ok(())
    }

    #[test]
    fn refuses_a_short_buffer(rt: HostRuntime) -> Result<(), Fail> {
        let mut buffer = [7u8; 95];
        let segment = rest(Direction::Right);
        match card_line(&mut buffer, Dimension::Horizontal, 0, &segment) {
            Ok(_) => return Err(Fail::new("written")),
            Err(fault) => assert!(rt; fault.number() == 18),
        }
        assert!(rt; buffer[0] == 7 && buffer[94] == 7);
        Ok(())
    }

    // A link that is not returned is no stem, nor is one to itself or past the end.
    #[test]
    fn counts_pairs(rt: HostRuntime) {
        let table = [
            side(Direction::Up, 0, 0, 700, 2),
            side(Direction::Up, 0, 0, 700, 2),
            side(Direction::Down, 0, 0, 700, 0),
            side(Direction::Down, 0, 0, 700, 3),
            side(Direction::Down, 0, 0, 700, 9),
            rest(Direction::Down),
        ];
        assert!(rt; stem_count(&table) == 1);
    }
}
