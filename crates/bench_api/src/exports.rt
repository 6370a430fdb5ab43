// The exported calls. Each makes its own sheet, since none can cross; the driver asks for so many rounds that this
// does not count. What they answer is a sum over all rounds, for comparison; 0 where memory is wanting or the record
// has no header.
use crate::boards::Board;
use std::alloc::Global;
use unscaled::Header;

// A point of a contour, and where it is moved to.
#[repr(C)]
#[derive(Clone, Copy)]
pub struct Move {
    pub contour: u32,
    pub point: u32,
    pub x: i32,
    pub y: i32,
}

// A board with the settings and the corner rule of the record's header.
fn board_of(heap: Global, record: &[u8]) -> Option<Board> {
    let header = Header::read(record).ok()?;
    Board::new(heap, header).ok()
}

// The sum of what each round answers.
fn sum_of_rounds<F: FnMut() -> u64>(rounds: u32, mut round: F) -> u64
    requires { F.IsAlwaysCallable round }
{
    let mut sum = 0u64;
    for _ in 0..rounds {
        sum = sum.wrapping_add(round());
    }
    sum
}

// What the board answers, and both readings of it where they are asked for: `reads` is a flag of the C interface.
fn and_reads(board: &mut Board, answer: u64, reads: bool) -> u64 {
    if reads {
        answer.wrapping_add(board.read_both())
    } else {
        answer
    }
}

fn draw_records(board: &mut Board, records: &[u8], ends: &[usize], reads: bool) -> u64 {
    let mut sum = 0u64;
    // each record begins where the one before it ends: no pairs, since the first has none before it
    let mut start = 0;
    for end in ends {
        if let Some(record) = records.get(start..*end) {
            let drawn = board.draw(record);
            sum = sum.wrapping_add(and_reads(board, drawn, reads));
        }
        start = *end;
    }
    sum
}

fn make_moves(board: &mut Board, moves: &[Move], reads: bool) -> u64 {
    moves.iter().fold(0, |sum: u64, step| {
        let moved = board.move_point(step);
        sum.wrapping_add(and_reads(board, moved, reads))
    })
}

// Whether the record's points can be placed and read along both axes.
#[unsafe(no_mangle)]
pub extern "C" fn bench_accepts(heap: Global, record: &[u8]) -> bool {
    let Some(mut board) = board_of(heap, record) else {
        return false;
    };
    board.accepts(record)
}

// In each round, places each record on the cleared sheet and, if asked, reads both axes. The records stand one after
// another, each up to its end, and all have the settings and the corner rule of the first.
#[unsafe(no_mangle)]
pub extern "C" fn bench_records(
    heap: Global,
    records: &[u8],
    ends: &[usize],
    rounds: u32,
    reads: bool,
) -> u64 {
    let Some(record) = records.get(..ends.first().copied().unwrap_or(0)) else {
        return 0;
    };
    let Some(mut board) = board_of(heap, record) else {
        return 0;
    };
    sum_of_rounds(rounds, || draw_records(&mut board, records, ends, reads))
}

// Places the record; in each round, reads both axes.
#[unsafe(no_mangle)]
pub extern "C" fn bench_readings(heap: Global, record: &[u8], rounds: u32) -> u64 {
    let Some(mut board) = board_of(heap, record) else {
        return 0;
    };
    let drawn = board.draw(record);
    drawn.wrapping_add(sum_of_rounds(rounds, || board.read_both()))
}

// Places the record; in each round, makes each move and, if asked, reads both axes after it.
#[unsafe(no_mangle)]
pub extern "C" fn bench_moves(
    heap: Global,
    record: &[u8],
    moves: &[Move],
    rounds: u32,
    reads: bool,
) -> u64 {
    let Some(mut board) = board_of(heap, record) else {
        return 0;
    };
    let drawn = board.draw(record);
    drawn.wrapping_add(sum_of_rounds(rounds, || make_moves(&mut board, moves, reads)))
}

// The digest of all that the sheet tells once the record is placed and the moves are made.
#[unsafe(no_mangle)]
pub extern "C" fn bench_digest(heap: Global, record: &[u8], moves: &[Move]) -> u64 {
    let Some(mut board) = board_of(heap, record) else {
        return 0;
    };
    board.draw(record);
    make_moves(&mut board, moves, false);
    board.digest().value()
}
