// The run: both files, what is lent, and what comes of it.
use crate::memory;
use crate::memory::{BOARD_ROOM, NOTED_NUMBERS, PLACED_NUMBERS};
use crate::print::print;
use banks::board::board;
use banks::entry::find_banks;
use command::file;
use command::file::load;
use command::library_room::{is_refused, taken};
use command::memory::{
    LINE_NUMBERS, PATTERN, REFERENCE_NUMBERS, SEGMENT_NUMBERS, SYMBOL_NUMBERS, filled,
};
use command::refusal_words::say_refused;
use lent::refusal::Refusal;
use run::Settings;
use std::env::Env;
use std::fs::Files;
use std::io;
use system::standard_error::StandardError;

fn find(
    rt: &(impl Print + StandardError),
    board: &[u8],
    library: &[u8],
    settings: Settings,
) -> io::Result<()> {
    let mut segments = filled::<u64, SEGMENT_NUMBERS>(0);
    let mut references = filled::<u64, REFERENCE_NUMBERS>(0);
    let mut symbols = filled::<u64, SYMBOL_NUMBERS>(0);
    let mut bytes = filled::<u8, PATTERN>(0);
    let mut masks = filled::<u8, PATTERN>(0);
    let mut placed = filled::<u64, PLACED_NUMBERS>(0);
    let mut noted = filled::<u64, NOTED_NUMBERS>(0);
    let mut lines = filled::<u64, LINE_NUMBERS>(0);
    let came = find_banks(
        board,
        library,
        settings,
        &mut segments,
        &mut references,
        &mut symbols,
        &mut bytes,
        &mut masks,
        &mut placed,
        &mut noted,
        &mut lines,
    );
    match came {
        Ok(found) => print(rt, library, &lines, found),
        Err(r) => {
            say_refused(rt, r, memory::lent());
            Ok(())
        }
    }
}

// Whether a file of this length is accepted as a board's.
fn is_board(size: usize) -> bool {
    board(size).is_ok()
}

fn find_on(
    rt: &(impl Print + StandardError),
    board: &[u8],
    library: &[u8],
    settings: Settings,
) -> io::Result<()> {
    if is_refused(
        library,
        is_board(board.len()),
        settings.edition,
        settings.depth,
    ) {
        say_refused(rt, Refusal::LibraryTooLong, memory::lent());
        return Ok(());
    }
    find(rt, board, taken(library), settings)
}

// Lists what stands of the library in each bank's view of the board; both files are told by the numbers of their words.
pub fn list_banks<R: Env + Files + Print + StandardError>(
    rt: &R,
    board: usize,
    library: usize,
    settings: Settings,
) -> io::Result<()> {
    let mut first = filled::<u8, BOARD_ROOM>(0);
    let Some(board) = load(rt, board, &mut first) else {
        return Ok(());
    };
    let mut second = file::room();
    let Some(library) = load(rt, library, &mut second) else {
        return Ok(());
    };
    find_on(rt, board, library, settings)
}
