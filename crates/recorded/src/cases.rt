// The cases of a file, one after another: a header, and then image and library, unless these are those of the case before. Zeros at the end of either are
// not stored.
use crate::header::{
    DEPTH_AT, LENT_AT, SETTINGS, SETTINGS_AT, SIZE, has_depth, has_scene, told_settings,
};
use crate::numbers::{eight_at, four_at};
use crate::show::say;
use lent::names::name;
use lent::part::Part;
use std::env::Env;
use std::fs::Files;
use std::io::Read;
use system::arguments::path_of;
use system::files;
use system::files::fill;
use system::standard_error::{StandardError, fail};

// How long image and library are.
#[derive(Clone, Copy, Debug, Default, PartialEq, Eq)]
pub struct Scene {
    pub image: usize,
    pub library: usize,
}

// That the file ends within a case.
#[derive(Clone, Copy, Debug, PartialEq, Eq)]
pub struct CutShort;

// Nothing says that a file ends, so the loop over its cases counts them; no file here has as many.
pub const LIMIT: u64 = 100000;

// Room for an image or a library; it is made here, so that the checker never writes it out.
pub fn room<const N: usize>() -> [u8; N] {
    [0; N]
}

// The bytes of a room that are an image or a library.
pub fn start(room: &[u8], len: usize) -> &[u8] {
    name(room, Part { at: 0, len })
}

// Opens the file of cases that word i of the command line names; none, and said so, where that fails.
pub fn open<R: Env + Files + StandardError>(rt: &R, i: usize) -> Option<R::File> {
    let mut path = [0u8; 4096];
    let n = match path_of(rt, i, &mut path) {
        Ok(n) => n,
        Err(e) => {
            fail(rt, b"a file of cases", e);
            return None;
        }
    };
    match files::open(rt, &path[..n]) {
        Ok(file) => Some(file),
        Err(e) => {
            fail(rt, &path[..n], e);
            None
        }
    }
}

// Whether a file starts with the word "runs" and the number of this version, 3; says so where it does not.
pub fn is_known(rt: &impl Print, file: &mut impl Read) -> bool {
    let mut start = [0u8; 8];
    let n = fill(file, &mut start).size;
    if n == 8 && eight_at(&start, 0) == 0x3_736e_7572 {
        return true;
    }
    another_version(rt);
    false
}

fn another_version(rt: &impl Print) {
    say(rt, b"the file of cases is of another version\n");
}

// Whether a file starts with this number of four bytes; says so where it does not.
pub fn begins_with(rt: &impl Print, file: &mut impl Read, wanted: u64) -> bool {
    let mut start = [0u8; 4];
    if fill(file, &mut start).size < 4 {
        say(rt, b"the file of cases is empty\n");
        return false;
    }
    if four_at(&start, 0) == wanted {
        return true;
    }
    another_version(rt);
    false
}

// Fills a part of a room.
fn fill_part(file: &mut impl Read, part: &mut [u8]) -> Result<(), CutShort> {
    if fill(file, part).size < part.len() {
        return Err(CutShort);
    }
    Ok(())
}

// Fills the front of a room with the stored bytes, and with zeros up to the size.
fn fill_up(
    file: &mut impl Read,
    room: &mut [u8],
    stored: usize,
    size: usize,
) -> Result<(), CutShort> {
    if size < stored || room.len() < size {
        return Err(CutShort);
    }
    room[stored..size].fill(0);
    fill_part(file, &mut room[..stored])
}

// The next image and library.
fn next_scene(
    file: &mut impl Read,
    image: &mut [u8],
    library: &mut [u8],
) -> Result<Scene, CutShort> {
    let mut sizes = [0u8; 16];
    fill_part(file, &mut sizes)?;
    let scene = Scene {
        image: four_at(&sizes, 4) as usize,
        library: four_at(&sizes, 12) as usize,
    };
    fill_up(file, image, four_at(&sizes, 0) as usize, scene.image)?;
    fill_up(file, library, four_at(&sizes, 8) as usize, scene.library)?;
    Ok(scene)
}

// The rest of a header: the settings that are told, a depth if one is told, and what stands behind all of them.
fn fill_header(file: &mut impl Read, header: &mut [u8; SIZE]) -> Result<(), CutShort> {
    let told = told_settings(header);
    if SETTINGS < told {
        return Err(CutShort);
    }
    fill_part(file, &mut header[SETTINGS_AT..SETTINGS_AT + told * 8])?;
    if has_depth(header) {
        fill_part(file, &mut header[DEPTH_AT..LENT_AT])?;
    }
    fill_part(file, &mut header[LENT_AT..])
}

// The next case, if there is one: its header, which is zeros before; image and library begin with what it is run on. A header
// that has no room for a case's counts as cut short.
pub fn next_case(
    file: &mut impl Read,
    header: &mut [u8],
    image: &mut [u8],
    library: &mut [u8],
    before: Scene,
) -> Result<Option<Scene>, CutShort> {
    let mut start = [0u8; SETTINGS_AT];
    match fill(file, &mut start).size {
        0 => return Ok(None),
        SETTINGS_AT => {}
        _ => return Err(CutShort),
    }
    let Some(header) = header.first_chunk_mut::<SIZE>() else {
        return Err(CutShort);
    };
    header[..SETTINGS_AT].copy_from_slice(&start);
    fill_header(file, header)?;
    if has_scene(header) {
        return Ok(Some(next_scene(file, image, library)?));
    }
    Ok(Some(before))
}
