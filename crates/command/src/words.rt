// The words of the command line, told by their numbers; word 0 is the program's own name.
ghost use Rattle.std.specs.Prelude.{◌≡◌, length};
ghost use Rattle.system.specs.Counts.{IsPrefixLen};
ghost use Rattle.command.specs.Words.{too_long};

use std::env::Env;

// No word is longer.
const LONGEST: usize = 4096;

// Room for a word of which the last byte is one too many, so that a longer word is known by its length.
pub fn room() -> [u8; 4097]
    ensures { 4097 ≡ length result }
{
    [0u8; 4097]
}

// Puts word i into the room and answers how many bytes of the room are the word; a word that is too long fills the room.
pub fn read_word(rt: &impl Env, i: usize, room: &mut [u8]) -> usize
    ensures { IsPrefixLen result room.new }
{
    match rt.arg(i, room) {
        Ok(n) => n,
        Err(_) => room.len(),
    }
}

pub fn is_too_long(word: &[u8]) -> bool
    ensures { result ≡ too_long word.now }
{
    LONGEST < word.len()
}
