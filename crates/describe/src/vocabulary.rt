// The words of descriptions, in lists that are tried in order.
ghost use Rattle.std.specs.Prelude.{◌≡◌};
ghost use Rattle.describe.specs.Describe.{one_of, front, signs, types, operations, moves, memories, into};
ghost use Rattle.describe.specs.Described.{words_of, said_by};

use crate::words::{Taken, Word};

// What all such names begin with; it says nothing.
const FRONT: &[u8] = b"?C?";

// Signs, which may be missing.
const SIGN_WORDS: [Word; 2] = [
    Word {
        letters: b"S",
        says: b"signed ",
    },
    Word {
        letters: b"U",
        says: b"unsigned ",
    },
];

// Types of data. L0 stands before L, with which it begins.
const KIND_WORDS: [Word; 6] = [
    Word {
        letters: b"C",
        says: b"char (8-bit) ",
    },
    Word {
        letters: b"I",
        says: b"int (16-bit) ",
    },
    Word {
        letters: b"P",
        says: b"general pointer ",
    },
    Word {
        letters: b"L0",
        says: b"long (r3-r0) ",
    },
    Word {
        letters: b"L",
        says: b"long (32-bit) ",
    },
    Word {
        letters: b"FP",
        says: b"float ",
    },
];

// Operations.
const OPERATION_WORDS: [Word; 12] = [
    Word {
        letters: b"ADD",
        says: b"addition",
    },
    Word {
        letters: b"SUB",
        says: b"subtraction",
    },
    Word {
        letters: b"MUL",
        says: b"multiply",
    },
    Word {
        letters: b"DIV",
        says: b"division",
    },
    Word {
        letters: b"CMP",
        says: b"compare",
    },
    Word {
        letters: b"AND",
        says: b"bitwise and",
    },
    Word {
        letters: b"OR",
        says: b"bitwise or",
    },
    Word {
        letters: b"XOR",
        says: b"bitwise xor",
    },
    Word {
        letters: b"NEG",
        says: b"negation",
    },
    Word {
        letters: b"NOT",
        says: b"logical not",
    },
    Word {
        letters: b"SHL",
        says: b"shift left",
    },
    Word {
        letters: b"SHR",
        says: b"shift right",
    },
];

// Moves: loads and stores. LD stands before LDI, so that LDI is never taken, as in at51.
const MOVE_WORDS: [Word; 5] = [
    Word {
        letters: b"LD",
        says: b"load from ",
    },
    Word {
        letters: b"LDI",
        says: b"post-increment load from ",
    },
    Word {
        letters: b"ILD",
        says: b"pre-increment load from ",
    },
    Word {
        letters: b"STK",
        says: b"constant store to ",
    },
    Word {
        letters: b"ST",
        says: b"store to ",
    },
];

// Memories that a move loads from or stores to.
const MEMORY_WORDS: [Word; 6] = [
    Word {
        letters: b"XDATA",
        says: b"xdata",
    },
    Word {
        letters: b"PDATA",
        says: b"pdata (external ram)",
    },
    Word {
        letters: b"IDATA",
        says: b"idata (indirect ram access)",
    },
    Word {
        letters: b"CODE",
        says: b"code space",
    },
    Word {
        letters: b"OPTR",
        says: b"general pointer with offset",
    },
    Word {
        letters: b"PTR",
        says: b"general pointer",
    },
];

// The registers that a move loads into, which may be missing.
const INTO_WORDS: [Word; 1] = [Word {
    letters: b"0",
    says: b" into r3-r0",
}];

// Takes the first word of a list with which the name begins.
pub fn one_of<'a>(name: &'a [u8], words: &[Word]) -> Option<Taken<'a>>
    ensures { said_by result ≡ one_of (words_of words.now) name.now }
{
    for word in words {
        if let Some(rest) = name.strip_prefix(word.letters) {
            let says = word.says;
            return Some(Taken { says, rest });
        }
    }
    None
}

// Takes what all such names begin with off the name. It is the one word of its list, and most names lack it: they are passed by
// without a look through a list.
pub fn front(name: &[u8]) -> Option<Taken>
    ensures { said_by result ≡ one_of front name.now }
{
    let Some(rest) = name.strip_prefix(FRONT) else {
        return None;
    };
    Some(Taken { says: b"", rest })
}

// Takes a sign off the name.
pub fn sign(name: &[u8]) -> Option<Taken>
    ensures { said_by result ≡ one_of signs name.now }
{
    one_of(name, &SIGN_WORDS)
}

// Takes a type of data off the name.
pub fn kind(name: &[u8]) -> Option<Taken>
    ensures { said_by result ≡ one_of types name.now }
{
    one_of(name, &KIND_WORDS)
}

// Takes an operation off the name.
pub fn operation(name: &[u8]) -> Option<Taken>
    ensures { said_by result ≡ one_of operations name.now }
{
    one_of(name, &OPERATION_WORDS)
}

// Takes a move off the name.
pub fn movement(name: &[u8]) -> Option<Taken>
    ensures { said_by result ≡ one_of moves name.now }
{
    one_of(name, &MOVE_WORDS)
}

// Takes a memory off the name.
pub fn memory(name: &[u8]) -> Option<Taken>
    ensures { said_by result ≡ one_of memories name.now }
{
    one_of(name, &MEMORY_WORDS)
}

// Takes the registers that a move loads into off the name.
pub fn registers(name: &[u8]) -> Option<Taken>
    ensures { said_by result ≡ one_of into name.now }
{
    one_of(name, &INTO_WORDS)
}
