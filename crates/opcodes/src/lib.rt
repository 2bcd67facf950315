// The instructions of an 8051 part by their opcodes: how long each is, and where those that name an
// address lead. The rules of both are in specs/.
#![tactic(auto)]

ghost use Rattle.std.specs.Prelude.{◌≡◌};
ghost use Rattle.opcodes.specs.Lengths.{length_of, is_return};
ghost use Rattle.opcodes.specs.Leads.{leads_of};

// How many bytes the instruction of each of the 256 opcodes has, sixteen in a line. A5h, which the
// manual reserves, has none. It is a static, since a constant array that is indexed would be written
// to the stack at every look.
static LENGTHS: [u8; 256] = *b"\x01\x02\x03\x01\x01\x02\x01\x01\x01\x01\x01\x01\x01\x01\x01\x01\
    \x03\x02\x03\x01\x01\x02\x01\x01\x01\x01\x01\x01\x01\x01\x01\x01\
    \x03\x02\x01\x01\x02\x02\x01\x01\x01\x01\x01\x01\x01\x01\x01\x01\
    \x03\x02\x01\x01\x02\x02\x01\x01\x01\x01\x01\x01\x01\x01\x01\x01\
    \x02\x02\x02\x03\x02\x02\x01\x01\x01\x01\x01\x01\x01\x01\x01\x01\
    \x02\x02\x02\x03\x02\x02\x01\x01\x01\x01\x01\x01\x01\x01\x01\x01\
    \x02\x02\x02\x03\x02\x02\x01\x01\x01\x01\x01\x01\x01\x01\x01\x01\
    \x02\x02\x02\x01\x02\x03\x02\x02\x02\x02\x02\x02\x02\x02\x02\x02\
    \x02\x02\x02\x01\x01\x03\x02\x02\x02\x02\x02\x02\x02\x02\x02\x02\
    \x03\x02\x02\x01\x02\x02\x01\x01\x01\x01\x01\x01\x01\x01\x01\x01\
    \x02\x02\x02\x01\x01\x00\x02\x02\x02\x02\x02\x02\x02\x02\x02\x02\
    \x02\x02\x02\x01\x03\x03\x03\x03\x03\x03\x03\x03\x03\x03\x03\x03\
    \x02\x02\x02\x01\x01\x02\x01\x01\x01\x01\x01\x01\x01\x01\x01\x01\
    \x02\x02\x02\x01\x01\x03\x01\x01\x02\x02\x02\x02\x02\x02\x02\x02\
    \x01\x02\x01\x01\x01\x02\x01\x01\x01\x01\x01\x01\x01\x01\x01\x01\
    \x01\x02\x01\x01\x01\x02\x01\x01\x01\x01\x01\x01\x01\x01\x01\x01";

// Where an instruction leads: nowhere that its bytes tell; AJMP, ACALL; LJMP, LCALL; or a jump by a signed byte, which
// stands behind the opcode, or behind one more byte.
#[derive(Clone, Copy, Debug, PartialEq, Eq)]
pub enum Leads {
    Nowhere,
    PageJump,
    PageCall,
    LongJump,
    LongCall,
    ShortJump,
    LaterJump,
}

// The length of the instruction with an opcode.
#[tactic(auto, using(crate::proofs::Table::length_at))]
pub fn length_of(opcode: u8) -> u8
    ensures { result ≡ length_of opcode }
{
    LENGTHS[opcode as usize]
}

// Where the instruction with an opcode leads.
#[tactic(auto, unfolding(crate::specs::Leads::leads_of, lent::specs::Lists::any))]
pub fn leads_of(opcode: u8) -> Leads
    ensures { result ≡ leads_of opcode }
{
    match opcode {
        0x01 | 0x21 | 0x41 | 0x61 | 0x81 | 0xa1 | 0xc1 | 0xe1 => Leads::PageJump,
        0x11 | 0x31 | 0x51 | 0x71 | 0x91 | 0xb1 | 0xd1 | 0xf1 => Leads::PageCall,
        0x02 => Leads::LongJump,
        0x12 => Leads::LongCall,
        0x40 | 0x50 | 0x60 | 0x70 | 0x80 | 0xd8..=0xdf => Leads::ShortJump,
        0x10 | 0x20 | 0x30 | 0xd5 | 0xb4..=0xbf => Leads::LaterJump,
        _ => Leads::Nowhere,
    }
}

// Whether it is RET or RETI.
pub fn is_return(opcode: u8) -> bool
    ensures { result ≡ is_return opcode }
{
    matches!(opcode, 0x22 | 0x32)
}
