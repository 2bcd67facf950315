// What stands at one place: an instruction that is shown, or a reason to stop before it.
ghost use Rattle.std.specs.Prelude.{◌≡◌, ◌+◌, ◌-◌, ◌≤◌, ◌<◌, length};
ghost use Rattle.image.specs.View.{stretches_in, view, cell_at};
ghost use Rattle.opcodes.specs.Lengths.{length_of};
ghost use Rattle.routine.specs.Step.{step_at};
ghost use Rattle.routine.specs.Direct.{short_to, page_to, long_to, row_by};

use crate::{Row, What, Why};
use image::is_apart;
use opcodes::{Leads, is_return, leads_of, length_of};

// An instruction that is shown, where the next one starts, and whether it is a return.
#[derive(Clone, Copy, Debug, PartialEq, Eq)]
pub struct Shown {
    pub row: Row,
    pub next: usize,
    pub last: bool,
}

// The target of a jump by a signed byte, from the address after the instruction on; the program counter has 16 bits.
fn short_target(next: usize, byte: u8) -> u64
    ensures { result ≡ short_to next byte }
{
    if byte < 128 {
        return (next as u64 % 65536 + u64::from(byte)) % 65536;
    }
    (next as u64 % 65536 + u64::from(byte) + 65280) % 65536
}

// The target of an AJMP or ACALL: five bits of the address after it, three of its opcode, and its second byte.
fn page_target(next: usize, opcode: u8, byte: u8) -> u64
    ensures { result ≡ page_to next opcode byte }
{
    next as u64 / 2048 % 32 * 2048 + 256 * u64::from(opcode / 32) + u64::from(byte)
}

// The target of an LJMP or LCALL that ends before `next`, high byte first.
fn long_target(image: &[u8], next: usize) -> u64
    requires { (2 ≤ next) × (next ≤ length image.now) }
    ensures { result ≡ long_to (cell_at image.now (next - 2)) (cell_at image.now (next - 1)) }
{
    256 * u64::from(image[next - 2]) + u64::from(image[next - 1])
}

// The row of an instruction that ends before `next`: the bytes of an address are always its last ones.
#[tactic(auto, using(crate::proofs::DirectLaws::long_jump, crate::proofs::DirectLaws::long_call))]
fn row_of(image: &[u8], at: usize, next: usize, opcode: u8) -> Row
    requires { (at + length_of opcode ≡ next) × (1 ≤ length_of opcode) × (next ≤ length image.now) }
    ensures { result ≡ row_by image.now at next opcode }
{
    let low = image[next - 1];
    let what = match leads_of(opcode) {
        Leads::Nowhere => What::Neither,
        Leads::PageJump => What::Jump(page_target(next, opcode, low)),
        Leads::PageCall => What::Call(page_target(next, opcode, low)),
        Leads::LongJump => What::Jump(long_target(image, next)),
        Leads::LongCall => What::Call(long_target(image, next)),
        Leads::ShortJump | Leads::LaterJump => What::Jump(short_target(next, low)),
    };
    Row {
        address: at as u64,
        what,
    }
}

// What stands at a place. An opcode that is withheld is said before anything is asked of it; of the other bytes the
// image's end is asked before what is withheld.
#[tactic(auto, using(crate::proofs::StepLaws::answers))]
pub fn step_at(image: &[u8], s: &[u64], at: usize) -> Result<Shown, Why>
    ensures { result ≡ step_at (view image.now (stretches_in s.now)) at }
{
    if image.len() <= at {
        return Err(Why::End);
    }
    if !is_apart(s, at, 1) {
        return Err(Why::Withheld);
    }
    let opcode = image[at];
    let len = usize::from(length_of(opcode));
    if len == 0 {
        return Err(Why::Reserved);
    }
    if image.len() - at < len {
        return Err(Why::End);
    }
    if !is_apart(s, at, len) {
        return Err(Why::Withheld);
    }
    let next = at + len;
    Ok(Shown {
        row: row_of(image, at, next, opcode),
        next,
        last: is_return(opcode),
    })
}
