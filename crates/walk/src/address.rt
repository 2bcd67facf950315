// The address at which the walk starts, as it is written on the command line.
use command::mistake::Mistake;
use command::values::number_value;
use command::words;
use std::env::Env;

// Word i as an address: decimal, or hexadecimal behind 0x.
pub fn read_address(rt: &impl Env, i: usize) -> Result<usize, Mistake> {
    let mut room = words::room();
    let n = words::read_word(rt, i, &mut room);
    let at = number_value(&room[..n], i)?;
    Ok(at as usize)
}
