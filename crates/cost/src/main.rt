// Reads one message many times, for measuring: standard input has the count (3 octets, least first), the index of an octet of the message
// that changes with each turn, and the message. It prints the sum of the common parameters read.
#![tactic(auto)]

use input::read_full;
use reader::reading::read;
use std::io;

fn turns(m: &mut [u8], at: usize, count: u32) -> u64 {
    let mut sum = 0;
    for k in 0..count {
        if let Some(octet) = m.get_mut(at) {
            *octet = (k % 256) as u8;
        }
        sum = sum % 1000000000 + u64::from(read(m).record.commons);
    }
    sum
}

fn main(rt: HostRuntime) -> io::Result<()> {
    let mut input = [0u8; 276];
    let n = read_full(&mut rt.reader(), &mut input)?;
    let Some((heads, m)) = input[..n].split_first_chunk_mut::<4>() else {
        return Ok(());
    };
    let [low, middle, high, at] = *heads;
    let count = u32::from_le_bytes([low, middle, high, 0]);
    let sum = turns(m, usize::from(at), count);
    println!(rt; "{sum}")
}
