// Lists one raw message from standard input. One octet more than a message may have is read, so that a longer input is refused.
#![tactic(auto)]

use input::read_full;
use std::io;

fn main(rt: HostRuntime) -> io::Result<()> {
    let mut octets = [0u8; 273];
    let n = read_full(&mut rt.reader(), &mut octets)?;
    listing::list(&rt, &octets[..n]).1
}
