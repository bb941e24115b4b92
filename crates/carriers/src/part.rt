// A part of a message.
ghost use Rattle.std.specs.Prelude.{take, drop};
ghost use Rattle.annex.specs.Promises.{Gives};

use octets::octets_from;

// So many octets from a place on, fewer where the message ends.
pub fn stretch_from(m: &[u8], start: usize, len: usize) -> &[u8]
    ensures { Gives (take len (drop start m.now)) result.now }
{
    let rest = octets_from(m, start);
    rest.get(..len).unwrap_or(rest)
}
