// One parameter by the length rule.
ghost use Rattle.annex.specs.Promises.{Gives};
ghost use Rattle.annex.specs.Walking.{stretch_at};

use annex::{Extent, Found};
use octets::octet_at;
use units::{lead, octets_after};

// Where the contents of the parameter start and end whose header stands at i, if its PLI says e: nowhere where it is cut, or where the
// octets end before i.
#[tactic(auto, unfolding(annex::specs::Walking::stretch_at))]
pub fn stretch_at(t: &[u8], i: usize, e: Extent) -> Found
    ensures { Gives (stretch_at t.now i e) result }
{
    if t.len() <= i {
        return None;
    }
    let from = i + 1;
    let n = octets_after(e, octet_at(t, from));
    if t.len() - from < n {
        return None;
    }
    Some((from + lead(e), from + n))
}
