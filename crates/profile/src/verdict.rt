// The profile's verdict of a message.
ghost use Rattle.annex.specs.Promises.{ProfileVerdictPromise};

use crate::keeping::keeps;
use annex::{Answer, Refusal};
use reader::verdict;

// All of reading's numbers first, then 20 at the end mark, the last octet of an accepted message.
pub fn profile_verdict(m: &[u8]) -> Answer
    ensures { ProfileVerdictPromise m.now result }
{
    let n = verdict::verdict(m)?;
    if !keeps(m) {
        return Err(Refusal(Refusal::PROFILE, n - 1));
    }
    Ok(n)
}
