// How many rows a listing has: reading's refusals first, then the room for them.
ghost use Rattle.std.specs.Prelude.{◌≡◌, length};
ghost use Rattle.annex.specs.Promises.{SpansCheckPromise};
ghost use Rattle.annex.specs.Spans.{rows_of};
ghost use Rattle.laws.specs.Rows.{Accepts};

use super::verdict::verdict;
use annex::{Answer, Refusal};
use walk::cursor::rows_in;

// The rows of an accepted message.
#[tactic(auto, using(walk::specs::Rows::rows_all, walk::specs::Rows::rows_few))]
fn count(m: &[u8]) -> usize
    requires { Accepts m.now }
    ensures { result ≡ length (rows_of m.now) }
{
    rows_in(m).count()
}

// The row count, or number and place: reading's, then 15 where there is room for fewer rows.
pub fn check(m: &[u8], room: usize) -> Answer
    ensures { SpansCheckPromise m.now room result }
{
    // a step taken apart by let .. else: the form that document 01 names for this place
    let answer = verdict(m);
    let Ok(_) = answer else {
        return answer;
    };
    let n = count(m);
    if room < n {
        return Err(Refusal(Refusal::NO_ROOM, 0));
    }
    Ok(n)
}
