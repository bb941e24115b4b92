// The verdict of a message: 1 first, then left to right, parameter by parameter.
ghost use Rattle.std.specs.Prelude.{◌≡◌, ◌&&◌, ◌+◌, ◌≤◌, ◌<◌, length};
ghost use Rattle.annex.specs.Heads.{most_octets};
ghost use Rattle.annex.specs.Answers.{place_of, shifted};
ghost use Rattle.annex.specs.Reading.{transfers_verdict, data_of, common_of, message_verdict};
ghost use Rattle.annex.specs.Promises.{VerdictPromise, Gives};

use annex::{Answer, Common, Message, Refusal};
use common::form::{common_form, end_mark};
use common::seen::Seen;
use parameter::transfer::transfer;

// An answer about a part that starts at s, told of the whole.
fn shift(a: Answer, s: usize) -> Answer
    requires { s + place_of a < 18446744073709551616 }
    ensures { result ≡ shifted s a }
{
    a.map_err(|Refusal(k, p)| Refusal(k, s + p))
}

// Transfer data: accepted with its length, or the first refusal, its place counted from the first octet of t. The place goes on by as many
// octets as the parameter takes, so no `for` counts it.
fn transfers(t: &[u8]) -> Answer
    ensures { Gives (transfers_verdict t.now) result }
{
    let mut seen = Seen::none();
    let mut i = 0;
    while i < t.len() {
        let header = t[i];
        let from = i + 1;
        let n = shift(transfer(seen.times(header), header, &t[from..]), i)?;
        seen.count(header);
        i = from + n;
    }
    Ok(i)
}

// C5, of whose octets after the header n are its own: the parameters behind the length octet.
fn transfer_data(n: usize, xs: &[u8]) -> Answer
    requires { (1 ≤ n) × (n ≤ length xs.now) × (length xs.now ≤ most_octets) }
    ensures { result ≡ data_of n xs.now }
{
    shift(transfers(&xs[1..n]), 2)?;
    Ok(n)
}

// A common parameter whose name stood so many times before. whole: 01 and 06 have been seen.
fn common(times: u8, whole: bool, header: u8, xs: &[u8]) -> Answer
    requires { length xs.now ≤ most_octets }
    ensures { result ≡ common_of times whole header xs.now }
{
    let n = common_form(times, header, xs)?;
    match header {
        Common::END_MARK => end_mark(whole, xs),
        Common::TRANSFER_DATA => transfer_data(n, xs),
        _ => Ok(n),
    }
}

// The parameters of a message, to the end mark, in the same way. A loop of its own: its step is told what stood of 01 and 06, and it ends
// with the end mark, so that one loop over a closure would be no plainer.
fn message(m: &[u8]) -> Answer
    requires { length m.now ≤ most_octets }
    ensures { result ≡ message_verdict m.now }
{
    let mut seen = Seen::none();
    let mut i = 0;
    while i < m.len() {
        let header = m[i];
        let from = i + 1;
        let whole = (0 < seen.times(Common::USER_CLASS)) & (0 < seen.times(Common::SIGNAL_KIND));
        let n = shift(common(seen.times(header), whole, header, &m[from..]), i)?;
        seen.count(header);
        i = from + n;
    }
    if 0 < seen.times(Common::END_MARK) {
        return Ok(i);
    }
    Err(Refusal(Refusal::CUT_SHORT, i))
}

// The verdict of a message: accepted with its length, or the first refusal.
pub fn verdict(m: &[u8]) -> Answer
    ensures { VerdictPromise m.now result }
{
    let n = m.len();
    if n == 0 || Message::MOST_OCTETS < n {
        return Err(Refusal(Refusal::OVER_LIMITS, 0));
    }
    message(m)
}
