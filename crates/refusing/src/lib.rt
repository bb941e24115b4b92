// What refuses a record: 1 first, then 2, 3, 5 and 8 to 14 in the reader's order, and 6 at the end, each at the place where its octets
// would stand.
#![tactic(auto)]

ghost use Rattle.std.specs.Prelude.{◌≡◌, ◌&&◌, [], ◌+◌, ◌≤◌, ltb, length};
ghost use Rattle.annex.specs.Answers.{placed_at};
ghost use Rattle.annex.specs.Promises.{Gives, RecordRefusalPromise};
ghost use Rattle.annex.specs.Items.{value_part};
ghost use Rattle.annex.specs.Layout.{layout_part};
ghost use Rattle.annex.specs.Allowed.{value_fits};
ghost use Rattle.annex.specs.Records.{raw_part, view};
ghost use Rattle.annex.specs.Walk.{unseen};
ghost use Rattle.annex.specs.Writing.{items_writing, data_writing, part_writing, end_writing, parts_writing};
ghost use Rattle.limits.specs.Along.{items_at, Within, Whole};

use annex::{Answer, Common, Record, Refusal, Transfer};
use common::call::is_call;
use common::form::{listed, value_allowed};
use common::seen::Seen;
use layout::refusal;
use limits::{items_at, over_limits};

// The same answer, a refusal told at the place p.
pub fn placed(a: Answer, p: usize) -> Answer
    ensures { Gives (placed_at p a) result }
{
    a.map_err(|Refusal(k, _)| Refusal(k, p))
}

// The n transfer parameters from index `first` of the array on, the header of the first of them at the place `start`: what refuses the
// first that is refused, or the place behind them. (q, first and n, which one more function hands on, in a struct would be no plainer.)
fn items_refusal(q: Record, first: usize, n: usize, start: usize) -> Answer
    requires { Within q (first + n) × (start ≤ 65536) }
    ensures { result ≡ items_writing unseen start (items_at q first n) }
{
    let mut seen = Seen::none();
    let mut at = start;
    for (t, values) in items_at(&q, first, n) {
        let len = placed(refusal(seen.times(t.header), t, values), at)?;
        seen.count(t.header);
        at += len;
    }
    Ok(at)
}

// C5, its header at the place `at`, its n transfer parameters from index `first` of the array on: their refusals, then 14, or the place
// behind it.
fn data_refusal(q: Record, first: usize, n: usize, at: usize) -> Answer
    requires { Within q (first + n) × (at ≤ 4096) }
    ensures { result ≡ data_writing at (items_at q first n) }
{
    let start = at + 2;
    let end = items_refusal(q, first, n, start)?;
    if Transfer::MOST_OCTETS < end - start {
        return Err(Refusal(Refusal::TRANSFER_OVER, at));
    }
    Ok(end)
}

// Whether the more-data mark of 04 has one bit, and a call number 24.
#[tactic(auto, unfolding(annex::specs::Allowed::value_fits))]
fn value_fits(c: Common) -> bool
    ensures { result ≡ value_fits (raw_part c []) }
{
    if c.header == Common::SEQUENCE {
        c.more_data <= 1
    } else {
        !is_call(c.header) || c.value < Common::CALL_NUMBER_BELOW
    }
}

// How many octets a common parameter with this header, any at all, is laid out to, its transfer parameters aside.
pub fn head_len(header: u8) -> usize
    ensures { Gives (length (layout_part (value_part header 0))) result }
{
    if is_call(header) { 4 } else { 2 }
}

// A common parameter, its transfer parameters aside, whose name stood so many times before: 2, 3, 5, a mark or number too large for its
// bits 12, at place 0, or accepted with how many octets it takes.
pub fn head_refusal(times: u8, c: Common) -> Answer
    ensures { Gives (part_writing times 0 (raw_part c [])) result }
{
    let header = c.header;
    if header == Common::END_MARK || !listed(header) {
        return Err(Refusal(Refusal::UNLISTED, 0));
    }
    if 0 < times {
        return Err(Refusal(Refusal::REPEATED, 0));
    }
    if !value_allowed(header, c.value) {
        return Err(Refusal(Refusal::NOT_ALLOWED, 0));
    }
    if !value_fits(c) {
        return Err(Refusal(Refusal::BAD_FORM, 0));
    }
    Ok(head_len(header))
}

// The end mark, where 01 and 06 stood so many times: 6 at place 0, or accepted with its one octet.
pub fn end_refusal(class: u8, kind: u8) -> Answer
    ensures { Gives (end_writing (ltb 0 class && ltb 0 kind) 0) result }
{
    if class == 0 || kind == 0 {
        return Err(Refusal(Refusal::MISSING, 0));
    }
    Ok(1)
}

// The same of the end mark at the place `at`: 6, or the place behind it.
fn ended(class: u8, kind: u8, at: usize) -> Answer
    requires { at ≤ 4096 }
    ensures { result ≡ end_writing (ltb 0 class && ltb 0 kind) at }
{
    let len = placed(end_refusal(class, kind), at)?;
    Ok(at + len)
}

// A record within its limits: the first refusal, or the message's length. It goes over the same parameters as the writer's put_parts, but a
// turn is told and gives something else, so one loop over a closure would be no plainer.
fn parts_refusal(q: Record) -> Answer
    requires { Whole q }
    ensures { result ≡ parts_writing unseen 0 (view q) }
{
    let mut seen = Seen::none();
    let mut at = 0;
    let mut first = 0;
    for c in &q.common[..q.commons as usize] {
        let len = placed(head_refusal(seen.times(c.header), *c), at)?;
        seen.count(c.header);
        if c.header != Common::TRANSFER_DATA {
            at += len;
            continue;
        }
        let count = c.transfers as usize;
        at = data_refusal(q, first, count, at)?;
        first += count;
    }
    ended(
        seen.times(Common::USER_CLASS),
        seen.times(Common::SIGNAL_KIND),
        at,
    )
}

// A record, room aside: the first refusal, or the message's length.
pub fn record_refusal(held: Record) -> Answer
    ensures { RecordRefusalPromise held result }
{
    if over_limits(held) {
        return Err(Refusal(Refusal::OVER_LIMITS, 0));
    }
    parts_refusal(held)
}
