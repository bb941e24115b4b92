// The message of an image, with no struct between: one walk judges the parameters and lays them out in a draft.
#![tactic(auto)]

ghost use Rattle.std.specs.Prelude.{◌≡◌, ◌&&◌, [], ◌≤◌, ltb, length, set, take};
ghost use Rattle.annex.specs.Heads.{end_mark};
ghost use Rattle.annex.specs.Image.{items_front, parts_front};
ghost use Rattle.annex.specs.Promises.{ImageWritePromise};
ghost use Rattle.annex.specs.Walk.{unseen};
ghost use Rattle.annex.specs.Writing.{end_writing};
ghost use Rattle.image_writer.specs.Served.{answer_of, octets_of};
ghost use Rattle.image_writer.specs.Over.{Summed, over_by};
ghost use Rattle.image_writer.specs.Walked.{ItemsServed, DataServed, PartsServed};

use annex::{Answer, Common, Imaged, Message, Refusal, Transfer};
use common::laying::lay_head;
use common::seen::Seen;
use from_image::image_heads::{common_head, is_whole, transfer_head};
use layout::{contents_len, lay};
use octets::copy_in;
use refusing::{end_refusal, head_refusal, placed};

// Where accepted parameters end: the place behind them in the message, and how many octets of the image they take.
#[derive(Drop)]
struct Step {
    behind: usize,
    octets: usize,
}

// The octet stored at an index of the draft, where it has that.
fn store(draft: &mut [u8], at: usize, octet: u8)
    ensures { draft.new ≡ set draft.old at octet }
{
    if at < draft.len() {
        draft[at] = octet;
    }
}

// So many transfer parameters at the front of the octets, judged and laid out from index `start` of the draft on.
fn lay_items(s: &[u8], count: usize, start: usize, draft: &mut [u8]) -> Result<Step, Refusal>
    requires { (count ≤ 255) × (start ≤ 65536) }
    ensures served { ItemsServed unseen start 0 (take start draft.old) (items_front count s.now) (answer_of result)
        (octets_of result) draft.new }
    ensures within { octets_of result ≤ length s.now }
{
    let mut seen = Seen::none();
    let mut at = start;
    let mut i: usize = 0;
    for _ in 0..count {
        if !is_whole(&s[i..]) {
            return Err(Refusal(Refusal::OVER_LIMITS, 0));
        }
        let t = transfer_head(&s[i..]);
        let from = i + Imaged::TRANSFER_HEAD;
        let to = from + t.len as usize;
        let len = placed(lay(seen.times(t.header), t, &s[from..to], draft, at), at)?;
        seen.count(t.header);
        at += len;
        i = to;
    }
    Ok(Step {
        behind: at,
        octets: i,
    })
}

// C5 at index `at` of the draft, with so many transfer parameters at the front of the octets: these stand behind its length octet, which is
// known once they are laid out.
fn lay_data(s: &[u8], count: usize, at: usize, draft: &mut [u8]) -> Result<Step, Refusal>
    requires { (count ≤ 255) × (at ≤ 65280) }
    ensures served { DataServed at (take at draft.old) (items_front count s.now) (answer_of result) (octets_of result)
        draft.new }
    ensures within { octets_of result ≤ length s.now }
{
    let start = at + 2;
    let step = lay_items(s, count, start, draft)?;
    let len = step.behind - start;
    if Transfer::MOST_OCTETS < len {
        return Err(Refusal(Refusal::TRANSFER_OVER, at));
    }
    store(draft, at, Common::TRANSFER_DATA);
    store(draft, at + 1, len as u8);
    Ok(step)
}

// The end mark at index `at` of the draft, where 01 and 06 stood so many times: 6, or the message's length.
fn lay_end(class: u8, kind: u8, at: usize, draft: &mut [u8]) -> Answer
    requires { at ≤ 65536 }
    ensures told { result ≡ end_writing (ltb 0 class && ltb 0 kind) at }
    ensures put { draft.new ≡ set draft.old at end_mark }
{
    store(draft, at, Common::END_MARK);
    let len = placed(end_refusal(class, kind), at)?;
    Ok(at + len)
}

// So many common parameters at the front of the octets, judged and laid out from the draft's front on, and the end mark behind them.
fn lay_parts(s: &[u8], count: usize, draft: &mut [u8]) -> Result<Step, Refusal>
    requires { count ≤ 255 }
    ensures { PartsServed unseen 0 0 [] (parts_front count s.now) (answer_of result) (octets_of result) draft.new }
{
    let mut seen = Seen::none();
    let mut at: usize = 0;
    let mut i: usize = 0;
    for _ in 0..count {
        if s.len() - i < Imaged::COMMON_HEAD {
            return Err(Refusal(Refusal::OVER_LIMITS, 0));
        }
        let c = common_head(&s[i..]);
        let len = placed(head_refusal(seen.times(c.header), c), at)?;
        seen.count(c.header);
        i += Imaged::COMMON_HEAD;
        if c.header == Common::TRANSFER_DATA {
            let step = lay_data(&s[i..], c.transfers as usize, at, draft)?;
            at = step.behind;
            i += step.octets;
        } else {
            lay_head(c, draft, at);
            at += len;
        }
    }
    let class = seen.times(Common::USER_CLASS);
    let kind = seen.times(Common::SIGNAL_KIND);
    let behind = lay_end(class, kind, at, draft)?;
    Ok(Step { behind, octets: i })
}

// Transfer parameters of an image, summed up: how many, the octets of their contents laid out, and their octets in the image.
#[derive(Drop)]
struct Sum {
    transfers: usize,
    contents: usize,
    octets: usize,
}

// So many transfer parameters at the front; none where they are not whole.
fn items_sum(s: &[u8], count: usize) -> Option<Sum>
    requires { count ≤ 255 }
    ensures { Summed count s.now result }
{
    let mut contents: usize = 0;
    let mut i: usize = 0;
    for _ in 0..count {
        if !is_whole(&s[i..]) {
            return None;
        }
        let t = transfer_head(&s[i..]);
        let from = i + Imaged::TRANSFER_HEAD;
        let to = from + t.len as usize;
        contents += contents_len(t, &s[from..to]);
        i = to;
    }
    Some(Sum {
        transfers: count,
        contents,
        octets: i,
    })
}

// Whether the octets are no record of so many common parameters within the limits: cut, some left over, or over a limit.
fn is_over(s: &[u8], count: usize) -> bool
    requires { count ≤ 255 }
    ensures { result ≡ over_by (length s.now) (parts_front count s.now) }
{
    let mut transfers: usize = 0;
    let mut contents: usize = 0;
    let mut i: usize = 0;
    for _ in 0..count {
        if s.len() - i < Imaged::COMMON_HEAD {
            return true;
        }
        let c = common_head(&s[i..]);
        let from = i + Imaged::COMMON_HEAD;
        let Some(sum) = items_sum(&s[from..], c.transfers as usize) else {
            return true;
        };
        transfers += sum.transfers;
        contents += sum.contents;
        i = from + sum.octets;
    }
    i != s.len()
        || Common::MOST < count
        || Transfer::MOST < transfers
        || Transfer::MOST_OCTETS < contents
}

// Writes the message of an image at the front of the room: its length, or the first refusal, and then the room stays as it was. That the
// image is no whole record within the limits comes before all else; where no parameter is refused, the record is within them.
pub fn write_image(image: &[u8], room: &mut [u8]) -> Answer
    ensures { ImageWritePromise image.now room.old result room.new }
{
    let [count, s @ ..] = image else {
        return Err(Refusal(Refusal::OVER_LIMITS, 0));
    };
    let count = *count as usize;
    let mut draft = [0u8; Message::MOST_OCTETS];
    let step = match lay_parts(s, count, &mut draft) {
        Ok(step) => step,
        Err(_) if is_over(s, count) => return Err(Refusal(Refusal::OVER_LIMITS, 0)),
        Err(r) => return Err(r),
    };
    if step.octets != s.len() {
        return Err(Refusal(Refusal::OVER_LIMITS, 0));
    }
    let n = step.behind;
    if room.len() < n {
        return Err(Refusal(Refusal::NO_ROOM, 0));
    }
    copy_in(room, 0, &draft[..n]);
    Ok(n)
}
