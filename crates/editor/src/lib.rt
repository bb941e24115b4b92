// Editing in place: a transfer parameter of the message in a buffer's first n octets is replaced, appended or removed. Each step is
// accepted before the next one runs, and nothing is written before the last.
#![tactic(auto)]

mod steps;

ghost use Rattle.annex.specs.Editing.Edit.{Replacing, Appending, Removing};
ghost use Rattle.annex.specs.Promises.{EditPromise};
ghost use Rattle.editor.specs.Steps.{edit_of, Brings};
ghost use Rattle.editor.specs.Splicing.{Placed, SplicePromise};

use annex::{Answer, Common, Refusal, Transfer};
use octets::splice;
use reader::finding::common_by_length;
use reader::verdict::verdict;
use steps::{Kind, contents_answer, head_answer, no_spot, spot_in};

// The last step: 14, then 15, or new in the place of the transfer data's octets from its own index from to before to. The transfer data
// stands from index start to before end of the buffer, C5's length octet right before it. (Each stretch as its two ends, which is what the
// searches give; a struct that one caller fills would be no plainer.)
fn splice_in(
    buffer: &mut [u8],
    n: usize,
    start: usize,
    end: usize,
    from: usize,
    to: usize,
    new: &[u8],
) -> Answer
    requires { Placed buffer.old n start end from to }
    ensures { SplicePromise buffer.old n start end from to new.now result buffer.new }
{
    let old = to - from;
    let was = end - start;
    let length = was - old + new.len();
    if Transfer::MOST_OCTETS < length {
        return Err(Refusal(Refusal::TRANSFER_OVER, 0));
    }
    if !splice(buffer, n, start + from, old, new) {
        return Err(Refusal(Refusal::NO_ROOM, 0));
    }
    buffer[start - 1] = (length % 256) as u8; // modulo 256, as the definition stores it
    Ok(n - old + new.len())
}

// The edit of this kind that brings new; a removal brings nothing.
fn edit(buffer: &mut [u8], n: usize, kind: Kind, new: &[u8]) -> Answer
    requires { Brings kind new.now }
    ensures { EditPromise (edit_of kind new.now) buffer.old n result buffer.new }
{
    if buffer.len() < n {
        return Err(Refusal(Refusal::NO_ROOM, 0));
    }
    verdict(&buffer[..n])?;
    let Some((start, end)) = common_by_length(&buffer[..n], Common::TRANSFER_DATA) else {
        return Err(Refusal(Refusal::ABSENT, 0));
    };
    head_answer(kind, new)?;
    let Some((from, to)) = spot_in(&buffer[start..end], kind, new) else {
        return Err(Refusal(no_spot(kind), 0));
    };
    contents_answer(new)?;
    splice_in(buffer, n, start, end, from, to, new)
}

// Replaces that one of the transfer parameters with the name of new, counted from 0.
pub fn replace(buffer: &mut [u8], n: usize, new: &[u8], which: usize) -> Answer
    ensures { EditPromise (Replacing new.now which) buffer.old n result buffer.new }
{
    edit(buffer, n, Kind::Replacing(which), new)
}

// Puts a transfer parameter behind the others in C5.
pub fn append(buffer: &mut [u8], n: usize, new: &[u8]) -> Answer
    ensures { EditPromise (Appending new.now) buffer.old n result buffer.new }
{
    edit(buffer, n, Kind::Appending, new)
}

// Removes that one of the transfer parameters with this name, counted from 0.
pub fn remove(buffer: &mut [u8], n: usize, name: u8, which: usize) -> Answer
    ensures { EditPromise (Removing name which) buffer.old n result buffer.new }
{
    edit(buffer, n, Kind::Removing(name, which), b"")
}
