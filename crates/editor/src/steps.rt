// The steps of an edit between reading the message and the last: what the edit brings, by itself, and where in the transfer data it goes.
ghost use Rattle.std.specs.Prelude.{◌≡◌};
ghost use Rattle.annex.specs.Editing.{new_head};
ghost use Rattle.annex.specs.Promises.{Gives};
ghost use Rattle.annex.specs.Answers.{Accepted};
ghost use Rattle.editor.specs.Steps.{head_answer, spot_in, no_spot, contents_answer};

use annex::{Answer, Found, Key, Refusal};
use heads::{head_writing, often_of};
use octets::octet_at;
use parameter::contents::{at_header, contents_fault};
use reader::finding::search_by_length;
use units::{extent_of, lead, octets_after};

// The kinds of edit. One that removes is told the name, the others have it in the octets that they bring; one that replaces or removes is
// told which of those with the name, counted from 0. An enum and no closures: its cases are those of the definition (`Editing.Edit`).
#[derive(Clone, Copy)]
pub enum Kind {
    Replacing(usize),
    Appending,
    Removing(u8, usize),
}

// A new parameter's header: 11 if there is none, 8, 9.
fn new_head(new: &[u8]) -> Answer
    ensures { result ≡ new_head new.now (Accepted 0) }
{
    if new.len() == 0 {
        return Err(Refusal(Refusal::CUT_CONTENTS, 0));
    }
    head_writing(new[0])
}

// The header of what an edit brings; a removal brings nothing.
pub fn head_answer(kind: Kind, new: &[u8]) -> Answer
    ensures { Gives (head_answer kind new.now) result }
{
    match kind {
        Kind::Replacing(_) => new_head(new),
        Kind::Appending => new_head(new),
        Kind::Removing(_, _) => Ok(0),
    }
}

// The octets after that header: 11 if they are too few or some are left over, then what is wrong with the contents. Nothing brought is
// accepted.
pub fn contents_answer(new: &[u8]) -> Answer
    ensures { Gives (contents_answer new.now) result }
{
    if new.len() == 0 {
        return Ok(0);
    }
    let header = new[0];
    let e = extent_of(header);
    let n = octets_after(e, octet_at(new, 1));
    if new.len() - 1 != n {
        return Err(Refusal(Refusal::CUT_CONTENTS, 0));
    }
    let start = 1 + lead(e);
    let f = contents_fault(header, &new[start..]);
    at_header(f, 0)
}

// Where in the transfer data t an edit is made: at the whole parameter that it is told; if it appends, at the end, unless the last of the
// name that may stand in t does.
pub fn spot_in(t: &[u8], kind: Kind, new: &[u8]) -> Found
    ensures { Gives (spot_in kind new.now t.now) result }
{
    let name = octet_at(new, 0) % 64;
    match kind {
        Kind::Replacing(which) => search_by_length(t, Key::Name(name, which)),
        Kind::Appending => {
            let last = (often_of(name) - 1) as usize;
            let None = search_by_length(t, Key::Name(name, last)) else {
                return None;
            };
            let end = t.len();
            Some((end, end))
        }
        Kind::Removing(x, which) => search_by_length(t, Key::Name(x, which)),
    }
}

// The number of the refusal if it is nowhere: 10 if it appends, else 16.
pub fn no_spot(kind: Kind) -> u8
    ensures { Gives (no_spot kind) result }
{
    match kind {
        Kind::Replacing(_) => Refusal::ABSENT,
        Kind::Appending => Refusal::REPEATED_NAME,
        Kind::Removing(_, _) => Refusal::ABSENT,
    }
}
