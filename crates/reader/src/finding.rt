// Finding contents: reading's refusals first, then 16; what is found is a part of the caller's own message.
ghost use Rattle.std.specs.Prelude.{◌≡◌};
ghost use Rattle.annex.specs.Finding.{find_answer, find_part, found_by, answer_told, part_told};
ghost use Rattle.annex.specs.Promises.{
  FindCommonPromise,
  FindCommonAnswerPromise,
  FindTransferPromise,
  FindTransferAnswerPromise,
  Gives,
};
ghost use Rattle.annex.specs.Walking.{is_sought, which_of, extent_by, search_in, contents_found, common_plain, transfer_plain, plain_by};

use super::verdict::verdict;
use annex::{Answer, Common, Extent, Found, Key, Refusal};
use octets::octet_at;
use units::{common_extent_of, extent_of, lead};
use walk::stretch::stretch_at;

// Whether a parameter with the header h is sought.
fn is_sought(k: Key, h: u8) -> bool
    ensures { result ≡ is_sought k h }
{
    match k {
        Key::Header(header) => h == header,
        Key::Name(name, _) => name == h % 64,
    }
}

// How many of those are to be passed over.
fn which_of(k: Key) -> usize
    ensures { result ≡ which_of k }
{
    match k {
        Key::Header(_) => 0,
        Key::Name(_, which) => which,
    }
}

// What the PLI of the header h says, among parameters of the kind sought.
fn extent_by(k: Key, h: u8) -> Extent
    ensures { result ≡ extent_by k h }
{
    match k {
        Key::Header(_) => common_extent_of(h),
        Key::Name(_, _) => extent_of(h),
    }
}

// The parameter sought among those that the length rule alone finds in t, octets of any kind: from its header to its end. No `for`, since
// each turn starts where the parameter before ends.
pub fn search_by_length(t: &[u8], k: Key) -> Found
    ensures { Gives (search_in k t.now) result }
{
    let mut left = which_of(k);
    let mut i = 0;
    loop {
        let h = octet_at(t, i);
        let (_, end) = stretch_at(t, i, extent_by(k, h))?;
        if is_sought(k, h) {
            if left == 0 {
                return Some((i, end));
            }
            left -= 1;
        }
        i = end;
    }
}

// The contents of that parameter.
fn contents(t: &[u8], k: Key) -> Found
    ensures { result ≡ contents_found k t.now }
{
    let (i, end) = search_by_length(t, k)?;
    let start = i + 1 + lead(extent_by(k, t[i]));
    Some((start, end))
}

// Where the contents of a common parameter stand by the length rule alone, in octets of any kind; the end mark has none to be found. In an
// accepted message this is where finding finds them.
pub fn common_by_length(m: &[u8], header: u8) -> Found
    ensures { Gives (common_plain header m.now) result }
{
    if header == Common::END_MARK {
        return None;
    }
    contents(m, Key::Header(header))
}

// The same of a transfer parameter, in the contents of the first C5.
pub fn transfer_by_length(m: &[u8], name: u8, which: usize) -> Found
    ensures { Gives (transfer_plain name which m.now) result }
{
    let (s, e) = contents(m, Key::Header(Common::TRANSFER_DATA))?;
    let (a, b) = contents(&m[s..e], Key::Name(name, which))?;
    Some((s + a, s + b))
}

// The same of the parameter sought.
fn found_by_length(m: &[u8], k: Key) -> Found
    ensures { result ≡ plain_by k m.now }
{
    match k {
        Key::Header(header) => common_by_length(m, header),
        Key::Name(name, which) => transfer_by_length(m, name, which),
    }
}

// Both answers of one finding: reading's refusals, then 16, or where the contents stand of the parameter sought, and these.
pub fn find_both(m: &[u8], k: Key) -> Result<(usize, &[u8]), Refusal>
    ensures answer { Gives (find_answer m.now (found_by k m.now)) (answer_told result) }
    ensures part { Gives (find_part m.now (found_by k m.now)) (part_told result) }
{
    verdict(m)?;
    let Some((start, end)) = found_by_length(m, k) else {
        return Err(Refusal(Refusal::ABSENT, 0));
    };
    Ok((start, &m[start..end]))
}

// The part of the message that they are, the empty part if refused.
fn part(m: &[u8], k: Key) -> &[u8]
    ensures { result.now ≡ find_part m.now (found_by k m.now) }
{
    match find_both(m, k) {
        Ok((_, contents)) => contents,
        Err(_) => &m[..0],
    }
}

// The second question: where they start.
fn place(m: &[u8], k: Key) -> Answer
    ensures { result ≡ find_answer m.now (found_by k m.now) }
{
    let (start, _) = find_both(m, k)?;
    Ok(start)
}

// Four functions and no generic one over what is sought: document 01 names each, and each has its promise.

// The contents of the common parameter with this header, the empty part if refused.
pub fn find_common(m: &[u8], header: u8) -> &[u8]
    ensures { FindCommonPromise m.now header result.now }
{
    part(m, Key::Header(header))
}

// The second question: accepted, with where those contents start, or number and place.
pub fn find_common_answer(m: &[u8], header: u8) -> Answer
    ensures { FindCommonAnswerPromise m.now header result }
{
    place(m, Key::Header(header))
}

// The contents of that one of the transfer parameters with this name, counted from 0; the empty part if refused.
pub fn find_transfer(m: &[u8], name: u8, which: usize) -> &[u8]
    ensures { FindTransferPromise m.now name which result.now }
{
    part(m, Key::Name(name, which))
}

// The second question: accepted, with where those contents start, or number and place.
pub fn find_transfer_answer(m: &[u8], name: u8, which: usize) -> Answer
    ensures { FindTransferAnswerPromise m.now name which result }
{
    place(m, Key::Name(name, which))
}
