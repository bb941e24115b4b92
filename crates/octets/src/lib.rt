// Octets of a slice, also past its end; copying, moving and clearing within lent octets. Where a request does not fit, nothing is
// written and the answer is false.
#![tactic(auto)]

ghost use Rattle.std.specs.Prelude.{◌≡◌, ◌+◌, ◌≤◌, leb, length, get_or, drop};
ghost use Rattle.annex.specs.Promises.{Gives, Keeps};
ghost use Rattle.annex.specs.Memory.{put, spliced, copying, splicing};
ghost use Rattle.octets.specs.Splice.{Fitting};

// The octet at i, and 0 past the end.
pub fn octet_at(octets: &[u8], i: usize) -> u8
    ensures { Gives (get_or octets.now i 0) result }
{
    octets.get(i).copied().unwrap_or(0)
}

// The octets from i on, none past the end: a part of s on each input.
pub fn octets_from(s: &[u8], i: usize) -> &[u8]
    ensures { Gives (drop i s.now) result.now }
{
    &s[i.min(s.len())..]
}

// Whether k octets from index at on lie within len octets; at + k may be over 64 bits.
pub fn lies_within(len: usize, at: usize, k: usize) -> bool
    ensures { Gives (leb (at + k) len) result }
{
    at <= len && k <= len - at
}

// Writes s over d from index at on.
// A loop, since the library's copy_from_slice between two lent slices calls memmove, and the archive may call memcpy and memset alone (the
// C header).
fn copy_fitting(d: &mut [u8], at: usize, s: &[u8])
    requires { at + length s.now ≤ length d.old }
    ensures { d.new ≡ put d.old at s.now }
{
    for i in 0..s.len() {
        d[at + i] = s[i];
    }
}

// Writes s over d from index at on.
pub fn copy_in(d: &mut [u8], at: usize, s: &[u8]) -> bool
    ensures { Keeps (copying d.old at s.now) result d.new }
{
    let fits = lies_within(d.len(), at, s.len());
    if fits {
        copy_fitting(d, at, s);
    }
    fits
}

// Replaces octets of the message in the first n octets of d: the tail is moved unless it keeps its place, the new octets are written, and
// what the message left is cleared.
fn splice_fitting(d: &mut [u8], n: usize, from: usize, old: usize, new: &[u8])
    requires { Fitting d.old n from old new.now }
    ensures { d.new ≡ spliced d.old n from old new.now }
{
    let tail = from + old;
    let to = from + new.len();
    let end = to + (n - tail);
    if to != tail {
        d.copy_within(tail..n, to);
    }
    copy_fitting(d, from, new);
    d[end..end.max(n)].fill(0);
}

// Replaces the old octets from index from on of the message in the first n octets of d by new. Octets from the new end to the old are set
// to 0.
pub fn splice(d: &mut [u8], n: usize, from: usize, old: usize, new: &[u8]) -> bool
    ensures { Keeps (splicing d.old n from old new.now) result d.new }
{
    let fits = lies_within(n, from, old)
        && n <= d.len()
        && lies_within(d.len(), n - old, new.len());
    if fits {
        splice_fitting(d, n, from, old, new);
    }
    fits
}
