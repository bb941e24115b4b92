// The limits of a record: its counts and lengths stay within its arrays, and its contents within 255 octets.
#![tactic(auto)]

ghost use Rattle.std.specs.Prelude.{◌≡◌, ◌≤◌, take};
ghost use Rattle.std.specs.Iterator.{YieldsFirstBy, item_count};
ghost use Rattle.annex.specs.Heads.{most_commons};
ghost use Rattle.annex.specs.Promises.{Gives};
ghost use Rattle.annex.specs.Allowed.{contents_sum};
ghost use Rattle.annex.specs.Writing.{struct_over};
ghost use Rattle.annex.specs.Records.{lengths_of, transfer_count, transfers_sum, commons_in, is_whole, held_from, held_at};
ghost use Rattle.limits.specs.Along.{items_at, Within};

use annex::{Common, Record, Transfer};
use layout::contents_len;

// How many transfer parameters a common parameter holds: only a C5 has any.
fn transfers_in(c: Common) -> u8
    ensures { result ≡ transfer_count c }
{
    if c.header == Common::TRANSFER_DATA {
        c.transfers
    } else {
        0
    }
}

// How many transfer parameters the common parameters hold together.
fn transfers_sum(q: Record) -> usize
    requires { q.commons ≤ most_commons }
    ensures { result ≡ transfers_sum (commons_in q) }
{
    q.common[..q.commons as usize]
        .iter()
        .map(|c| transfers_in(*c) as usize)
        .sum()
}

// How many values the first n heads of the array of transfer parameters have together, whatever the record's counts are; all of them where
// there are fewer than n.
pub fn values_before(q: Record, n: usize) -> usize
    ensures { Gives (lengths_of (take n q.transfer)) result }
{
    q.transfer.iter().take(n).map(|t| t.len as usize).sum()
}

// Transfer parameters, each with its values.
#[derive(Drop)]
pub struct Items<'a> {
    pub heads: &'a [Transfer],
    pub values: &'a [u8],
}

impl<'a> Iterator for Items<'a> {
    type Item = (Transfer, &'a [u8]);

    ghost next_gives = { YieldsFirstBy (λ x. (x.0, x.1.now)) (λ i. held_from i.heads.now i.values.now) };

    ghost remaining = { item_count (λ i. held_from i.heads.now i.values.now) };

    #[tactic(auto, using(crate::specs::Held::held_first, crate::specs::Held::held_none))]
    fn next(&mut self) -> Option<(Transfer, &'a [u8])> {
        let (t, heads) = self.heads.split_first()?;
        let n = (t.len as usize).min(self.values.len());
        let (own, values) = self.values.split_at(n);
        self.heads = heads;
        self.values = values;
        Some((*t, own))
    }
}

// The n transfer parameters from index `first` of the array on, or those of them that it has, whatever the record's counts are.
pub fn items_at(q: &Record, first: usize, n: usize) -> Items<'_>
    ensures { Gives (held_at q.now first n) (held_from result.heads.now result.values.now) }
{
    let heads = q.transfer.get(first..).unwrap_or(&[]);
    Items {
        heads: &heads[..n.min(heads.len())],
        values: q.values.get(values_before(*q, first)..).unwrap_or(&[]),
    }
}

// Whether the counts and lengths stay within the arrays.
fn is_whole(q: Record) -> bool
    ensures { result ≡ is_whole q }
{
    if Common::MOST < q.commons as usize {
        return false;
    }
    let n = transfers_sum(q);
    n <= Transfer::MOST && values_before(q, n) <= Transfer::MOST_VALUES
}

// How many octets the contents of the first n transfer parameters come to.
fn contents_sum(q: Record, n: usize) -> usize
    requires { Within q n }
    ensures { result ≡ contents_sum (items_at q 0 n) }
{
    items_at(&q, 0, n)
        .map(|(t, values)| contents_len(t, values))
        .sum()
}

// Whether the record is over its limits, in its counts and lengths or in its contents.
pub fn over_limits(q: Record) -> bool
    ensures { Gives (struct_over q) result }
{
    !is_whole(q) || Transfer::MOST_OCTETS < contents_sum(q, transfers_sum(q))
}
