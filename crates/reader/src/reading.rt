// Reading a message to its record: the verdict, and where it is accepted the record, filled parameter by parameter.
ghost use Rattle.std.specs.Prelude.{◌≡◌, [], ◌+◌, ◌≤◌, ◌<◌, length};
ghost use Rattle.std.proofs.lemmas.List.Edits.{sets};
ghost use Rattle.annex.specs.Heads.{most_commons, most_values};
ghost use Rattle.annex.specs.Reading.{verdict_of, record_of};
ghost use Rattle.annex.specs.Answers.{Accepted};
ghost use Rattle.annex.specs.Items.{item_of};
ghost use Rattle.annex.specs.Opening.{part_head};
ghost use Rattle.annex.specs.Records.{head_of, pack};
ghost use Rattle.annex.specs.Promises.{ReadPromise, Gives};
ghost use Rattle.reader.specs.Filling.{items_from, items_under, unfilled, Room, filled_with, common_with};

use super::verdict::verdict;
use annex::{Common, Reading, Record, Transfer};
use common::call::{call_value, is_call};
use octets::octet_at;
use parameter::opening::open;
use units::{common_extent_of, extent_of};
use walk::stretch::stretch_at;

// The record of nothing, which stands beside a refusal.
pub fn empty() -> Record
    ensures { Gives (pack []) result }
{
    let c = Common::none();
    let t = Transfer::none();
    Record {
        commons: 0,
        common: [c; Common::MOST],
        transfer: [t; Transfer::MOST],
        values: [0u8; Transfer::MOST_VALUES],
    }
}

// The head of a common parameter with these octets of its own; a C5's has so many transfer parameters.
pub fn part_head(header: u8, own: &[u8], transfers: u8) -> Common
    ensures { Gives (part_head header own.now transfers) result }
{
    if header == Common::TRANSFER_DATA {
        return Common::transfer_data(transfers);
    }
    if is_call(header) {
        return Common::call_number(header, call_value(own));
    }
    Common::octet(header, octet_at(own, 0))
}

// Opens a parameter into the struct's values, behind the used ones.
fn open_held(
    header: u8,
    contents: &[u8],
    values: &mut [u8; Transfer::MOST_VALUES],
    used: usize,
) -> Transfer
    requires { used + length (item_of header contents.now).values ≤ most_values }
    ensures head { result ≡ head_of (item_of header contents.now) }
    ensures put { values.new ≡ sets values.old used (item_of header contents.now).values }
{
    open(header, contents, values, used)
}

// A record's struct as far as it is filled in: how many of its transfer parameters and values are.
#[derive(Clone, Copy)]
struct Filled {
    held: Record,
    transfers: usize,
    used: usize,
}

impl Filled {
    // Nothing filled in.
    fn none() -> Filled
        ensures { result ≡ unfilled }
    {
        Filled {
            held: empty(),
            transfers: 0,
            used: 0,
        }
    }

    // Puts the parameters of the transfer data t in.
    fn put_transfers(&mut self, t: &[u8])
        requires { Room self.old (items_from t.now) }
        ensures { self.new ≡ filled_with self.old.held (items_from t.now) self.old.transfers self.old.used }
    {
        let mut i = 0;
        while let Some((start, to)) = stretch_at(t, i, extent_of(octet_at(t, i))) {
            let x = open_held(t[i], &t[start..to], &mut self.held.values, self.used);
            self.held.transfer[self.transfers] = x;
            self.transfers += 1;
            self.used += x.len as usize;
            i = to;
        }
    }

    // Puts a common parameter in, and the transfer parameters of a C5 with it.
    fn put_common(&mut self, header: u8, own: &[u8], contents: &[u8])
        requires { (self.old.held.commons < most_commons) × Room self.old (items_under header contents.now) }
        ensures { self.new ≡ common_with self.old header own.now contents.now }
    {
        let before = self.transfers;
        if header == Common::TRANSFER_DATA {
            self.put_transfers(contents);
        }
        let k = self.held.commons as usize;
        self.held.common[k] = part_head(header, own, (self.transfers - before) as u8);
        self.held.commons += 1;
    }
}

// The record of an accepted message.
fn fill(m: &[u8]) -> Record
    requires { verdict_of m.now ≡ Accepted (length m.now) }
    ensures { result ≡ pack (record_of m.now) }
{
    let mut filled = Filled::none();
    let mut i = 0;
    while let Some((start, to)) = stretch_at(m, i, common_extent_of(octet_at(m, i))) {
        let header = m[i];
        if header != Common::END_MARK {
            filled.put_common(header, &m[i + 1..to], &m[start..to]);
        }
        i = to;
    }
    filled.held
}

// The record of a message, with the verdict beside it; where refused, the empty record.
pub fn read(m: &[u8]) -> Reading
    ensures { ReadPromise m.now result }
{
    let answer = verdict(m);
    let record = match answer {
        Ok(_) => fill(m),
        Err(_) => empty(),
    };
    Reading { answer, record }
}
