// What the charging information of a message says, beside its record.
#![tactic(auto)]

pub mod packing;

ghost use Rattle.annex.specs.Promises.{ChargingPromise};

use annex::{ChargingAnswer, Key, Transfer};
use rates::opening::charges;
use reader::finding::find_both;

// Reading's refusals, then 16 where there is no F7, or what it says.
pub fn charging(m: &[u8]) -> ChargingAnswer
    ensures { ChargingPromise m.now result }
{
    let (_, contents) = find_both(m, Key::Name(Transfer::CHARGING_INFORMATION % 64, 0))?;
    Ok(charges(contents))
}
