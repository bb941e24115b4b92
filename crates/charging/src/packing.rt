// The same as octets, for Rust and C.
ghost use Rattle.std.specs.Prelude.{◌≡◌};
ghost use Rattle.annex.specs.Charging.{charge_octets};
ghost use Rattle.annex.specs.Promises.{OctetChargingPromise};

use crate::charging;
use annex::{Answer, Charges, Refusal};
use octets::copy_in;

// The kind, and each field in two octets, the least first.
fn octets_of(c: Charges) -> [u8; Charges::OCTETS]
    ensures { result ≡ charge_octets c }
{
    let fields = [
        c.unit_fee,
        c.initial_units,
        c.day,
        c.night,
        c.late_night_1,
        c.late_night_2,
        c.mbi,
        c.information_interval,
        c.information_units,
        c.free_time,
        c.check_digit,
    ];
    let mut octets = [0u8; Charges::OCTETS];
    octets[0] = c.kind;
    for (k, field) in fields.iter().enumerate() {
        let [low, high] = field.to_le_bytes();
        octets[1 + 2 * k] = low;
        octets[2 + 2 * k] = high;
    }
    octets
}

// What the charging information says, as octets at the front of the room: how many there are. A refusal leaves the room as it was.
pub fn octet_charging(m: &[u8], room: &mut [u8]) -> Answer
    ensures { OctetChargingPromise m.now room.old result room.new }
{
    let octets = octets_of(charging(m)?);
    if !copy_in(room, 0, &octets) {
        return Err(Refusal(Refusal::NO_ROOM, 0));
    }
    Ok(Charges::OCTETS)
}
