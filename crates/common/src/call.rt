// A call number of 24 bits: from its octets and to them, least octet first.
ghost use Rattle.annex.specs.Heads.{is_call};
ghost use Rattle.annex.specs.Layout.{call_octets};
ghost use Rattle.annex.specs.Promises.{Gives};
ghost use Rattle.annex.specs.Reading.{call_number};

use annex::Common;
use octets::octet_at;

// Whether the header is that of a call number: 82 or 83.
pub fn is_call(header: u8) -> bool
    ensures { Gives (is_call header) result }
{
    matches!(header, Common::PARTNERS_CALL | Common::OWN_CALL)
}

// The number in the first three octets, least octet first; one that is not there is taken as 0.
pub fn call_value(own: &[u8]) -> u32
    ensures { Gives (call_number own.now) result }
{
    u32::from_le_bytes([octet_at(own, 0), octet_at(own, 1), octet_at(own, 2), 0])
}

// The octets of the number's lowest 24 bits, least octet first.
pub fn call_octets(value: u32) -> [u8; 3]
    ensures { Gives (call_octets value) result }
{
    let [low, middle, high, _] = value.to_le_bytes();
    [low, middle, high]
}
