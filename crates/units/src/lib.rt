// How many octets follow a header. Half-octets and octets meet only through the conversion.
#![tactic(auto)]

ghost use Rattle.annex.specs.Promises.{Gives};
ghost use Rattle.std.specs.Prelude.{◌≡◌};
ghost use Rattle.annex.specs.Units.{octets_counted, after_of, lead_of, common_extent_of, extent_of};

use annex::{Common, CountingUnit, Extent, HalfOctets, Octets};

// What the PLI of a transfer header says.
#[tactic(auto, unfolding(annex::specs::Units::extent_of))]
pub fn extent_of(header: u8) -> Extent
    ensures { Gives (extent_of header) result }
{
    match header / 64 {
        0 => Extent::Fixed(0),
        1 => Extent::Fixed(1),
        2 => Extent::Counted(CountingUnit::HalfOctet),
        _ => Extent::Counted(CountingUnit::Octet),
    }
}

// What the PLI of a common header says. The end mark has no contents.
#[tactic(auto, unfolding(annex::specs::Units::common_extent_of))]
pub fn common_extent_of(header: u8) -> Extent
    ensures { Gives (common_extent_of header) result }
{
    if header == Common::END_MARK {
        return Extent::Fixed(0);
    }
    match header / 64 {
        0 => Extent::Fixed(1),
        1 => Extent::Fixed(2),
        2 => Extent::Fixed(3),
        _ => Extent::Counted(CountingUnit::Octet),
    }
}

// How many octets a first octet counts.
fn counted(unit: CountingUnit, octet: u8) -> Octets
    ensures { result ≡ octets_counted unit octet }
{
    match unit {
        CountingUnit::HalfOctet => HalfOctets::counted_by(octet).octets(),
        CountingUnit::Octet => Octets(usize::from(octet)),
    }
}

// How many octets follow a header; next is the octet right after it, or 0.
#[tactic(auto, unfolding(annex::specs::Units::after_of))]
pub fn octets_after(e: Extent, next: u8) -> usize
    ensures { Gives (after_of e next) result }
{
    match e {
        Extent::Fixed(n) => n,
        Extent::Counted(unit) => 1 + counted(unit, next).0,
    }
}

// How many of them stand before the contents: a length octet, and no count octet.
#[tactic(auto, unfolding(annex::specs::Units::lead_of))]
pub fn lead(e: Extent) -> usize
    ensures { Gives (lead_of e) result }
{
    match e {
        Extent::Fixed(_) | Extent::Counted(CountingUnit::HalfOctet) => 0,
        Extent::Counted(CountingUnit::Octet) => 1,
    }
}

// What follows a transfer header: how many octets, and how many of them stand before the contents.
#[derive(Clone, Copy)]
pub struct After {
    pub octets: usize,
    pub lead: usize,
}

// Both; next is the octet right after the header, or 0.
pub fn after_header(header: u8, next: u8) -> After
    ensures { Gives (after_of (extent_of header) next) result.octets × Gives (lead_of (extent_of header)) result.lead }
{
    let e = extent_of(header);
    After {
        octets: octets_after(e, next),
        lead: lead(e),
    }
}
