// How many octets follow the header of a parameter.
ghost use Rattle.annex.specs.Promises.{Gives};
ghost use Rattle.annex.specs.Orders.{order_after, layout_of};

use crate::table::asked_of;
use annex::{HalfOctets, OrderLayout};

// How many octets behind a header of this layout are its own; first is the octet right after it, or 0. The count of 91 is in half-octets,
// every other in octets.
#[tactic(auto, unfolding(annex::specs::Orders::order_after))]
pub fn order_after(layout: OrderLayout, first: u8) -> usize
    ensures { Gives (order_after layout first) result }
{
    match layout {
        OrderLayout::TrunkKind | OrderLayout::RedirectReason => 1,
        OrderLayout::WaitingTime => 3,
        OrderLayout::SentDigits => 1 + HalfOctets::counted_whole(first).octets().0,
        OrderLayout::ReleaseKind
        | OrderLayout::ForwardNumber
        | OrderLayout::AreControl
        | OrderLayout::AreLogic
        | OrderLayout::Guidance => 1 + first as usize,
    }
}

// The same of a header.
pub fn order_size(header: u8, first: u8) -> usize
    ensures { Gives (order_after (layout_of header) first) result }
{
    order_after(asked_of(header).layout, first)
}
