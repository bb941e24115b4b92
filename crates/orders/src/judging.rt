// What is wrong with the contents of E0: the form first, then each parameter from left to right.
ghost use Rattle.std.specs.Prelude.{◌≡◌, ◌<◌, length, drop};
ghost use Rattle.annex.specs.Promises.{Gives};
ghost use Rattle.annex.specs.Orders.{
  forward_fault,
  control_fault,
  logic_fault,
  layout_fault,
  own_fault,
  order_fault,
};

use crate::lengths::order_after;
use crate::table::{asked_of, has_form, is_form};
use annex::{Alphabet, Fault, Flaw, HalfOctets, Order, OrderLayout, Refusal};
use digits::characters::characters_fault;
use digits::judging::digits_fault;
use digits::numbers::number_fault;
use octets::{lies_within, octet_at, octets_from};

// 92: a number with decimal digits, and nothing in the low half of its second octet.
#[tactic(auto, unfolding(annex::specs::Orders::forward_fault))]
fn forward_fault(s: &[u8], at: usize) -> Fault
    ensures { result ≡ forward_fault at (drop at s.now) }
{
    if octet_at(octets_from(s, at), 1) % 16 != 0 {
        return Err(Flaw(Refusal::BAD_FORM, 0));
    }
    number_fault(Alphabet::Decimal, s, at)
}

// CC: a kind of conversion, a repeat count, and a key.
#[tactic(auto, unfolding(annex::specs::Orders::logic_fault))]
fn logic_fault(s: &[u8]) -> Fault
    ensures { result ≡ logic_fault s.now }
{
    Flaw::unless(Order::REPEATED_HEAD <= s.len() && s[Order::REPEATS_AT] <= Order::MOST_REPEATS)
}

// C9, CA and CD: a code, a repeat count, and at least one character.
#[tactic(auto, unfolding(annex::specs::Orders::control_fault))]
fn control_fault(s: &[u8], at: usize) -> Fault
    ensures { result ≡ control_fault at (drop at s.now) }
{
    let own = octets_from(s, at);
    if own.len() <= Order::REPEATED_HEAD || Order::MOST_REPEATS < own[Order::REPEATS_AT] {
        return Err(Flaw(Refusal::BAD_FORM, 0));
    }
    characters_fault(true, s, at + Order::REPEATED_HEAD)
}

// What is wrong with the octets behind a header, which are those of s from the offset `at` on.
#[tactic(auto, unfolding(annex::specs::Orders::layout_fault))]
fn layout_fault(layout: OrderLayout, s: &[u8], at: usize) -> Fault
    requires { at < length s.now }
    ensures { result ≡ layout_fault layout at (drop at s.now) }
{
    let first = s[at];
    let from = at + 1;
    match layout {
        OrderLayout::TrunkKind | OrderLayout::Guidance => Ok(()),
        OrderLayout::ReleaseKind => Flaw::unless(first == 1),
        OrderLayout::RedirectReason => Flaw::unless(Order::LAST_OCTET <= first),
        OrderLayout::SentDigits => digits_fault(
            Alphabet::Dialled,
            HalfOctets::counted_whole(first),
            s,
            from,
        ),
        OrderLayout::ForwardNumber => forward_fault(s, from),
        OrderLayout::AreControl => control_fault(s, from),
        OrderLayout::AreLogic => logic_fault(octets_from(s, from)),
        OrderLayout::WaitingTime => characters_fault(false, s, at),
    }
}

// The same where the octets of s from the offset `at` on go to the end of the order: those that are the header's own must be there.
fn own_fault(layout: OrderLayout, s: &[u8], at: usize) -> Fault
    ensures { result ≡ own_fault layout at (drop at s.now) }
{
    let n = order_after(layout, octet_at(s, at));
    if !lies_within(s.len(), at, n) {
        return Err(Flaw(Refusal::BAD_FORM, 0));
    }
    let end = at + n;
    layout_fault(layout, &s[..end], at)
}

// 12, 13 or 19 of the contents of E0.
pub fn order_fault(s: &[u8]) -> Fault
    ensures { Gives (order_fault s.now) result }
{
    let Some(&form) = s.first() else {
        return Err(Flaw(Refusal::BAD_FORM, 0));
    };
    if !is_form(form) {
        return Err(Flaw(Refusal::CONNECTION_ORDER, 0));
    }
    let mut seen = [false; Order::HEADERS];
    let mut at: usize = Order::HEAD;
    while let Some(&header) = s.get(at) {
        let asked = asked_of(header);
        if !has_form(asked.forms, form) || seen[asked.place] {
            return Err(Flaw(Refusal::CONNECTION_ORDER, 0));
        }
        at += 1;
        own_fault(asked.layout, s, at)?;
        seen[asked.place] = true;
        at += order_after(asked.layout, octet_at(s, at));
    }
    Ok(())
}
