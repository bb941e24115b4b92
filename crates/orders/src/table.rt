// The tables of connection orders. Forms are held as bits of one number: the form C0 C1 is bit C1 of the sixteen that C0 has, those of 2
// lowest, then those of 3 and 4.
ghost use Rattle.std.specs.Prelude.{◌≡◌};
ghost use Rattle.annex.specs.Heads.{among};
ghost use Rattle.annex.specs.Promises.{Gives};
ghost use Rattle.annex.specs.Orders.{order_forms};
ghost use Rattle.orders.specs.Asked.{asking, asked_of, has_bit};

use annex::{Order, OrderLayout};

// What the table says of a header: its place among those of the table, its layout, and the forms under which it may stand.
#[derive(Clone, Copy)]
pub struct Asked {
    pub place: usize,
    pub layout: OrderLayout,
    pub forms: u64,
}

// The lowest form that a number of bits can hold, and how many it holds.
const FIRST_FORM: u8 = 0x20;

const FORM_BITS: u8 = 48;

// All forms.
const FORMS: u64 = 0x00D6_FFFE_7BFE;

fn row(place: usize, layout: OrderLayout, forms: u64) -> Asked
    ensures { result ≡ asking place layout forms }
{
    Asked {
        place,
        layout,
        forms,
    }
}

// The table of parameters. A header that is not in it may stand under no form.
// Not an Option: the definition has a row for such a header too, and `order_size` asks for its layout.
#[tactic(auto, unfolding(annex::specs::Orders::forms_of, annex::specs::Orders::layout_of))]
pub fn asked_of(header: u8) -> Asked
    ensures { Gives (asked_of header) result }
{
    match header {
        Order::TRUNK => row(0, OrderLayout::TrunkKind, 0x0040_2002_0808),
        Order::RELEASE => row(1, OrderLayout::ReleaseKind, 0x0000_0000_0100),
        Order::REDIRECT_REASON => row(2, OrderLayout::RedirectReason, 0x0000_0000_4000),
        Order::SENT_DIGITS => row(3, OrderLayout::SentDigits, 0x00C2_D6BC_3866),
        Order::FORWARD_NUMBER => row(4, OrderLayout::ForwardNumber, 0x0000_0000_4000),
        Order::CALLING_ARE => row(5, OrderLayout::AreControl, 0x0000_007A_3AF4),
        Order::CALLED_ARE => row(6, OrderLayout::AreControl, 0x0000_0028_0064),
        Order::CALLING_GUIDANCE => row(7, OrderLayout::Guidance, 0x00D6_FF80_0000),
        Order::CALLED_ARE_LOGIC => row(8, OrderLayout::AreLogic, 0x0000_0010_1000),
        Order::TIMEOUT_ARE => row(9, OrderLayout::AreControl, 0x0000_0002_0000),
        Order::CALLED_GUIDANCE => row(10, OrderLayout::Guidance, 0x0002_D680_0000),
        Order::TIMEOUT_GUIDANCE => row(11, OrderLayout::Guidance, 0x0000_2000_0000),
        Order::WAITING_TIME => row(12, OrderLayout::WaitingTime, 0x0000_2002_0000),
        _ => row(0, OrderLayout::Guidance, 0),
    }
}

// Whether a form is one of those held as bits.
pub fn has_form(forms: u64, form: u8) -> bool
    ensures { Gives (has_bit forms form) result }
{
    let Some(bit) = form.checked_sub(FIRST_FORM) else {
        return false;
    };
    bit < FORM_BITS && (forms >> bit as u64) % 2 == 1
}

// Whether a form is listed.
pub fn is_form(form: u8) -> bool
    ensures { Gives (among form order_forms) result }
{
    has_form(FORMS, form)
}
