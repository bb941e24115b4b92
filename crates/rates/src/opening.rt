// What charging information says: its fields as whole numbers.
ghost use Rattle.std.specs.Prelude.{◌≡◌, ◌≤◌, replicate};
ghost use Rattle.annex.specs.Promises.{Gives};
ghost use Rattle.annex.specs.Rates.{field_row, numbers_drawn, decimal, kind_in, field_in, charges_of};
ghost use Rattle.annex.specs.declared.Drawn.TheVariants.{Character};
ghost use Rattle.rates.specs.Starts.{starts_of};

use crate::drawing::number_in;
use annex::{Charges, Drawn, Field};
use octets::{octet_at, octets_from};

// A field: its place among the fields of an answer, how its octets are drawn, and how many it has.
#[derive(Clone, Copy)]
struct FieldRow {
    place: usize,
    drawn: Drawn,
    width: usize,
}

fn row(place: usize, drawn: Drawn, width: usize) -> FieldRow
    ensures { (result.place ≡ place) × (result.drawn ≡ drawn) × (result.width ≡ width) }
{
    FieldRow {
        place,
        drawn,
        width,
    }
}

// How the annex draws each field.
fn row_of(f: Field) -> FieldRow
    ensures { (result.place ≡ (field_row f).place) × (result.drawn ≡ (field_row f).drawn) × (result.width ≡ (field_row f).width) }
{
    match f {
        Field::UnitFee => row(0, Drawn::Whole, 1),
        Field::InitialUnits => row(1, Drawn::Character, 2),
        Field::Day => row(2, Drawn::Character, 3),
        Field::Night => row(3, Drawn::Character, 3),
        Field::LateNight1 => row(4, Drawn::Character, 3),
        Field::LateNight2 => row(5, Drawn::Character, 3),
        Field::Mbi => row(6, Drawn::Halves, 1),
        Field::InformationInterval => row(7, Drawn::Character, 3),
        Field::InformationUnits => row(8, Drawn::Character, 4),
        Field::FreeTime => row(9, Drawn::Character, 3),
        Field::CheckDigit => row(10, Drawn::Character, 1),
    }
}

// Where the fields start in the contents of a kind, 0 where it does not have one; they are in the order of an answer.
// Not an Option at each place: none starts at 0, and the table is plainer so.
#[tactic(auto, unfolding(annex::specs::Rates::fields_of))]
fn starts_of(kind: u8) -> [u8; 11]
    ensures { result ≡ starts_of kind }
{
    match kind {
        Charges::UNITS_AND_TIMES => [0, 2, 4, 7, 10, 13, 0, 0, 0, 0, 16],
        Charges::MBI_AND_INTERVAL => [0, 0, 0, 0, 0, 0, 2, 3, 0, 6, 9],
        Charges::MBI_AND_UNITS => [0, 0, 0, 0, 0, 0, 2, 0, 3, 7, 10],
        Charges::MBI_ALONE => [0, 0, 0, 0, 0, 0, 2, 0, 0, 0, 3],
        Charges::FEE_AND_TIMES => [2, 3, 5, 8, 11, 14, 0, 0, 0, 0, 0],
        Charges::FEE_AND_INTERVAL => [2, 3, 5, 8, 11, 14, 0, 17, 0, 20, 0],
        Charges::FEE_AND_UNITS => [2, 3, 5, 8, 11, 14, 0, 0, 17, 21, 0],
        _ => [0; 11],
    }
}

// The number of the first characters of s, so many of them, or as many as there are.
fn characters(s: &[u8], width: usize) -> u16
    requires { width ≤ 4 }
    ensures { result ≡ decimal 0 (numbers_drawn (replicate width Character) s.now) }
{
    let mut number: u16 = 0;
    for x in s.iter().take(width) {
        number = 10 * number + number_in(Drawn::Character, *x);
    }
    number
}

// A field of the contents, 0 where their kind does not have it, by where the fields of that kind start.
fn field_in(s: &[u8], starts: &[u8; 11], f: Field) -> u16
    requires { starts.now ≡ starts_of (kind_in s.now) }
    ensures { result ≡ field_in f s.now }
{
    let asked = row_of(f);
    let start = starts[asked.place] as usize;
    if start == 0 {
        return 0;
    }
    let octets = octets_from(s, start);
    match asked.drawn {
        Drawn::Character => characters(octets, asked.width),
        Drawn::Halves | Drawn::Whole => number_in(asked.drawn, octet_at(octets, 0)),
    }
}

// What the contents of F7 say.
#[tactic(auto, unfolding(annex::specs::Rates::charges_of))]
pub fn charges(s: &[u8]) -> Charges
    ensures { Gives (charges_of s.now) result }
{
    let kind = octet_at(s, Charges::KIND_AT);
    // looked up once: at each field it costs more than the fields do
    let starts = starts_of(kind);
    Charges {
        kind,
        unit_fee: field_in(s, &starts, Field::UnitFee),
        initial_units: field_in(s, &starts, Field::InitialUnits),
        day: field_in(s, &starts, Field::Day),
        night: field_in(s, &starts, Field::Night),
        late_night_1: field_in(s, &starts, Field::LateNight1),
        late_night_2: field_in(s, &starts, Field::LateNight2),
        mbi: field_in(s, &starts, Field::Mbi),
        information_interval: field_in(s, &starts, Field::InformationInterval),
        information_units: field_in(s, &starts, Field::InformationUnits),
        free_time: field_in(s, &starts, Field::FreeTime),
        check_digit: field_in(s, &starts, Field::CheckDigit),
    }
}
