// The added user classes, D6: pairs of a name and a value.
ghost use Rattle.std.specs.Prelude.{◌≡◌};
ghost use Rattle.annex.specs.Heads.{among};
ghost use Rattle.annex.specs.Profile.{class_names, pairs_right};
ghost use Rattle.profile.specs.Pairs.{names_in};

use annex::AddedClass;

// Whether the name is a defined one.
fn is_defined(name: u8) -> bool
    ensures { result ≡ among name class_names }
{
    matches!(
        name,
        AddedClass::LONG_DISTANCE_1
            | AddedClass::LONG_DISTANCE_2
            | AddedClass::MOBILE_3
            | AddedClass::MOBILE_2
            | AddedClass::MOBILE_1
            | AddedClass::FIXED_1
    )
}

// Whether one of the pairs has the name.
fn is_named(name: u8, s: &[u8]) -> bool
    ensures { result ≡ among name (names_in s.now) }
{
    let mut rest = s;
    while let [other, _, behind @ ..] = rest {
        if *other == name {
            return true;
        }
        rest = behind;
    }
    false
}

// Whether the contents are pairs with defined names, none of which stands twice.
pub fn pairs_right(s: &[u8]) -> bool
    ensures { result ≡ pairs_right s.now }
{
    let mut rest = s;
    while let [name, _, behind @ ..] = rest {
        if !is_defined(*name) || is_named(*name, behind) {
            return false;
        }
        rest = behind;
    }
    rest.is_empty()
}
