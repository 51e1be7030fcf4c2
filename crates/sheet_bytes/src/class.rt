// The class of a byte.
ghost use Rattle.std.specs.Prelude.{◌≡◌};
ghost use Rattle.sheet_bytes.specs.Class.{class_of};
ghost use Rattle.sheet_bytes.specs.Code.{class_number};

// What a byte is in a line of values.
#[derive(Clone, Copy, PartialEq, Eq, Debug)]
pub(crate) enum Class {
    Digit,
    Space,
    LineFeed,
    Other,
}

// Kept: digits are told by two comparisons, before the rest is asked for: as one match over all a byte that is read takes a tenth more.
#[tactic(auto, unfolding(crate::specs::Class::class_of))]
pub(crate) fn of(b: u8) -> Class
    ensures { class_number result ≡ class_of b }
{
    if b < b'0' {
        return match b {
            b' ' => Class::Space,
            b'\n' => Class::LineFeed,
            _ => Class::Other,
        };
    }
    if b <= b'9' {
        return Class::Digit;
    }
    Class::Other
}
