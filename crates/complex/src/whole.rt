// Whether a float is a whole number, worked out from its bits.
ghost use Rattle.std.specs.Prelude.{◌≡◌, false, ◌^◌, ◌<◌};
ghost use Rattle.std.specs.Float.{binary64};
ghost use Rattle.std.specs.Float.Ieee.{of_fields};
ghost use Rattle.complex.specs.Wholes.{said_whole, whole_of};

// A float is whole when it is a multiple of 1 / 2^GRAIN_POWER.
const GRAIN_POWER: u64 = 0;

// It has at most 2^MOST_PARTS_POWER such parts.
const MOST_PARTS_POWER: u64 = 40;

// An f64's bits: the sign, a field of 11 bits for the exponent and 52 digits.
const SIGN: u64 = 9223372036854775808;

const FIELDS: u64 = 2048;

const LEADING_DIGIT: u64 = 4503599627370496;

// How many parts a float has; none where number 11 refuses it.
pub fn whole_part(x: f64) -> Option<i64>
    ensures { said_whole result ≡ whole_of x }
{
    if x.is_nan() {
        return None;
    }
    let bits = x.to_bits();
    let size = size_part(bits / LEADING_DIGIT % FIELDS, bits % LEADING_DIGIT)?;
    Some(if bits < SIGN { size } else { -size })
}

// The same of the positive float with these fields. Unless the field is 0 or 2047, its value is
// 2^52 + digits times 2^(field - 1075), which is below 1 under a field of 1023.
fn size_part(field: u64, digits: u64) -> Option<i64>
    requires { (field < 2 ^ 11) × (digits < 2 ^ 52) }
    ensures { said_whole result ≡ whole_of (of_fields binary64 false field digits) }
{
    if field == 0 {
        return if digits == 0 { Some(0) } else { None };
    }
    let power = field + GRAIN_POWER;
    if power < 1023 || power > 1023 + MOST_PARTS_POWER {
        return None;
    }
    let unit = 1u64 << (1075 - power);
    let digits = LEADING_DIGIT + digits;
    let n = digits / unit;
    if digits % unit == 0 && n <= 1u64 << MOST_PARTS_POWER {
        return Some(n as i64);
    }
    None
}
