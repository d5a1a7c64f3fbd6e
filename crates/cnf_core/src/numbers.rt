ghost use Rattle.std.specs.Prelude.{◌≡◌, ◌≤◌, ◌<◌, ◌^◌, ◌++◌, OnOk};
ghost use Rattle.std.specs.Fmt.{decimal, signed_decimal};
ghost use Rattle.cnf_core.specs.Numbers.{number_below, integer_below};

use bits_core::NoMemory;

/// The number below the bound that the word says in decimal digits, if it says one. Linear in the word.
pub fn number(word: &[u8], bound: u64) -> Option<u64>
    requires { bound ≤ 2 ^ 63 }
    ensures { result ≡ number_below bound word.now }
{
    if word.is_empty() {
        return None;
    }
    let mut value: u64 = 0;
    for byte in word {
        if !byte.is_ascii_digit() {
            return None;
        }
        // a greater value is above the bound, whatever follows
        value = value.min(1 << 60) * 10 + (*byte - b'0') as u64;
    }
    if value < bound { Some(value) } else { None }
}

/// The integer of an absolute value below the bound that the word says: a number, or `-` and a number that is not 0.
pub fn integer(word: &[u8], bound: u64) -> Option<i64>
    requires { bound ≤ 2 ^ 63 }
    ensures { result ≡ integer_below bound word.now }
{
    match word {
        [] => None,
        [b'-', digits @ ..] => match number(digits, bound) {
            Some(value) if value != 0 => Some(-(value as i64)),
            _ => None,
        },
        _ => match number(word, bound) {
            Some(value) => Some(value as i64),
            None => None,
        },
    }
}

/// Puts a number in decimal digits at the end of a text. Linear in the digits.
pub fn push_number(out: &mut Vec<u8>, value: u64) -> Result<(), NoMemory>
    ensures { OnOk result (out.new.items ≡ out.old.items ++ decimal value) }
{
    if value >= 10 {
        push_number(out, value / 10)?;
    }
    out.push(b'0' + (value % 10) as u8)?;
    Ok(())
}

/// Puts an integer at the end of a text, `-` before its digits where it is below 0.
pub fn push_integer(out: &mut Vec<u8>, value: i64) -> Result<(), NoMemory>
    ensures { OnOk result (out.new.items ≡ out.old.items ++ signed_decimal value) }
{
    if value < 0 {
        out.push(b'-')?;
    }
    push_number(out, value.unsigned_abs())
}
