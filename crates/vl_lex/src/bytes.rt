ghost use Rattle.std.specs.Prelude.{◌≡◌, ◌≤◌, length, take, drop, count_by};
ghost use Rattle.std.specs.List.{prefix_len};
ghost use Rattle.vl_lex.specs.Bytes as spec;

/// A space, a tab, a newline, a form feed or a carriage return.
pub(crate) fn is_space(byte: u8) -> bool
    ensures { result ≡ spec.is_space byte }
{
    byte == b' ' || byte == b'\t' || byte == b'\n' || byte == 12 || byte == b'\r'
}

/// A decimal digit.
pub(crate) fn is_digit(byte: u8) -> bool
    ensures { result ≡ spec.is_digit byte }
{
    b'0' <= byte && byte <= b'9'
}

/// A letter or `_`.
pub(crate) fn is_letter(byte: u8) -> bool
    ensures { result ≡ spec.is_letter byte }
{
    (b'a' <= byte && byte <= b'z') || (b'A' <= byte && byte <= b'Z') || byte == b'_'
}

/// What may follow in a name: a letter, a digit, `_` or `$`.
pub(crate) fn is_name(byte: u8) -> bool
    ensures { result ≡ spec.is_name byte }
{
    is_letter(byte) || is_digit(byte) || byte == b'$'
}

/// What may stand in a decimal number: a digit or `_`.
pub(crate) fn is_decimal(byte: u8) -> bool
    ensures { result ≡ spec.is_decimal byte }
{
    is_digit(byte) || byte == b'_'
}

/// What belongs to the digits of a based number: a letter, a digit, `_` or `?`.
pub(crate) fn is_based(byte: u8) -> bool
    ensures { result ≡ spec.is_based byte }
{
    is_letter(byte) || is_digit(byte) || byte == b'?'
}

/// A printed byte, and no space.
pub(crate) fn is_graphic(byte: u8) -> bool
    ensures { result ≡ spec.is_graphic byte }
{
    33 <= byte && byte <= 126
}

/// `s` in either case, the sign of a based number.
pub fn is_sign(byte: u8) -> bool
    ensures { result ≡ spec.is_sign byte }
{
    byte == b's' || byte == b'S'
}

/// The letter of a base, in either case.
pub(crate) fn is_base(byte: u8) -> bool
    ensures { result ≡ spec.is_base byte }
{
    match byte {
        b'b' | b'B' | b'o' | b'O' | b'd' | b'D' | b'h' | b'H' => true,
        _ => false,
    }
}

/// The first byte, 0 where there is none.
pub fn first(bytes: &[u8]) -> u8
    ensures { result ≡ spec.first bytes.now }
{
    match bytes {
        [] => 0,
        [byte, ..] => *byte,
    }
}

/// The bytes from a place on, none behind the end.
pub fn rest_from(bytes: &[u8], at: usize) -> &[u8]
    ensures { result.now ≡ drop at bytes.now }
{
    if at <= bytes.len() { &bytes[at..] } else { &[] }
}

/// How many bytes of a name stand at the front.
pub(crate) fn name_len(bytes: &[u8]) -> usize
    ensures { result ≡ prefix_len spec.is_name bytes.now }
{
    bytes.iter().take_while(|byte| is_name(**byte)).count()
}

/// How many digits and `_` stand at the front.
pub(crate) fn decimal_len(bytes: &[u8]) -> usize
    ensures { result ≡ prefix_len spec.is_decimal bytes.now }
{
    bytes.iter().take_while(|byte| is_decimal(**byte)).count()
}

/// How many bytes stand at the front that belong to the digits of a based number.
pub(crate) fn based_len(bytes: &[u8]) -> usize
    ensures { result ≡ prefix_len spec.is_based bytes.now }
{
    bytes.iter().take_while(|byte| is_based(**byte)).count()
}

/// How many printed bytes stand at the front.
pub(crate) fn graphic_len(bytes: &[u8]) -> usize
    ensures { result ≡ prefix_len spec.is_graphic bytes.now }
{
    bytes.iter().take_while(|byte| is_graphic(**byte)).count()
}

/// How many bytes stand before the end of the line.
pub(crate) fn line_len(bytes: &[u8]) -> usize
    ensures { result ≡ prefix_len spec.other_than_newline bytes.now }
{
    bytes.iter().take_while(|byte| **byte != b'\n').count()
}

/// The first bytes, all where there are no more.
pub(crate) fn front(bytes: &[u8], len: usize) -> &[u8]
    ensures { result.now ≡ take len bytes.now }
{
    if len <= bytes.len() {
        &bytes[..len]
    } else {
        bytes
    }
}
