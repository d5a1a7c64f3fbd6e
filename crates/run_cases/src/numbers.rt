use formed_trees::fits;

// The value of a hexadecimal digit in small letters.
fn digit(byte: u8) -> Option<u8> {
    match byte {
        b'0'..=b'9' => Some(byte - b'0'),
        b'a'..=b'f' => Some(byte - b'a' + 10),
        _ => None,
    }
}

/// A hexadecimal number below 2 to the power of 128.
pub fn hexadecimal(text: &str) -> Option<u128> {
    if text.is_empty() {
        return None;
    }
    let mut value = 0u128;
    for byte in text.as_bytes() {
        value = value
            .checked_mul(16)?
            .checked_add(u128::from(digit(*byte)?))?;
    }
    Some(value)
}

/// A decimal number.
pub fn decimal(text: &str) -> Option<u32> {
    text.parse::<u32>().ok()
}

/// A decimal number that may be below 0.
pub fn place(text: &str) -> Option<i64> {
    text.parse::<i64>().ok()
}

/// `LENGTH:HEX`, a value of 1 to 65,536 bits.
pub fn value(text: &str) -> Option<(u32, u128)> {
    let (length, digits) = text.split_once(':')?;
    let length = decimal(length)?;
    let value = hexadecimal(digits)?;
    if 1 <= length && length <= 65_536 && fits(value, length) {
        Some((length, value))
    } else {
        None
    }
}
