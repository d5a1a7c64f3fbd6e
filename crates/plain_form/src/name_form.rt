// The form of names.
ghost use Rattle.std.specs.Prelude.{◌≡◌, map};
ghost use Rattle.std.specs.List.{list_all, list_any};
ghost use Rattle.std.specs.Str.{bytes_eq};
ghost use Rattle.plain_form.specs.Modules as spec;
ghost use Rattle.plain_form.specs.Reserved as words;

use crate::reserved::RESERVED;

// Whether a word stands in a list.
fn stands_in(word: &[u8], list: &[&[u8]]) -> bool
    ensures { result ≡ list_any (bytes_eq word.now) (map (λ w. w.now) list.now) }
{
    for item in list {
        if word == *item {
            return true;
        }
    }
    false
}

fn is_reserved(word: &[u8]) -> bool
    ensures { result ≡ list_any (bytes_eq word.now) words.reserved }
{
    stands_in(word, &RESERVED)
}

fn is_name_byte(byte: u8) -> bool
    ensures { result ≡ spec.is_name_byte byte }
{
    byte.is_ascii_alphanumeric() || byte == b'_' || byte == b'$'
}

fn begins_name(word: &[u8]) -> bool
    ensures { result ≡ spec.begins_name word.now }
{
    match word {
        [] => false,
        [first, ..] => first.is_ascii_alphabetic() || *first == b'_',
    }
}

// Whether each byte may stand in a name.
fn are_name_bytes(word: &[u8]) -> bool
    ensures { result ≡ list_all spec.is_name_byte word.now }
{
    for byte in word {
        if !is_name_byte(*byte) {
            return false;
        }
    }
    true
}

pub fn is_name(word: &[u8]) -> bool
    ensures { result ≡ spec.is_name word.now }
{
    begins_name(word) && are_name_bytes(word) && !is_reserved(word)
}
