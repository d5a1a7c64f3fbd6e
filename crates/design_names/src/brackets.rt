// A path as the text of a bit: what stands before its last bracket, and the index behind it.
ghost use Rattle.std.specs.Prelude.{◌≡◌, ◌≢◌, ◌++◌, ◌∷◌, [], ◌+◌, ◌<◌, ◌≤◌, ◌^◌, ℕ, ℤ, List, true, false, length, drop, slice_index_or, MatchOption, Some, suc, pos, negsuc};
ghost use Rattle.design_core.specs.Wellformed.{decimal, digits, index_text, is_bound, same_bytes};
ghost use Rattle.design_names.specs.Brackets.{has_bracket, in_brackets, worth};
ghost use Rattle.std.specs.Option.{IfSome};

/// The parts of a text that ends with an index in brackets.
#[derive(Clone, Copy)]
pub struct Parts<'a> {
    pub before: &'a [u8],
    pub index: &'a [u8],
}

/// The place of the last opening bracket.
fn last_bracket(text: &[u8]) -> Option<usize>
    ensures { MatchOption result (has_bracket text.now ≡ false) (λ k. (k < length text.now) × (slice_index_or text.now k 0 ≡ 91) × (has_bracket (drop (k + 1) text.now) ≡ false)) }
{
    let mut at = text.len();
    while at > 0 {
        at -= 1;
        if text[at] == b'[' {
            return Some(at);
        }
    }
    None
}

/// What is worth so many digits, none above 2^31.
fn worth_of(text: &[u8]) -> Option<u64>
    ensures { MatchOption result (2 ^ 31 < worth 0 text.now) (λ n. (n ≤ 2 ^ 31) × (n ≡ worth 0 text.now)) }
{
    let mut n: u64 = 0;
    for d in text {
        n = 10 * n + u64::from(d.saturating_sub(48));
        if n > 2147483648 {
            return None;
        }
    }
    Some(n)
}

/// Whether the text is the digits of a number.
#[cycle(digits)]
fn spells(text: &[u8], room: u32, n: u64) -> bool
    ensures { result ≡ same_bytes text.now (digits room n) }
{
    match text.split_last() {
        None => room == 0,
        Some((last, front)) => ends(u64::from(*last), front, room, n),
    }
}

/// Whether the text before its last digit, and this digit, are those of a number.
#[cycle(digits)]
fn ends(last: u64, front: &[u8], room: u32, n: u64) -> bool
    ensures { result ≡ same_bytes (front.now ++ last ∷ []) (digits room n) }
{
    if room == 0 {
        return false;
    }
    if n < 10 {
        return front.len() == 0 && last == 48 + n;
    }
    last == 48 + n % 10 && spells(front, room - 1, n / 10)
}

/// The number whose digits the text is, if it is at most 2^31.
fn number_of(text: &[u8]) -> Option<u64>
    ensures { MatchOption result ((n : ℕ) → n ≤ 2 ^ 31 → text.now ≢ decimal n) (λ n. (n ≤ 2 ^ 31) × (text.now ≡ decimal n)) }
{
    match worth_of(text) {
        None => None,
        Some(n) => { if spells(text, 20, n) { Some(n) } else { None } }
    }
}

/// The declared index that a text says.
pub fn index_of(text: &[u8]) -> Option<i64>
    ensures { MatchOption result ((z : ℤ) → is_bound z ≡ true → text.now ≢ index_text z) (λ z. (is_bound z ≡ true) × (text.now ≡ index_text z)) }
{
    match text.split_first() {
        None => None,
        Some((first, rest)) => {
            if *first == b'-' {
                below_zero(number_of(rest))
            } else {
                from_zero(number_of(text))
            }
        }
    }
}

/// The index below zero of this size.
fn below_zero(size: Option<u64>) -> Option<i64>
    requires { IfSome size (λ n. n ≤ 2 ^ 31) }
    ensures { MatchOption result ((m : ℕ) → m < 2 ^ 31 → size ≢ Some (suc m)) (λ z. (m : ℕ) × (z ≡ negsuc m) × (m < 2 ^ 31) × (size ≡ Some (suc m))) }
{
    match size {
        None => None,
        Some(n) => { if n == 0 { None } else { Some(-(n as i64)) } }
    }
}

/// The index from zero on of this size.
fn from_zero(size: Option<u64>) -> Option<i64>
    requires { IfSome size (λ n. n ≤ 2 ^ 31) }
    ensures { MatchOption result ((m : ℕ) → m < 2 ^ 31 → size ≢ Some m) (λ z. (m : ℕ) × (z ≡ pos m) × (m < 2 ^ 31) × (size ≡ Some m)) }
{
    match size {
        None => None,
        Some(n) => { if n < 2147483648 { Some(n as i64) } else { None } }
    }
}

/// The parts of a text that ends with brackets.
pub fn parts_of<'a>(text: &'a [u8]) -> Option<Parts<'a>>
    ensures { MatchOption result ((p t : List ℕ) → has_bracket (t ++ 93 ∷ []) ≡ false → text.now ≢ in_brackets p t) (λ r. (text.now ≡ in_brackets r.before.now r.index.now) × (has_bracket r.index.now ≡ false)) }
{
    match text.split_last() {
        None => None,
        Some((last, front)) => {
            if *last != b']' {
                return None;
            }
            match last_bracket(front) {
                None => None,
                Some(at) => Some(Parts {
                    before: &front[..at],
                    index: &front[at + 1..],
                }),
            }
        }
    }
}
