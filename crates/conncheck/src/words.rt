// The words of a command line: options with their values, and the names of files behind them.
ghost use Rattle.std.specs.Prelude.{◌≡◌, map, option_map, string_bytes, IfOk};
ghost use Rattle.std.specs.List.{list_all};
ghost use Rattle.conncheck.specs.Seen.{seen_line, seen_pair, seen_word};
ghost use Rattle.conncheck.specs.Words as spec;

use bits_core::NoMemory;
use std::alloc::Global;

/// An option with its value.
#[derive(Clone, Copy)]
pub struct Pair<'w> {
    pub option: &'w str,
    pub value: &'w str,
}

/// The words behind a command's word.
#[derive(Drop)]
pub struct Line<'w> {
    pub pairs: Vec<Pair<'w>>,
    pub files: &'w [String],
}

// Whether a word may stand as a value or a file name.
fn is_plain(word: &str) -> bool
    ensures { result ≡ spec.is_plain word.now }
{
    match word.as_bytes() {
        [] => false,
        [first, ..] => *first != b'-',
    }
}

fn are_plain(words: &[String]) -> bool
    ensures { result ≡ list_all spec.is_plain (map string_bytes words.now) }
{
    for word in words {
        if !is_plain(word.as_str()) {
            return false;
        }
    }
    true
}

/// The value that an option was given. Linear in the pairs.
pub fn value_of<'w>(pairs: &[Pair<'w>], name: &str) -> Option<&'w str>
    ensures { seen_word result ≡ spec.value_of (map seen_pair pairs.now) name.now }
{
    for pair in pairs {
        if pair.option == name {
            return Some(pair.value);
        }
    }
    None
}

// Whether a command has an option of this name.
fn is_among(names: &[&str], name: &str) -> bool
    ensures { result ≡ spec.is_among (map (λ n. n.now) names.now) name.now }
{
    for other in names {
        if name == *other {
            return true;
        }
    }
    false
}

// An option that the command has and that was not given yet, with its value.
fn takes(allowed: &[&str], pairs: &[Pair<'_>], name: &str, value: &str) -> bool
    ensures { result ≡ spec.takes (map (λ n. n.now) allowed.now) (map seen_pair pairs.now) name.now value.now }
{
    is_plain(value) && is_among(allowed, name) && value_of(pairs, name).is_none()
}

// The options with their values, and all words behind them.
fn read_pairs<'w>(
    alloc: Global,
    allowed: &[&str],
    words: &'w [String],
) -> Result<Option<Line<'w>>, NoMemory>
    ensures { IfOk result (λ r. spec.then_some (option_map seen_line r) (λ l. spec.files_behind l.pairs l.files) ≡ spec.line_of (map (λ n. n.now) allowed.now) (map string_bytes words.entry.now)) }
{
    let mut pairs = Vec::new(alloc);
    let mut rest = words;
    'options: loop {
        let [option, value, tail @ ..] = rest else {
            return Ok(Some(Line { pairs, files: rest }));
        };
        let option = option.as_str();
        let value = value.as_str();
        if is_plain(option) {
            return Ok(Some(Line { pairs, files: rest }));
        }
        if !takes(allowed, pairs.as_slice(), option, value) {
            return Ok(None);
        }
        pairs.push(Pair { option, value })?;
        rest = tail;
    }
}

/// The line that words spell for a command with these options, or none. Each option costs a look at those before it.
pub fn read_line<'w>(
    alloc: Global,
    allowed: &[&str],
    words: &'w [String],
) -> Result<Option<Line<'w>>, NoMemory>
    ensures { IfOk result (λ r. option_map seen_line r ≡ spec.line_of (map (λ n. n.now) allowed.now) (map string_bytes words.entry.now)) }
{
    let Some(line) = read_pairs(alloc, allowed, words)? else {
        return Ok(None);
    };
    if !are_plain(line.files) {
        return Ok(None);
    }
    Ok(Some(line))
}

// The first word that is no file name.
fn wrong_file(words: &[String]) -> Option<&str> {
    for word in words {
        if !is_plain(word.as_str()) {
            return Some(word.as_str());
        }
    }
    None
}

// Whether an option of this name stands in the words.
fn stands_in(words: &[String], option: &str) -> bool {
    for word in words {
        if word.as_str() == option {
            return true;
        }
    }
    false
}

/// The first word that has no place in a line of a command with these options, where one has none.
pub fn wrong_in<'w>(allowed: &[&str], words: &'w [String]) -> Option<&'w str> {
    let mut rest = words;
    'options: loop {
        let [option, behind @ ..] = rest else {
            return None;
        };
        let option = option.as_str();
        if is_plain(option) {
            return wrong_file(rest);
        }
        let before = &words[..words.len() - rest.len()];
        if !is_among(allowed, option) || stands_in(before, option) {
            return Some(option);
        }
        let [value, tail @ ..] = behind else {
            return Some(option);
        };
        if !is_plain(value.as_str()) {
            return Some(value.as_str());
        }
        rest = tail;
    }
}
