ghost use Rattle.std.specs.Prelude.{◌≡◌, ◌<◌, ◌∷◌, [], length, true, MatchOption};
ghost use Rattle.cnf_core.specs.Text.{is_newline, is_blank, parts, words_of, is_comment};
ghost use Rattle.cnf_core.specs.Separators.{ends};

/// What ends a part of a text: a newline ends a line, a blank (space, tab, carriage return) a word.
#[derive(Clone, Copy)]
pub enum Separator {
    Newline,
    Blank,
}

impl Separator {
    fn ends(self, byte: u8) -> bool
        ensures { result ≡ ends self byte }
    {
        match self {
            Separator::Newline => byte == b'\n',
            Separator::Blank => byte == b' ' || byte == b'\t' || byte == b'\r',
        }
    }
}

/// The first part of a text that is not empty, and what comes behind its end. Linear in the part.
pub fn cut(text: &[u8], separator: Separator) -> (&[u8], &[u8])
    requires { 0 < length text.now }
    ensures parts { parts (ends separator) text.now ≡ result.0.now ∷ parts (ends separator) result.1.now }
    ensures shorter { length result.1.now < length text.now }
{
    for i in 0..text.len() {
        if separator.ends(text[i]) {
            return (text.split_at(i).0, text.split_at(i + 1).1);
        }
    }
    text.split_at(text.len())
}

/// The first word of a line, and what comes behind it; none where the line has blanks alone. Linear in what it passes over.
pub fn next_word(line: &[u8]) -> Option<(&[u8], &[u8])>
    ensures words { MatchOption result (words_of line.now ≡ []) (λ found. words_of line.now ≡ found.0.now ∷ words_of found.1.now) }
    ensures shorter { MatchOption result (Unit {0}) (λ found. length found.1.now < length line.now) }
{
    let mut rest = line;
    while !rest.is_empty() {
        let (word, behind) = cut(rest, Separator::Blank);
        if !word.is_empty() {
            return Some((word, behind));
        }
        rest = behind;
    }
    None
}

/// Whether the line is a comment: its first byte is `c`.
pub fn is_comment(line: &[u8]) -> bool
    ensures { result ≡ is_comment line.now }
{
    match line.first() {
        Some(byte) => *byte == b'c',
        None => false,
    }
}
