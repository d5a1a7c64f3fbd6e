// The words of the commands, and the table of their options.
ghost use Rattle.std.specs.Prelude.{◌≡◌, map, option_map};
ghost use Rattle.command_words.specs.Seen.{seen_row};
ghost use Rattle.command_words.specs.Table as spec;

/// A command's word.
#[derive(Clone, Copy, Debug, PartialEq, Eq)]
pub enum Verb {
    Check,
    Extract,
    Session,
    Replay,
    Lrat,
    Gen,
}

impl Verb {
    /// The word itself.
    pub fn word<'a>(self) -> &'a str
        ensures { result.now ≡ spec.word_of self }
    {
        match self {
            Verb::Check => "check",
            Verb::Extract => "extract",
            Verb::Session => "session",
            Verb::Replay => "replay",
            Verb::Lrat => "lrat",
            Verb::Gen => "gen",
        }
    }
}

/// The command of a word.
pub fn verb_of(word: &str) -> Option<Verb>
    ensures { result ≡ spec.verb_of word.now }
{
    match word {
        "check" => Some(Verb::Check),
        "extract" => Some(Verb::Extract),
        "session" => Some(Verb::Session),
        "replay" => Some(Verb::Replay),
        "lrat" => Some(Verb::Lrat),
        "gen" => Some(Verb::Gen),
        _ => None,
    }
}

/// An option: its name; what its value is called; whether `check`, `extract`, `session` and `replay` have it; whether they want it; and the value that counts where it is not given.
#[derive(Clone, Copy)]
pub struct OptionRow(
    pub &'static str,
    pub &'static str,
    pub bool,
    pub bool,
    pub bool,
    pub bool,
    pub bool,
    pub Option<&'static str>,
);

impl OptionRow {
    pub fn name<'a>(&self) -> &'a str
        ensures { result.now ≡ (seen_row self.now).name }
    {
        self.0
    }

    /// What usage texts call its value.
    pub fn value<'a>(&self) -> &'a str
        ensures { result.now ≡ (seen_row self.now).value }
    {
        self.1
    }

    /// Whether the command has the option.
    pub fn is_of(&self, verb: Verb) -> bool
        ensures { result ≡ spec.has verb (seen_row self.now) }
    {
        match verb {
            Verb::Check => self.2,
            Verb::Extract => self.3,
            Verb::Session => self.4,
            Verb::Replay => self.5,
            Verb::Lrat | Verb::Gen => false,
        }
    }

    pub fn is_wanted(&self) -> bool
        ensures { result ≡ (seen_row self.now).wanted }
    {
        self.6
    }

    /// The value that counts where it is not given.
    pub fn usual<'a>(&self) -> Option<&'a str>
        ensures { option_map (λ u. u.now) result ≡ (seen_row self.now).usual }
    {
        self.7
    }
}

const X: bool = true;

const O: bool = false;

// The options of all commands. The columns behind what the value is called: check, extract, session, replay, wanted.
static OPTIONS: [OptionRow; 14] = [
    OptionRow("top", "M", X, X, X, X, X, None),
    OptionRow("table", "F", X, O, O, X, X, None),
    OptionRow("plan", "F", O, X, O, O, X, None),
    OptionRow("script", "F", O, O, X, O, X, None),
    OptionRow("trace", "F", O, O, O, X, X, None),
    OptionRow("clock", "LIST", X, X, X, X, O, None),
    OptionRow("reset", "NAME=V,N", X, X, X, X, O, None),
    OptionRow("pin", "LIST", X, X, X, X, O, None),
    OptionRow("define", "LIST", X, X, X, X, O, None),
    OptionRow("box", "LIST", X, X, O, O, O, None),
    OptionRow("stub", "LIST", X, X, O, X, O, None),
    OptionRow("depth", "N", X, O, X, O, O, Some("8")),
    OptionRow("budget", "N", X, X, X, X, O, Some("4000")),
    OptionRow("proof", "ROW", X, O, O, O, O, None),
];

/// The options of all commands, in the order in which usage texts have them.
pub fn option_rows() -> &'static [OptionRow]
    ensures { map seen_row result.now ≡ spec.rows }
{
    OPTIONS.as_slice()
}
