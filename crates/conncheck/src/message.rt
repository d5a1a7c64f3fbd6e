// Replies of one text.
ghost use Rattle.std.specs.Prelude.{◌≡◌, ◌∷◌, [], IfOk};
ghost use Rattle.conncheck.specs.Seen.{said};

use crate::status::Status;
use crate::text::{fault_text, limit_text, line, log_text};
use bits_core::NoMemory;
use log_verdict::LogAnswer;
use std::alloc::Global;
use vl_lex::Source;
use vl_tree::{Code, Fault};

/// A reply of one text.
#[derive(Clone, Copy)]
pub enum Message<'a> {
    /// The words are no command.
    BadWords,
    /// The file of this name could not be read.
    Missing(&'a str),
    /// A limit is passed.
    Limit(Code),
    /// A fault of these files.
    Fault(&'a [Source<'a>], &'a Fault),
    /// The form of the file of this name is not built yet.
    NotYet(&'a str),
    /// What a log comes to.
    Log(LogAnswer),
}

impl Message<'_> {
    /// Takes no memory.
    pub fn status(&self) -> Status
        ensures { result ≡ (said self.now).status }
    {
        match self {
            Message::BadWords => Status::BadWords,
            Message::Missing(_) => Status::ReadFault,
            Message::Limit(_) => Status::Limit,
            Message::Fault(_, _) => Status::Refused,
            Message::NotYet(_) => Status::Refused,
            Message::Log(LogAnswer::Verified) => Status::Done,
            Message::Log(LogAnswer::Rejected(_)) => Status::Findings,
            Message::Log(LogAnswer::BadFormula(_)) => Status::Refused,
            Message::Log(LogAnswer::BadLog(_)) => Status::Refused,
        }
    }

    /// Whole lines. Linear in the text.
    pub fn text(&self, alloc: Global) -> Result<Vec<u8>, NoMemory>
        ensures { IfOk result (λ v. v.items ∷ [] ≡ (said self.now).pieces) }
    {
        match self {
            Message::BadWords => Ok(Vec::from_slice(alloc, b"BADWORDS\n")?),
            Message::Missing(name) => line(alloc, b"READFAULT ", name.as_bytes()),
            Message::Limit(code) => limit_text(alloc, *code),
            Message::Fault(files, fault) => fault_text(alloc, files, fault),
            Message::NotYet(name) => line(alloc, b"REFUSED E00 NotYet\nAT ", name.as_bytes()),
            Message::Log(answer) => log_text(alloc, *answer),
        }
    }
}
