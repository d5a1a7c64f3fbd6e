ghost use Rattle.std.specs.Prelude.{◌≡◌, ◌∷◌, ◌++◌, [], suc, IfOk, OnOk, length};
ghost use Rattle.cnf_core.specs.Text.{text_lines};
ghost use Rattle.log_verdict.specs.Lines.{past, upto};

use bits_core::NoMemory;
use cnf_core::{Separator, cut};
use std::alloc::Global;

/// A text cut at a marker line: a copy of the lines before it, how many lines that are with the marker, and the text behind.
#[derive(Drop)]
pub struct Parted<'t> {
    pub front: Vec<u8>,
    pub lines: u64,
    pub behind: &'t [u8],
}

/// Adds a line and the newline that ends it.
fn push_line(front: &mut Vec<u8>, line: &[u8]) -> Result<(), NoMemory>
    ensures { OnOk result (front.new.items ≡ front.old.items ++ (line.now ++ 10 ∷ [])) }
{
    front.extend_from_slice(line)?;
    front.push(b'\n')?;
    Ok(())
}

/// Cuts a text at its first line that is the marker. Linear in the text.
pub fn part_at<'t>(alloc: Global, text: &'t [u8], marker: &[u8]) -> Result<Parted<'t>, NoMemory>
    ensures front { IfOk result (λ p. text_lines p.front.items ≡ upto marker.now (text_lines text.now)) }
    ensures behind { IfOk result (λ p. text_lines p.behind.now ≡ past marker.now (text_lines text.now)) }
    ensures lines { IfOk result (λ p. p.lines ≡ suc (length (upto marker.now (text_lines text.now)))) }
{
    let mut front = Vec::new(alloc);
    let mut lines: u64 = 1;
    let mut rest = text;
    while !rest.is_empty() {
        let (line, behind) = cut(rest, Separator::Newline);
        if line == marker {
            return Ok(Parted {
                front,
                lines,
                behind,
            });
        }
        push_line(&mut front, line)?;
        lines += 1;
        rest = behind;
    }
    Ok(Parted {
        front,
        lines,
        behind: rest,
    })
}
