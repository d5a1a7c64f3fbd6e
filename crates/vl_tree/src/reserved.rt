ghost use Rattle.std.specs.Prelude.{◌≡◌, map};
ghost use Rattle.vl_tree.specs.Words as spec;

use crate::words::Word;

/// The reserved words with this first byte, those of the grammar and those that are left out (IEEE 1364-2005, annex B).
#[tactic(auto, unfolding(crate::specs::Words::words_with_a, crate::specs::Words::words_with_b, crate::specs::Words::words_with_c, crate::specs::Words::words_with_d, crate::specs::Words::words_with_e, crate::specs::Words::words_with_f, crate::specs::Words::words_with_g, crate::specs::Words::words_with_h, crate::specs::Words::words_with_i, crate::specs::Words::words_with_j, crate::specs::Words::words_with_l, crate::specs::Words::words_with_m, crate::specs::Words::words_with_n, crate::specs::Words::words_with_o, crate::specs::Words::words_with_p, crate::specs::Words::words_with_r, crate::specs::Words::words_with_s, crate::specs::Words::words_with_t, crate::specs::Words::words_with_u, crate::specs::Words::words_with_v, crate::specs::Words::words_with_w, crate::specs::Words::words_with_x))]
pub fn words_with(first: u8) -> &'static [(&'static [u8], Word)]
    ensures { map (λ e. (e.0.now, e.1)) result.now ≡ spec.words_with first }
{
    match first {
        b'a' => &WORDS_WITH_A,
        b'b' => &WORDS_WITH_B,
        b'c' => &WORDS_WITH_C,
        b'd' => &WORDS_WITH_D,
        b'e' => &WORDS_WITH_E,
        b'f' => &WORDS_WITH_F,
        b'g' => &WORDS_WITH_G,
        b'h' => &WORDS_WITH_H,
        b'i' => &WORDS_WITH_I,
        b'j' => &WORDS_WITH_J,
        b'l' => &WORDS_WITH_L,
        b'm' => &WORDS_WITH_M,
        b'n' => &WORDS_WITH_N,
        b'o' => &WORDS_WITH_O,
        b'p' => &WORDS_WITH_P,
        b'r' => &WORDS_WITH_R,
        b's' => &WORDS_WITH_S,
        b't' => &WORDS_WITH_T,
        b'u' => &WORDS_WITH_U,
        b'v' => &WORDS_WITH_V,
        b'w' => &WORDS_WITH_W,
        b'x' => &WORDS_WITH_X,
        _ => &[],
    }
}

const WORDS_WITH_A: [(&[u8], Word); 4] = [
    (b"always", Word::Always),
    (b"and", Word::And),
    (b"assign", Word::Assign),
    (b"automatic", Word::Automatic),
];

const WORDS_WITH_B: [(&[u8], Word); 4] = [
    (b"begin", Word::Begin),
    (b"buf", Word::Buf),
    (b"bufif0", Word::LeftOut),
    (b"bufif1", Word::LeftOut),
];

const WORDS_WITH_C: [(&[u8], Word); 6] = [
    (b"case", Word::Case),
    (b"casex", Word::LeftOut),
    (b"casez", Word::CaseZ),
    (b"cell", Word::LeftOut),
    (b"cmos", Word::LeftOut),
    (b"config", Word::LeftOut),
];

const WORDS_WITH_D: [(&[u8], Word); 5] = [
    (b"deassign", Word::LeftOut),
    (b"default", Word::Default),
    (b"defparam", Word::LeftOut),
    (b"design", Word::LeftOut),
    (b"disable", Word::LeftOut),
];

const WORDS_WITH_E: [(&[u8], Word); 13] = [
    (b"edge", Word::LeftOut),
    (b"else", Word::Else),
    (b"end", Word::End),
    (b"endcase", Word::EndCase),
    (b"endconfig", Word::LeftOut),
    (b"endfunction", Word::EndFunction),
    (b"endgenerate", Word::EndGenerate),
    (b"endmodule", Word::EndModule),
    (b"endprimitive", Word::LeftOut),
    (b"endspecify", Word::LeftOut),
    (b"endtable", Word::LeftOut),
    (b"endtask", Word::LeftOut),
    (b"event", Word::LeftOut),
];

const WORDS_WITH_F: [(&[u8], Word); 5] = [
    (b"for", Word::For),
    (b"force", Word::LeftOut),
    (b"forever", Word::LeftOut),
    (b"fork", Word::LeftOut),
    (b"function", Word::Function),
];

const WORDS_WITH_G: [(&[u8], Word); 2] = [(b"generate", Word::Generate), (b"genvar", Word::GenVar)];

const WORDS_WITH_H: [(&[u8], Word); 2] = [(b"highz0", Word::LeftOut), (b"highz1", Word::LeftOut)];

const WORDS_WITH_I: [(&[u8], Word); 9] = [
    (b"if", Word::If),
    (b"ifnone", Word::LeftOut),
    (b"incdir", Word::LeftOut),
    (b"include", Word::LeftOut),
    (b"initial", Word::Initial),
    (b"inout", Word::LeftOut),
    (b"input", Word::Input),
    (b"instance", Word::LeftOut),
    (b"integer", Word::Integer),
];

const WORDS_WITH_J: [(&[u8], Word); 1] = [(b"join", Word::LeftOut)];

const WORDS_WITH_L: [(&[u8], Word); 4] = [
    (b"large", Word::LeftOut),
    (b"liblist", Word::LeftOut),
    (b"library", Word::LeftOut),
    (b"localparam", Word::LocalParam),
];

const WORDS_WITH_M: [(&[u8], Word); 3] = [
    (b"macromodule", Word::LeftOut),
    (b"medium", Word::LeftOut),
    (b"module", Word::Module),
];

const WORDS_WITH_N: [(&[u8], Word); 8] = [
    (b"nand", Word::Nand),
    (b"negedge", Word::Negedge),
    (b"nmos", Word::LeftOut),
    (b"nor", Word::Nor),
    (b"noshowcancelled", Word::LeftOut),
    (b"not", Word::Not),
    (b"notif0", Word::LeftOut),
    (b"notif1", Word::LeftOut),
];

const WORDS_WITH_O: [(&[u8], Word); 2] = [(b"or", Word::Or), (b"output", Word::Output)];

const WORDS_WITH_P: [(&[u8], Word); 10] = [
    (b"parameter", Word::Parameter),
    (b"pmos", Word::LeftOut),
    (b"posedge", Word::Posedge),
    (b"primitive", Word::LeftOut),
    (b"pull0", Word::LeftOut),
    (b"pull1", Word::LeftOut),
    (b"pulldown", Word::LeftOut),
    (b"pullup", Word::LeftOut),
    (b"pulsestyle_ondetect", Word::LeftOut),
    (b"pulsestyle_onevent", Word::LeftOut),
];

const WORDS_WITH_R: [(&[u8], Word); 11] = [
    (b"rcmos", Word::LeftOut),
    (b"real", Word::LeftOut),
    (b"realtime", Word::LeftOut),
    (b"reg", Word::Reg),
    (b"release", Word::LeftOut),
    (b"repeat", Word::LeftOut),
    (b"rnmos", Word::LeftOut),
    (b"rpmos", Word::LeftOut),
    (b"rtran", Word::LeftOut),
    (b"rtranif0", Word::LeftOut),
    (b"rtranif1", Word::LeftOut),
];

const WORDS_WITH_S: [(&[u8], Word); 10] = [
    (b"scalared", Word::LeftOut),
    (b"showcancelled", Word::LeftOut),
    (b"signed", Word::Signed),
    (b"small", Word::LeftOut),
    (b"specify", Word::LeftOut),
    (b"specparam", Word::LeftOut),
    (b"strong0", Word::LeftOut),
    (b"strong1", Word::LeftOut),
    (b"supply0", Word::LeftOut),
    (b"supply1", Word::LeftOut),
];

const WORDS_WITH_T: [(&[u8], Word); 12] = [
    (b"table", Word::LeftOut),
    (b"task", Word::LeftOut),
    (b"time", Word::LeftOut),
    (b"tran", Word::LeftOut),
    (b"tranif0", Word::LeftOut),
    (b"tranif1", Word::LeftOut),
    (b"tri", Word::LeftOut),
    (b"tri0", Word::LeftOut),
    (b"tri1", Word::LeftOut),
    (b"triand", Word::LeftOut),
    (b"trior", Word::LeftOut),
    (b"trireg", Word::LeftOut),
];

const WORDS_WITH_U: [(&[u8], Word); 3] = [
    (b"unsigned", Word::LeftOut),
    (b"use", Word::LeftOut),
    (b"uwire", Word::LeftOut),
];

const WORDS_WITH_V: [(&[u8], Word); 1] = [(b"vectored", Word::LeftOut)];

const WORDS_WITH_W: [(&[u8], Word); 7] = [
    (b"wait", Word::LeftOut),
    (b"wand", Word::LeftOut),
    (b"weak0", Word::LeftOut),
    (b"weak1", Word::LeftOut),
    (b"while", Word::LeftOut),
    (b"wire", Word::Wire),
    (b"wor", Word::LeftOut),
];

const WORDS_WITH_X: [(&[u8], Word); 2] = [(b"xnor", Word::Xnor), (b"xor", Word::Xor)];
