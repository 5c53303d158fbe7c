//! The words with which the lines of a function may begin.

ghost use Rattle.std.specs.Prelude.{◌≡◌, ◌<◌, ◌-◌, ◌^◌, ◌++◌, codes};
ghost use Rattle.xan_read.specs.Code.{Gives};
ghost use Rattle.xan_read.specs.Words.{word, word_from};
ghost use Rattle.dtal_text.specs.LineReading.{instr_words, where_it_may, words_in, words_where, instrs_behind, label_may};
ghost use Rattle.dtal_text.specs.declared.word.LineWord.TheVariants as line_word;

use crate::line::{Lines, Stand, Which};
use crate::tables::{read_last_word, read_op_word};
use crate::word::LineWord;
use dtal_code::limits::LAST_NUMBER;
use xan_read::{Fault, literal};

// Which instructions may come behind so many.
fn instrs_behind(instrs: u64) -> Which
    requires { instrs < 2 ^ 64 - 1 }
    ensures { result ≡ instrs_behind instrs }
{
    let most = u64::from(LAST_NUMBER);
    if instrs + 1 < most {
        Which::Any
    } else if instrs < most {
        Which::Last
    } else {
        Which::Nothing
    }
}

// Whether a label may come behind the last instruction of a block.
fn label_may(state: Lines) -> bool
    ensures { result ≡ label_may state }
{
    let most = u64::from(LAST_NUMBER);
    state.labels < most && state.instrs < most
}

// The word of an instruction that may come.
fn read_instr_word(bytes: &[u8], instrs: Which) -> Result<(LineWord, &[u8]), Fault>
    ensures { Gives (λ x. (x.0, x.1.now)) result (word (instr_words instrs) bytes.now) }
{
    match instrs {
        Which::Any => read_op_word(bytes),
        Which::Last => read_last_word(bytes),
        Which::Nothing => Err(Fault { left: bytes.len() }),
    }
}

// The word, where it may come, behind other words that do not come.
#[tactic(auto, unfolding(xan_read::specs::Words::word_from))]
fn read_where<'a>(
    bytes: &'a [u8],
    before: Fault,
    may: bool,
    text: &[u8],
    word: LineWord,
) -> Result<(LineWord, &'a [u8]), Fault>
    ensures { Gives (λ x. (x.0, x.1.now)) result (word_from before.left (where_it_may may (text.now, word)) bytes.now) }
{
    if !may {
        return Err(before);
    }
    match literal(bytes, text) {
        Ok(rest) => Ok((word, rest)),
        Err(fault) => Err(Fault {
            left: before.left.min(fault.left),
        }),
    }
}

// The word of an instruction, or of lines of a proof.
fn read_instr_or_by(bytes: &[u8], instrs: Which, by: bool) -> Result<(LineWord, &[u8]), Fault>
    ensures { Gives (λ x. (x.0, x.1.now)) result (word (instr_words instrs ++ where_it_may by (codes "by ", line_word.By)) bytes.now) }
{
    match read_instr_word(bytes, instrs) {
        Ok(found) => Ok(found),
        Err(fault) => read_where(bytes, fault, by, b"by ", LineWord::By),
    }
}

// The word of a label, or the end.
fn read_label_or_end(
    bytes: &[u8],
    before: Fault,
    label: bool,
    end: bool,
) -> Result<(LineWord, &[u8]), Fault>
    ensures { Gives (λ x. (x.0, x.1.now)) result (word_from before.left (where_it_may label (codes "label ", line_word.Label) ++ where_it_may end (codes "end\n", line_word.End)) bytes.now) }
{
    match read_where(bytes, before, label, b"label ", LineWord::Label) {
        Ok(found) => Ok(found),
        Err(fault) => read_where(bytes, fault, end, b"end\n", LineWord::End),
    }
}

// The word of a line that may come.
fn read_word_in(
    bytes: &[u8],
    instrs: Which,
    by: bool,
    label: bool,
    end: bool,
) -> Result<(LineWord, &[u8]), Fault>
    ensures { Gives (λ x. (x.0, x.1.now)) result (word (words_in instrs by label end) bytes.now) }
{
    match read_instr_or_by(bytes, instrs, by) {
        Ok(found) => Ok(found),
        Err(fault) => read_label_or_end(bytes, fault, label, end),
    }
}

/// The word of the next line of a function, and the bytes behind it.
pub(crate) fn read_line_word(bytes: &[u8], state: Lines) -> Result<(LineWord, &[u8]), Fault>
    requires { state.instrs < 2 ^ 64 - 1 }
    ensures { Gives (λ x. (x.0, x.1.now)) result (word (words_where state) bytes.now) }
{
    let instrs = instrs_behind(state.instrs);
    match state.stand {
        Stand::First => read_word_in(bytes, instrs, false, false, false),
        Stand::Within => read_word_in(bytes, instrs, true, false, false),
        Stand::Last => read_word_in(bytes, instrs, true, label_may(state), true),
    }
}
