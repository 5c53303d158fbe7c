//! The words of small tables.

ghost use Rattle.std.specs.Prelude.{◌≡◌};
ghost use Rattle.xan_read.specs.Code.{Gives};
ghost use Rattle.xan_read.specs.Words.{word};
ghost use Rattle.dtal_text.specs.LineReading.{op_words, last_words};
ghost use Rattle.dtal_text.specs.OperandReading.{comparisons, truths};
ghost use Rattle.dtal_text.specs.TypeReading.{kind_words, ty_words};

use crate::word::{LineWord, OpWord, TyWord};
use dtal_code::Cmp;
use xan_read::{Fault, word};

/// How the text of a type begins, and the bytes behind that.
pub(crate) fn read_ty_word(bytes: &[u8]) -> Result<(TyWord, &[u8]), Fault>
    ensures { Gives (λ x. (x.0, x.1.now)) result (word ty_words bytes.now) }
{
    word(
        bytes,
        &[
            (b"int(".as_slice(), TyWord::Int),
            (b"bool".as_slice(), TyWord::Bool),
            (b"arr(".as_slice(), TyWord::Array),
            (b"tup(".as_slice(), TyWord::Named),
        ],
    )
}

/// Whether a type line is that of a tuple type, and the bytes behind that word.
pub(crate) fn read_kind(bytes: &[u8]) -> Result<(bool, &[u8]), Fault>
    ensures { Gives (λ x. (x.0, x.1.now)) result (word kind_words bytes.now) }
{
    word(
        bytes,
        &[(b" tuple ".as_slice(), true), (b" cell ".as_slice(), false)],
    )
}

/// A comparison with the space behind it, and the bytes behind that.
pub(crate) fn read_comparison(bytes: &[u8]) -> Result<(Cmp, &[u8]), Fault>
    ensures { Gives (λ x. (x.0, x.1.now)) result (word comparisons bytes.now) }
{
    word(
        bytes,
        &[
            (b"lt ".as_slice(), Cmp::Lt),
            (b"le ".as_slice(), Cmp::Le),
            (b"eq ".as_slice(), Cmp::Eq),
            (b"ne ".as_slice(), Cmp::Ne),
        ],
    )
}

/// A truth value, and the bytes behind it.
pub(crate) fn read_truth(bytes: &[u8]) -> Result<(bool, &[u8]), Fault>
    ensures { Gives (λ x. (x.0, x.1.now)) result (word truths bytes.now) }
{
    word(bytes, &[(b"0".as_slice(), false), (b"1".as_slice(), true)])
}

/// The word of any instruction with the space behind it, and the bytes behind that.
pub(crate) fn read_op_word(bytes: &[u8]) -> Result<(LineWord, &[u8]), Fault>
    ensures { Gives (λ x. (x.0, x.1.now)) result (word op_words bytes.now) }
{
    word(
        bytes,
        &[
            (b"li ".as_slice(), LineWord::Op(OpWord::Li)),
            (b"lb ".as_slice(), LineWord::Op(OpWord::Lb)),
            (b"mv ".as_slice(), LineWord::Op(OpWord::Mv)),
            (b"add ".as_slice(), LineWord::Op(OpWord::Add)),
            (b"sub ".as_slice(), LineWord::Op(OpWord::Sub)),
            (b"mul ".as_slice(), LineWord::Op(OpWord::Mul)),
            (b"div ".as_slice(), LineWord::Op(OpWord::Div)),
            (b"mod ".as_slice(), LineWord::Op(OpWord::Mod)),
            (b"set ".as_slice(), LineWord::Op(OpWord::Set)),
            (b"br ".as_slice(), LineWord::Op(OpWord::Br)),
            (b"bt ".as_slice(), LineWord::Op(OpWord::Bt)),
            (b"bf ".as_slice(), LineWord::Op(OpWord::Bf)),
            (b"jmp ".as_slice(), LineWord::Op(OpWord::Jmp)),
            (b"call ".as_slice(), LineWord::Op(OpWord::Call)),
            (b"ret ".as_slice(), LineWord::Op(OpWord::Ret)),
            (b"len ".as_slice(), LineWord::Op(OpWord::Len)),
            (b"ld ".as_slice(), LineWord::Op(OpWord::Ld)),
            (b"st ".as_slice(), LineWord::Op(OpWord::St)),
            (b"new ".as_slice(), LineWord::Op(OpWord::New)),
            (b"tup ".as_slice(), LineWord::Op(OpWord::Tup)),
            (b"untup ".as_slice(), LineWord::Op(OpWord::Untup)),
            (b"print ".as_slice(), LineWord::Op(OpWord::Print)),
        ],
    )
}

/// The word of a jump or a return with the space behind it, and the bytes behind that.
pub(crate) fn read_last_word(bytes: &[u8]) -> Result<(LineWord, &[u8]), Fault>
    ensures { Gives (λ x. (x.0, x.1.now)) result (word last_words bytes.now) }
{
    word(
        bytes,
        &[
            (b"jmp ".as_slice(), LineWord::Op(OpWord::Jmp)),
            (b"ret ".as_slice(), LineWord::Op(OpWord::Ret)),
        ],
    )
}
