ghost use Rattle.xan_read.specs.Reader.{ReadsWhole};
ghost use Rattle.dtal_code.specs.Grammar.{Spells};
ghost use Rattle.dtal_text.specs.ProgramReading.{program};

/// What is read as a program is spelled so, and what is spelled so is read; where reading fails, the bytes before the fault begin some text of
/// a program, and one byte more begins none; and a text spells at most one program.
pub fn program_texts_are_read()
    ensures { ReadsWhole program (λ p bytes. Spells bytes p) }
{}
