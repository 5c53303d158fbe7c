//! The words of a command line.

ghost use Rattle.std.specs.Prelude.{◌≡◌, IfOk, drop, map, string_bytes};
ghost use Rattle.xan_io.specs.Words as spec;
ghost use Rattle.xan_io.specs.Words.{texts};

use std::alloc::{AllocError, Global};

/// The words behind a program's own name.
pub fn words_behind_name(alloc: Global, args: &[String]) -> Result<Vec<&str>, AllocError>
    ensures { IfOk result (λ words. texts words.items ≡ map string_bytes (drop 1 args.now)) }
{
    text_of_each(alloc, behind_name(args))
}

fn text_of_each(alloc: Global, words: &[String]) -> Result<Vec<&str>, AllocError>
    ensures { IfOk result (λ texts. map (λ text. text.now) texts.items ≡ map string_bytes words.now) }
{
    let mut texts = Vec::new(alloc);
    for word in words {
        texts.push(word.as_str())?;
    }
    Ok(texts)
}

fn behind_name(args: &[String]) -> &[String]
    ensures { result.now ≡ drop 1 args.now }
{
    match args {
        [_name, words @ ..] => words,
        [] => args,
    }
}

/// Whether the word is a value: it does not begin with `-`, or is no longer than that.
pub fn is_value(word: &str) -> bool
    ensures { result ≡ spec.is_value word.now }
{
    match word.as_bytes() {
        [b'-', _, ..] => false,
        _ => true,
    }
}
