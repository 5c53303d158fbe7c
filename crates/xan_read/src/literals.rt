//! Literals, the byte that decides, and the end.

ghost use Rattle.std.specs.Prelude.{◌≡◌, ◌+◌, option_map, length};
ghost use Rattle.xan_read.specs.Code.{Gives};
ghost use Rattle.xan_read.specs.Reader.{nothing_left};
ghost use Rattle.xan_read.specs.Combinators.{literal, after};

use crate::fault::Fault;

/// The bytes behind the literal, or the place of the first byte that differs from it.
#[tactic(auto, unfolding(crate::specs::Combinators::literal))]
pub fn literal<'a>(bytes: &'a [u8], text: &[u8]) -> Result<&'a [u8], Fault>
    ensures { Gives (λ rest. rest.now) result (literal text.now bytes.now) }
{
    let mut wanted = text;
    let mut rest = bytes;
    while let [c, later @ ..] = wanted {
        match rest {
            [b, others @ ..] if *b == *c => rest = others,
            _ => return Err(Fault { left: rest.len() }),
        }
        wanted = later;
    }
    Ok(rest)
}

/// The bytes behind the byte `c`, if it is the next.
#[tactic(auto, unfolding(crate::specs::Combinators::after))]
pub fn after(bytes: &[u8], c: u8) -> Option<&[u8]>
    ensures { option_map (λ rest. rest.now) result ≡ after c bytes.now }
{
    match bytes {
        [b, rest @ ..] if *b == c => Some(rest),
        _ => None,
    }
}

/// That no bytes are left.
pub fn nothing_left(rest: &[u8]) -> Result<(), Fault>
    ensures { Gives (λ u. u) result (nothing_left rest.now) }
{
    if rest.is_empty() {
        Ok(())
    } else {
        Err(Fault { left: rest.len() })
    }
}
