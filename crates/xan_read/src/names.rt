//! Names.

ghost use Rattle.std.specs.Prelude.{◌≡◌, ◌≤◌, map, length, option_map};
ghost use Rattle.xan_read.specs.Code.{Gives};
ghost use Rattle.xan_read.specs.Names.{name, in_name, is_among, run, after_byte};

use crate::fault::Fault;

/// Whether the byte stands in names.
fn in_name(b: u8) -> bool
    ensures { result ≡ in_name b }
{
    b.is_ascii_alphanumeric() || b == b'_'
}

/// Whether the text is one of the words.
fn is_among(words: &[&[u8]], text: &[u8]) -> bool
    ensures { result ≡ is_among (map (λ w. w.now) words.now) text.now }
{
    let mut others = words;
    'words: while let [word, later @ ..] = others {
        if *word == text {
            return true;
        }
        others = later;
    }
    false
}

/// The bytes behind the next one, if that stands in names.
#[tactic(auto, unfolding(crate::specs::Names::after_byte))]
fn after_byte(bytes: &[u8]) -> Option<&[u8]>
    ensures { option_map (λ rest. rest.now) result ≡ after_byte bytes.now }
{
    match bytes {
        [b, rest @ ..] if in_name(*b) => Some(rest),
        _ => None,
    }
}

/// How many bytes of names stand at the front.
#[tactic(auto, using(crate::proofs::NameLaws::run_ends))]
fn run_len(bytes: &[u8]) -> usize
    ensures value { result ≡ length (run bytes.now).0 }
    ensures within { result ≤ length bytes.now }
{
    let mut len = 0usize;
    let mut rest = bytes;
    'run: while let Some(others) = after_byte(rest) {
        len += 1;
        rest = others;
    }
    len
}

/// The bytes of names at the front, and the rest.
#[tactic(auto, using(crate::proofs::NameLaws::run_split))]
fn run(bytes: &[u8]) -> (&[u8], &[u8])
    ensures front { result.0.now ≡ (run bytes.now).0 }
    ensures back { result.1.now ≡ (run bytes.now).1 }
{
    bytes.split_at(run_len(bytes))
}

/// The name at the front, and the bytes behind it: a lower-case letter and then letters, digits and `_`.
/// One of the words is no name, and the fault is behind it.
#[tactic(auto, unfolding(crate::specs::Names::name))]
pub fn name<'a>(bytes: &'a [u8], words: &[&[u8]]) -> Result<(&'a [u8], &'a [u8]), Fault>
    ensures { Gives (λ x. (x.0.now, x.1.now)) result (name (map (λ w. w.now) words.now) bytes.now) }
{
    match bytes {
        [b, ..] if b.is_ascii_lowercase() => {
            let (front, rest) = run(bytes);
            if is_among(words, front) {
                return Err(Fault { left: rest.len() });
            }
            Ok((front, rest))
        }
        _ => Err(Fault { left: bytes.len() }),
    }
}
