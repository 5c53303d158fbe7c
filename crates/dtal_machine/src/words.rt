//! The parts of an instruction's first word.

ghost use Rattle.std.specs.Prelude.{◌≡◌, ◌<◌};
ghost use Rattle.dtal_code.specs.Guessed.{byte_at, high_of};

/// The byte of the word that is worth so much.
pub(crate) fn byte(word: u64, worth: u64) -> u8
    requires { 0 < worth }
    ensures { result ≡ byte_at worth word }
{
    (word / worth % 256) as u8
}

/// Its bytes 4 to 7.
pub(crate) fn high(word: u64) -> u32
    ensures { result ≡ high_of word }
{
    (word / 4_294_967_296) as u32
}
