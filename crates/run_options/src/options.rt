//! Options among the words of a command line.

ghost use Rattle.std.specs.Prelude.{◌≡◌, ◌≤◌, IfOk, IfSome};
ghost use Rattle.xan_read.specs.Code.{Gives};
ghost use Rattle.xan_read.specs.Numbers.{number as spec_number};
ghost use Rattle.xan_read.specs.Reader.{whole_text};
ghost use Rattle.xan_read.specs.Words.{word};
ghost use Rattle.run_options.specs.Options as spec;
ghost use Rattle.run_options.specs.Options.{AreAllowed, IsWithin, rules_of};

use xan_io::is_value;
use xan_read::{Fault, nothing_left, number, word};

/// What a run may have.
#[derive(Clone, Copy)]
pub struct Limits {
    /// How many words the store may have.
    pub heap: u64,
    /// How many activations there may be at once.
    pub depth: u64,
    /// How many units of its work the run may take: steps, or fuel.
    pub units: u64,
}

/// Which options a command has. Two of them are always `--heap` and `--depth`.
#[derive(Clone, Copy)]
pub struct Options<'a> {
    /// The name of the third one.
    pub name: &'a str,
    /// What a run may have where nothing is said.
    pub usual: Limits,
    /// The most that may be said.
    pub most: Limits,
}

/// What an option says.
#[derive(Clone, Copy)]
pub enum Limit {
    Heap,
    Depth,
    Units,
}

/// The options that were given.
#[derive(Clone, Copy)]
pub struct Given {
    pub heap: Option<u64>,
    pub depth: Option<u64>,
    pub units: Option<u64>,
}

/// What the next word may be.
#[derive(Clone, Copy)]
pub enum Next {
    /// An option or a value.
    Any,
    /// The number of this option.
    NumberOf(Limit),
    /// A value, whatever it is.
    Value,
}

/// How far words were read.
#[derive(Clone, Copy)]
pub struct Reading {
    /// The options so far.
    pub given: Given,
    /// What comes next.
    pub next: Next,
}

/// What a word is.
#[derive(Clone, Copy)]
pub enum Met {
    /// A value.
    Value,
    /// A part of the options, behind which words are read so.
    Part(Reading),
}

/// What the word is, unless it may not stand here.
pub fn meet(options: &Options<'_>, reading: Reading, word: &str) -> Option<Met>
    requires { AreAllowed options.now.most reading.given }
    ensures met { result ≡ spec.met (rules_of options.now) reading.next reading.given word.now }
    ensures allowed { IfSome result (spec.IsAllowedBehind options.now.most) }
{
    match reading.next {
        Next::Any => {
            if is_value(word) {
                Some(Met::Value)
            } else if word == "--" {
                Some(Met::Part(goes_on(reading.given, Next::Value)))
            } else {
                meet_option(options, reading.given, word.as_bytes())
            }
        }
        Next::NumberOf(limit) => meet_number(options, reading.given, limit, word.as_bytes()),
        Next::Value => Some(Met::Value),
    }
}

/// The same of a word that is no value: an option with its number, or one whose number is the next word.
fn meet_option(options: &Options<'_>, given: Given, text: &[u8]) -> Option<Met>
    requires { AreAllowed options.now.most given }
    ensures met { result ≡ spec.met_option (rules_of options.now) given (word (spec.names options.now.name.now) text.now) }
    ensures allowed { IfSome result (spec.IsAllowedBehind options.now.most) }
{
    let Ok((limit, rest)) = read_name(options.name, text) else {
        return None;
    };
    match rest {
        [] => Some(Met::Part(goes_on(given, Next::NumberOf(limit)))),
        [first, text @ ..] => {
            if *first == b'=' {
                meet_number(options, given, limit, text)
            } else {
                None
            }
        }
    }
}

/// The name of an option at the front.
fn read_name<'a>(third: &str, bytes: &'a [u8]) -> Result<(Limit, &'a [u8]), Fault>
    ensures { Gives (λ x. (x.0, x.1.now)) result (word (spec.names third.now) bytes.now) }
{
    word(
        bytes,
        &[
            (b"--heap".as_slice(), Limit::Heap),
            (b"--depth".as_slice(), Limit::Depth),
            (third.as_bytes(), Limit::Units),
        ],
    )
}

/// The same of the number of an option.
fn meet_number(options: &Options<'_>, given: Given, limit: Limit, text: &[u8]) -> Option<Met>
    requires { AreAllowed options.now.most given }
    ensures met { result ≡ spec.met_number (rules_of options.now) given limit text.now }
    ensures allowed { IfSome result (spec.IsAllowedBehind options.now.most) }
{
    let given = with_number(options, given, limit, text)?;
    Some(Met::Part(goes_on(given, Next::Any)))
}

fn goes_on(given: Given, next: Next) -> Reading
    ensures { result ≡ record { given = given; next = next } }
{
    Reading { given, next }
}

/// The options with this one, unless it was given before, or its number is none that it may have.
fn with_number(options: &Options<'_>, given: Given, limit: Limit, text: &[u8]) -> Option<Given>
    requires { AreAllowed options.now.most given }
    ensures given { result ≡ spec.with_number (rules_of options.now) given limit text.now }
    ensures allowed { IfSome result (AreAllowed options.now.most) }
{
    let Given { heap, depth, units } = given;
    match limit {
        Limit::Heap => {
            let heap = Some(set_once(heap, options.most.heap, text)?);
            Some(Given { heap, depth, units })
        }
        Limit::Depth => {
            let depth = Some(set_once(depth, options.most.depth, text)?);
            Some(Given { heap, depth, units })
        }
        Limit::Units => {
            let units = Some(set_once(units, options.most.units, text)?);
            Some(Given { heap, depth, units })
        }
    }
}

/// The number of an option that was not given before.
fn set_once(before: Option<u64>, most: u64, text: &[u8]) -> Option<u64>
    ensures number { result ≡ spec.set_once before most text.now }
    ensures within { IfSome result (λ n. n ≤ most) }
{
    match before {
        Some(_) => None,
        None => number_of(most, text),
    }
}

/// The number that the text spells, in decimal, without a sign and without zeros in front.
#[tactic(auto, unfolding(crate::specs::Options::number_of))]
fn number_of(most: u64, text: &[u8]) -> Option<u64>
    ensures number { result ≡ spec.number_of most text.now }
    ensures within { IfSome result (λ n. n ≤ most) }
{
    match read_number(most, text) {
        Ok(number) => Some(number),
        Err(_fault) => None,
    }
}

fn read_number(most: u64, text: &[u8]) -> Result<u64, Fault>
    ensures read { Gives (λ n. n) result (whole_text (spec_number 0 most) text.now) }
    ensures within { IfOk result (λ n. n ≤ most) }
{
    let (number, rest) = number(text, 0, most)?;
    nothing_left(rest)?;
    Ok(number)
}

/// What a run may have, by the options that were given.
pub fn limits_of(options: &Options<'_>, given: Given) -> Limits
    requires usual { IsWithin options.now.most options.now.usual }
    requires given { AreAllowed options.now.most given }
    ensures limits { result ≡ spec.limits_of options.now.usual given }
    ensures allowed { IsWithin options.now.most result }
{
    Limits {
        heap: given.heap.unwrap_or(options.usual.heap),
        depth: given.depth.unwrap_or(options.usual.depth),
        units: given.units.unwrap_or(options.usual.units),
    }
}

/// Whether no option was given.
pub fn is_none_given(given: Given) -> bool
    ensures { result ≡ spec.none_given given }
{
    given.heap.is_none() && given.depth.is_none() && given.units.is_none()
}
