//! Values of a source.

ghost use Rattle.std.specs.Prelude.{◌≡◌};
ghost use Rattle.source_values.specs.Halts.{Gives};
ghost use Rattle.source_values.specs.Tags.{tag_of};
ghost use Rattle.source_values.specs.Values as spec;
ghost use Rattle.typed_core.specs.SourceValues.{Value as Plain, number, same_tag};

use crate::halt::Halt;
use std::marker::Model;

/// What kind of value a word is.
#[derive(Clone, Copy, Drop)]
pub enum Tag {
    /// A number, which is itself.
    Number,
    /// A truth value, 0 or 1.
    Truth,
    /// An array, by the number of its block.
    Array,
    /// A tuple, by the number of its block.
    Tuple,
}

/// Whether both are the same kind.
fn is_same(one: Tag, other: Tag) -> bool
    ensures { result ≡ same_tag (tag_of one) (tag_of other) }
{
    match one {
        Tag::Number => matches!(other, Tag::Number),
        Tag::Truth => matches!(other, Tag::Truth),
        Tag::Array => matches!(other, Tag::Array),
        Tag::Tuple => matches!(other, Tag::Tuple),
    }
}

/// A value. It is seen as that of the meaning.
#[derive(Drop)]
pub struct Value {
    tag: Tag,
    word: i64,
}

impl Model for Value {
    ghost use Rattle.source_values.specs.Tags.{tag_of};
    ghost use Rattle.typed_core.specs.SourceValues as values;

    ghost Value = { values.Value };

    ghost view = { λ v. record { tag = tag_of v.tag; word = v.word } };
}

impl Value {
    /// The value of a kind with this word.
    pub fn new(tag: Tag, word: &i64) -> Value
        ensures { result ≡ record { tag = tag_of tag; word = word.now } }
    {
        Value { tag, word: *word }
    }

    /// A number.
    pub fn number(word: &i64) -> Value
        ensures { result ≡ number word.now }
    {
        Value::new(Tag::Number, word)
    }

    /// A truth value.
    pub fn truth(truth: bool) -> Value
        ensures { result ≡ spec.truth_value truth }
    {
        if truth {
            Value::new(Tag::Truth, &1)
        } else {
            Value::new(Tag::Truth, &0)
        }
    }

    /// An equal value.
    pub fn copy(&self) -> Value
        ensures { result ≡ self.now }
    {
        Value {
            tag: self.tag,
            word: self.word,
        }
    }

    /// The word, where the value is of this kind.
    pub fn word_in(&self, tag: Tag) -> Option<i64>
        ensures { result ≡ spec.word_in (tag_of tag) self.now }
    {
        if is_same(self.tag, tag) {
            Some(self.word)
        } else {
            None
        }
    }

    /// The truth value.
    pub fn decided(&self) -> Result<bool, Halt>
        ensures { Gives (λ truth. truth) result (spec.decided self.now) }
    {
        match self.word_in(Tag::Truth) {
            Some(word) => Ok(word == 1),
            None => Err(Halt::Stuck),
        }
    }

    /// Whether the other value is of the same kind.
    pub fn is_like(&self, other: &Value) -> bool
        ensures { result ≡ same_tag self.now.tag other.now.tag }
    {
        is_same(self.tag, other.tag)
    }

    /// Another word of the same kind.
    pub fn with_word(&self, word: &i64) -> Value
        ensures { result ≡ record self.now { word = word.now } }
    {
        Value::new(self.tag, word)
    }

    /// The word, whatever its kind.
    pub fn word(&self) -> &i64
        ensures { result.now ≡ self.now.word }
    {
        &self.word
    }
}
