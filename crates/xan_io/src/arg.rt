use xan_seq::Seq;

/// An argument of a run.
#[derive(Drop)]
pub enum Arg {
    /// A number.
    Int(i64),
    /// A truth value.
    Bool(bool),
    /// The cells of an array of numbers.
    Array(Seq<i64>),
}
