use xan_seq::Seq;

/// A linear form of index variables, as a source writes it: exact, whatever its size.
///
/// The terms rise by variable, one for a variable and none zero. A term is a coefficient and then the variable's number.
#[derive(Drop)]
pub struct Linear {
    pub terms: Seq<(i128, u32)>,
    pub constant: i128,
}
