//! Where a program is refused, and by which rule.

/// A place of a program. Places are visited in this order: the types, the signatures, the program, and then for each function its labels
/// and its instructions.
#[derive(Clone, Copy, Drop)]
pub enum Where {
    /// The written type of this number, from 2 on.
    Types(u32),
    /// The signature of the function of this number.
    Signature(u32),
    /// The program as a whole.
    Program,
    /// A label: the number of its function, and its own, from 1 on.
    Label(u32, u32),
    /// An instruction: the number of its function, and its own in the function, from 0 on.
    Instr(u32, u32),
}

/// A rule of acceptance. At one place they are looked at in this order.
#[derive(Clone, Copy, Drop)]
pub enum Rule {
    /// No function before it has its name.
    Name,
    /// There is a function `main`, of the kinds that arguments and an answer can have.
    Main,
    /// The label or the function exists.
    Target,
    /// The type exists, and it is a tuple type where one is asked for.
    NoType,
    /// Each place that is read has a type, and no place is written twice.
    Place,
    /// As many arguments or parts as asked for.
    Count,
    /// The kind and the number of the type that is asked for.
    Kind,
    /// Each quantified variable is an index by itself, under its own quantifier.
    Alone,
    /// The listed variables are the label's and not the signature's.
    Edge,
    /// A form names only variables that are there, and a form that is needed is within the bounds.
    Form,
    /// No more variables and rows than a context has.
    Size,
    /// Each demanded row is known, or lines prove it.
    Lines,
}

/// Why a program is not accepted: the first place, and its first rule.
#[derive(Clone, Copy, Drop)]
pub struct Refusal {
    /// The place.
    pub at: Where,
    /// The rule.
    pub rule: Rule,
}
