//! Expressions, a function for each level of precedence.
//!
//! The levels take the reader of the expressions in brackets as a parameter, so that each is proved by itself.

ghost use Rattle.std.specs.Prelude.{◌≡◌, map};
ghost use Rattle.std.specs.Option.{option_map};
ghost use Rattle.xanadu_tree.specs.PlainTreeOf.{plain_expression, plain_conjunction, plain_negation, plain_comparison, plain_sum, plain_product, plain_unary, plain_postfix, plain_primary};
ghost use Rattle.xanadu_tree.specs.Written.{primary_at};
ghost use Rattle.expression_parser.specs.Code.{Reads};
ghost use Rattle.expression_parser.specs.Expressions as spec;
ghost use Rattle.expression_parser.specs.Nests.{Nests};
ghost use Rattle.expression_parser.specs.Views.{behind_or, behind_and, behind_sign, behind_factor, in_brackets};

use crate::operators::{eat_product_operator, eat_relation, eat_sum_operator};
use crate::room::{push_closely, push_operand, push_placed, push_read};
use crate::stop::Stop;
use crate::tokens::Tokens;
use crate::written_types::element;
use std::alloc::Global;
use xanadu_lexer::{Keyword, Symbol};
use xanadu_tree::{
    Comparison, Conjunction, Expression, Identifier, Negation, Op, Postfix, Primary, Product, Rel,
    Sum, Unary,
};

/// Where a primary begins.
#[tactic(auto, using(xanadu_tree::proofs::TreeEquations::made_nodes))]
fn primary_at(primary: &Primary) -> u32
    ensures { result ≡ primary_at (plain_primary primary.now) }
{
    match primary {
        Primary::Number(_, at)
        | Primary::Truth(_, at)
        | Primary::Length(_, at)
        | Primary::New { at, .. }
        | Primary::Group(_, at) => *at,
        Primary::Variable(name) | Primary::Call(name, _) | Primary::Make(name, _) => name.at,
    }
}

/// What reads an expression, for those that stand in brackets.
#[derive(Clone, Copy)]
pub struct Levels<F> {
    alloc: Global,
    /// How often expressions may still nest.
    room: usize,
    expression: F,
}

/// An expression, in which others nest fewer than `room` times. A fault is told at the first token of one that nests deeper: the number of
/// tokens, which no nesting passes, is room enough.
#[tactic(auto, unfolding(crate::specs::Expressions::expression))]
pub fn expression(alloc: Global, tokens: &mut Tokens<'_>, room: usize) -> Result<Expression, Stop>
    ensures { Reads plain_expression result tokens.new (spec.expression room tokens.old) }
{
    if room == 0 {
        return Err(tokens.fault());
    }
    Levels {
        alloc,
        room: room - 1,
        expression,
    }
    .disjunction(tokens)
}

impl<F: Fn(Global, &mut Tokens<'_>, usize) -> Result<Expression, Stop>> Levels<F> {
    /// An expression that nests in this one.
    fn inner(&self, tokens: &mut Tokens<'_>) -> Result<Expression, Stop>
        requires { Nests self.now.room (F.pre self.now.expression) (F.post self.now.expression) }
        ensures { Reads plain_expression result tokens.new (spec.expression self.now.room tokens.old) }
    {
        (self.expression)(self.alloc, tokens, self.room)
    }

    /// Conjunctions behind `||`.
    #[tactic(auto, unfolding(crate::specs::Expressions::conjunctions))]
    fn conjunctions(&self, tokens: &mut Tokens<'_>) -> Result<Vec<(Conjunction, u32)>, Stop>
        requires { Nests self.now.room (F.pre self.now.expression) (F.post self.now.expression) }
        ensures { Reads (λ x. map behind_or x.items) result tokens.new (spec.conjunctions (spec.expression self.now.room) tokens.old) }
    {
        let mut found = Vec::new(self.alloc);
        for _turn in 0..tokens.left() {
            let Some(at) = tokens.eat_symbol(Symbol::Or) else {
                return Ok(found);
            };
            push_placed(&mut found, self.conjunction(tokens), at)?;
        }
        Ok(found)
    }

    #[tactic(auto, using(xanadu_tree::proofs::TreeEquations::made_nodes, crate::proofs::Places::places), unfolding(crate::specs::Expressions::disjunction))]
    fn disjunction(&self, tokens: &mut Tokens<'_>) -> Result<Expression, Stop>
        requires { Nests self.now.room (F.pre self.now.expression) (F.post self.now.expression) }
        ensures { Reads plain_expression result tokens.new (spec.disjunction (spec.expression self.now.room) tokens.old) }
    {
        let first = self.conjunction(tokens)?;
        let at = first.at;
        let rest = match self.conjunctions(tokens) {
            Ok(rest) => rest,
            Err(stop) => return Err(stop.behind(first)),
        };
        Ok(Expression { first, rest, at })
    }

    /// Negations behind `&&`.
    #[tactic(auto, unfolding(crate::specs::Expressions::negations))]
    fn negations(&self, tokens: &mut Tokens<'_>) -> Result<Vec<(Negation, u32)>, Stop>
        requires { Nests self.now.room (F.pre self.now.expression) (F.post self.now.expression) }
        ensures { Reads (λ x. map behind_and x.items) result tokens.new (spec.negations (spec.expression self.now.room) tokens.old) }
    {
        let mut found = Vec::new(self.alloc);
        for _turn in 0..tokens.left() {
            let Some(at) = tokens.eat_symbol(Symbol::And) else {
                return Ok(found);
            };
            push_placed(&mut found, self.negation(tokens), at)?;
        }
        Ok(found)
    }

    #[tactic(auto, using(xanadu_tree::proofs::TreeEquations::made_nodes, crate::proofs::Places::places), unfolding(crate::specs::Expressions::conjunction))]
    fn conjunction(&self, tokens: &mut Tokens<'_>) -> Result<Conjunction, Stop>
        requires { Nests self.now.room (F.pre self.now.expression) (F.post self.now.expression) }
        ensures { Reads plain_conjunction result tokens.new (spec.conjunction (spec.expression self.now.room) tokens.old) }
    {
        let first = self.negation(tokens)?;
        let at = first.at;
        let rest = match self.negations(tokens) {
            Ok(rest) => rest,
            Err(stop) => return Err(stop.behind(first)),
        };
        Ok(Conjunction { first, rest, at })
    }

    #[tactic(auto, using(xanadu_tree::proofs::TreeEquations::made_nodes, crate::proofs::Places::places), unfolding(crate::specs::Expressions::negation))]
    fn negation(&self, tokens: &mut Tokens<'_>) -> Result<Negation, Stop>
        requires { Nests self.now.room (F.pre self.now.expression) (F.post self.now.expression) }
        ensures { Reads plain_negation result tokens.new (spec.negation (spec.expression self.now.room) tokens.old) }
    {
        let mark = tokens.eat_symbol(Symbol::Not);
        let operand = self.comparison(tokens)?;
        Ok(Negation {
            negated: mark.is_some(),
            at: mark.unwrap_or(operand.at),
            operand,
        })
    }

    /// The right side of a comparison with its relation, or nothing.
    #[tactic(auto, unfolding(crate::specs::Expressions::compared))]
    fn compared(&self, tokens: &mut Tokens<'_>) -> Result<Option<(Rel, Box<Sum>)>, Stop>
        requires { Nests self.now.room (F.pre self.now.expression) (F.post self.now.expression) }
        ensures { Reads (option_map (λ c. (c.0, plain_sum c.1.value))) result tokens.new (spec.compared (spec.expression self.now.room) tokens.old) }
    {
        let Some((relation, _)) = eat_relation(tokens) else {
            return Ok(None);
        };
        let right = self.sum(tokens)?;
        Ok(Some((relation, Box::new(self.alloc, right)?)))
    }

    #[tactic(auto, using(xanadu_tree::proofs::TreeEquations::made_nodes, crate::proofs::Places::places), unfolding(crate::specs::Expressions::comparison))]
    fn comparison(&self, tokens: &mut Tokens<'_>) -> Result<Comparison, Stop>
        requires { Nests self.now.room (F.pre self.now.expression) (F.post self.now.expression) }
        ensures { Reads plain_comparison result tokens.new (spec.comparison (spec.expression self.now.room) tokens.old) }
    {
        let left = self.sum(tokens)?;
        let at = left.at;
        let right = match self.compared(tokens) {
            Ok(right) => right,
            Err(stop) => return Err(stop.behind(left)),
        };
        Ok(Comparison { left, right, at })
    }

    /// Products behind `+` and `-`.
    #[tactic(auto, unfolding(crate::specs::Expressions::products))]
    fn products(&self, tokens: &mut Tokens<'_>) -> Result<Vec<(Op, Product, u32)>, Stop>
        requires { Nests self.now.room (F.pre self.now.expression) (F.post self.now.expression) }
        ensures { Reads (λ x. map behind_sign x.items) result tokens.new (spec.products (spec.expression self.now.room) tokens.old) }
    {
        let mut found = Vec::new(self.alloc);
        for _turn in 0..tokens.left() {
            let Some((op, at)) = eat_sum_operator(tokens) else {
                return Ok(found);
            };
            push_operand(&mut found, op, self.product(tokens), at)?;
        }
        Ok(found)
    }

    #[tactic(auto, using(xanadu_tree::proofs::TreeEquations::made_nodes, crate::proofs::Places::places), unfolding(crate::specs::Expressions::sum))]
    fn sum(&self, tokens: &mut Tokens<'_>) -> Result<Sum, Stop>
        requires { Nests self.now.room (F.pre self.now.expression) (F.post self.now.expression) }
        ensures { Reads plain_sum result tokens.new (spec.sum (spec.expression self.now.room) tokens.old) }
    {
        let first = self.product(tokens)?;
        let at = first.at;
        let rest = match self.products(tokens) {
            Ok(rest) => rest,
            Err(stop) => return Err(stop.behind(first)),
        };
        Ok(Sum { first, rest, at })
    }

    /// Operands behind `*`, `/` and `%`.
    #[tactic(auto, unfolding(crate::specs::Expressions::operands))]
    fn operands(&self, tokens: &mut Tokens<'_>) -> Result<Vec<(Op, Unary, u32)>, Stop>
        requires { Nests self.now.room (F.pre self.now.expression) (F.post self.now.expression) }
        ensures { Reads (λ x. map behind_factor x.items) result tokens.new (spec.operands (spec.expression self.now.room) tokens.old) }
    {
        let mut found = Vec::new(self.alloc);
        for _turn in 0..tokens.left() {
            let Some((op, at)) = eat_product_operator(tokens) else {
                return Ok(found);
            };
            push_operand(&mut found, op, self.unary(tokens), at)?;
        }
        Ok(found)
    }

    #[tactic(auto, using(xanadu_tree::proofs::TreeEquations::made_nodes, crate::proofs::Places::places), unfolding(crate::specs::Expressions::product))]
    fn product(&self, tokens: &mut Tokens<'_>) -> Result<Product, Stop>
        requires { Nests self.now.room (F.pre self.now.expression) (F.post self.now.expression) }
        ensures { Reads plain_product result tokens.new (spec.product (spec.expression self.now.room) tokens.old) }
    {
        let first = self.unary(tokens)?;
        let at = first.at;
        let rest = match self.operands(tokens) {
            Ok(rest) => rest,
            Err(stop) => return Err(stop.behind(first)),
        };
        Ok(Product { first, rest, at })
    }

    #[tactic(auto, using(xanadu_tree::proofs::TreeEquations::made_nodes, crate::proofs::Places::places), unfolding(crate::specs::Expressions::unary))]
    fn unary(&self, tokens: &mut Tokens<'_>) -> Result<Unary, Stop>
        requires { Nests self.now.room (F.pre self.now.expression) (F.post self.now.expression) }
        ensures { Reads plain_unary result tokens.new (spec.unary (spec.expression self.now.room) tokens.old) }
    {
        let mark = tokens.eat_symbol(Symbol::Minus);
        let operand = self.postfix(tokens)?;
        Ok(Unary {
            negative: mark.is_some(),
            at: mark.unwrap_or(operand.at),
            operand,
        })
    }

    /// An index and the `]` behind it, with the place of the `[` before it.
    fn index(&self, tokens: &mut Tokens<'_>, at: u32) -> Result<(Expression, u32), Stop>
        requires { Nests self.now.room (F.pre self.now.expression) (F.post self.now.expression) }
        ensures { Reads in_brackets result tokens.new (spec.one_index (spec.expression self.now.room) at tokens.old) }
    {
        let index = self.inner(tokens)?;
        match tokens.symbol(Symbol::RightBracket) {
            Ok(_) => Ok((index, at)),
            Err(stop) => Err(stop.behind(index)),
        }
    }

    /// Indices in brackets.
    #[tactic(auto, unfolding(crate::specs::Expressions::indices))]
    fn indices(&self, tokens: &mut Tokens<'_>) -> Result<Vec<(Expression, u32)>, Stop>
        requires { Nests self.now.room (F.pre self.now.expression) (F.post self.now.expression) }
        ensures { Reads (λ x. map in_brackets x.items) result tokens.new (spec.indices (spec.expression self.now.room) tokens.old) }
    {
        let mut found = Vec::new(self.alloc);
        for _turn in 0..tokens.left() {
            let Some(at) = tokens.eat_symbol(Symbol::LeftBracket) else {
                return Ok(found);
            };
            push_read(&mut found, self.index(tokens, at))?;
        }
        Ok(found)
    }

    #[tactic(auto, using(xanadu_tree::proofs::TreeEquations::made_nodes, crate::proofs::Places::places), unfolding(crate::specs::Expressions::postfix))]
    fn postfix(&self, tokens: &mut Tokens<'_>) -> Result<Postfix, Stop>
        requires { Nests self.now.room (F.pre self.now.expression) (F.post self.now.expression) }
        ensures { Reads plain_postfix result tokens.new (spec.postfix (spec.expression self.now.room) tokens.old) }
    {
        let primary = self.primary(tokens)?;
        let at = primary_at(&primary);
        let indices = match self.indices(tokens) {
            Ok(indices) => indices,
            Err(stop) => return Err(stop.behind(primary)),
        };
        Ok(Postfix {
            primary,
            indices,
            at,
        })
    }

    /// Expressions with commas between them, at least one.
    #[tactic(auto, unfolding(crate::specs::Expressions::listed))]
    fn listed(&self, tokens: &mut Tokens<'_>) -> Result<Vec<Expression>, Stop>
        requires { Nests self.now.room (F.pre self.now.expression) (F.post self.now.expression) }
        ensures { Reads (λ x. map plain_expression x.items) result tokens.new (spec.listed (spec.expression self.now.room) tokens.old) }
    {
        let mut found = Vec::new(self.alloc);
        push_closely(&mut found, self.inner(tokens)?)?;
        for _turn in 0..tokens.left() {
            let Some(_) = tokens.eat_symbol(Symbol::Comma) else {
                return Ok(found);
            };
            push_read(&mut found, self.inner(tokens))?;
        }
        Ok(found)
    }

    /// Expressions with commas between them, at least one, and the `)` behind them.
    #[tactic(auto, unfolding(crate::specs::Expressions::some_arguments))]
    fn some_arguments(&self, tokens: &mut Tokens<'_>) -> Result<Vec<Expression>, Stop>
        requires { Nests self.now.room (F.pre self.now.expression) (F.post self.now.expression) }
        ensures { Reads (λ x. map plain_expression x.items) result tokens.new (spec.some_arguments (spec.expression self.now.room) tokens.old) }
    {
        let found = self.listed(tokens)?;
        match tokens.symbol(Symbol::RightParen) {
            Ok(_) => Ok(found),
            Err(stop) => Err(stop.behind(found)),
        }
    }

    /// What is behind the `(` of a call.
    #[tactic(auto, unfolding(crate::specs::Expressions::arguments))]
    fn arguments(&self, tokens: &mut Tokens<'_>) -> Result<Vec<Expression>, Stop>
        requires { Nests self.now.room (F.pre self.now.expression) (F.post self.now.expression) }
        ensures { Reads (λ x. map plain_expression x.items) result tokens.new (spec.arguments (spec.expression self.now.room) tokens.old) }
    {
        match tokens.eat_symbol(Symbol::RightParen) {
            Some(_) => Ok(Vec::new(self.alloc)),
            None => self.some_arguments(tokens),
        }
    }

    /// A variable or a call, by what stands behind the name.
    #[tactic(auto, using(xanadu_tree::proofs::TreeEquations::made_nodes, crate::proofs::Places::places), unfolding(crate::specs::Expressions::named))]
    fn named(&self, tokens: &mut Tokens<'_>, name: Identifier) -> Result<Primary, Stop>
        requires { Nests self.now.room (F.pre self.now.expression) (F.post self.now.expression) }
        ensures { Reads plain_primary result tokens.new (spec.named (spec.expression self.now.room) name tokens.old) }
    {
        match tokens.eat_symbol(Symbol::LeftParen) {
            Some(_) => {
                let arguments = self.arguments(tokens)?;
                Ok(Primary::Call(name, arguments))
            }
            None => Ok(Primary::Variable(name)),
        }
    }

    /// What is behind the type's name of a tuple.
    #[tactic(auto, using(xanadu_tree::proofs::TreeEquations::made_nodes, crate::proofs::Places::places), unfolding(crate::specs::Expressions::tuple))]
    fn tuple(&self, tokens: &mut Tokens<'_>, name: Identifier) -> Result<Primary, Stop>
        requires { Nests self.now.room (F.pre self.now.expression) (F.post self.now.expression) }
        ensures { Reads plain_primary result tokens.new (spec.tuple (spec.expression self.now.room) name tokens.old) }
    {
        tokens.symbol(Symbol::LeftParen)?;
        let parts = self.some_arguments(tokens)?;
        Ok(Primary::Make(name, parts))
    }

    /// An expression and the `)` behind it.
    #[tactic(auto, unfolding(crate::specs::Expressions::closed))]
    fn closed(&self, tokens: &mut Tokens<'_>) -> Result<Box<Expression>, Stop>
        requires { Nests self.now.room (F.pre self.now.expression) (F.post self.now.expression) }
        ensures { Reads (λ e. plain_expression e.value) result tokens.new (spec.closed (spec.expression self.now.room) tokens.old) }
    {
        let value = self.inner(tokens)?;
        if let Err(stop) = tokens.symbol(Symbol::RightParen) {
            return Err(stop.behind(value));
        }
        Ok(Box::new(self.alloc, value)?)
    }

    /// What is behind `len`.
    #[tactic(auto, using(xanadu_tree::proofs::TreeEquations::made_nodes, crate::proofs::Places::places), unfolding(crate::specs::Expressions::length_of))]
    fn length(&self, tokens: &mut Tokens<'_>, at: u32) -> Result<Primary, Stop>
        requires { Nests self.now.room (F.pre self.now.expression) (F.post self.now.expression) }
        ensures { Reads plain_primary result tokens.new (spec.length_of (spec.expression self.now.room) at tokens.old) }
    {
        tokens.symbol(Symbol::LeftParen)?;
        let array = self.closed(tokens)?;
        Ok(Primary::Length(array, at))
    }

    /// What is behind `new`.
    #[tactic(auto, using(xanadu_tree::proofs::TreeEquations::made_nodes, crate::proofs::Places::places), unfolding(crate::specs::Expressions::new_array))]
    fn new_array(&self, tokens: &mut Tokens<'_>, at: u32) -> Result<Primary, Stop>
        requires { Nests self.now.room (F.pre self.now.expression) (F.post self.now.expression) }
        ensures { Reads plain_primary result tokens.new (spec.new_array (spec.expression self.now.room) at tokens.old) }
    {
        let element = element(tokens)?;
        if let Err(stop) = tokens.symbol(Symbol::LeftBracket) {
            return Err(stop.behind(element));
        }
        let length = match self.inner(tokens) {
            Ok(length) => length,
            Err(stop) => return Err(stop.behind(element)),
        };
        let length = match Box::new(self.alloc, length) {
            Ok(length) => length,
            Err(failed) => return Err(Stop::from(failed).behind(element)),
        };
        if let Err(stop) = tokens.symbol(Symbol::RightBracket) {
            return Err(stop.behind(length).behind(element));
        }
        if let Err(stop) = tokens.symbol(Symbol::LeftParen) {
            return Err(stop.behind(length).behind(element));
        }
        let fill = match self.closed(tokens) {
            Ok(fill) => fill,
            Err(stop) => return Err(stop.behind(length).behind(element)),
        };
        Ok(Primary::New {
            element,
            length,
            fill,
            at,
        })
    }

    /// An expression in parentheses.
    #[tactic(auto, using(xanadu_tree::proofs::TreeEquations::made_nodes, crate::proofs::Places::places))]
    fn group(&self, tokens: &mut Tokens<'_>) -> Result<Primary, Stop>
        requires { Nests self.now.room (F.pre self.now.expression) (F.post self.now.expression) }
        ensures { Reads plain_primary result tokens.new (spec.group (spec.expression self.now.room) tokens.old) }
    {
        let at = tokens.symbol(Symbol::LeftParen)?;
        let value = self.closed(tokens)?;
        Ok(Primary::Group(value, at))
    }

    /// What begins with a keyword or with a parenthesis.
    #[tactic(auto, using(xanadu_tree::proofs::TreeEquations::made_nodes, crate::proofs::Places::places), unfolding(crate::specs::Expressions::marked))]
    fn marked(&self, tokens: &mut Tokens<'_>) -> Result<Primary, Stop>
        requires { Nests self.now.room (F.pre self.now.expression) (F.post self.now.expression) }
        ensures { Reads plain_primary result tokens.new (spec.marked (spec.expression self.now.room) tokens.old) }
    {
        if let Some(at) = tokens.eat_keyword(Keyword::True) {
            return Ok(Primary::Truth(true, at));
        }
        if let Some(at) = tokens.eat_keyword(Keyword::False) {
            return Ok(Primary::Truth(false, at));
        }
        if let Some(at) = tokens.eat_keyword(Keyword::Len) {
            return self.length(tokens, at);
        }
        if let Some(at) = tokens.eat_keyword(Keyword::New) {
            return self.new_array(tokens, at);
        }
        self.group(tokens)
    }

    #[tactic(auto, using(xanadu_tree::proofs::TreeEquations::made_nodes, crate::proofs::Places::places), unfolding(crate::specs::Expressions::primary))]
    fn primary(&self, tokens: &mut Tokens<'_>) -> Result<Primary, Stop>
        requires { Nests self.now.room (F.pre self.now.expression) (F.post self.now.expression) }
        ensures { Reads plain_primary result tokens.new (spec.primary (spec.expression self.now.room) tokens.old) }
    {
        if let Some((number, at)) = tokens.eat_number() {
            return Ok(Primary::Number(number, at));
        }
        if let Some(name) = tokens.eat_lower()? {
            return self.named(tokens, name);
        }
        if let Some(name) = tokens.eat_upper()? {
            return self.tuple(tokens, name);
        }
        self.marked(tokens)
    }
}

/// Indices of an assignment's target.
pub fn indices(
    alloc: Global,
    tokens: &mut Tokens<'_>,
    room: usize,
) -> Result<Vec<(Expression, u32)>, Stop>
    ensures { Reads (λ x. map in_brackets x.items) result tokens.new (spec.indices (spec.expression room) tokens.old) }
{
    Levels {
        alloc,
        room,
        expression,
    }
    .indices(tokens)
}

/// What is behind the `(` of a call.
pub fn arguments(
    alloc: Global,
    tokens: &mut Tokens<'_>,
    room: usize,
) -> Result<Vec<Expression>, Stop>
    ensures { Reads (λ x. map plain_expression x.items) result tokens.new (spec.arguments (spec.expression room) tokens.old) }
{
    Levels {
        alloc,
        room,
        expression,
    }
    .arguments(tokens)
}
