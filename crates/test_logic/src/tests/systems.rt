//! What tests of rows share: contexts of rows, and how rows are spelled.
use index_sorts::Context;
use proof_lines::{Line, read_lines};
use std::alloc::Global;
use xan_lin::Form;

/// Adds the row, where it names only variables of the context.
pub(crate) fn add(context: &mut Context, row: Form) -> Option<()> {
    let vars = context.vars();
    if row.terms().iter().all(|term| term.var < vars) {
        context.add(row).ok()
    } else {
        None
    }
}

/// The context of the rows of a text like `by h +1v0+0;h -1`, with 100 variables.
pub(crate) fn context_of(alloc: Global, text: &[u8]) -> Option<Context> {
    let mut context = Context::new(alloc, 100).ok()?;
    if text.is_empty() {
        return Some(context);
    }
    for line in read_lines(alloc, text).ok()? {
        if let Line::Hyp(form) = line {
            add(&mut context, form)?;
        }
    }
    Some(context)
}

/// The row of a text like `by h +1v0+0`.
pub(crate) fn form_of(alloc: Global, text: &[u8]) -> Option<Form> {
    let mut lines = read_lines(alloc, text).ok()?;
    match lines.pop()? {
        Line::Hyp(form) => Some(form),
        _ => None,
    }
}

/// The spelling of the forms, each with a semicolon behind it.
pub(crate) fn spelled(alloc: Global, forms: &[Form]) -> Option<Vec<u8>> {
    let mut text = Vec::new(alloc);
    for form in forms {
        form.write_form(&mut text).ok()?;
        text.push(b';').ok()?;
    }
    Some(text)
}
