//! What every form keeps.
ghost use Rattle.std.specs.List.{All};
ghost use Rattle.xan_lin.specs.Linear.{IsForm};

use xan_lin::Form;

/// Tells of rows that each keeps what every form does.
pub(crate) fn tell_forms(rows: &[Form])
    ensures { All IsForm rows.now }
{
    'rows: for row in rows {
        tell_form(row);
    }
}

/// Tells of a form that it keeps what every form does.
pub(crate) fn tell_form(form: &Form)
    ensures { IsForm form.now }
{
    let _terms = form.terms();
}
