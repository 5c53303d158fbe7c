//! What the forms and rows of a core mean.

ghost use Rattle.std.specs.Prelude.{◌≡◌, ◌↔◌, List, Ok};
ghost use Rattle.xanadu_tree.specs.PlainTree as plain;
ghost use Rattle.xanadu_tree.specs.declared.linear.Linear.{Linear};
ghost use Rattle.type_shapes.specs.Linears.{relations_in};
ghost use Rattle.type_shapes.specs.Names.{Scope};
ghost use Rattle.type_shapes.specs.Quantifiers.{Frame, index};
ghost use Rattle.shape_meaning.specs.IndexValues.{Assignment, naming, index_value, form_value, RowsHold, AreTrue};

/// A form that is read from an index expression has the value of the expression, whatever numbers the variables are.
pub fn forms_mean_indices()
    ensures { (scope : Scope) (written : plain.IndexExpression) (frame : Frame) (read : Linear × Frame) (values : Assignment) → index scope written frame ≡ Ok read → form_value values read.0 ≡ index_value (naming scope values) written }
{}

/// Rows that are read from relations, behind others, hold exactly where these do and the relations, whatever numbers the variables are.
pub fn rows_mean_relations()
    ensures { (scope : Scope) (values : Assignment) (relations : List plain.Relation) (before rows : List Linear) → relations_in scope relations before ≡ Ok rows → RowsHold values rows ↔ (RowsHold values before × AreTrue (naming scope values) relations) }
{}
