//! The steps from which one of them is made, counted anew.
ghost use Rattle.std.specs.Prelude.{◌≡◌, ◌+◌, take, ◌≤◌, ◌^◌, ◌<◌, [], ◌∷◌, ◌++◌, length, replicate, slice_set, true, false, vec_capacity};
ghost use Rattle.std.specs.List.{slice_index_or};
ghost use Rattle.linear_solver.specs.Tracing.{with_marks, marked_at, marked_below, needed, renumbered, kept_onto};

use solver_rows::Step;

/// The steps up to that of this number.
pub(crate) fn up_to(steps: &[Step], line: u32) -> &[Step]
    ensures { result.now ≡ take (line + 1) steps.now }
{
    let count = steps.len().min(line as usize + 1);
    &steps[..count]
}

/// Leaves the marks of the steps that are needed.
#[tactic(auto, unfolding(crate::specs::Tracing::marked_below))]
pub(crate) fn needed(steps: &[Step], line: u32, marks: &mut Vec<bool>)
    requires { length steps.now ≤ vec_capacity marks.old }
    ensures exact { marks.new.items ≡ needed steps.now line }
    ensures capacity { vec_capacity marks.old ≤ vec_capacity marks.new }
{
    clear_marks(steps.len(), marks);
    mark(marks, line);
    let mut at = steps.len();
    'steps: while at > 0 {
        at -= 1;
        mark_at(marks, at, steps);
    }
}

// Leaves so many steps without a mark.
fn clear_marks(count: usize, marks: &mut Vec<bool>)
    requires { count ≤ vec_capacity marks.old }
    ensures items { marks.new.items ≡ replicate count false }
    ensures capacity { vec_capacity marks.old ≤ vec_capacity marks.new }
{
    marks.clear();
    let Ok(()) = marks.resize(count, false) else {
        unreachable!()
    };
}

// Marks the steps whose rows the step of this number takes, where it is marked itself.
fn mark_at(marks: &mut Vec<bool>, at: usize, steps: &[Step])
    requires { at < length steps.now }
    ensures items { marks.new.items ≡ marked_at at steps.now marks.old.items }
    ensures capacity { vec_capacity marks.old ≤ vec_capacity marks.new }
{
    if is_marked(marks.as_slice(), at) {
        mark_taken(marks, &steps[at]);
    }
}

// Whether the step of this number is marked.
fn is_marked(marks: &[bool], at: usize) -> bool
    ensures { result ≡ slice_index_or marks.now at false }
{
    match marks.get(at) {
        Some(mark) => *mark,
        None => false,
    }
}

// Marks the steps whose rows a step takes.
fn mark_taken(marks: &mut Vec<bool>, step: &Step)
    ensures items { marks.new.items ≡ with_marks marks.old.items step.now }
    ensures capacity { vec_capacity marks.old ≤ vec_capacity marks.new }
{
    match step {
        Step::Hyp(_) | Step::Goal => {}
        Step::Comb { left, right, .. } => {
            mark(marks, *left);
            mark(marks, *right);
        }
        Step::Cut { row, .. } => mark(marks, *row),
    }
}

// Marks the step of this number, where there is one.
fn mark(marks: &mut Vec<bool>, at: u32)
    ensures items { marks.new.items ≡ slice_set marks.old.items at true }
    ensures capacity { vec_capacity marks.old ≤ vec_capacity marks.new }
{
    if (at as usize) < marks.len() {
        marks[at as usize] = true;
    }
}

/// Leaves the marked steps, counted anew.
#[tactic(auto, unfolding(crate::specs::Tracing::kept_onto))]
pub(crate) fn kept(steps: &[Step], marks: &[bool], numbers: &mut Vec<u32>, kept: &mut Vec<Step>)
    requires few { length steps.now ≤ 257026 }
    requires room { length steps.now ≤ vec_capacity kept.old }
    requires room_numbers { length steps.now ≤ vec_capacity numbers.old }
    ensures exact { kept.new.items ≡ kept_onto [] [] marks.now steps.now }
    ensures few { length kept.new.items ≤ length steps.now }
    ensures capacity { vec_capacity kept.old ≤ vec_capacity kept.new }
    ensures numbers { vec_capacity numbers.old ≤ vec_capacity numbers.new }
{
    kept.clear();
    numbers.clear();
    let mut later_steps = steps;
    let mut later_marks = marks;
    'steps: while let [step, more_steps @ ..] = later_steps {
        let [mark, more_marks @ ..] = later_marks else {
            return;
        };
        if *mark {
            let step = renumbered(numbers.as_slice(), step);
            put_number(numbers, kept.len() as u32);
            put_step(kept, step);
        } else {
            put_number(numbers, 0);
        }
        later_steps = more_steps;
        later_marks = more_marks;
    }
}

// Puts a number behind others, for which there is room.
fn put_number(numbers: &mut Vec<u32>, number: u32)
    requires { length numbers.old.items < vec_capacity numbers.old }
    ensures items { numbers.new.items ≡ numbers.old.items ++ number ∷ [] }
    ensures capacity { vec_capacity numbers.old ≤ vec_capacity numbers.new }
{
    let Ok(()) = numbers.push(number) else {
        unreachable!()
    };
}

// Puts a step behind others, for which there is room.
fn put_step(steps: &mut Vec<Step>, step: Step)
    requires { length steps.old.items < vec_capacity steps.old }
    ensures items { steps.new.items ≡ steps.old.items ++ step ∷ [] }
    ensures capacity { vec_capacity steps.old ≤ vec_capacity steps.new }
{
    let Ok(()) = steps.push(step) else {
        unreachable!()
    };
}

// The step with the new numbers of the rows that it takes.
fn renumbered(numbers: &[u32], step: &Step) -> Step
    ensures { result ≡ renumbered numbers.now step.now }
{
    match step {
        Step::Hyp(row) => Step::Hyp(*row),
        Step::Goal => Step::Goal,
        Step::Comb {
            left_by,
            left,
            right_by,
            right,
        } => Step::Comb {
            left_by: *left_by,
            left: number_at(numbers, *left),
            right_by: *right_by,
            right: number_at(numbers, *right),
        },
        Step::Cut { row, by } => Step::Cut {
            row: number_at(numbers, *row),
            by: *by,
        },
    }
}

// The new number of a step, or 0.
fn number_at(numbers: &[u32], at: u32) -> u32
    ensures { result ≡ slice_index_or numbers.now at 0 }
{
    match numbers.get(at as usize) {
        Some(number) => *number,
        None => 0,
    }
}
