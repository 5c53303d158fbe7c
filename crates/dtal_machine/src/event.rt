//! What a step tells.

ghost use Rattle.std.specs.Prelude.{◌≡◌, Some};
ghost use Rattle.dtal_machine.specs.Acting.{end_how};
ghost use Rattle.dtal_machine.specs.Steps.{end_event};

/// What a step of the machine tells its caller.
#[derive(Clone, Copy)]
pub enum Event {
    /// The run goes on, and nothing was printed.
    Going,
    /// The run goes on, and this number was printed.
    Print(i64),
    /// The run has ended with this number.
    Returned(i64),
    /// The run has ended since the store or the depth did not suffice.
    NoStore,
    /// The run has ended since a result does not fit a word.
    Overflow,
}

/// How a run has ended.
#[derive(Clone, Copy)]
pub(crate) enum End {
    Returned(i64),
    NoStore,
    Overflow,
}

/// What an end tells.
pub(crate) fn tell_end(end: End) -> Event
    ensures { end_event (end_how end) ≡ Some result }
{
    match end {
        End::Returned(word) => Event::Returned(word),
        End::NoStore => Event::NoStore,
        End::Overflow => Event::Overflow,
    }
}
