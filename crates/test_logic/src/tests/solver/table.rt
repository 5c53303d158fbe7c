//! The table.
use crate::tests::solver::cases::CASES;
use crate::tests::solver::run::runs_as;
use std::test::Fail;

#[test]
fn the_table_is_met(rt: HostRuntime) -> Result<(), Fail> {
    for (at, (rows, goal, answer, lines)) in CASES.iter().enumerate() {
        let met = runs_as(rt.alloc(), rows, goal, *answer, lines);
        assert!(rt; met == Some(true), "case {at}");
    }
    Ok(())
}
