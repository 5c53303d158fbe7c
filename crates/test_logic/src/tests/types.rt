//! Matches, edges and unpacking by example, worked out by hand; each call that may lack memory once where it does not.

ghost use Rattle.std.specs.Prelude.{◌≡◌, ◌<◌, IfOk, IfSome, length};

use crate::tests::systems::{add, spelled};
use state_types::{
    Context, Memory, Packed, Places, Signature, StateError, StateType, Ty, TypeTable, match_params,
    match_types, meets, pack_goals, unpack,
};
use std::alloc::Global;
use std::test::Fail;
use xan_lin::{Form, Term};
use xan_seq::Seq;

// Two terms, as a variable and its coefficient, and a constant.
type Written = (u32, i64, u32, i64, i64);

fn form(written: Written) -> Option<Form> {
    let (first, times, second, more, constant) = written;
    let terms = [
        Term {
            var: first,
            coef: times,
        },
        Term {
            var: second,
            coef: more,
        },
    ];
    Form::from_terms(terms.as_slice(), constant).ok()
}

// A variable and a number.
fn plus(var: u32, constant: i64) -> Option<Form> {
    form((var, 1, 0, 0, constant))
}

fn forms(alloc: Global, form: Form) -> Option<Seq<Form>> {
    let mut forms = Vec::new(alloc);
    forms.push(form).ok()?;
    Some(Seq::from_vec(forms))
}

fn two(alloc: Global, first: Ty, second: Ty) -> Option<Seq<Ty>>
    ensures { IfSome result (λ types. length types ≡ 2) }
{
    let mut types = Vec::new(alloc);
    types.push(first).ok()?;
    types.push(second).ok()?;
    Some(Seq::from_vec(types))
}

// `{n: nat}(int[n], int(n))`, with the result `{r: int | r < n} int(r)`.
fn signature(alloc: Global) -> Option<Signature>
    ensures { IfSome result (λ sig. length sig.params ≡ 2) }
{
    let params = two(
        alloc,
        Ty::Array(0, Form::variable(0)),
        Ty::Int(Form::variable(0)),
    )?;
    Some(Signature {
        vars: 1,
        rows: forms(alloc, Form::variable(0))?,
        params,
        result_vars: 1,
        result_rows: forms(alloc, form((0, 1, 1, -1, -1))?)?,
        result: Ty::Int(Form::variable(1)),
    })
}

#[test]
fn calls_demand_rows(rt: HostRuntime) -> Result<(), Fail> {
    let alloc = rt.alloc();
    let sig = signature(alloc).ok_or("memory")?.copy(alloc)?;
    let index = form((1, 2, 0, 0, 1)).ok_or("form")?;
    let actual = two(alloc, Ty::Array(0, Form::variable(0)), Ty::Int(index)).ok_or("memory")?;
    if sig.params.as_slice().len() == 2 {
        let found = match_params(alloc, &sig, actual.as_slice())?;
        let rows = spelled(alloc, found.rows.as_slice()).ok_or("memory")?;
        assert!(rt; rows.as_slice() == b"+1v0-2v1-1;-1v0+2v1+1;+1v0+0;".as_slice());
        assert_eq!(rt; found.values.as_slice().len(), 1);
    }
    let given = [Ty::Int(Form::variable(0))];
    let wanted = [sig.result.copy()];
    let found = match_types(
        alloc,
        1,
        2,
        sig.result_rows.as_slice(),
        wanted.as_slice(),
        given.as_slice(),
    )?;
    let rows = spelled(alloc, found.rows.as_slice()).ok_or("memory")?;
    assert!(rt; rows.as_slice() == b"-1;".as_slice());
    let other = match_types(alloc, 0, 0, &[], &[Ty::Bool], given.as_slice());
    assert!(rt; matches!(other, Err(StateError::Kind(0))));
    Ok(())
}

// `{p: int, q: int | p <= q} (int(p), int(q))`.
fn ordered(alloc: Global) -> Option<Packed> {
    Some(Packed {
        vars: 2,
        rows: forms(alloc, form((1, 1, 0, -1, 0))?)?,
        parts: two(
            alloc,
            Ty::Int(Form::variable(0)),
            Ty::Int(Form::variable(1)),
        )?,
        tuple: true,
    })
}

// What a tuple of type 2 with these parts demands.
fn demanded(alloc: Global, table: &TypeTable, actual: &[Ty]) -> Option<Vec<u8>> {
    if table.get(2)?.parts.as_slice().len() != actual.len() {
        return None;
    }
    let found = pack_goals(alloc, table, 2, actual).ok()?;
    spelled(alloc, found.rows.as_slice())
}

#[test]
fn constructors_demand_rows(rt: HostRuntime) -> Result<(), Fail> {
    let alloc = rt.alloc();
    let mut table = TypeTable::new(alloc)?;
    let packed = ordered(alloc).ok_or("memory")?.copy(alloc)?;
    if packed.is_closed() && table.len() < 65536 {
        table.add(packed)?;
    }
    let table = table.copy()?;
    assert!(rt; table.len() == 3 && table.get(3).is_none());
    let more = Ty::Int(plus(0, 1).ok_or("form")?);
    let actual = two(alloc, Ty::Int(Form::variable(0)), more).ok_or("memory")?;
    let rows = demanded(alloc, &table, actual.as_slice()).ok_or("type")?;
    assert!(rt; rows.as_slice() == b"+1;".as_slice());
    let mut ctx = Context::new(alloc, 3)?;
    if table.len() > 2 {
        let parts = unpack(alloc, &table, &mut ctx, 2)?;
        assert!(rt; parts.len() == 2 && ctx.vars() == 5);
        let rows = spelled(alloc, ctx.rows()).ok_or("memory")?;
        assert!(rt; rows.as_slice() == b"-1v3+1v4+0;".as_slice());
    }
    Ok(())
}

// The state of an array of length v0 in place 0 and of a number in place 1, with 0 <= v0 and 0 <= v1.
fn counting(alloc: Global, vars: u32, number: Form) -> Option<StateType> {
    let mut ctx = Context::new(alloc, vars).ok()?;
    add(&mut ctx, Form::variable(0))?;
    add(&mut ctx, Form::variable(1))?;
    let mut places = Places::new(alloc);
    places.set(1, Ty::Bool).ok()?;
    places.set(1, Ty::Int(number)).ok()?;
    places.set(0, Ty::Array(0, Form::variable(0))).ok()?;
    StateType { ctx, places }.copy().ok()
}

// What an edge with this value of variable 1 demands.
fn edge(alloc: Global, state: &StateType, target: &StateType, value: Form) -> Option<Vec<u8>> {
    let values = [(1, value)];
    match meets(alloc, state, target, values.as_slice()) {
        Ok(rows) => spelled(alloc, rows.as_slice()),
        Err(_) => None,
    }
}

#[test]
fn edges_demand_rows(rt: HostRuntime) -> Result<(), Fail> {
    let alloc = rt.alloc();
    let head = counting(alloc, 2, Form::variable(1)).ok_or("head")?;
    let mut end = counting(alloc, 3, plus(1, 1).ok_or("form")?).ok_or("end")?;
    let rows = edge(alloc, &end, &head, plus(1, 1).ok_or("form")?).ok_or("edge")?;
    assert!(rt; rows.as_slice() == b"+1v0+0;+1v1+1;".as_slice());
    let rows = edge(alloc, &end, &head, Form::variable(1)).ok_or("edge")?;
    assert!(rt; rows.as_slice() == b"-1;+1;+1v0+0;+1v1+0;".as_slice());
    end.places.set(2, Ty::Bool)?;
    let back = meets(alloc, &head, &end, &[]);
    assert!(rt; matches!(back, Err(StateError::Kind(2))));
    Ok(())
}
