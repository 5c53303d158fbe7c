//! The limits of elaboration, each at the greatest number that is allowed and at one more.

use crate::tests::elaborated;
use constraint_elaborator::ElabError;
use std::alloc::Global;
use std::test::Fail;
use xan_io::Memory;
use xan_lin::LimitKind;

/// A part, another one so often with a number of its own, and a last part.
fn numbered(
    alloc: Global,
    first: &[u8],
    part: &[u8],
    name: &[u8],
    behind: &[u8],
    times: u32,
    last: &[u8],
) -> Result<Vec<u8>, Memory> {
    let mut source = Vec::from_slice(alloc, first)?;
    for turn in 0..times {
        source.extend_from_slice(part)?;
        if !name.is_empty() {
            source.extend_from_slice(name)?;
            put_letters(&mut source, turn)?;
        }
        source.extend_from_slice(behind)?;
    }
    source.extend_from_slice(last)?;
    Ok(source)
}

/// Three letters, which are others for each number below 17,576.
fn put_letters(text: &mut Vec<u8>, number: u32) -> Result<(), Memory> {
    for digit in [number / 676 % 26, number / 26 % 26, number % 26] {
        text.push(b'a' + digit as u8)?;
    }
    Ok(())
}

/// A front; a part with the beginning of its name, empty where it has none, and what is behind it; the greatest number; an end; the limit.
const LIMITS: &[(&[u8], &[u8], &[u8], &[u8], u32, &[u8], LimitKind)] = &[
    (
        b"fun main(): int { return 0; } ",
        b"fun ",
        b"f",
        b"(): unit { return; } ",
        1023,
        b"",
        LimitKind::Functions,
    ),
    (
        b"",
        b"type ",
        b"T",
        b" = (int, int); ",
        1024,
        b"fun main(): int { return 0; }",
        LimitKind::Types,
    ),
    (
        b"fun f(x: int",
        b", ",
        b"p",
        b": int",
        7,
        b"): int { return x; } fun main(): int { return 0; }",
        LimitKind::Parameters,
    ),
    (
        b"fun main(x: int): int { var y = 0; ",
        b"y = x * x; ",
        b"",
        b"",
        1023,
        b"return y; }",
        LimitKind::Variables,
    ),
    (
        b"fun main(): int { var x = 0; ",
        b"var ",
        b"y",
        b" = 0; ",
        239,
        b"return x; }",
        LimitKind::Places,
    ),
    (
        b"fun main{n: int | n >= 0",
        b", n <= 1",
        b"",
        b"",
        511,
        b"}(x: int(n)): int { return x; }",
        LimitKind::Rows,
    ),
];

/// Whether the limit is passed by one more than so many, and not by so many.
fn is_limit(
    alloc: Global,
    first: &[u8],
    part: &[u8],
    name: &[u8],
    behind: &[u8],
    most: u32,
    last: &[u8],
    kind: LimitKind,
) -> Result<bool, Memory> {
    let within = numbered(alloc, first, part, name, behind, most, last)?;
    let past = numbered(
        alloc,
        first,
        part,
        name,
        behind,
        most.saturating_add(1),
        last,
    )?;
    let fits = elaborated(alloc, within.as_slice()).is_some_and(|answer| answer.is_ok());
    let stops = match elaborated(alloc, past.as_slice()) {
        Some(Err(ElabError::Limit(found))) => found == kind,
        _ => false,
    };
    Ok(fits && stops)
}

/// Whether the limit of this kind is passed by one more.
fn is_passed(alloc: Global, wanted: LimitKind) -> Result<bool, Memory> {
    for (first, part, name, behind, most, last, kind) in LIMITS {
        if *kind == wanted {
            return is_limit(alloc, first, part, name, behind, *most, last, *kind);
        }
    }
    Ok(false)
}

#[test]
fn a_program_has_1024_functions(rt: HostRuntime) -> Result<(), Fail> {
    assert!(rt; is_passed(rt.alloc(), LimitKind::Functions)?);
    Ok(())
}

#[test]
fn a_program_has_1024_types(rt: HostRuntime) -> Result<(), Fail> {
    assert!(rt; is_passed(rt.alloc(), LimitKind::Types)?);
    Ok(())
}

#[test]
fn a_function_has_8_parameters(rt: HostRuntime) -> Result<(), Fail> {
    assert!(rt; is_passed(rt.alloc(), LimitKind::Parameters)?);
    Ok(())
}

#[test]
fn a_function_has_1024_index_variables(rt: HostRuntime) -> Result<(), Fail> {
    assert!(rt; is_passed(rt.alloc(), LimitKind::Variables)?);
    Ok(())
}

#[test]
fn a_function_has_240_places(rt: HostRuntime) -> Result<(), Fail> {
    assert!(rt; is_passed(rt.alloc(), LimitKind::Places)?);
    Ok(())
}

#[test]
fn a_header_has_512_rows(rt: HostRuntime) -> Result<(), Fail> {
    assert!(rt; is_passed(rt.alloc(), LimitKind::Rows)?);
    Ok(())
}

/// Sources that pass a bound of a form, and the limit.
const FORMS: &[(&[u8], LimitKind)] = &[(
    b"fun main{n: nat | n <= 9223372036854775807}(x: int(n)): int { return x; }",
    LimitKind::Magnitude,
)];

#[test]
fn forms_past_their_bounds_are_limits(rt: HostRuntime) {
    for (source, kind) in FORMS {
        let stops = match elaborated(rt.alloc(), source) {
            Some(Err(ElabError::Limit(found))) => found == *kind,
            _ => false,
        };
        assert!(rt; stops);
    }
}
