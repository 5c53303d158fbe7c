//! The sources of `examples/shapes.txt`, with the fault of shape that each has.

use crate::tests::{Outcome, has_core, is_left, keeping};
use std::alloc::Global;
use std::test::Fail;
use xan_io::Memory;

/// The number of the fault, or 0 where there is none, and the source with a mark in front of the token at which the fault stands.
const ROWS: &[(u8, &[u8])] = &[
    (1, b"type A = int; type @A = bool;"),
    (1, b"fun f(): unit { return; } fun @f(): unit { return; }"),
    (1, b"fun main(a: int, @a: int): int { return 0; }"),
    (
        1,
        b"fun main{n: int, @n: int}(a: int(n)): int { return 0; }",
    ),
    (1, b"fun main(x: int): int { var @x = 1; return 0; }"),
    (
        1,
        b"fun main(): int { var x = 0; while (true) with (x: int, @x: int) { } return 0; }",
    ),
    (
        1,
        b"type T = (int, int); fun main(): int { let (a, @a) = T(1, 2); return a; }",
    ),
    (
        0,
        b"fun main(): int { if (true) { var y = 1; } var y = 2; return y; }",
    ),
    (2, b"fun main(): int { return @y; }"),
    (2, b"fun main(): int { var x = @x; return x; }"),
    (2, b"fun main(): int { return @f(1); }"),
    (2, b"fun main(a: @T): int { return 0; }"),
    (2, b"fun main(a: int(@n)): int { return 0; }"),
    (2, b"fun main(): int { @x = 1; return 0; }"),
    (
        2,
        b"fun main(): int { while (true) with (@x: int) { } return 0; }",
    ),
    (
        2,
        b"fun main(): int { if (true) { var y = 1; } return @y; }",
    ),
    (2, b"fun main(): int { return len(new @T[1](0)); }"),
    (
        2,
        b"fun main{n: nat | @m <= n}(a: int[n]): int { return 0; }",
    ),
    (3, b"fun main(): int { return @true; }"),
    (3, b"fun main(): int { return 1 + @true; }"),
    (3, b"fun main(): int { return @true + 1; }"),
    (3, b"fun main(): int { return 1 + (@true + 2); }"),
    (3, b"fun main(): int { return 1 + @(true); }"),
    (3, b"fun main(): int { if (@1) { } return 0; }"),
    (3, b"fun main(): int { if ((@1)) { } return 0; }"),
    (
        3,
        b"fun f(): unit { return; } fun main(): int { var x = @f(); return 0; }",
    ),
    (
        3,
        b"fun f(): unit { @return 1; } fun main(): int { return 0; }",
    ),
    (3, b"fun main(): int { @return; }"),
    (3, b"fun main(a: int): int { return @a[0]; }"),
    (3, b"fun main(a: int): int { @a[0] = 1; return 0; }"),
    (3, b"fun main(a: int[]): int { a[@true] = 1; return 0; }"),
    (3, b"fun main(a: int[]): int { a[0] = @true; return 0; }"),
    (3, b"fun main(a: int): int { a = @true; return 0; }"),
    (3, b"fun main(a: int): int { let (b) = @a; return 0; }"),
    (
        3,
        b"fun main(a: int): int { while (true) with (a: @bool) { } return 0; }",
    ),
    (3, b"fun main(a: int): int { return len(@a); }"),
    (3, b"fun main(): int { print @true; return 0; }"),
    (3, b"fun main(): int { var b = @true < 1; return 0; }"),
    (3, b"fun main(): int { var b = 1 < @true; return 0; }"),
    (3, b"fun main(): int { return -@true; }"),
    (
        4,
        b"fun f(x: int): int { return x; } fun main(): int { return @f(); }",
    ),
    (
        4,
        b"fun f(x: int): int { return x; } fun main(): int { return @f(y, z); }",
    ),
    (
        4,
        b"type T = (int, int); fun main(): int { var t = @T(1); return 0; }",
    ),
    (
        4,
        b"type T = (int, int); fun main(): int { @let (a) = T(1, 2); return 0; }",
    ),
    (5, b"fun main(): int { var b = true @&& false; return 0; }"),
    (5, b"fun main(): int { var b = @!true; return 0; }"),
    (5, b"fun main(): int { var b = true @|| y; return 0; }"),
    (2, b"fun main(): int { var b = @y || true; return 0; }"),
    (
        5,
        b"fun main(): int { if ((true @|| false) == true) { } return 0; }",
    ),
    (
        0,
        b"fun main(): int { if (!(true || false) && true) { } return 0; }",
    ),
    (6, b"fun main{@n: int}(a: int): int { return 0; }"),
    (6, b"fun main{@n: int}(a: int(n + 1)): int { return 0; }"),
    (0, b"fun main{n: int}(a: int(2*n - n)): int { return 0; }"),
    (6, b"type T = {@n: int} (int, int);"),
    (6, b"fun main(): {@n: int} int { return 0; }"),
    (
        6,
        b"fun main(): int { var x = 0; while (true) with {@k: int} (x: int) { } return 0; }",
    ),
    (
        0,
        b"fun main{n: int}(a: int(n)): {n: int} int(n) { return 0; }",
    ),
    (
        6,
        b"fun main{n: int}(a: int(n)): {@n: int} int(0) { return 0; }",
    ),
    (7, b"type C = int; fun f(a: @C): int { return 0; }"),
    (
        7,
        b"type C = int; fun main(): int { var x = @C(1); return 0; }",
    ),
    (
        0,
        b"type C = int; fun main(): int { var a = new C[1](0); return a[0]; }",
    ),
    (8, b"@fun main(): int { }"),
    (8, b"@fun main(): int { if (true) { return 0; } }"),
    (
        0,
        b"fun main(): int { if (true) { return 0; } else { return 1; } }",
    ),
    (8, b"@fun main(): int { while (true) { return 0; } }"),
    (9, b"fun main(): int { return 0; @return 1; }"),
    (
        9,
        b"fun main(): int { if (true) { return 0; @print y; } return 0; }",
    ),
    (10, b"@"),
    (10, b"fun f(): int { return 0; }@"),
    (10, b"fun f(): int { return y; } // end@"),
    (11, b"fun main(): @unit { return; }"),
    (11, b"fun main(): @bool { return true; }"),
    (11, b"fun main(@a: bool[]): int { return 0; }"),
    (11, b"type T = (int); fun main(@t: T): int { return 0; }"),
    (0, b"fun main(a: bool, b: int[]): int { return 0; }"),
    (6, b"fun main(): {@k: int} bool { return true; }"),
    (2, b"fun main(): int { return y; } type A = @B;"),
    (2, b"fun main(a: @T): unit { return; }"),
    (
        11,
        b"fun f(): int { return y; } fun main(): @unit { return; }",
    ),
    (1, b"type A = B; type @A = int;"),
    (0, b"fun main(x: int, y: int): int { return x + y - 3; }"),
    (
        0,
        b"fun main{n: nat}(a: int[n]): int { var i = 0; var s = 0; while (i < len(a)) with {k: int | 0 <= k, k <= n} (i: int(k)) { s = s + a[i]; i = i + 1; } return s; }",
    ),
    (
        0,
        b"fun main{n: nat}(x: int, a: int[n]): int { var l = 0; var h = len(a); while (l < h) with {p: int, q: int | 0 <= p, p <= q, q <= n} (l: int(p), h: int(q)) { var m = (l + h) / 2; var y = a[m]; if (y == x) { return m; } if (y < x) { l = m + 1; } else { h = m; } join {p: int, q: int | 0 <= p, p <= q, q <= n} (l: int(p), h: int(q)) } return -1; }",
    ),
    (
        0,
        b"type L = (int, L[]); fun g(x: int, t: L): L { let (a, b) = t; b[0] = L(x, b); return b[0]; } fun main(): int { return 0; }",
    ),
    (
        0,
        b"fun f(x: int): unit { print x; return; } fun main(): int { f(1); return 0; }",
    ),
    (
        2,
        b"fun main(a: int[]): int { if (true) { } join {k: nat} (a: int[k]) while (true) with {m: nat | k <= m, @j <= m} (a: int[m]) { } return 0; }",
    ),
    (
        2,
        b"fun main(a: int[]): int { if (true) { while (true) with {k: nat} (a: int[k]) { } } while (true) with {m: nat | @k <= m} (a: int[m]) { } return 0; }",
    ),
];

/// A source without its mark, and where the mark stood.
#[derive(Drop)]
struct Marked {
    source: Vec<u8>,
    at: usize,
}

fn unmarked(alloc: Global, row: &[u8]) -> Result<Marked, Memory> {
    let mut source = Vec::new(alloc);
    let mut at = 0;
    for (index, byte) in row.iter().enumerate() {
        if *byte == b'@' {
            at = index;
        } else {
            source.push(*byte)?;
        }
    }
    Ok(Marked { source, at })
}

/// Whether a run ended with this fault at this place, and left the target.
fn is_fault(alloc: Global, run: &Outcome, number: u8, at: usize) -> Result<bool, Memory> {
    let line = format!(in alloc; "shape {number}: at {at}\n")?;
    Ok(is_left(run, 9, line.as_bytes()))
}

#[test]
fn each_fault_of_shape_is_told(rt: HostRuntime) -> Result<(), Fail> {
    let alloc = rt.alloc();
    for (number, row) in ROWS {
        let marked = unmarked(alloc, row)?;
        let run = keeping(alloc, marked.source.as_slice())?;
        let right = if *number == 0 {
            run.status == 0 || has_core(&run)
        } else {
            is_fault(alloc, &run, *number, marked.at)?
        };
        assert!(rt; right);
    }
    Ok(())
}
