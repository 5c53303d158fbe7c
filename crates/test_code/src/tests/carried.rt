//! Typed code that was worked out by hand.

use crate::tests::drawing::put_typed;
use crate::tests::typed;
use std::alloc::Global;

/// Sources with their typed code.
const CODE: &[(&[u8], &[u8])] = &[
    // the sum of an array's cells
    (
        b"fun main{n: nat}(a: int[n]): int {
  var i = 0;
  var s = 0;
  while (i < len(a)) with {k: int | 0 <= k, k <= n} (i: int(k)) {
    s = s + a[i];
    i = i + 1;
  }
  return s;
}
",
        b"main 4
@3 vars 3; +1v0+0; +1v1+0; +1v0-1v1+0 | 0 array 0 +1v0+0 | 1 int +1v1+0 | 2 int +1v2+0
@10 vars 4; +1v0+0; +1v1+0; +1v0-1v1+0; -1v0+1v1+0 | 2 int +1v2+0
li 1
li 2
jmp >1; v1 = +0; v2 = +0
len 3 0
br 3 1 #1 >2
ld 3 0 1
add 2 2 3
li 3 #1
add 1 1 3
jmp >1; v1 = +1v1+1; v2 = +1v2+1v3+0; by +1v1+1
ret 2
",
    ),
    // branches that meet with a clause, whose variable the divisor names
    (
        b"fun main(x: int): int {
  var y = 0;
  if (x < 0) { y = 1; } else { y = 2; }
  join {k: int | 1 <= k, k <= 2} (y: int(k))
  return 10 / (y + 1);
}
",
        b"main 4
@5 vars 1; +1v0+0
@7 vars 2; +1v1-1; -1v1+2 | 1 int +1v1+0
li 1
li 2
br 2 0 #1 >1
li 1 #1
jmp >2; v1 = +1
li 1 #2
jmp >2; v1 = +2
li 2 #10
li 3 #1
add 3 1 3
div 2 2 3; by +1v1+0
ret 2
",
    ),
    // branches that meet where a type is stated over a variable from before
    (
        b"fun main{n: nat}(x: int(n)): int {
  var y = x;
  if (2 * x < 1) { y = 0; } else { y = x; }
  join (y: int(n))
  return y;
}
",
        b"main 4
@7 vars 1; +1v0+0; +2v0-1 | 0 int +1v0+0
@9 vars 1; +1v0+0 | 1 int +1v0+0
mv 1 0
li 2 #2
mul 2 2 0
li 3 #1
br 3 2 #1 >1
li 1
jmp >2; 1 by -1v0+0
mv 1 0
jmp >2
ret 1
",
    ),
    // a call whose parameter demands something, behind a test of two parts
    (
        b"fun half{n: nat}(x: int(n)): int { return x / 2; }
fun main(x: int): int {
  if (0 < x && x < 9) { return half(x); }
  return 0;
}
",
        b"half 2
li 1 #2
div 1 0 1
ret 1
main 2
@6 vars 2
li 1
br 0 1 #1 >1
li 1 #9
br 1 0 #1 >1
call 1 0; by +1v0+0
ret 1
li 1
ret 1
",
    ),
    // a test that is true where either part is
    (
        b"fun main(x: int): int {
  if (x < 3 || 5 < x) { return 1; }
  return 0;
}
",
        b"main 2
@5 vars 1
@7 vars 1; +1v0-3; -1v0+5
li 1 #3
br 0 1 >1
li 1 #5
br 0 1 #1 >2
jmp >1
li 1 #1
ret 1
li 1
ret 1
",
    ),
];

// Whether this is the text of the source's typed code.
fn is_code(alloc: Global, source: &[u8], wanted: &[u8]) -> Option<bool> {
    let mut text = Vec::new(alloc);
    put_typed(&mut text, &typed(alloc, source)?)?;
    Some(text.as_slice() == wanted)
}

#[test]
fn typed_code_is_as_by_hand(rt: HostRuntime) {
    for (source, wanted) in CODE {
        assert!(rt; is_code(rt.alloc(), source, wanted) == Some(true));
    }
}
