// Texts that are read and printed again, and all of whose fronts are faults.
use crate::reading::{fault_of, is_printed_again, said_of};
use std::test::Fail;

/// The sum of an array.
const SUM: &[u8] = b"dtal 1
fun main {1|+1v0+0} (arr(0,+1v0+0)) {1|} int(+1v1+0)
li r1 0
li r2 0
jmp 1 {v1=+0,v2=+0}
label 1 {3|+1v0+0;+1v1+0;+1v0-1v1+0} [r0:arr(0,+1v0+0) r1:int(+1v1+0) r2:int(+1v2+0)]
len r3 r0
br le r3 r1 2 {}
ld r3 r0 r1
add r2 r2 r3
li r3 1
add r1 r1 r3
jmp 1 {v1=+1v1+1,v2=+1v2+1v3+0}
by h +1v1+0;g;c 1 0 1 1
label 2 {4|+1v0+0;+1v1+0;+1v0-1v1+0;-1v0+1v1+0} [r2:int(+1v2+0)]
ret r2
end
";

/// Each instruction, and each kind of line of a proof.
const EACH: &[u8] = b"dtal 1
type {1|+1v0+0} tuple int(+1v0+0) bool
type {0|} cell bool
fun same {1|} (int(+1v0+0)) {1|-1v0+1v1+0;+1v0-1v1+0} int(+1v1+0)
mv s0 r0
mv s239 s0
ret s239
by h +1v0+0;c 3 0 2 0;t 1 5;g
end
fun main {1|+1v0+0} (arr(0,+1v0+0) bool) {1|} int(+1v1+0)
li r2 7
lb r3 1
lb r3 0
mv r4 r2
add r5 r2 r4
sub r5 r5 r2
mul r5 r5 r2
li r6 -9223372036854775808
div r7 r5 r2
mod r8 r5 r2
set lt r9 r5 r2
set le r9 r5 r2
set eq r9 r5 r2
set ne r9 r5 r2
br lt r5 r2 1 {}
br le r5 r2 1 {}
br eq r5 r2 1 {}
br ne r5 r2 1 {}
bt r9 1 {}
bf r9 1 {v1=+0}
call 0 s1 (r2)
len r10 r0
li r11 0
new r12 0 r2 r2
ld r13 r12 r11
st r12 r11 r2
tup s2 2 (r2 r3)
untup 2 s2 (r13 r14)
print r15
jmp 1 {v1=+1v0+1,v4294967295=-4611686018427387903v0-4611686018427387903}
label 1 {2|+1v0+0} [r2:int(+7) r3:bool s0:tup(2) s239:arr(3,+1v0+1v1-1)]
ret r2
end
";

#[test]
fn texts_are_printed_as_they_were(rt: HostRuntime) {
    assert!(rt; is_printed_again(rt.alloc(), SUM));
    assert!(rt; is_printed_again(rt.alloc(), EACH));
}

/// Both, with the lengths of their fronts that are texts: the first line, lines of types and whole functions behind it.
const FRONTS: &[(&[u8], &[usize])] = &[(SUM, &[7]), (EACH, &[7, 46, 66, 195])];

#[test]
fn each_other_front_is_a_fault_at_its_end(rt: HostRuntime) -> Result<(), Fail> {
    for (text, texts) in FRONTS {
        for len in 0..text.len() {
            let (front, _) = text.split_at(len);
            let fault = if texts.contains(&len) {
                None
            } else {
                Some(len as u64)
            };
            assert!(rt; fault_of(rt.alloc(), front)? == fault, "front {len}");
        }
    }
    Ok(())
}

#[test]
fn the_sum_of_an_array_is_accepted(rt: HostRuntime) -> Result<(), Fail> {
    let said = said_of(rt.alloc(), SUM)?;
    assert!(rt; said.as_slice() == b"accepted: 1 functions, 11 instructions\n".as_slice());
    Ok(())
}
