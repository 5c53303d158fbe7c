// Programs, and what is said of each: every rule at each kind of place where it can fail, two rules at one place, and the first of two
// places. Worked out from the rules by hand. A table of all rows is more than one check may take, so there is one for each kind of place.
use crate::reading::says;
use std::alloc::Global;
use std::test::Fail;
use xan_io::Memory;

/// Types and functions of a text, and the line that `verify` puts.
type Row = (&'static [u8], &'static [u8]);

/// Programs that are accepted.
const ACCEPTED: &[Row] = &[
    // the shortest
    (
        b"fun main {0|} () {0|} int(+0)\nli r0 0\nret r0\nend\n",
        b"accepted: 1 functions, 2 instructions\n",
    ),
    // a result that names a variable of the function
    (
        b"fun main {1|} (int(+1v0+0)) {0|} int(+1v0+0)\nret r0\nend\n",
        b"accepted: 1 functions, 1 instructions\n",
    ),
    // two functions, the second one main
    (
        b"fun f {0|} () {0|} int(+0)\nli r0 0\nret r0\nend\nfun main {0|} () {0|} int(+0)\nli r0 0\nret r0\nend\n",
        b"accepted: 2 functions, 4 instructions\n",
    ),
    // a label that is never reached
    (
        b"fun main {0|} () {0|} int(+0)\nli r0 0\nret r0\nlabel 1 {0|} []\nli r0 0\nret r0\nend\n",
        b"accepted: 1 functions, 4 instructions\n",
    ),
    // a label with 1,024 variables
    (
        b"fun main {0|} () {0|} int(+0)\njmp 1 {}\nlabel 1 {1024|} []\nli r0 0\nret r0\nend\n",
        b"accepted: 1 functions, 3 instructions\n",
    ),
    // a value of a variable of the label
    (
        b"fun main {0|} () {0|} int(+0)\nli r0 7\njmp 1 {v0=+7}\nlabel 1 {1|} [r0:int(+1v0+0)]\nli r1 0\nret r1\nend\n",
        b"accepted: 1 functions, 4 instructions\n",
    ),
    // a row with lines that prove it
    (
        b"fun main {1|+1v0-3} (int(+1v0+0)) {1|+1v1+0} int(+1v1+0)\nret r0\nby h +1v0-3;g;c 1 0 1 1\nend\n",
        b"accepted: 1 functions, 1 instructions\n",
    ),
];

/// Types that are refused.
const TYPES: &[Row] = &[
    // no such tuple type
    (
        b"type {0|} tuple tup(9)\nfun main {0|} () {0|} int(+0)\nli r0 0\nret r0\nend\n",
        b"refused: type 2: rule type\n",
    ),
    // no such cell type
    (
        b"type {0|} cell arr(9,+0)\nfun main {0|} () {0|} int(+0)\nli r0 0\nret r0\nend\n",
        b"refused: type 2: rule type\n",
    ),
    // a cell type as a tuple type
    (
        b"type {0|} tuple tup(0)\nfun main {0|} () {0|} int(+0)\nli r0 0\nret r0\nend\n",
        b"refused: type 2: rule type\n",
    ),
    // a variable of a type that is no index
    (
        b"type {1|} tuple bool\nfun main {0|} () {0|} int(+0)\nli r0 0\nret r0\nend\n",
        b"refused: type 2: rule alone\n",
    ),
    // an index that is not the variable alone
    (
        b"type {1|} tuple int(+2v0+0)\nfun main {0|} () {0|} int(+0)\nli r0 0\nret r0\nend\n",
        b"refused: type 2: rule alone\n",
    ),
    // a part with a variable that is not there
    (
        b"type {0|} tuple int(+1v0+0)\nfun main {0|} () {0|} int(+0)\nli r0 0\nret r0\nend\n",
        b"refused: type 2: rule form\n",
    ),
    // a row with a variable that is not there
    (
        b"type {0|+1v0+0} cell bool\nfun main {0|} () {0|} int(+0)\nli r0 0\nret r0\nend\n",
        b"refused: type 2: rule form\n",
    ),
    // the second of two types
    (
        b"type {0|} cell bool\ntype {1|} cell bool\nfun main {0|} () {0|} int(+0)\nli r0 0\nret r0\nend\n",
        b"refused: type 3: rule alone\n",
    ),
    // the first of two types
    (
        b"type {0|} tuple tup(9)\ntype {1|} cell bool\nfun main {0|} () {0|} int(+0)\nli r0 0\nret r0\nend\n",
        b"refused: type 2: rule type\n",
    ),
    // a type before a signature
    (
        b"type {1|} cell bool\nfun main {1|} () {0|} int(+0)\nli r0 0\nret r0\nend\n",
        b"refused: type 2: rule alone\n",
    ),
    // of one type, no such type before a variable that is no index
    (
        b"type {1|} tuple tup(9)\nfun main {0|} () {0|} int(+0)\nli r0 0\nret r0\nend\n",
        b"refused: type 2: rule type\n",
    ),
    // of one type, a variable that is no index before one that is not there
    (
        b"type {1|+1v7+0} tuple bool\nfun main {0|} () {0|} int(+0)\nli r0 0\nret r0\nend\n",
        b"refused: type 2: rule alone\n",
    ),
];

/// Signatures that are refused, and the program.
const SIGNATURES: &[Row] = &[
    // two functions of one name
    (
        b"fun main {0|} () {0|} int(+0)\nli r0 0\nret r0\nend\nfun main {0|} () {0|} int(+0)\nli r0 0\nret r0\nend\n",
        b"refused: function 1: rule name\n",
    ),
    // a signature with no such type
    (
        b"fun main {0|} (tup(9)) {0|} int(+0)\nli r0 0\nret r0\nend\n",
        b"refused: function 0: rule type\n",
    ),
    // a variable of a signature that is no index
    (
        b"fun main {1|} () {0|} int(+0)\nli r0 0\nret r0\nend\n",
        b"refused: function 0: rule alone\n",
    ),
    // a variable of a result that is no index
    (
        b"fun main {0|} () {1|} int(+0)\nli r0 0\nret r0\nend\n",
        b"refused: function 0: rule alone\n",
    ),
    // a parameter with a variable that is not there
    (
        b"fun main {0|} (int(+1v0+0)) {0|} int(+0)\nli r0 0\nret r0\nend\n",
        b"refused: function 0: rule form\n",
    ),
    // a parameter with the variable of the result
    (
        b"fun main {0|} (int(+1v0+0)) {1|} int(+1v0+0)\nret r0\nend\n",
        b"refused: function 0: rule form\n",
    ),
    // a row of a signature with a variable that is not there
    (
        b"fun main {0|+1v0+0} () {0|} int(+0)\nli r0 0\nret r0\nend\n",
        b"refused: function 0: rule form\n",
    ),
    // of one signature, the name before the type
    (
        b"fun main {0|} () {0|} int(+0)\nli r0 0\nret r0\nend\nfun main {0|} (tup(9)) {0|} int(+0)\nli r0 0\nret r0\nend\n",
        b"refused: function 1: rule name\n",
    ),
    // of one signature, the type before the variable
    (
        b"fun main {1|} (tup(9)) {0|} int(+0)\nli r0 0\nret r0\nend\n",
        b"refused: function 0: rule type\n",
    ),
    // of one signature, the variable before the form
    (
        b"fun main {1|} (int(+1v7+0)) {0|} int(+0)\nli r0 0\nret r0\nend\n",
        b"refused: function 0: rule alone\n",
    ),
    // the first of two signatures
    (
        b"fun main {1|} () {0|} int(+0)\nli r0 0\nret r0\nend\nfun f {0|} (tup(9)) {0|} int(+0)\nli r0 0\nret r0\nend\n",
        b"refused: function 0: rule alone\n",
    ),
    // a signature before the program
    (
        b"fun f {1|} () {0|} int(+0)\nli r0 0\nret r0\nend\n",
        b"refused: function 0: rule alone\n",
    ),
    // no main
    (
        b"fun f {0|} () {0|} int(+0)\nli r0 0\nret r0\nend\n",
        b"refused: program: rule main\n",
    ),
    // a main that takes a tuple
    (
        b"type {0|} tuple bool\nfun main {0|} (tup(2)) {0|} int(+0)\nli r0 0\nret r0\nend\n",
        b"refused: program: rule main\n",
    ),
    // a main that takes an array of truth values
    (
        b"fun main {1|} (arr(1,+1v0+0)) {0|} int(+0)\nli r0 0\nret r0\nend\n",
        b"refused: program: rule main\n",
    ),
    // a main that gives a truth value
    (
        b"fun main {0|} () {0|} bool\nlb r0 1\nret r0\nend\n",
        b"refused: program: rule main\n",
    ),
    // the program before its functions
    (
        b"fun f {0|} () {0|} int(+0)\nret r5\nend\n",
        b"refused: program: rule main\n",
    ),
];

/// Labels that are refused.
const LABELS: &[Row] = &[
    // a label with no such type
    (
        b"fun main {0|} () {0|} int(+0)\njmp 1 {}\nlabel 1 {0|} [r0:tup(9)]\nli r0 0\nret r0\nend\n",
        b"refused: function 0 label 1: rule type\n",
    ),
    // a label with fewer variables than the signature
    (
        b"fun main {1|} (int(+1v0+0)) {0|} int(+0)\njmp 1 {}\nlabel 1 {0|} []\nli r0 0\nret r0\nend\n",
        b"refused: function 0 label 1: rule edge\n",
    ),
    // a label with a variable that is not there
    (
        b"fun main {0|} () {0|} int(+0)\njmp 1 {}\nlabel 1 {0|} [r0:int(+1v0+0)]\nli r0 0\nret r0\nend\n",
        b"refused: function 0 label 1: rule form\n",
    ),
    // a label with a row with a variable that is not there
    (
        b"fun main {0|} () {0|} int(+0)\njmp 1 {}\nlabel 1 {0|+1v0+0} []\nli r0 0\nret r0\nend\n",
        b"refused: function 0 label 1: rule form\n",
    ),
    // a label with 1,025 variables
    (
        b"fun main {0|} () {0|} int(+0)\njmp 1 {}\nlabel 1 {1025|} []\nli r0 0\nret r0\nend\n",
        b"refused: function 0 label 1: rule size\n",
    ),
    // of one label, the type before the variables
    (
        b"fun main {1|} (int(+1v0+0)) {0|} int(+0)\njmp 1 {}\nlabel 1 {0|} [r0:tup(9)]\nli r0 0\nret r0\nend\n",
        b"refused: function 0 label 1: rule type\n",
    ),
    // of one label, the variables before the form
    (
        b"fun main {1|} (int(+1v0+0)) {0|} int(+0)\njmp 1 {}\nlabel 1 {0|} [r0:int(+1v3+0)]\nli r0 0\nret r0\nend\n",
        b"refused: function 0 label 1: rule edge\n",
    ),
    // of one label, the form before the size
    (
        b"fun main {0|} () {0|} int(+0)\njmp 1 {}\nlabel 1 {1025|+1v2000+0} []\nli r0 0\nret r0\nend\n",
        b"refused: function 0 label 1: rule form\n",
    ),
    // the second of two labels
    (
        b"fun main {0|} () {0|} int(+0)\njmp 1 {}\nlabel 1 {0|} []\nli r0 0\nret r0\nlabel 2 {0|} [r0:tup(9)]\nret r0\nend\n",
        b"refused: function 0 label 2: rule type\n",
    ),
    // a label before an instruction
    (
        b"fun main {0|} () {0|} int(+0)\nprint r5\njmp 1 {}\nlabel 1 {0|} [r0:tup(9)]\nli r0 0\nret r0\nend\n",
        b"refused: function 0 label 1: rule type\n",
    ),
];

/// Instructions that are refused.
const INSTRUCTIONS: &[Row] = &[
    // an instruction before a label of the next function
    (
        b"fun main {0|} () {0|} int(+0)\nprint r5\nret r5\nend\nfun f {0|} () {0|} int(+0)\njmp 1 {}\nlabel 1 {0|} [r0:tup(9)]\nli r0 0\nret r0\nend\n",
        b"refused: function 0 instruction 0: rule place\n",
    ),
    // no such label
    (
        b"fun main {0|} () {0|} int(+0)\njmp 1 {}\nend\n",
        b"refused: function 0 instruction 0: rule target\n",
    ),
    // label 0
    (
        b"fun main {0|} () {0|} int(+0)\njmp 0 {}\nend\n",
        b"refused: function 0 instruction 0: rule target\n",
    ),
    // no such function
    (
        b"fun main {0|} () {0|} int(+0)\ncall 1 r0 ()\nret r0\nend\n",
        b"refused: function 0 instruction 0: rule target\n",
    ),
    // no such cell type of an array
    (
        b"fun main {0|} () {0|} int(+0)\nli r0 0\nnew r1 9 r0 r0\nret r0\nend\n",
        b"refused: function 0 instruction 1: rule type\n",
    ),
    // a tuple of a cell type
    (
        b"fun main {0|} () {0|} int(+0)\nli r0 0\ntup r1 0 (r0)\nret r0\nend\n",
        b"refused: function 0 instruction 1: rule type\n",
    ),
    // a place that was never written
    (
        b"fun main {0|} () {0|} int(+0)\nprint r5\nret r5\nend\n",
        b"refused: function 0 instruction 0: rule place\n",
    ),
    // a slot that was never written
    (
        b"fun main {0|} () {0|} int(+0)\nret s239\nend\n",
        b"refused: function 0 instruction 0: rule place\n",
    ),
    // a place listed twice
    (
        b"type {0|} tuple bool bool\nfun main {0|} () {0|} int(+0)\nlb r0 1\ntup r1 2 (r0 r0)\nuntup 2 r1 (r2 r2)\nli r0 0\nret r0\nend\n",
        b"refused: function 0 instruction 2: rule place\n",
    ),
    // too few arguments
    (
        b"fun f {1|} (int(+1v0+0)) {0|} int(+0)\nli r0 0\nret r0\nend\nfun main {0|} () {0|} int(+0)\ncall 0 r0 ()\nret r0\nend\n",
        b"refused: function 1 instruction 0: rule count\n",
    ),
    // too many arguments
    (
        b"fun f {0|} () {0|} int(+0)\nli r0 0\nret r0\nend\nfun main {0|} () {0|} int(+0)\nli r0 0\ncall 0 r0 (r0)\nret r0\nend\n",
        b"refused: function 1 instruction 1: rule count\n",
    ),
    // a tuple without parts
    (
        b"type {0|} tuple bool\nfun main {0|} () {0|} int(+0)\ntup r1 2 ()\nli r0 0\nret r0\nend\n",
        b"refused: function 0 instruction 0: rule count\n",
    ),
    // too many places for a tuple
    (
        b"type {0|} tuple bool\nfun main {0|} () {0|} int(+0)\nlb r0 1\ntup r1 2 (r0)\nuntup 2 r1 (r2 r3)\nli r0 0\nret r0\nend\n",
        b"refused: function 0 instruction 2: rule count\n",
    ),
    // a truth value is printed
    (
        b"fun main {0|} () {0|} int(+0)\nlb r0 1\nprint r0\nli r0 0\nret r0\nend\n",
        b"refused: function 0 instruction 1: rule kind\n",
    ),
    // a number is tested
    (
        b"fun main {0|} () {0|} int(+0)\nli r0 0\nbt r0 1 {}\njmp 1 {}\nlabel 1 {0|} []\nli r0 0\nret r0\nend\n",
        b"refused: function 0 instruction 1: rule kind\n",
    ),
    // a number is measured
    (
        b"fun main {0|} () {0|} int(+0)\nli r0 0\nlen r1 r0\nret r0\nend\n",
        b"refused: function 0 instruction 1: rule kind\n",
    ),
    // a truth value is returned
    (
        b"fun main {0|} () {0|} int(+0)\nlb r0 1\nret r0\nend\n",
        b"refused: function 0 instruction 1: rule kind\n",
    ),
    // an argument of another kind
    (
        b"fun f {1|} (int(+1v0+0)) {0|} int(+0)\nli r0 0\nret r0\nend\nfun main {0|} () {0|} int(+0)\nlb r0 1\ncall 0 r0 (r0)\nret r0\nend\n",
        b"refused: function 1 instruction 1: rule kind\n",
    ),
    // a place of a label without a type
    (
        b"fun main {0|} () {0|} int(+0)\njmp 1 {}\nlabel 1 {0|} [r7:bool]\nli r0 0\nret r0\nend\n",
        b"refused: function 0 instruction 0: rule kind\n",
    ),
    // a place of a label of another kind
    (
        b"fun main {0|} () {0|} int(+0)\nli r7 0\njmp 1 {}\nlabel 1 {0|} [r7:bool]\nli r0 0\nret r0\nend\n",
        b"refused: function 0 instruction 1: rule kind\n",
    ),
    // a value of a variable of the signature
    (
        b"fun main {1|} (int(+1v0+0)) {0|} int(+0)\njmp 1 {v0=+0}\nlabel 1 {1|} []\nli r0 0\nret r0\nend\n",
        b"refused: function 0 instruction 0: rule edge\n",
    ),
    // a value of a variable that the label has not
    (
        b"fun main {0|} () {0|} int(+0)\njmp 1 {v0=+0}\nlabel 1 {0|} []\nli r0 0\nret r0\nend\n",
        b"refused: function 0 instruction 0: rule edge\n",
    ),
    // a value that names a variable that is not there
    (
        b"fun main {0|} () {0|} int(+0)\njmp 1 {v0=+1v0+0}\nlabel 1 {1|} []\nli r0 0\nret r0\nend\n",
        b"refused: function 0 instruction 0: rule form\n",
    ),
    // another value, without a proof
    (
        b"fun main {0|} () {0|} int(+0)\nli r0 7\njmp 1 {v0=+6}\nlabel 1 {1|} [r0:int(+1v0+0)]\nli r1 0\nret r1\nend\n",
        b"refused: function 0 instruction 1: rule lines\n",
    ),
    // a row without lines
    (
        b"fun main {1|} (int(+1v0+0)) {1|+1v1+0} int(+1v1+0)\nret r0\nend\n",
        b"refused: function 0 instruction 0: rule lines\n",
    ),
    // a row with lines that do not prove it
    (
        b"fun main {1|} (int(+1v0+0)) {1|+1v1+0} int(+1v1+0)\nret r0\nby g\nend\n",
        b"refused: function 0 instruction 0: rule lines\n",
    ),
    // lines for a row that is known
    (
        b"fun main {1|+1v0+0} (int(+1v0+0)) {1|+1v1+0} int(+1v1+0)\nret r0\nby h +1v0+0;g;c 1 0 1 1\nend\n",
        b"refused: function 0 instruction 0: rule lines\n",
    ),
    // lines where nothing is demanded
    (
        b"fun main {0|} () {0|} int(+0)\nli r0 0\nby g\nret r0\nend\n",
        b"refused: function 0 instruction 0: rule lines\n",
    ),
    // what follows a return
    (
        b"fun main {0|} () {0|} int(+0)\nli r0 0\nret r0\nprint r5\nret r0\nend\n",
        b"refused: function 0 instruction 2: rule place\n",
    ),
];

/// Two rules at one instruction, and the first of two places.
const ORDERS: &[Row] = &[
    // the label before the place
    (
        b"fun main {0|} () {0|} int(+0)\nbt r5 9 {}\nli r0 0\nret r0\nend\n",
        b"refused: function 0 instruction 0: rule target\n",
    ),
    // the function before the place
    (
        b"fun main {0|} () {0|} int(+0)\ncall 9 r0 (r5)\nret r0\nend\n",
        b"refused: function 0 instruction 0: rule target\n",
    ),
    // the type before the place
    (
        b"fun main {0|} () {0|} int(+0)\ntup r0 9 (r5)\nret r5\nend\n",
        b"refused: function 0 instruction 0: rule type\n",
    ),
    // the place before the count
    (
        b"fun f {0|} () {0|} int(+0)\nli r0 0\nret r0\nend\nfun main {0|} () {0|} int(+0)\ncall 0 r0 (r5)\nret r0\nend\n",
        b"refused: function 1 instruction 0: rule place\n",
    ),
    // the place before the kind
    (
        b"fun main {0|} () {0|} int(+0)\nlb r0 1\nadd r0 r0 r5\nret r0\nend\n",
        b"refused: function 0 instruction 1: rule place\n",
    ),
    // the count before the kind
    (
        b"fun f {1|} (int(+1v0+0)) {0|} int(+0)\nli r0 0\nret r0\nend\nfun main {0|} () {0|} int(+0)\nlb r0 1\ncall 0 r0 (r0 r0)\nret r0\nend\n",
        b"refused: function 1 instruction 1: rule count\n",
    ),
    // the kind before the edge
    (
        b"fun main {0|} () {0|} int(+0)\njmp 1 {v5=+0}\nlabel 1 {0|} [r7:bool]\nli r0 0\nret r0\nend\n",
        b"refused: function 0 instruction 0: rule kind\n",
    ),
    // the edge before the form
    (
        b"fun main {0|} () {0|} int(+0)\njmp 1 {v5=+1v9+0}\nlabel 1 {0|} []\nli r0 0\nret r0\nend\n",
        b"refused: function 0 instruction 0: rule edge\n",
    ),
    // the form before the lines
    (
        b"fun main {0|} () {0|} int(+0)\njmp 1 {v0=+1v9+0}\nby g\nlabel 1 {1|+1v0+0} []\nli r0 0\nret r0\nend\n",
        b"refused: function 0 instruction 0: rule form\n",
    ),
    // the first of two instructions
    (
        b"fun main {0|} () {0|} int(+0)\nprint r5\njmp 9 {}\nend\n",
        b"refused: function 0 instruction 0: rule place\n",
    ),
    // the second function
    (
        b"fun main {0|} () {0|} int(+0)\nli r0 0\nret r0\nend\nfun f {0|} () {0|} int(+0)\nret r5\nend\n",
        b"refused: function 1 instruction 0: rule place\n",
    ),
];

/// How many rows of the table agree with what is said.
fn agreeing(alloc: Global, rows: &[Row]) -> Result<usize, Memory> {
    let mut count = 0usize;
    for (functions, line) in rows {
        if says(alloc, functions, line)? {
            count = count.saturating_add(1);
        }
    }
    Ok(count)
}

#[test]
fn programs_are_accepted(rt: HostRuntime) -> Result<(), Fail> {
    assert_eq!(rt; agreeing(rt.alloc(), ACCEPTED)?, ACCEPTED.len());
    Ok(())
}

#[test]
fn types_are_refused(rt: HostRuntime) -> Result<(), Fail> {
    assert_eq!(rt; agreeing(rt.alloc(), TYPES)?, TYPES.len());
    Ok(())
}

#[test]
fn signatures_are_refused(rt: HostRuntime) -> Result<(), Fail> {
    assert_eq!(rt; agreeing(rt.alloc(), SIGNATURES)?, SIGNATURES.len());
    Ok(())
}

#[test]
fn labels_are_refused(rt: HostRuntime) -> Result<(), Fail> {
    assert_eq!(rt; agreeing(rt.alloc(), LABELS)?, LABELS.len());
    Ok(())
}

#[test]
fn instructions_are_refused(rt: HostRuntime) -> Result<(), Fail> {
    assert_eq!(rt; agreeing(rt.alloc(), INSTRUCTIONS)?, INSTRUCTIONS.len());
    Ok(())
}

#[test]
fn the_first_place_and_rule_are_named(rt: HostRuntime) -> Result<(), Fail> {
    assert_eq!(rt; agreeing(rt.alloc(), ORDERS)?, ORDERS.len());
    Ok(())
}
