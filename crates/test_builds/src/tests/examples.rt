//! The programs of `examples/`: built, verified, and run on arguments. A script wrote the sources here from their files.

use crate::tests::programs::comes_to;
use std::test::Fail;

const BINARY_SEARCH: &[u8] =
    b"// Binary search in a sorted array. The result's type says that what is found is a place of the array.\nfun find{n: nat}(a: int[n], x: int): {r: int | -1 <= r, r < n} int(r) {\n  var low = 0;\n  var high = len(a);\n  while (low < high) with {p: int, q: int | 0 <= p, p <= q, q <= n} (low: int(p), high: int(q)) {\n    var middle = (low + high) / 2;\n    var y = a[middle];\n    if (y == x) { return middle; }\n    if (y < x) { low = middle + 1; } else { high = middle; }\n    join {p: int, q: int | 0 <= p, p <= q, q <= n} (low: int(p), high: int(q))\n  }\n  return -1;\n}\n\n// where x stands in a, or -1\nfun main(a: int[], x: int): int {\n  return find(a, x);\n}\n";

const INSERTION_SORT: &[u8] =
    b"// Insertion sort, in place: each number goes back past the greater ones before it.\nfun sort{n: nat}(a: int[n]): unit {\n  var i = 1;\n  while (i < len(a)) with {k: int | 1 <= k} (i: int(k)) {\n    var x = a[i];\n    var j = i;\n    while (j > 0 && a[j - 1] > x) with {m: int | 0 <= m, m <= k} (j: int(m)) {\n      a[j] = a[j - 1];\n      j = j - 1;\n    }\n    a[j] = x;\n    i = i + 1;\n  }\n  return;\n}\n\n// prints the numbers in order, and returns how many there are\nfun main(a: int[]): int {\n  sort(a);\n  var i = 0;\n  while (i < len(a)) with {k: int | 0 <= k} (i: int(k)) {\n    print a[i];\n    i = i + 1;\n  }\n  return len(a);\n}\n";

const PREFIX_SUMS: &[u8] =
    b"// Prefix sums: behind one pass, the sum of each stretch of the array is a difference of two numbers.\nfun prefix_sums{n: nat}(a: int[n]): int[n + 1] {\n  var sums = new int[len(a) + 1](0);\n  var i = 0;\n  while (i < len(a)) with {k: int | 0 <= k, k <= n} (i: int(k)) {\n    sums[i + 1] = sums[i] + a[i];\n    i = i + 1;\n  }\n  return sums;\n}\n\n// the sum of the numbers from place `from` on and before place `to`, or 0 where there is no such stretch\nfun main(a: int[], from: int, to: int): int {\n  var sums = prefix_sums(a);\n  if (0 <= from && from <= to && to <= len(a)) { return sums[to] - sums[from]; }\n  return 0;\n}\n";

const MATRIX_PRODUCT: &[u8] =
    b"// The product of two matrices whose rows have one length, 3: the type of the cells of a matrix says so, and no index into a row is tested.\ntype Row = int[3];\n\n// fills a matrix of so many rows, row by row, from the numbers of an array\nfun matrix{m: nat, n: nat | n = 3 * m}(rows: int(m), a: int[n]): Row[m] {\n  var made = new Row[rows](new int[3](0));\n  var i = 0;\n  while (i < rows) with {k: int | 0 <= k, k <= m} (i: int(k)) {\n    var row = new int[3](0);\n    var j = 0;\n    while (j < 3) with {l: int | 0 <= l, l <= 3} (j: int(l)) {\n      row[j] = a[3 * i + j];\n      j = j + 1;\n    }\n    made[i] = row;\n    i = i + 1;\n  }\n  return made;\n}\n\n// the product of a matrix of m rows and one of 3 rows\nfun product{m: nat}(a: Row[m], b: Row[3]): Row[m] {\n  var made = new Row[len(a)](new int[3](0));\n  var i = 0;\n  while (i < len(a)) with {k: int | 0 <= k, k <= m} (i: int(k)) {\n    var left = a[i];\n    var row = new int[3](0);\n    var j = 0;\n    while (j < 3) with {l: int | 0 <= l} (j: int(l)) {\n      var sum = 0;\n      var t = 0;\n      while (t < 3) with {u: int | 0 <= u} (t: int(u)) {\n        sum = sum + left[t] * b[t][j];\n        t = t + 1;\n      }\n      row[j] = sum;\n      j = j + 1;\n    }\n    made[i] = row;\n    i = i + 1;\n  }\n  return made;\n}\n\n// prints the product of two matrices of 3 rows, row by row, and returns how many numbers they have each\nfun main(a: int[], b: int[]): int {\n  if (len(a) == 9 && len(b) == 9) {\n    var c = product(matrix(3, a), matrix(3, b));\n    var i = 0;\n    while (i < 3) with {k: int | 0 <= k} (i: int(k)) {\n      var j = 0;\n      while (j < 3) with {l: int | 0 <= l} (j: int(l)) {\n        print c[i][j];\n        j = j + 1;\n      }\n      i = i + 1;\n    }\n  }\n  return len(a);\n}\n";

const STRING_SEARCH: &[u8] =
    b"// String search: where a pattern first stands in a text, both as arrays of codes.\n\n// whether the pattern stands in the text at a place where it has room\nfun stands{n: nat, m: nat, p: nat | p + m <= n}(text: int[n], pattern: int[m], at: int(p)): bool {\n  var i = 0;\n  while (i < len(pattern)) with {k: nat} (i: int(k)) {\n    if (text[at + i] != pattern[i]) { return false; }\n    i = i + 1;\n  }\n  return true;\n}\n\n// the first place, or -1\nfun main(text: int[], pattern: int[]): int {\n  var at = 0;\n  while (at + len(pattern) <= len(text)) with {p: nat} (at: int(p)) {\n    if (stands(text, pattern, at)) { return at; }\n    at = at + 1;\n  }\n  return -1;\n}\n";

const RING_BUFFER: &[u8] =
    b"// A ring buffer as a tuple: its cells, where the first number stands, and how many numbers there are. The type says that the\n// first place is one of the cells, and that there are no more numbers than cells.\ntype Ring = {c: int, f: int, n: int | 1 <= c, 0 <= f, f < c, 0 <= n, n <= c} (int[c], int(f), int(n));\n\nfun empty{c: int | 1 <= c}(cells: int(c)): Ring {\n  return Ring(new int[cells](0), 0, 0);\n}\n\nfun size(ring: Ring): int {\n  let (cells, first, count) = ring;\n  return count;\n}\n\n// puts a number behind the others; a full ring stays as it is\nfun push(ring: Ring, x: int): Ring {\n  let (cells, first, count) = ring;\n  if (count < len(cells)) {\n    var at = first + count;\n    if (at < len(cells)) { cells[at] = x; } else { cells[at - len(cells)] = x; }\n    return Ring(cells, first, count + 1);\n  }\n  return Ring(cells, first, count);\n}\n\n// the first number, or 0 where there is none\nfun front(ring: Ring): int {\n  let (cells, first, count) = ring;\n  if (count > 0) { return cells[first]; }\n  return 0;\n}\n\n// the ring without its first number\nfun pop(ring: Ring): Ring {\n  let (cells, first, count) = ring;\n  if (count > 0) {\n    if (first + 1 < len(cells)) { return Ring(cells, first + 1, count - 1); }\n    return Ring(cells, 0, count - 1);\n  }\n  return Ring(cells, first, count);\n}\n\n// puts each positive number into a ring of three, takes one out and prints it at each other one, and returns how many are left\nfun main(a: int[]): int {\n  var ring = empty(3);\n  var i = 0;\n  while (i < len(a)) with {k: int | 0 <= k} (i: int(k)) {\n    if (a[i] > 0) { ring = push(ring, a[i]); } else { print front(ring); ring = pop(ring); }\n    i = i + 1;\n  }\n  return size(ring);\n}\n";

const GREATEST_COMMON_DIVISOR: &[u8] =
    b"// The greatest common divisor of two numbers, after Euclid. A remainder is asked for by a number that is at least 1 alone.\nfun gcd(a: int, b: int): int {\n  while (b > 0) {\n    var rest = a % b;\n    a = b;\n    b = rest;\n  }\n  return a;\n}\n\n// that of two numbers of which neither is negative; a negative one counts as 0\nfun main(a: int, b: int): int {\n  if (a < 0) { a = 0; }\n  if (b < 0) { b = 0; }\n  return gcd(a, b);\n}\n";

const HEAP: &[u8] =
    b"// A heap in an array: each number is at most the two at twice its place. Sorting takes the least out again and again.\n\n// lets the number at a place sink among the first `size`\nfun sink{n: nat, p: nat, s: nat | s <= n}(heap: int[n], at: int(p), size: int(s)): unit {\n  var sinks = true;\n  while (sinks && 2 * at + 1 < size) with {q: nat} (at: int(q)) {\n    var child = 2 * at + 1;\n    if (child + 1 < size) {\n      if (heap[child + 1] < heap[child]) { child = child + 1; }\n      join {c: nat | c < s} (child: int(c))\n    } join {c: nat | c < s} (child: int(c))\n    if (heap[child] < heap[at]) {\n      var x = heap[at];\n      heap[at] = heap[child];\n      heap[child] = x;\n      at = child;\n    } else { sinks = false; }\n    join {r: nat} (at: int(r))\n  }\n  return;\n}\n\n// prints the numbers in order, and returns the greatest, or 0 where there is none\nfun main{n: nat}(a: int[n]): int {\n  var at = len(a) / 2;\n  while (at > 0) with {p: nat} (at: int(p)) {\n    at = at - 1;\n    sink(a, at, len(a));\n  }\n  var size = len(a);\n  var last = 0;\n  while (size > 0) with {s: nat | s <= n} (size: int(s)) {\n    last = a[0];\n    print last;\n    a[0] = a[size - 1];\n    sink(a, 0, size - 1);\n    size = size - 1;\n  }\n  return last;\n}\n";

const UNION_FIND: &[u8] =
    b"// Union-find: each thing has a parent, and the ends of these chains stand for the sets. What is read from the array is tested\n// once, so that a wrong parent could never lead out of it.\n\n// the end of the chain that begins here\nfun root{n: nat, p: nat | p < n}(parent: int[n], at: int(p)): {r: nat | r < n} int(r) {\n  while (parent[at] != at) with {q: nat | q < n} (at: int(q)) {\n    var next = parent[at];\n    if (0 <= next && next < len(parent)) { at = next; } else { return at; }\n    join {r: nat | r < n} (at: int(r))\n  }\n  return at;\n}\n\n// joins the sets of two things, and tells whether they were two\nfun unite{n: nat, p: nat, q: nat | p < n, q < n}(parent: int[n], a: int(p), b: int(q)): bool {\n  var first = root(parent, a);\n  var second = root(parent, b);\n  if (first == second) { return false; }\n  parent[first] = second;\n  return true;\n}\n\n// how many sets are left of `count` things behind the pairs of two arrays\nfun main(count: int, left: int[], right: int[]): int {\n  if (count < 0) { return 0; }\n  var parent = new int[count](0);\n  var i = 0;\n  while (i < count) with {k: nat} (i: int(k)) {\n    parent[i] = i;\n    i = i + 1;\n  }\n  var sets = count;\n  i = 0;\n  while (i < len(left) && i < len(right)) with {k: nat} (i: int(k)) {\n    var a = left[i];\n    var b = right[i];\n    if (0 <= a && a < count && 0 <= b && b < count) {\n      if (unite(parent, a, b)) { sets = sets - 1; }\n    }\n    i = i + 1;\n  }\n  return sets;\n}\n";

const RUN_LENGTH_CODING: &[u8] =
    b"// Run-length coding: each stretch of equal numbers becomes the number and how often it stands there.\n\n// prints the code, and returns how many stretches there are\nfun encode{n: nat}(a: int[n]): int {\n  var runs = 0;\n  var i = 0;\n  while (i < len(a)) with {k: int | 0 <= k, k <= n} (i: int(k)) {\n    var x = a[i];\n    var from = i;\n    i = i + 1;\n    var goes_on = true;\n    while (goes_on && i < len(a)) with {l: int | k < l, l <= n} (i: int(l)) {\n      if (a[i] == x) { i = i + 1; } else { goes_on = false; }\n      join {l: int | k < l, l <= n} (i: int(l))\n    }\n    print x;\n    print i - from;\n    runs = runs + 1;\n  }\n  return runs;\n}\n\nfun main(a: int[]): int {\n  return encode(a);\n}\n";

/// One of the programs.
#[derive(Clone, Copy)]
enum Example {
    BinarySearch,
    InsertionSort,
    PrefixSums,
    MatrixProduct,
    StringSearch,
    RingBuffer,
    GreatestCommonDivisor,
    Heap,
    UnionFind,
    RunLengthCoding,
}

fn source_of(example: Example) -> &'static [u8] {
    match example {
        Example::BinarySearch => BINARY_SEARCH,
        Example::InsertionSort => INSERTION_SORT,
        Example::PrefixSums => PREFIX_SUMS,
        Example::MatrixProduct => MATRIX_PRODUCT,
        Example::StringSearch => STRING_SEARCH,
        Example::RingBuffer => RING_BUFFER,
        Example::GreatestCommonDivisor => GREATEST_COMMON_DIVISOR,
        Example::Heap => HEAP,
        Example::UnionFind => UNION_FIND,
        Example::RunLengthCoding => RUN_LENGTH_CODING,
    }
}

/// Programs, the words of a run of their text, and the numbers that it prints, the one that it returns last.
const RUNS: &[(Example, &[&str], &[u8])] = &[
    (
        Example::BinarySearch,
        &["run", "out", "arr=1,4,7,9", "int=7"],
        b"2\n",
    ),
    (
        Example::BinarySearch,
        &["run", "out", "arr=1,4,7,9", "int=5"],
        b"-1\n",
    ),
    (
        Example::InsertionSort,
        &["run", "out", "arr=5,-1,3,3,0"],
        b"-1\n0\n3\n3\n5\n5\n",
    ),
    (
        Example::PrefixSums,
        &["run", "out", "arr=1,2,3,4,5", "int=1", "int=4"],
        b"9\n",
    ),
    (
        Example::PrefixSums,
        &["run", "out", "arr=1,2,3", "int=2", "int=9"],
        b"0\n",
    ),
    (
        Example::MatrixProduct,
        &[
            "run",
            "out",
            "arr=1,2,3,4,5,6,7,8,9",
            "arr=9,8,7,6,5,4,3,2,1",
        ],
        b"30\n24\n18\n84\n69\n54\n138\n114\n90\n9\n",
    ),
    (
        Example::StringSearch,
        &["run", "out", "arr=1,2,1,2,3,4", "arr=1,2,3"],
        b"2\n",
    ),
    (
        Example::StringSearch,
        &["run", "out", "arr=1,2,1,2", "arr=2,2"],
        b"-1\n",
    ),
    (
        Example::RingBuffer,
        &["run", "out", "arr=1,2,3,4,0,5,0,0,-1,6"],
        b"1\n2\n3\n5\n1\n",
    ),
    (
        Example::GreatestCommonDivisor,
        &["run", "out", "int=1071", "int=462"],
        b"21\n",
    ),
    (
        Example::GreatestCommonDivisor,
        &["run", "out", "int=-8", "int=12"],
        b"12\n",
    ),
    (
        Example::Heap,
        &["run", "out", "arr=5,3,8,1,9,2"],
        b"1\n2\n3\n5\n8\n9\n9\n",
    ),
    (
        Example::UnionFind,
        &["run", "out", "int=6", "arr=0,1,4,2,7", "arr=1,2,5,0,1"],
        b"3\n",
    ),
    (
        Example::RunLengthCoding,
        &["run", "out", "arr=7,7,7,1,2,2"],
        b"7\n3\n1\n1\n2\n2\n3\n",
    ),
];

#[test]
fn known_programs_are_built_and_run(rt: HostRuntime) -> Result<(), Fail> {
    let alloc = rt.alloc();
    for (example, words, said) in RUNS {
        assert!(rt; comes_to(alloc, source_of(*example), words, 0, said)?);
    }
    Ok(())
}
