//! Trees as texts: each production with and without its optional parts.

use crate::tests::answer;
use std::alloc::Global;
use std::test::Fail;
use xanadu_tree::print_tree;

/// The text of the tree that a source is read as. `None` where it has no tree.
fn printed(alloc: Global, source: &[u8]) -> Option<Vec<u8>> {
    let tree = answer(alloc, source)?.ok()?;
    print_tree(alloc, &tree).ok()
}

fn is_printed_as(alloc: Global, source: &[u8], text: &[u8]) -> bool {
    printed(alloc, source).is_some_and(|printed| printed.as_slice() == text)
}

const WORKED: &[u8] = b"fun main(x: int, y: int): int { return x + y - 3; }";

const WORKED_TEXT: &[u8] = b"fun main ( x : int , y : int ) : int { return x + y - 3 ; } \n";

/// Texts that are printed as they stand: a space behind each token, and a newline.
const TEXTS: &[&[u8]] = &[
    b"\n",
    b"type Cell = int ; type Pair = { p : int , q : nat | p <= q , q < 2 * p - 1 , - p >= 3 , p > q , p = 0 } ( int ( p ) , bool ) ; \n",
    b"fun g { n : nat } ( a : int [ n ] , b : bool [ ] , c : Pair [ n ] , d : Pair ) : { m : int } int ( m ) { } fun f ( ) : unit { } \n",
    b"fun f ( ) : unit { var x = 1 ; let ( x , y ) = t ; a [ 1 ] [ i ] = 3 ; x = 2 ; f ( 1 , x ) ; f ( ) ; print x ; return ; return x ; } \n",
    b"fun f ( ) : unit { if ( b ) { } if ( b ) { } else { return 1 ; } join ( x : int ) while ( b ) { } while ( b ) with { k : nat } ( x : int ( k ) ) { return 1 ; } } \n",
    b"fun f ( ) : unit { return ! a && b || c ; return a < 1 ; return a <= 1 ; return a > 1 ; return a >= 1 ; return a == 1 ; return a != 1 ; } \n",
    b"fun f ( ) : unit { return - a [ 1 ] * b / 2 % 9223372036854775807 ; return f ( ) ; return Pair ( 1 , x ) ; return len ( a ) ; return new int [ 3 ] ( 0 ) ; return new Pair [ 3 ] ( x ) ; return ( x ) ; return true ; return false ; } \n",
];

#[test]
fn each_production_is_printed_with_and_without_its_optional_parts(rt: HostRuntime) {
    assert!(rt; is_printed_as(rt.alloc(), WORKED, WORKED_TEXT));
    for text in TEXTS {
        assert!(rt; is_printed_as(rt.alloc(), text, text));
    }
}
