//! Proof lines by hand: what the check answers, which bytes are lines, and the limit of their variables.
mod cases;
mod limits;
mod table;
mod texts;
