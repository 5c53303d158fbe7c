//! Systems by hand, the limits from both sides, each proof against the checker, and many goals in one pool and buffer.
mod again;
mod cases;
mod limits;
mod room;
mod run;
mod table;
