// Text, put into a lent slice: words, numbers in decimal, bytes in hexadecimal, and the lines of a listing. Each function is told where
// to put. One that is called `put` answers the place behind what it put, and asks for the room that it may need; one that is called `fit`
// puts a text only if it fits, and answers how long it is in any case.
#![tactic(auto)]

pub mod answer;
pub mod line;
pub mod put;
