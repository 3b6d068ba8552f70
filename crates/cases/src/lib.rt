// What the test programs share. A case is a line of hexadecimal fields: the arguments of an operation, and what must come of them.
// Here are its fields, the answers that it may have, the buffers that an operation is lent, and how many cases agree.
#![tactic(auto)]

pub mod answer;
pub mod file;
pub mod fill;
pub mod line;
pub mod room;
pub mod setting;
