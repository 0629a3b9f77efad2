// What the script program makes of its input: of a piece of it, with the replies to the lines that it ends. What is held of a line is the crate line_input, the
// answer to a line the crate answers. Reading and writing are the program's own (crate script).
#![tactic(auto)]

pub mod program;
