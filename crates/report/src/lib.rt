// What the programs print, as text. Each `write_..` promises in the library's words what it adds to a text: that is no
// fact about one value, so no type holds it.
#![tactic(auto)]

pub mod demux;
pub mod explain;
pub mod failure;
