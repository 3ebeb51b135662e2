// The map of a packet's fields, as a line has it: the fields' names, and fields such as `uri:0+12` parted by commas.
#![tactic(auto)]

pub mod field_maps;
pub mod field_names;
