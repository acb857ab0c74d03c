// Translate, room in the data region, read and write in code, of a node: each does its definition.
#![tactic(auto)]

pub mod answers;
pub mod following;
pub mod node;
pub mod room;
pub mod translation;
