//! Bed meshes: the height of a bed that was measured on a grid, moves cut at its lines, and files of G-code whose moves
//! follow the bed.
#![tactic(auto)]

mod back;
mod cut;
mod fault;
mod file;
mod height;
mod line;
mod mesh;
mod number;
mod part;
mod table;

pub use fault::MeshFault;
pub use file::{MeshOut, mesh_file};
pub use mesh::{Grid, Mesh};
pub use std::alloc::AllocError as OutOfMemory;
pub use table::read_mesh;
