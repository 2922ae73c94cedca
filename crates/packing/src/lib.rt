// Packing: how an array holds a factor of a product, and the copy of a block of a factor into a buffer.
#![tactic(auto)]

pub mod factor;
pub mod mirror;
pub mod pack;
pub mod runs;

// How an array holds a factor: as it is, transposed, or symmetric with only one triangle to be read.
#[derive(Clone, Copy)]
pub enum Form {
    Plain,
    Transposed,
    Lower,
    Upper,
}

// How a block can be read: along the array's columns, along its rows, mirrored from one triangle, or entry by entry.
#[derive(Clone, Copy)]
pub enum Way {
    Columns,
    Rows,
    Mirrored,
    Entries,
}
