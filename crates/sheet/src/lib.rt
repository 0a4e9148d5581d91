// How formulas come about: operations on cells that hold references.

#![tactic(auto)]

use network::SIDE;

// How many cells there are: a start for each vertex, and a row of labels for each.
pub const CELLS: usize = SIDE + SIDE * SIDE;

// A cell: the start of a vertex, which is its answer in the end, or the label from one vertex to another. Vertices are plain numbers: a variant can't hold a fact, and a type for them would have to be unwrapped in every definition.
#[derive(Clone, Copy)]
pub enum Cell {
    Start(usize),
    Label(usize, usize),
}

// An operation that is asked for: cell `to` becomes the product of the cells a and b or, where it is joined, what it was or that product.
#[derive(Clone, Copy)]
pub struct Ask {
    pub joined: bool,
    pub to: Cell,
    pub a: Cell,
    pub b: Cell,
}
