// Links as a row of bits for each vertex: row u has the vertices that u is linked to. A set of vertices is such a row too.
// A vertex is a plain number, and each function asks that it is below the width: a type for it would have to be unwrapped at every loop, table and definition.

#![tactic(auto)]

ghost use Rattle.std.specs.Prelude.{◌≡◌, ◌^◌, ◌<◌, ◌≤◌};
ghost use Rattle.std.specs.Int.Count.{ones};
ghost use Rattle.network.specs.Network.{side};
ghost use Rattle.rows.specs.Row.{has, including, excluding, all_of};
ghost use Rattle.rows.specs.Table.{near_row};
ghost use Rattle.rows.specs.Gone.{row_after, eliminated};
ghost use Rattle.rows.specs.Connect.{Connects};

use network::{SIDE, Switch};

// Whether a row has v.
#[tactic(auto, using(crate::specs::Row::bit_read))]
pub fn has(row: u64, v: usize) -> bool
    requires { v < side }
    ensures { result ≡ has row v }
{
    (row >> v) & 1 == 1
}

// The row of v alone.
fn only(v: usize) -> u64
    requires { v ≤ side }
    ensures { result ≡ 2 ^ v }
{
    1 << v
}

// The row that has v too.
#[tactic(auto, using(crate::specs::Row::including_is))]
fn including(row: u64, v: usize) -> u64
    requires { v < side }
    ensures { result ≡ including row v }
{
    row | only(v)
}

// The row that has v no more.
#[tactic(auto, using(crate::specs::Row::excluding_is))]
pub fn excluding(row: u64, v: usize) -> u64
    requires { v < side }
    ensures { result ≡ excluding row v }
{
    (row | only(v)) ^ only(v)
}

// The row of the first n vertices.
#[tactic(auto, using(crate::specs::Row::all_is))]
pub fn all(n: usize) -> u64
    requires { n ≤ side }
    ensures { result ≡ all_of n }
{
    only(n) - 1
}

// How many vertices a row has.
pub fn size(row: u64) -> usize
    ensures { (result ≡ ones row) × (result ≤ 64) }
{
    // There is no `From` for this cast; it is proved to lose nothing.
    row.count_ones() as usize
}

// Those of a row that are neighbours of p.
#[tactic(auto, using(crate::specs::Table::near_is))]
pub fn near(links: &[u64; SIDE], rest: u64, p: usize) -> u64
    requires { p < side }
    ensures { result ≡ near_row links.now rest p }
{
    links[p] & excluding(rest, p)
}

// A row once p, whose row is the second, is eliminated: where it has p it has p's links too.
#[tactic(auto, using(crate::specs::Gone::after_linked, crate::specs::Gone::after_apart))]
fn row_after(row: u64, through: u64, p: usize) -> u64
    requires { p < side }
    ensures { result ≡ row_after row through p }
{
    if has(row, p) { row | through } else { row }
}

// Eliminates p: its neighbours are linked pairwise.
#[tactic(auto, using(crate::specs::Gone::going_none, crate::specs::Gone::going_more, crate::specs::Gone::going_all))]
pub fn eliminate(links: &mut [u64; SIDE], p: usize)
    requires { p < side }
    ensures { links.new ≡ eliminated p links.old }
{
    let through = links[p];
    for row in links.iter_mut() {
        *row = row_after(*row, through, p);
    }
}

// Links the ends of a switch, in both directions; gives its joins.
pub fn connect(links: &mut [u64; SIDE], w: Switch) -> usize
    requires { (w.first < side) × (w.second < side) }
    ensures { Connects w links.old links.new result }
{
    if w.first == w.second {
        return 0;
    }
    let a = usize::from(w.first);
    let b = usize::from(w.second);
    let before = has(links[a], b);
    links[a] = including(links[a], b);
    links[b] = including(links[b], a);
    if before { 2 } else { 0 }
}
