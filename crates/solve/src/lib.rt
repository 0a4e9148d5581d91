// The elimination carried out: each pivot passed in the planned order, and answered from last to first.

#![tactic(auto)]

ghost use Rattle.std.specs.Prelude.{◌≡◌, ◌<◌, ◌≤◌};
ghost use Rattle.network.specs.Network.{side};
ghost use Rattle.operations.specs.Worksheets.{Able, Carried};
ghost use Rattle.sheet.specs.Asks.{work};
ghost use Rattle.solve.specs.Turns.{labels_to, forward_in, backward_in, pivots_from, plan_from};
ghost use Rattle.solve.specs.Levels.{links_after, Level};

use network::SIDE;
use operations::Worksheet;
use sheet::{Ask, Cell};

// A pivot among the first so many vertices, and the row of its neighbours. The links go beside it, since they change while it waits for its answer.
#[derive(Clone, Copy)]
struct Pivot {
    vertex: usize,
    near: u64,
    among: usize,
    ghost inside: { vertex < side },
    ghost few: { among ≤ side },
}

impl Pivot {
    // The labels to v from every other neighbour: each becomes, or is joined by, what leads over the pivot.
    fn pass_labels(self, sheet: &mut Worksheet, out: &mut [u8], links: &[u64; SIDE], v: usize)
        requires able { Able (work (labels_to links.now self.near self.among self.vertex v)) sheet.old out.old }
        requires inside { v < side }
        ensures { Carried (labels_to links.now self.near self.among self.vertex v) sheet.old out.old sheet.new out.new }
    {
        for u in 0..self.among {
            if rows::has(self.near, u) && v != u {
                sheet.ask(
                    out,
                    Ask {
                        joined: rows::has(links[u], v),
                        to: Cell::Label(u, v),
                        a: Cell::Label(u, self.vertex),
                        b: Cell::Label(self.vertex, v),
                    },
                );
            }
        }
    }

    // All that leads over the pivot to its neighbours: the start of each, and then the labels to it.
    fn forward(self, sheet: &mut Worksheet, out: &mut [u8], links: &[u64; SIDE])
        requires { Able (work (forward_in links.now self.near self.among self.vertex)) sheet.old out.old }
        ensures { Carried (forward_in links.now self.near self.among self.vertex) sheet.old out.old sheet.new out.new }
    {
        for v in 0..self.among {
            if rows::has(self.near, v) {
                sheet.ask(
                    out,
                    Ask {
                        joined: true,
                        to: Cell::Start(v),
                        a: Cell::Start(self.vertex),
                        b: Cell::Label(self.vertex, v),
                    },
                );
                self.pass_labels(sheet, out, links, v);
            }
        }
    }

    // The answer of the pivot: its start is joined by what leads from each neighbour.
    fn backward(self, sheet: &mut Worksheet, out: &mut [u8])
        requires { Able (work (backward_in self.near self.among self.vertex)) sheet.old out.old }
        ensures { Carried (backward_in self.near self.among self.vertex) sheet.old out.old sheet.new out.new }
    {
        for u in 0..self.among {
            if rows::has(self.near, u) {
                sheet.ask(
                    out,
                    Ask {
                        joined: true,
                        to: Cell::Start(self.vertex),
                        a: Cell::Start(u),
                        b: Cell::Label(u, self.vertex),
                    },
                );
            }
        }
    }
}

// Eliminates the pivots from place k of the order on, and answers them from last to first. A pivot's neighbours are kept until it is answered.
// The order goes with n and a place, as the definition `plan_from` walks it; n says how many vertices there are, and all rows of the links are read.
pub fn eliminate_from(
    sheet: &mut Worksheet,
    out: &mut [u8],
    links: &mut [u64; SIDE],
    rest: u64,
    order: &[usize; SIDE],
    n: usize,
    k: usize,
)
    requires able { Able (work (plan_from links.old rest order.now n k)) sheet.old out.old }
    requires level { Level links.old order.now n k }
    ensures carried { Carried (plan_from links.old rest order.now n k) sheet.old out.old sheet.new out.new }
    ensures links_value { links.new ≡ links_after (pivots_from order.now n k) links.old }
{
    if k == n {
        return;
    }
    let vertex = order[k];
    let pivot = Pivot {
        vertex,
        near: rows::near(links, rest, vertex),
        among: n,
    };
    pivot.forward(sheet, out, links);
    rows::eliminate(links, vertex);
    let left = rows::excluding(rest, vertex);
    eliminate_from(sheet, out, links, left, order, n, k + 1);
    pivot.backward(sheet, out);
}
