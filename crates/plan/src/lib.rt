// The plan of an elimination: rule M's order, the degrees, the work and the joins.
// The table of links always has 24 rows; n says how many vertices there are.

#![tactic(auto)]

ghost use Rattle.std.specs.Prelude.{◌≡◌, ◌+◌, ◌^◌, ◌<◌, ◌≤◌, length};
ghost use Rattle.elimination.specs.WorkLaws.{pivot_work};
ghost use Rattle.network.specs.Network.{side, edition, network_of};
ghost use Rattle.network.specs.Layout.{Within};
ghost use Rattle.rows.specs.Row.{vertices_in, excluding, all_of};
ghost use Rattle.rows.specs.Table.{links_in, near_row};
ghost use Rattle.plan.specs.Work.{neighbour_asked, neighbour_most, pivot_most};
ghost use Rattle.plan.specs.Scan.{turn, Takes};
ghost use Rattle.plan.specs.Wire.{Wired};
ghost use Rattle.plan.specs.Plans.{plan_for, plan_in, order_of_plan};
ghost use Rattle.plan.specs.Measure.{Bounded, room_in};
ghost use Rattle.plan.specs.Planned.{Steps};

use entries::Accepted;
use network::{SIDE, Sections};

// The work at v, where it is a neighbour: its start, the labels from it to the other neighbours, and the answer of the pivot.
#[tactic(auto, using(crate::specs::Work::neighbour_far, crate::specs::Work::neighbour_near))]
fn neighbour_work(links: &[u64; SIDE], near: u64, v: usize) -> usize
    requires { v < side }
    ensures { (result ≡ neighbour_asked links.now near v) × (result ≤ neighbour_most) }
{
    if rows::has(near, v) {
        let others = rows::excluding(near, v);
        4 + rows::size(others) + rows::size(others & links[v])
    } else {
        0
    }
}

// A vertex, and its degree.
#[derive(Clone, Copy)]
pub struct Taken {
    pub vertex: usize,
    pub degree: usize,
}

// v, where it remains and has a lower degree than the best so far.
#[tactic(auto, using(crate::specs::Scan::turn_gone, crate::specs::Scan::turn_wins, crate::specs::Scan::turn_loses))]
fn tried(links: &[u64; SIDE], rest: u64, v: usize, best: Taken) -> Taken
    requires { v < side }
    ensures { result ≡ turn links.now rest v best }
{
    if rows::has(rest, v) {
        let degree = rows::size(rows::near(links, rest, v));
        if degree < best.degree {
            return Taken { vertex: v, degree };
        }
    }
    best
}

// A step of the elimination: the pivot with its degree when it is taken, and its work.
#[derive(Clone, Copy)]
pub struct Stepped {
    pub taken: Taken,
    pub work: usize,
}

// A row of vertices, among the first so many.
#[derive(Clone, Copy)]
struct Vertices {
    row: u64,
    among: usize,
    ghost few: { among ≤ side },
    ghost inside: { row < 2 ^ among },
}

impl Vertices {
    // The first so many, all of them.
    #[tactic(auto, using(crate::specs::Planned::first_below))]
    fn first(among: usize) -> Vertices
        requires { among ≤ side }
        ensures { (result.row ≡ all_of among) × (result.among ≡ among) }
    {
        Vertices {
            row: rows::all(among),
            among,
        }
    }

    // Those that are neighbours of p.
    #[tactic(auto, using(crate::specs::Planned::near_below))]
    fn near(self, links: &[u64; SIDE], p: usize) -> Vertices
        requires { p < side }
        ensures { (result.row ≡ near_row links.now self.row p) × (result.among ≡ self.among) }
    {
        Vertices {
            row: rows::near(links, self.row, p),
            among: self.among,
        }
    }

    // All but v.
    #[tactic(auto, using(crate::specs::Planned::excluding_below))]
    fn excluding(self, v: usize) -> Vertices
        requires { v < side }
        ensures { (result.row ≡ excluding self.row v) × (result.among ≡ self.among) }
    {
        Vertices {
            row: rows::excluding(self.row, v),
            among: self.among,
        }
    }

    // The work at a pivot with these neighbours.
    fn work(self, links: &[u64; SIDE]) -> usize
        ensures { (result ≡ pivot_work (links_in links.now) (vertices_in self.among self.row)) × (result ≤ pivot_most) }
    {
        let mut work = 0;
        for v in 0..self.among {
            work += neighbour_work(links, self.row, v);
        }
        work
    }

    // Rule M: the lowest remaining vertex with the fewest neighbours.
    #[tactic(auto, using(crate::specs::Scan::scanning_none, crate::specs::Scan::scanning_more, crate::specs::Scan::scanning_all))]
    fn pivot(self, links: &[u64; SIDE]) -> Taken
        requires { 0 < length (vertices_in self.among self.row) }
        ensures { Takes links.now self.row self.among result }
    {
        // Any degree is below this one. With an `Option` in its place, `None` would have an arm that is never reached.
        let mut best = Taken {
            vertex: 0,
            degree: SIDE + 1,
        };
        for v in 0..self.among {
            best = tried(links, self.row, v, best);
        }
        best
    }

    // Takes the next vertex by rule M.
    fn step(self, links: &mut [u64; SIDE]) -> Stepped
        requires { 0 < length (vertices_in self.among self.row) }
        ensures { Steps links.old self.row self.among links.new result }
    {
        let taken = self.pivot(links);
        let work = self.near(links, taken.vertex).work(links);
        rows::eliminate(links, taken.vertex);
        Stepped { taken, work }
    }
}

// Links the ends of every switch of an accepted file; gives the joins.
fn wire(net: &Accepted<'_>, links: &mut [u64; SIDE]) -> usize
    requires { Within edition net.now.parts }
    ensures { Wired (network_of net.now.file.now).switches links.old links.new result }
{
    let mut joins = 0;
    for k in 0..net.parts.switches {
        joins += rows::connect(links, net.switch(k));
    }
    joins
}

// The vertices in order, each with its degree when it is taken, the work, and the joins. Beyond the last vertex both numbers are 0: the memory is fixed, and the file says how many vertices there are.
#[derive(Clone, Copy)]
pub struct Plan {
    pub steps: [Taken; SIDE],
    pub work: usize,
    pub joins: usize,
}

impl Plan {
    // The order of the vertices.
    pub fn order(&self) -> [usize; SIDE]
        ensures { result ≡ order_of_plan self.now }
    {
        // In place: `map` would build the array in a second place and copy it.
        let mut order = [0; SIDE];
        for k in 0..SIDE {
            order[k] = self.steps[k].vertex;
        }
        order
    }
}

// Eliminates n vertices by rule M, one by one.
fn eliminate_all(links: &mut [u64; SIDE], n: usize, joins: usize) -> Plan
    requires { n ≤ side }
    ensures { result ≡ plan_for n (links_in links.old) joins }
{
    let mut rest = Vertices::first(n);
    let mut steps = [Taken {
        vertex: 0,
        degree: 0,
    }; SIDE];
    let mut work = 0;
    for k in 0..n {
        let now = rest.step(links);
        rest = rest.excluding(now.taken.vertex);
        steps[k] = now.taken;
        work += now.work;
    }
    Plan { steps, work, joins }
}

// The plan of an accepted file.
pub fn plan_of(net: &Accepted<'_>) -> Plan
    requires within { Within edition net.now.parts }
    ensures value { result ≡ plan_in (network_of net.now.file.now) }
    ensures bounded { Bounded edition result.joins result.work }
{
    let mut links = [0; SIDE];
    let joins = wire(net, &mut links);
    eliminate_all(&mut links, net.parts.vertices, joins)
}

// The room that the result of an accepted file needs. Its sections are enough for it, so it takes no bytes.
pub fn room_for(parts: Sections, found: Plan) -> usize
    requires within { Within edition parts }
    requires bounded { Bounded edition found.joins found.work }
    ensures { result ≡ room_in parts found }
{
    16 + 2 * parts.variables + 6 * (parts.givens + found.joins + found.work) + 6 * parts.vertices
}
