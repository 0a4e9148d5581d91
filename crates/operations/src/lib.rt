// One operation on the sheet: cells that hold references, and records in a lent buffer.

#![tactic(auto)]

ghost use Rattle.std.specs.Prelude.{◌≡◌, cond, [], ◌∷◌, ◌<◌, set};
ghost use Rattle.network.specs.Network.{side};
ghost use Rattle.sheet.specs.Cells.{cells_in, place_of, Inside};
ghost use Rattle.sheet.specs.declared.Cell.TheVariants.{Label};
ghost use Rattle.operations.specs.Ways.{Placed};
ghost use Rattle.operations.specs.Worksheets.{Blank, Able, Carried};

use form::{AND, OR, Reference};
use network::SIDE;
use records::Records;
use sheet::{Ask, CELLS, Cell};

// The place of the label from u to v in the array.
fn label_place(u: usize, v: usize) -> usize
    requires { (u < side) × (v < side) }
    ensures { Placed (Label u v) result }
{
    SIDE + SIDE * u + v
}

// The place of a cell in the array.
fn place(c: Cell) -> usize
    requires { Inside c }
    ensures { Placed c result }
{
    match c {
        Cell::Start(v) => v,
        Cell::Label(u, v) => label_place(u, v),
    }
}

// The sheet at work: its cells, and the records that these refer to, whose bytes are in the buffer that is lent beside, as with `Records`.
#[derive(Drop)]
pub struct Worksheet {
    pub cells: [u16; CELLS],
    pub records: Records,
}

impl Worksheet {
    // A sheet with nothing on it yet: where its records will begin, and after how many variables they will be numbered.
    pub fn empty(base: usize, variables: usize) -> Worksheet
        ensures base { result.records.base ≡ base }
        ensures blank { Blank variables result }
    {
        Worksheet {
            cells: [0; CELLS],
            records: Records::empty(base, variables),
        }
    }

    // The reference that a cell holds.
    #[tactic(auto, using(crate::specs::Ways::reads_cell))]
    pub fn held(&self, c: Cell) -> Reference
        requires { Inside c }
        ensures { result.number ≡ cells_in self.now.cells c }
    {
        let at = place(c);
        Reference {
            number: self.cells[at],
        }
    }

    // Puts a reference into a cell.
    pub fn put(&mut self, c: Cell, r: Reference)
        requires { Inside c }
        ensures cells { self.new.cells ≡ set self.old.cells (place_of c) r.number }
        ensures records { self.new.records ≡ self.old.records }
    {
        let at = place(c);
        self.cells[at] = r.number;
    }

    // Carries an operation out: the product, and where it is joined then its sum with what was there.
    pub fn ask(&mut self, out: &mut [u8], x: Ask)
        requires able { Able (cond x.joined 2 1) self.old out.old }
        requires inside { Inside x.to × Inside x.a × Inside x.b }
        ensures { Carried (x ∷ []) self.old out.old self.new out.new }
    {
        let a = self.held(x.a);
        let b = self.held(x.b);
        let t = self.records.make(out, AND, a, b);
        if x.joined {
            let was = self.held(x.to);
            let sum = self.records.make(out, OR, was, t);
            self.put(x.to, sum);
        } else {
            self.put(x.to, t);
        }
    }
}
