// The result's writer: the variables before the records, and everything after them. A buffer goes with a place, for the reason that `text` gives.

#![tactic(auto)]

ghost use Rattle.std.specs.Prelude.{◌≡◌, refl, List, ℕ, ◌+◌, ◌*◌, ◌<◌, ◌≤◌, length, ⊤};
ghost use Rattle.std.specs.List.{All};
ghost use Rattle.analysis.specs.Result.{section, single};
ghost use Rattle.form.specs.Numbers.{put_word, put_numbers};
ghost use Rattle.network.specs.Layout.{Within};
ghost use Rattle.network.specs.Network.{edition, network_of};
ghost use Rattle.sheet.specs.Cells.{cells_in};
ghost use Rattle.writer.specs.Last.{taken_entry, StepFits, figures_in, result_length, Fits, Finished};

use entries::Accepted;
use network::Sections;
use plan::{Plan, Taken};
use sheet::CELLS;

// Writes a number that fits 16 bits.
fn put_number(out: &mut [u8], at: usize, n: usize)
    requires { (n < 65536) × (at + 2 ≤ length out.old) }
    ensures { out.new ≡ put_word out.old at n }
{
    // A cast that is proved to lose nothing.
    form::put_word(out, at, n as u16);
}

// Writes the variables of an accepted file, as given.
pub fn write_variables(net: &Accepted<'_>, out: &mut [u8])
    requires within { Within edition net.now.parts }
    requires variables_in_bounds { 2 + 2 * net.now.parts.variables ≤ length out.old }
    ensures { out.new ≡ put_numbers out.old 0 (section single (network_of net.now.file.now).variables) }
{
    let count = net.parts.variables;
    put_number(out, 0, count);
    // It reads coil by coil from the file, so there is no slice for `write_entries`.
    for k in 0..count {
        form::put_word(out, 2 + 2 * k, net.variable(k));
    }
}

// An entry of a section: how many bytes it has, the numbers that they say, and when these fit 16 bits.
trait Entry: Copy {
    const SIZE: usize;

    ghost SIZE: { ℕ };

    ghost numbers: { Self → List ℕ };

    ghost fits: { Self → Type 0 };

    // Writes it at a place.
    fn write(self, at: usize, out: &mut [u8])
        requires { fits self × (at + SIZE ≤ length out.old) }
        ensures { out.new ≡ put_numbers out.old at (numbers self) };

    // Two bytes for each number.
    ghost two_each: { (x : Self) → 2 * length (numbers x) ≡ SIZE };
}

// The answer of a vertex.
impl Entry for u16 {
    const SIZE: usize = 2;

    ghost SIZE = { 2 };

    ghost numbers = { single };

    ghost fits = { λ _. ⊤ };

    ghost two_each = { λ _. refl };

    #[tactic(auto, unfolding(form::specs::Numbers::put_numbers))]
    fn write(self, at: usize, out: &mut [u8]) {
        form::put_word(out, at, self);
    }
}

// A step: the vertex, and its degree when it is taken.
impl Entry for Taken {
    const SIZE: usize = 4;

    ghost SIZE = { 4 };

    ghost numbers = { taken_entry };

    ghost fits = { StepFits };

    ghost two_each = { λ _. refl };

    #[tactic(auto, using(crate::specs::Entering::puts_step))]
    fn write(self, at: usize, out: &mut [u8]) {
        put_number(out, at, self.vertex);
        put_number(out, at + 2, self.degree);
    }
}

// Writes a section: the count of the entries, and each of them.
#[tactic(auto, using(crate::specs::Entering::entering_more, crate::specs::Entering::entering_done))]
fn write_entries<E: Entry>(entries: &[E], at: usize, out: &mut [u8])
    requires room { (length entries.now < 65536) × (at + 2 + E.SIZE * length entries.now ≤ length out.old) }
    requires fit { All E.fits entries.now }
    ensures { out.new ≡ put_numbers out.old at (section E.numbers entries.now) }
{
    put_number(out, at, entries.len());
    for (k, entry) in entries.iter().enumerate() {
        entry.write(at + 2 + E::SIZE * k, out);
    }
}

// Writes the figures: given formulas, joins, work. Each is named where it is written; as entries of an array they would go by their place.
fn write_figures(givens: usize, found: Plan, at: usize, out: &mut [u8])
    requires { (givens < 65536) × (found.joins < 65536) × (found.work < 65536) × (at + 8 ≤ length out.old) }
    ensures { out.new ≡ put_numbers out.old at (section single (figures_in givens found)) }
{
    put_number(out, at, 3);
    put_number(out, at + 2, givens);
    put_number(out, at + 4, found.joins);
    put_number(out, at + 6, found.work);
}

// Writes the records' count before them and the last three sections after them; gives the length of the result. What it writes has three makers: the file, the plan
// and the worksheet.
pub fn finish(
    parts: Sections,
    found: Plan,
    cells: &[u16; CELLS],
    count: usize,
    out: &mut [u8],
) -> usize
    requires within { Within edition parts }
    requires fits { Fits found parts.vertices }
    requires count_bound { (count < 65536) × (result_length parts count ≤ length out.old) }
    ensures { Finished parts found (cells_in cells.now) count out.old out.new result }
{
    let n = parts.vertices;
    let records_at = 2 + 2 * parts.variables;
    let answers_at = records_at + 2 + 6 * count;
    let steps_at = answers_at + 2 + 2 * n;
    let figures_at = steps_at + 2 + 4 * n;
    put_number(out, records_at, count);
    // Each start has become its vertex's answer.
    write_entries(&cells[..n], answers_at, out);
    write_entries(&found.steps[..n], steps_at, out);
    write_figures(parts.givens, found, figures_at, out);
    figures_at + 8
}
