// The sheet from which the elimination starts: starts and labels translated, labels joined.
// The links go beside the sheet, since starts and answers are put without them. That a reference is there depends on the records, so it is asked.

#![tactic(auto)]

ghost use Rattle.std.specs.Prelude.{◌≡◌, ◌+◌, ◌<◌, replicate};
ghost use Rattle.form.specs.References.{formula};
ghost use Rattle.network.specs.Layout.{Within};
ghost use Rattle.network.specs.Network.{edition, side, network_of};
ghost use Rattle.records.specs.Entered.{Noted};
ghost use Rattle.records.specs.Grown.{Table};
ghost use Rattle.links.specs.Switches.{link, joins_at, no_links, links_of, joins_of};
ghost use Rattle.sheet.specs.Cells.{cell_count};
ghost use Rattle.operations.specs.Worksheets.{Blank, Able, Worked};
ghost use Rattle.rows.specs.Table.{links_in};
ghost use Rattle.analysis.specs.Wiring.{set_or_join, labelled, translate_switch, wire_all};
ghost use Rattle.wiring.specs.Labels.{join_at, Labelling};
ghost use Rattle.wiring.specs.Switches.{Translating, Wirable, Wires};
ghost use Rattle.wiring.specs.Starts.{Started};
ghost use Rattle.wiring.specs.Sheet.{WiredIn};

use entries::Accepted;
use form::{OR, Reference};
use givens::GIVENS;
use network::{SIDE, Switch};
use operations::Worksheet;
use sheet::Cell;

// The label from u to v becomes r or, where the pair is linked, old or new.
fn set_or_join(
    sheet: &mut Worksheet,
    out: &mut [u8],
    links: &[u64; SIDE],
    u: usize,
    v: usize,
    r: Reference,
)
    requires able { Able (join_at (links_in links.now) u v) sheet.old out.old }
    requires inside { (u < side) × (v < side) }
    requires r_below { r.number < formula sheet.old.records.variables sheet.old.records.count }
    ensures { Worked (set_or_join sheet.old.records.variables (links_in links.now) u v r.number) (join_at (links_in links.now) u v) sheet.old out.old sheet.new out.new }
{
    let label = Cell::Label(u, v);
    if rows::has(links[u], v) {
        let old = sheet.held(label);
        let made = sheet.records.make(out, OR, old, r);
        sheet.put(label, made);
        return;
    }
    sheet.put(label, r);
}

// Both labels of a switch whose references are translated: first end to second end, then back.
fn set_labels(sheet: &mut Worksheet, out: &mut [u8], links: &[u64; SIDE], w: Switch)
    requires { Labelling (links_in links.now) w sheet.old out.old }
    ensures { Worked (labelled sheet.old.records.variables (links_in links.now) w) (joins_at w (links_in links.now)) sheet.old out.old sheet.new out.new }
{
    if w.first == w.second {
        return;
    }
    let a = usize::from(w.first);
    let b = usize::from(w.second);
    let there = Reference { number: w.there };
    let back = Reference { number: w.back };
    set_or_join(sheet, out, links, a, b, there);
    set_or_join(sheet, out, links, b, a, back);
}

// Wires a switch: its labels, translated, and the links of its ends.
fn wire_switch(
    references: &[u16; GIVENS],
    sheet: &mut Worksheet,
    out: &mut [u8],
    links: &mut [u64; SIDE],
    w: Switch,
)
    requires { Wirable references.now sheet.old links.old out.old w }
    ensures { Wires (labelled sheet.old.records.variables (links_in links.old) (translate_switch sheet.old.records.variables references.now w)) (joins_at w (links_in links.old)) (link w (links_in links.old)) sheet.old out.old sheet.new links.new out.new }
{
    let p = sheet.records.variables;
    let there = givens::translated(references, p, w.there);
    let back = givens::translated(references, p, w.back);
    let t = Switch {
        there: there.number,
        back: back.number,
        ..w
    };
    set_labels(sheet, out, links, t);
    rows::connect(links, w);
}

// Wires all switches of an accepted file, in order.
fn wire_switches(
    net: &Accepted<'_>,
    references: &[u16; GIVENS],
    sheet: &mut Worksheet,
    out: &mut [u8],
    links: &mut [u64; SIDE],
)
    requires within { Within edition net.now.parts }
    requires variables { sheet.old.records.variables ≡ net.now.parts.variables }
    requires translating { Translating net.now.file.now net.now.parts references.now sheet.old.records.count }
    requires links_value { links.old ≡ replicate side 0 }
    requires able { Able (joins_of (network_of net.now.file.now).switches) sheet.old out.old }
    ensures { Wires (wire_all (network_of net.now.file.now) no_links (network_of net.now.file.now).switches) (joins_of (network_of net.now.file.now).switches) (links_of (network_of net.now.file.now).switches) sheet.old out.old sheet.new links.new out.new }
{
    for k in 0..net.parts.switches {
        wire_switch(references, sheet, out, links, net.switch(k));
    }
}

// Puts the starts of an accepted file, translated, into their cells.
fn put_starts(net: &Accepted<'_>, references: &[u16; GIVENS], sheet: &mut Worksheet)
    requires within { Within edition net.now.parts }
    requires cells_value { sheet.old.cells ≡ replicate cell_count 0 }
    ensures started { Started net.now.parts.variables references.now (network_of net.now.file.now).starts sheet.new.cells net.now.parts.vertices }
    ensures records { sheet.new.records ≡ sheet.old.records }
{
    for v in 0..net.parts.vertices {
        let start = net.start(v);
        let r = givens::translated(references, net.parts.variables, start);
        sheet.put(Cell::Start(v), r);
    }
}

// Makes the sheet of an accepted file: its cells, the records that these refer to, and the links of the switches.
pub fn wire_sheet(
    net: &Accepted<'_>,
    sheet: &mut Worksheet,
    out: &mut [u8],
    links: &mut [u64; SIDE],
)
    requires within { Within edition net.now.parts }
    requires blank { Blank net.now.parts.variables sheet.old }
    requires links_value { links.old ≡ replicate side 0 }
    requires table { Table net.now.parts.variables sheet.old.records.base (net.now.parts.givens + joins_of (network_of net.now.file.now).switches) 0 out.old }
    ensures wired_in { WiredIn net.now.file.now net.now.parts sheet.old.records.base out.old sheet.new.cells links.new out.new sheet.new.records.count }
    ensures noted { Noted sheet.new.records out.new }
    ensures base { sheet.new.records.base ≡ sheet.old.records.base }
    ensures variables { sheet.new.records.variables ≡ sheet.old.records.variables }
{
    let mut references = [0; GIVENS];
    givens::pass_givens(net, &mut references, &mut sheet.records, out);
    put_starts(net, &references, sheet);
    wire_switches(net, &references, sheet, out, links);
}
