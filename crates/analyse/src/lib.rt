// The product: a wiring file analysed into a formula for each vertex, or refused with a number and a place.

#![tactic(auto)]

ghost use Rattle.std.specs.Prelude.{◌≡◌, ◌+◌};
ghost use Rattle.form.specs.Refusals.{accepted};
ghost use Rattle.network.specs.Layout.{Within, network_answer};
ghost use Rattle.network.specs.Network.{edition, network_of};
ghost use Rattle.operations.specs.Worksheets.{Blank};
ghost use Rattle.plan.specs.Measure.{operations_of};
ghost use Rattle.plan.specs.Plans.{plan_in};
ghost use Rattle.records.specs.Grown.{Table};
ghost use Rattle.writer.specs.Whole.{Whole};
ghost use Rattle.analyse.specs.Solved.{SolvedIn};
ghost use Rattle.analyse.specs.Filled.{Fillable};
ghost use Rattle.analyse.specs.Promise.{Promise};

use entries::Accepted;
use form::Fault;
use network::SIDE;
use operations::Worksheet;
use plan::Plan;

// Wires an accepted file and carries its plan out, the records in place.
fn solved(net: &Accepted<'_>, found: Plan, sheet: &mut Worksheet, out: &mut [u8])
    requires within { Within edition net.now.parts }
    requires found_value { found ≡ plan_in (network_of net.now.file.now) }
    requires blank { Blank net.now.parts.variables sheet.old }
    requires table { Table net.now.parts.variables sheet.old.records.base (net.now.parts.givens + operations_of found) 0 out.old }
    ensures { SolvedIn net.now.file.now net.now.parts found sheet.old.records.base out.old sheet.new.cells out.new sheet.new.records.count }
{
    let mut links = [0; SIDE];
    wiring::wire_sheet(net, sheet, out, &mut links);
    let rest = rows::all(net.parts.vertices);
    let order = found.order();
    solve::eliminate_from(sheet, out, &mut links, rest, &order, net.parts.vertices, 0);
}

// Fills a buffer that has the room with the result of an accepted file; gives its length.
fn fill(net: &Accepted<'_>, found: Plan, out: &mut [u8]) -> usize
    requires { Fillable net.now.file.now net.now.parts found out.old }
    ensures { Whole (network_of net.now.file.now) out.old out.new result }
{
    writer::write_variables(net, out);
    let variables = net.parts.variables;
    let mut sheet = Worksheet::empty(4 + 2 * variables, variables);
    solved(net, found, &mut sheet, out);
    writer::finish(net.parts, found, &sheet.cells, sheet.records.count, out)
}

// The analysis of an accepted file.
fn answer(net: &Accepted<'_>, out: &mut [u8]) -> Result<usize, Fault>
    requires parts_value { accepted net.now.parts ≡ network_answer edition net.now.file.now }
    requires within { Within edition net.now.parts }
    ensures { Promise net.now.file.now out.old out.new result }
{
    let found = plan::plan_of(net);
    let room = plan::room_for(net.parts, found);
    if out.len() < room {
        return Err(Fault::ResultRoom);
    }
    let length = fill(net, found, out);
    Ok(length)
}

// Writes the result of a wiring file, and gives its length. A refusal leaves the buffer as it came.
pub fn analyse(file: &[u8], out: &mut [u8]) -> Result<usize, Fault>
    ensures { Promise file.now out.old out.new result }
{
    let parts = reader::check_network(file)?;
    answer(&Accepted { file, parts }, out)
}
