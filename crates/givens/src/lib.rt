// The given formulas of an accepted file pass through the rules, and become records in a lent buffer.

#![tactic(auto)]

ghost use Rattle.std.specs.Prelude.{◌≡◌, ◌<◌, ◌≤◌, replicate};
ghost use Rattle.form.specs.References.{formula};
ghost use Rattle.formula.specs.Givens.{translate};
ghost use Rattle.network.specs.Layout.{Within};
ghost use Rattle.network.specs.Network.{edition};
ghost use Rattle.records.specs.Entered.{Noted, Usable, Empty, Entered};
ghost use Rattle.records.specs.Grown.{Table};
ghost use Rattle.givens.specs.Passed.{make_given, Translatable, PassedIn};

use entries::Accepted;
use form::{Record, Reference};
use records::Records;

// The most given formulas.
pub const GIVENS: usize = 500;

// A file's reference as the result's, where the array has what each given formula has become. The variables go beside it, as the file and the records have their number.
#[tactic(auto, using(crate::specs::Passing::translate_low, crate::specs::Passing::translate_high))]
pub fn translated(references: &[u16; GIVENS], p: usize, r: u16) -> Reference
    requires { (p ≤ edition.variables) × (r < formula p edition.givens) }
    ensures { result.number ≡ translate p references.now r }
{
    let i = usize::from(r);
    if i < 2 + p {
        return Reference { number: r };
    }
    Reference {
        number: references[i - (2 + p)],
    }
}

// A given formula, its arguments translated, by the rules.
fn pass_one(
    references: &[u16; GIVENS],
    records: &mut Records,
    out: &mut [u8],
    g: Record,
) -> Reference
    requires usable { Usable records.old out.old }
    requires translatable { Translatable records.old.variables references.now records.old.count g }
    ensures { Entered (make_given records.old.variables references.now g) records.old out.old records.new out.new result }
{
    let p = records.variables;
    let a = translated(references, p, g.first);
    let b = translated(references, p, g.second);
    records.make(out, g.kind, a, b)
}

// All given formulas in order become the first records, and in the array is what each has become.
pub fn pass_givens(
    net: &Accepted<'_>,
    references: &mut [u16; GIVENS],
    records: &mut Records,
    out: &mut [u8],
)
    requires within { Within edition net.now.parts }
    requires references_value { references.old ≡ replicate edition.givens 0 }
    requires empty { Empty net.now.parts.variables records.old }
    requires table { Table net.now.parts.variables records.old.base net.now.parts.givens 0 out.old }
    ensures passed_in { PassedIn net.now.file.now net.now.parts records.old.base out.old references.new out.new records.new.count }
    ensures noted { Noted records.new out.new }
    ensures base { records.new.base ≡ records.old.base }
    ensures variables { records.new.variables ≡ records.old.variables }
{
    for k in 0..net.parts.givens {
        let made = pass_one(references, records, out, net.given(k));
        references[k] = made.number;
    }
}
