// What the references of a file are worth under a setting.

#![tactic(auto)]

ghost use Rattle.std.specs.Prelude.{◌≡◌, ◌≤◌, ◌<◌, false, length, replicate};
ghost use Rattle.formula.specs.Worth.{value_at, worth};
ghost use Rattle.formula.specs.Worth.{leaves as leafValues};
ghost use Rattle.network.specs.Layout.{Within};
ghost use Rattle.network.specs.Network.{edition, network_of};
ghost use Rattle.values.specs.Values.{places, Holds, Small, gate_bit};

use entries::Accepted;
use form::{NOT, OR, Record, Reference};

// The array of values has a place for each reference that a file can have.
pub const PLACES: usize = 702;

// The value of a given formula.
#[tactic(auto, unfolding(crate::specs::Values::gate_bit, crate::specs::Values::value_in, formula::specs::Worth::operate))]
fn gate(values: &[bool; PLACES], g: Record) -> bool
    requires { Small g }
    ensures { result ≡ gate_bit values.now g }
{
    let a = values[usize::from(g.first)];
    let b = values[usize::from(g.second)];
    match g.kind {
        NOT => !a,
        OR => a || b,
        _ => a && b,
    }
}

// The values of the constants and the variables.
fn leaves(setting: &[u8], values: &mut [bool; PLACES])
    requires { (length setting.now ≤ edition.variables) × (values.old ≡ replicate places false) }
    ensures { Holds (value_at (leafValues setting.now)) values.new }
{
    values[usize::from(Reference::TRUE.number)] = true;
    for (k, x) in setting.iter().enumerate() {
        values[usize::from(Reference::of(k).number)] = *x == 1;
    }
}

// The values of all references of an accepted file, under a setting of its variables.
pub fn values_of(net: &Accepted<'_>, setting: &[u8]) -> [bool; PLACES]
    requires within { Within edition net.now.parts }
    requires setting_len { length setting.now ≡ net.now.parts.variables }
    ensures { Holds (worth setting.now (network_of net.now.file.now).givens) result }
{
    let mut values = [false; PLACES];
    leaves(setting, &mut values);
    let base = 2 + net.parts.variables;
    for k in 0..net.parts.givens {
        values[base + k] = gate(&values, net.given(k));
    }
    values
}
