// What a wiring file says: variables, given formulas, vertices and switches.

#![tactic(auto)]

ghost use Rattle.std.specs.Prelude.{◌≡◌, ◌+◌, ◌≤◌, length};
ghost use Rattle.network.specs.Network.{given_at, switch_at};

use form::Record;

// The width of the tables by vertex.
pub const SIDE: usize = 24;

// The most entries that each section may have.
#[derive(Clone, Copy)]
pub struct Limits {
    pub variables: usize,
    pub givens: usize,
    pub vertices: usize,
    pub switches: usize,
}

// A switch: its ends, its label from the first end to the second, and its label back.
#[derive(Clone, Copy)]
pub struct Switch {
    pub first: u16,
    pub second: u16,
    pub there: u16,
    pub back: u16,
}

// The counts of an accepted file, and the places of the counts after the first. Each is a field of its own, as the layout and the laws on places name them.
#[derive(Clone, Copy)]
pub struct Sections {
    pub variables: usize,
    pub givens: usize,
    pub vertices: usize,
    pub switches: usize,
    pub givens_at: usize,
    pub vertices_at: usize,
    pub switches_at: usize,
}

// The formula at a place, which is a given formula or a record. It and `read_switch` have the same shape over other fields, which a trait would only name again.
pub fn read_record(s: &[u8], at: usize) -> Record
    requires { at + 6 ≤ length s.now }
    ensures { result ≡ given_at s.now at }
{
    Record {
        kind: form::word(s, at),
        first: form::word(s, at + 2),
        second: form::word(s, at + 4),
    }
}

// The switch at a place.
pub fn read_switch(s: &[u8], at: usize) -> Switch
    requires { at + 8 ≤ length s.now }
    ensures { result ≡ switch_at s.now at }
{
    Switch {
        first: form::word(s, at),
        second: form::word(s, at + 2),
        there: form::word(s, at + 4),
        back: form::word(s, at + 6),
    }
}
