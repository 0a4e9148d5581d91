// The reader of the network form: every byte string is accepted, with the counts of its sections, or refused, with its first fault.

#![tactic(auto)]

ghost use Rattle.std.specs.Prelude.{◌≡◌, List, ℕ, IfOk, ◌+◌, ◌^◌, ◌<◌, ◌≤◌, leb, length};
ghost use Rattle.form.specs.Numbers.{word_at};
ghost use Rattle.form.specs.Refusals.{Verdict, fault_if, number_of, place_of};
ghost use Rattle.network.specs.Network.{edition};
ghost use Rattle.network.specs.Faults.{coil_fault, kind_fault, second_below, given_fault, switch_fault};
ghost use Rattle.network.specs.Layout.{network_answer};
ghost use Rattle.reader.specs.Answers.{verdict_of, entries_test, count_of, section_count, checked_of, Told};
ghost use Rattle.reader.specs.Tests.{Callable, Finds};

use form::{AND, Fault, NOT, OR};
use network::{Limits, SIDE, Sections};

// A coil number is above the one before. This test and those below take the bytes and a place, since a fault names its place.
#[tactic(auto, unfolding(network::specs::Faults::coil_fault))]
fn coil_test(s: &[u8], at: usize, k: usize) -> Result<(), Fault>
    requires { (2 ≤ at) × (at + 2 ≤ length s.now) }
    ensures { verdict_of result ≡ coil_fault s.now at k }
{
    if k > 0 && form::word(s, at) <= form::word(s, at - 2) {
        return Err(Fault::Coil(at));
    }
    Ok(())
}

// The number at a place is a kind.
#[tactic(auto, unfolding(network::specs::Faults::kind_fault))]
fn kind_test(s: &[u8], at: usize) -> Result<(), Fault>
    requires { at + 2 ≤ length s.now }
    ensures { verdict_of result ≡ kind_fault s.now at }
{
    match form::word(s, at) {
        AND | OR | NOT => Ok(()),
        _ => Err(Fault::Kind(at)),
    }
}

// The number at a place is below a limit, or else there is this fault.
fn below(s: &[u8], at: usize, limit: usize, fault: Fault) -> Result<(), Fault>
    requires { at + 2 ≤ length s.now }
    ensures { verdict_of result ≡ fault_if (leb limit (word_at s.now at)) (number_of fault) (place_of fault) }
{
    if limit <= usize::from(form::word(s, at)) {
        return Err(fault);
    }
    Ok(())
}

// What the second argument is below: 1 for not, and else the formula's own reference. The kind has been read as a number, and an unknown one is a fault of its own.
#[tactic(auto, unfolding(network::specs::Faults::second_below))]
fn second_below(kind: u16, own: usize) -> usize
    ensures { result ≡ second_below kind own }
{
    if kind == NOT { 1 } else { own }
}

// Given formula k, where there are p variables.
#[tactic(auto, unfolding(network::specs::Faults::given_fault, network::specs::Faults::reference_fault))]
fn given_test(s: &[u8], at: usize, p: usize, k: usize) -> Result<(), Fault>
    requires at_in_bounds { at + 6 ≤ length s.now }
    requires k_bound { 2 + p + k < 2 ^ 32 }
    ensures { verdict_of result ≡ given_fault p s.now at k }
{
    let own = 2 + p + k;
    kind_test(s, at)?;
    below(s, at + 2, own, Fault::Reference(at + 2))?;
    let limit = second_below(form::word(s, at), own);
    below(s, at + 4, limit, Fault::Reference(at + 4))
}

// A switch.
#[tactic(auto, unfolding(network::specs::Faults::switch_fault, network::specs::Faults::end_fault, network::specs::Faults::reference_fault))]
fn switch_test(s: &[u8], at: usize, vertices: usize, defined: usize) -> Result<(), Fault>
    requires { at + 8 ≤ length s.now }
    ensures { (k : ℕ) → verdict_of result ≡ switch_fault vertices defined s.now at k }
{
    below(s, at, vertices, Fault::End(at))?;
    below(s, at + 2, vertices, Fault::End(at + 2))?;
    below(s, at + 4, defined, Fault::Reference(at + 4))?;
    below(s, at + 6, defined, Fault::Reference(at + 6))
}

// The entries of a section from the front, of a size and with a test by place and index.
fn entries_test<F: Fn(usize, usize) -> Result<(), Fault>>(
    s: &[u8],
    size: usize,
    at: usize,
    count: usize,
    test: F,
) -> Result<(), Fault>
    requires le_at { (2 ≤ at) × (at ≤ length s.now) }
    requires count_bound { count < 65536 }
    requires callable { Callable size s.now (F.pre test) }
    ensures { (verdict : List ℕ → ℕ → ℕ → Verdict) → Finds size s.now (F.post test) verdict → verdict_of result ≡ entries_test size verdict s.now at 0 count }
{
    for k in 0..count {
        let place = at + size * k;
        if s.len() - place < size {
            return Err(Fault::Cut(place));
        }
        test(place, k)?;
    }
    Ok(())
}

// A section: its count, and then its entries.
fn read_section<F: Fn(usize, usize) -> Result<(), Fault>>(
    s: &[u8],
    limit: usize,
    size: usize,
    at: usize,
    test: F,
) -> Result<usize, Fault>
    requires at_bound { at < 2 ^ 32 }
    requires callable { Callable size s.now (F.pre test) }
    ensures answer { (verdict : List ℕ → ℕ → ℕ → Verdict) → Finds size s.now (F.post test) verdict → count_of result ≡ section_count limit size verdict s.now at }
    ensures few { IfOk result (λ n. n < 65536) }
{
    if s.len() < at + 2 {
        return Err(Fault::Cut(at));
    }
    let count = usize::from(form::word(s, at));
    if limit < count {
        return Err(Fault::Count(at));
    }
    entries_test(s, size, at + 2, count, test)?;
    Ok(count)
}

// The first fault of a file, or its sections, under the limits of any edition.
pub fn check_within(file: &[u8], limits: Limits) -> Result<Sections, Fault>
    ensures { checked_of result ≡ network_answer limits file.now }
{
    let variables = read_section(file, limits.variables, 2, 0, |at, k| coil_test(file, at, k))?;
    let givens_at = 2 + 2 * variables;
    let givens = read_section(file, limits.givens, 6, givens_at, |at, k| {
        given_test(file, at, variables, k)
    })?;
    let defined = 2 + variables + givens;
    let vertices_at = givens_at + 2 + 6 * givens;
    let vertices = read_section(file, limits.vertices, 2, vertices_at, |at, _| {
        below(file, at, defined, Fault::Reference(at))
    })?;
    let switches_at = vertices_at + 2 + 2 * vertices;
    let switches = read_section(file, limits.switches, 8, switches_at, |at, _| {
        switch_test(file, at, vertices, defined)
    })?;
    let end = switches_at + 2 + 8 * switches;
    if end < file.len() {
        return Err(Fault::Trailing(end));
    }
    Ok(Sections {
        variables,
        givens,
        vertices,
        switches,
        givens_at,
        vertices_at,
        switches_at,
    })
}

// The first fault of a file, or its sections, under this edition's limits; and what acceptance tells.
#[tactic(auto, using(crate::proofs::Unique::told))]
pub fn check_network(file: &[u8]) -> Result<Sections, Fault>
    ensures result_value { checked_of result ≡ network_answer edition file.now }
    ensures told { Told file.now result }
{
    check_within(
        file,
        Limits {
            variables: 200,
            givens: 500,
            vertices: SIDE,
            switches: 400,
        },
    )
}
