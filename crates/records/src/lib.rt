// The formula records of a result, in a lent buffer: found, appended, and made by the rules.

#![tactic(auto)]

ghost use Rattle.std.specs.Prelude.{◌≡◌, ◌+◌, ◌-◌, ◌*◌, ◌<◌, ◌≤◌, length};
ghost use Rattle.form.specs.References.{formula};
ghost use Rattle.formula.specs.Make.{not_of, and_or, holds, absorbed, neutral, deciding, named, enter, negate, relate, combine, make};
ghost use Rattle.formula.specs.Search.{larger, place_after};
ghost use Rattle.records.specs.Bytes.{put_record, records_in};
ghost use Rattle.records.specs.Newest.{buckets, bucket_of};
ghost use Rattle.records.specs.Entered.{FoundIn, Usable, Empty, Entered};

use form::{AND, NOT, OR, Record, Reference};

// Buckets of records: of each, one more than the place of its newest record is kept, and 0 where it has none. The memory is fixed: a map would take a heap, and options twice as much.
pub const BUCKETS: usize = 4096;

// Writes a record at a place.
#[tactic(auto, using(crate::specs::Laws::puts_record))]
fn put_record(s: &mut [u8], at: usize, r: Record)
    requires { at + 6 ≤ length s.old }
    ensures { s.new ≡ put_record s.old at r }
{
    form::put_word(s, at, r.kind);
    form::put_word(s, at + 2, r.first);
    form::put_word(s, at + 4, r.second);
}

// The larger argument of a record.
#[tactic(auto, unfolding(formula::specs::Search::larger))]
fn larger(x: Record) -> u16
    ensures { result ≡ larger x }
{
    x.first.max(x.second)
}

// The place after the record that the larger argument names; where it names none, the first place, 0, at which an unbounded search ends.
fn place_after(p: usize, x: Record) -> usize
    ensures { result ≡ place_after p x }
{
    usize::from(larger(x)).saturating_sub(p).saturating_sub(1)
}

// The bucket of a record.
#[tactic(auto, unfolding(crate::specs::Newest::bucket_of))]
fn bucket(x: Record) -> usize
    ensures { (result ≡ bucket_of x) × (result < buckets) }
{
    (usize::from(x.kind) + 3 * usize::from(x.first) + 67 * usize::from(x.second)) % BUCKETS
}

// The argument of and or or that leaves the other as it is. It and `deciding` are two words of the rules, so neither is made of the other.
fn neutral(kind: u16) -> Reference
    ensures { result.number ≡ neutral kind }
{
    if kind == OR {
        Reference::FALSE
    } else {
        Reference::TRUE
    }
}

// The argument of and or or that decides the result.
fn deciding(kind: u16) -> Reference
    ensures { result.number ≡ deciding kind }
{
    if kind == OR {
        Reference::TRUE
    } else {
        Reference::FALSE
    }
}

// Whether a record is a not record of a.
fn is_not_of(a: Reference, x: Record) -> bool
    ensures { result ≡ not_of a.number x }
{
    x.kind == NOT && x.first == a.number
}

// Whether a record is an and or an or record.
fn is_and_or(x: Record) -> bool
    ensures { result ≡ and_or x }
{
    x.kind == AND || x.kind == OR
}

// Whether a record is an and or an or record that holds a, as either argument.
fn holds(a: Reference, x: Record) -> bool
    ensures { result ≡ holds a.number x }
{
    is_and_or(x) && (x.first == a.number || x.second == a.number)
}

// What a and b give where b is the record x, which holds a: the record where both are or, or neither is, and else a.
fn absorbed(kind: u16, a: Reference, b: Reference, x: Record) -> Reference
    ensures { result.number ≡ absorbed kind a.number b.number x }
{
    if (kind == OR) == (x.kind == OR) { b } else { a }
}

// The records of a result: where they begin, how many there are, after how many variables they are numbered, and the newest of each bucket. The bytes are in the buffer that is lent beside: a struct that held it would have to promise in every function that it still holds the same one.
#[derive(Drop)]
pub struct Records {
    pub base: usize,
    pub variables: usize,
    pub count: usize,
    pub newest: [u16; BUCKETS],
}

// That a reference is there is asked of each rule, and is no fact of a type, since it depends on how many records there are. Kind, a and b are the rules' own words.
impl Records {
    // No records yet: where they will begin, and after how many variables they will be numbered.
    pub fn empty(base: usize, variables: usize) -> Records
        ensures base { result.base ≡ base }
        ensures empty { Empty variables result }
    {
        Records {
            base,
            variables,
            count: 0,
            newest: [0; BUCKETS],
        }
    }

    // The index of the record that is the same as x, where there is one: from its bucket's newest on, and no further than its arguments allow.
    fn find(&self, out: &[u8], x: Record) -> Option<usize>
        requires { Usable self.now out.now }
        ensures { FoundIn (records_in out.now self.now.base self.now.count) self.now.count x result }
    {
        let least = place_after(self.variables, x);
        let start = usize::from(self.newest[bucket(x)]);
        for k in (least..start).rev() {
            let here = network::read_record(out, self.base + 6 * k);
            // The second argument tells most records apart.
            if here.second == x.second && here == x {
                return Some(k);
            }
        }
        None
    }

    // The record that a reference names; its kind is 0 for a constant or a variable, as the definition `named` has it.
    #[tactic(auto, using(crate::specs::Found::names_none, crate::specs::Found::names_record))]
    fn named(&self, out: &[u8], r: Reference) -> Record
        requires usable { Usable self.now out.now }
        requires r_below { r.number < formula self.now.variables self.now.count }
        ensures { result ≡ named self.now.variables r.number (records_in out.now self.now.base self.now.count) }
    {
        let i = usize::from(r.number);
        let first = 2 + self.variables;
        if i < first {
            return Record {
                kind: 0,
                first: 0,
                second: 0,
            };
        }
        network::read_record(out, self.base + 6 * (i - first))
    }

    // Rules 6 and 7: the reference of a record, which is appended where it is not there yet.
    fn enter(&mut self, out: &mut [u8], x: Record) -> Reference
        requires { Usable self.old out.old }
        ensures { Entered (enter self.old.variables x) self.old out.old self.new out.new result }
    {
        if let Some(k) = self.find(out, x) {
            return Reference::of(self.variables + k);
        }
        let count = self.count;
        put_record(out, self.base + 6 * count, x);
        // A cast that is proved to lose nothing.
        self.newest[bucket(x)] = (count + 1) as u16;
        self.count = count + 1;
        Reference::of(self.variables + count)
    }

    // Rule 5: a not record.
    #[tactic(auto, using(crate::proofs::Entering::entered_old), unfolding(formula::specs::Make::negate))]
    fn negate(&mut self, out: &mut [u8], a: Reference) -> Reference
        requires usable { Usable self.old out.old }
        requires a_below { a.number < formula self.old.variables self.old.count }
        ensures { Entered (negate self.old.variables a.number) self.old out.old self.new out.new result }
    {
        if a == Reference::FALSE {
            return Reference::TRUE;
        }
        if a == Reference::TRUE {
            return Reference::FALSE;
        }
        let x = self.named(out, a);
        if x.kind == NOT {
            return Reference { number: x.first };
        }
        self.enter(
            out,
            Record {
                kind: NOT,
                first: a.number,
                second: 0,
            },
        )
    }

    // Rule 4, absorption, and rules 6 and 7: an and or an or of two arguments that differ, the smaller first.
    #[tactic(auto, using(crate::proofs::Entering::entered_old), unfolding(formula::specs::Make::relate))]
    fn relate(&mut self, out: &mut [u8], kind: u16, a: Reference, b: Reference) -> Reference
        requires usable { Usable self.old out.old }
        requires b_below { b.number < formula self.old.variables self.old.count }
        ensures { Entered (relate self.old.variables kind a.number b.number) self.old out.old self.new out.new result }
    {
        let x = self.named(out, b);
        if is_not_of(a, x) {
            return deciding(kind);
        }
        if holds(a, x) {
            return absorbed(kind, a, b, x);
        }
        self.enter(
            out,
            Record {
                kind,
                first: a.number,
                second: b.number,
            },
        )
    }

    // Rules 2 and 3: an and or an or, the smaller argument first.
    #[tactic(auto, using(crate::proofs::Entering::entered_old), unfolding(formula::specs::Make::combine))]
    fn combine(&mut self, out: &mut [u8], kind: u16, a: Reference, b: Reference) -> Reference
        requires usable { Usable self.old out.old }
        requires b_below { b.number < formula self.old.variables self.old.count }
        ensures { Entered (combine self.old.variables kind a.number b.number) self.old out.old self.new out.new result }
    {
        if a == neutral(kind) {
            return b;
        }
        if a == deciding(kind) || a == b {
            return a;
        }
        self.relate(out, kind, a, b)
    }

    // The reference of an operation on references, by the rules 1 to 7.
    #[tactic(auto, using(crate::proofs::Entering::entered_old), unfolding(formula::specs::Make::make))]
    pub fn make(&mut self, out: &mut [u8], kind: u16, a: Reference, b: Reference) -> Reference
        requires usable { Usable self.old out.old }
        requires a_below { a.number < formula self.old.variables self.old.count }
        requires b_below { b.number < formula self.old.variables self.old.count }
        ensures { Entered (make self.old.variables kind a.number b.number) self.old out.old self.new out.new result }
    {
        if kind == NOT {
            return self.negate(out, a);
        }
        if a <= b {
            return self.combine(out, kind, a, b);
        }
        self.combine(out, kind, b, a)
    }
}
