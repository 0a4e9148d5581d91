// The lines of a result, put into a lent buffer: by hand, and with a place beside the buffer, for the reasons that `text` gives.

#![tactic(auto)]

ghost use Rattle.std.specs.Prelude.{◌≡◌, List, ℕ, ◌+◌, ◌*◌, ◌^◌, ◌<◌, ◌≤◌, length};
ghost use Rattle.form.specs.Numbers.{word_at};
ghost use Rattle.lines.specs.Lines.{counts_line, kind_text, second_text, record_line, lines, result_lines};
ghost use Rattle.lines.specs.Entries.{pivot_at, answer_at, line_of_pivot, line_of_answer};
ghost use Rattle.lines.specs.Parts.{section_at, Whole, Laid};
ghost use Rattle.lines.specs.Putting.{counts_room};
ghost use Rattle.lines.specs.Sections.{section_lines, sections_room};
ghost use Rattle.network.specs.Network.{given_size, vertex_size, after, given_at, section_of};
ghost use Rattle.stored.specs.Stored.{step_size, stored_of};
ghost use Rattle.text.specs.Puts.{Puts};

use form::{AND, NOT, OR, Record};

// A section: the place of its count, and the count.
#[derive(Clone, Copy)]
struct Section {
    place: usize,
    count: usize,
}

// How many variables a result has, the sections after theirs, and the figures.
#[derive(Clone, Copy)]
struct Parts {
    variables: usize,
    records: Section,
    answers: Section,
    order: Section,
    joins: usize,
    work: usize,
}

// The number at a place.
fn number_at(bytes: &[u8], place: usize) -> usize
    requires { place + 2 ≤ length bytes.now }
    ensures { (result ≡ word_at bytes.now place) × (result < 65536) }
{
    usize::from(form::word(bytes, place))
}

impl Section {
    // The section whose count is at a place.
    fn read(bytes: &[u8], place: usize) -> Section
        requires { place + 2 ≤ length bytes.now }
        ensures { (result ≡ section_at bytes.now place) × (result.count < 65536) }
    {
        Section {
            place,
            count: number_at(bytes, place),
        }
    }

    // Where it ends, by the bytes of an entry.
    fn end(self, size: usize) -> usize
        requires { self.place + 2 + size * self.count < 2 ^ 64 }
        ensures { result ≡ self.place + 2 + size * self.count }
    {
        self.place + 2 + size * self.count
    }
}

// Reads a result's counts and figures.
fn parts_of(bytes: &[u8]) -> Parts
    requires { Whole bytes.now }
    ensures { Laid bytes.now result }
{
    let variables = Section::read(bytes, 0);
    let records = Section::read(bytes, variables.end(2));
    let answers = Section::read(bytes, records.end(Record::SIZE));
    let order = Section::read(bytes, answers.end(Answer::SIZE));
    let figures_at = order.end(Pivot::SIZE);
    Parts {
        variables: variables.count,
        records,
        answers,
        order,
        joins: number_at(bytes, figures_at + 4),
        work: number_at(bytes, figures_at + 6),
    }
}

// An entry of a section: how many bytes it has, what they say, and its line, by its number.
trait Entry {
    const SIZE: usize;

    ghost SIZE: { ℕ };

    ghost read_at: { List ℕ → ℕ → Self };

    ghost line: { ℕ → Self → List ℕ };

    // The entry at a place.
    fn read(bytes: &[u8], place: usize) -> Self
        requires { place + SIZE ≤ length bytes.now }
        ensures { result ≡ read_at bytes.now place };

    // Puts its line; gives the place after it, as do all below.
    fn put(self, out: &mut [u8], at: usize, number: usize) -> usize
        requires { at + length (line number self) ≤ length out.old }
        ensures { Puts (line number self) at out.old out.new result };
}

// A pivot's vertex, and its degree when it was taken, as the 16-bit numbers that they are in a result.
#[derive(Clone, Copy)]
struct Pivot {
    vertex: u16,
    degree: u16,
}

impl Entry for Pivot {
    const SIZE: usize = 4;

    ghost SIZE = { step_size };

    ghost read_at = { pivot_at };

    ghost line = { line_of_pivot };

    fn read(bytes: &[u8], place: usize) -> Pivot {
        Pivot {
            vertex: form::word(bytes, place),
            degree: form::word(bytes, place + 2),
        }
    }

    // It does not show its number.
    fn put(self, out: &mut [u8], at: usize, _: usize) -> usize {
        text::put_pair(
            out,
            at,
            b"pivot ",
            usize::from(self.vertex),
            b" degree ",
            usize::from(self.degree),
        )
    }
}

// A kind's text; the kinds stay numbers, as in `form`.
fn kind_text(kind: u16) -> &'static [u8]
    ensures { result.now ≡ kind_text kind }
{
    match kind {
        AND => b" and ",
        OR => b" or ",
        _ => b" not ",
    }
}

// Puts a record's second argument, unless it is a not.
fn put_second(out: &mut [u8], at: usize, r: Record) -> usize
    requires { at + length (second_text r) ≤ length out.old }
    ensures { Puts (second_text r) at out.old out.new result }
{
    if r.kind == NOT {
        return at;
    }
    text::put_field(out, at, b" ", usize::from(r.second))
}

impl Entry for Record {
    const SIZE: usize = 6;

    ghost SIZE = { given_size };

    ghost read_at = { given_at };

    ghost line = { record_line };

    fn read(bytes: &[u8], place: usize) -> Record {
        network::read_record(bytes, place)
    }

    // Its number is its reference.
    #[tactic(auto, using(crate::specs::Putting::record_long))]
    fn put(self, out: &mut [u8], at: usize, number: usize) -> usize {
        let one = text::put_field(out, at, b"f ", number);
        let two = text::put_field(out, one, kind_text(self.kind), usize::from(self.first));
        let three = put_second(out, two, self);
        text::put_text(out, three, b"\n")
    }
}

// A vertex's formula.
#[derive(Clone, Copy)]
struct Answer {
    formula: u16,
}

impl Entry for Answer {
    const SIZE: usize = 2;

    ghost SIZE = { vertex_size };

    ghost read_at = { answer_at };

    ghost line = { line_of_answer };

    fn read(bytes: &[u8], place: usize) -> Answer {
        Answer {
            formula: form::word(bytes, place),
        }
    }

    fn put(self, out: &mut [u8], at: usize, number: usize) -> usize {
        text::put_pair(
            out,
            at,
            b"vertex ",
            number,
            b" formula ",
            usize::from(self.formula),
        )
    }
}

// Puts the lines of a section's entries, numbered from a first number on.
fn put_entries<E: Entry>(
    out: &mut [u8],
    at: usize,
    bytes: &[u8],
    section: Section,
    first: usize,
) -> usize
    requires counted { section ≡ section_at bytes.now section.place }
    requires within { after E.SIZE bytes.now section.place ≤ length bytes.now }
    requires numbered { first + section.count ≤ length bytes.now }
    requires room { at + length (lines E.line first (section_of E.read_at E.SIZE bytes.now section.place)) ≤ length out.old }
    ensures { Puts (lines E.line first (section_of E.read_at E.SIZE bytes.now section.place)) at out.old out.new result }
{
    let mut next = at;
    for k in 0..section.count {
        let entry = E::read(bytes, section.place + 2 + E::SIZE * k);
        next = entry.put(out, next, first + k);
    }
    next
}

// Puts the first line.
fn put_counts(out: &mut [u8], switches: usize, parts: Parts) -> usize
    requires { counts_room parts.answers.count switches parts.joins parts.work parts.records.count ≤ length out.old }
    ensures { Puts (counts_line parts.answers.count switches parts.joins parts.work parts.records.count) 0 out.old out.new result }
{
    let one = text::put_field(out, 0, b"vertices ", parts.answers.count);
    let two = text::put_field(out, one, b" switches ", switches);
    let three = text::put_field(out, two, b" joins ", parts.joins);
    text::put_pair(
        out,
        three,
        b" work ",
        parts.work,
        b" nodes ",
        parts.records.count,
    )
}

// Puts the lines after the first.
fn put_sections(out: &mut [u8], at: usize, bytes: &[u8], parts: Parts) -> usize
    requires laid { Laid bytes.now parts }
    requires room { at + sections_room parts.variables (stored_of bytes.now) ≤ length out.old }
    ensures { Puts (section_lines parts.variables (stored_of bytes.now)) at out.old out.new result }
{
    let pivots = put_entries::<Pivot>(out, at, bytes, parts.order, 0);
    let records = put_entries::<Record>(out, pivots, bytes, parts.records, 2 + parts.variables);
    put_entries::<Answer>(out, records, bytes, parts.answers, 0)
}

// Puts the lines of a result.
pub fn put_result(switches: usize, bytes: &[u8], out: &mut [u8]) -> usize
    requires whole { Whole bytes.now }
    requires room { length (result_lines switches (stored_of bytes.now)) ≤ length out.old }
    ensures { Puts (result_lines switches (stored_of bytes.now)) 0 out.old out.new result }
{
    let parts = parts_of(bytes);
    let next = put_counts(out, switches, parts);
    put_sections(out, next, bytes, parts)
}
