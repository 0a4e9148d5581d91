// Text put into a lent buffer: texts, numbers in decimal, and lines of the two.
// Each function takes the buffer and a place: a struct that held the buffer would have to promise in each that it still holds the same one. And `write!` would answer a
// `Result` at each line, for an error that a buffer with the room never gives, where `list` cannot fail.

#![tactic(auto)]

ghost use Rattle.std.specs.Prelude.{◌≡◌, ◌+◌, ◌<◌, ◌≤◌, length};
ghost use Rattle.text.specs.Puts.{Puts};
ghost use Rattle.text.specs.Texts.{digit, decimal, field, pair_line};

// Puts a text; gives the place after it, as do all below.
pub fn put_text(out: &mut [u8], at: usize, text: &[u8]) -> usize
    requires { at + length text.now ≤ length out.old }
    ensures { Puts text.now at out.old out.new result }
{
    let end = at + text.len();
    out[at..end].copy_from_slice(text);
    end
}

// Puts a digit.
fn put_digit(out: &mut [u8], at: usize, d: usize) -> usize
    requires { (d < 10) × (at + 1 ≤ length out.old) }
    ensures { Puts (digit d) at out.old out.new result }
{
    // A cast that is proved to lose nothing.
    out[at] = b'0' + d as u8;
    at + 1
}

// Puts a number in decimal: its tenth, then its last digit.
pub fn put_decimal(out: &mut [u8], at: usize, n: usize) -> usize
    requires { at + length (decimal n) ≤ length out.old }
    ensures { Puts (decimal n) at out.old out.new result }
{
    if n < 10 {
        return put_digit(out, at, n);
    }
    let last = put_decimal(out, at, n / 10);
    put_digit(out, last, n % 10)
}

// Puts a text and a number.
pub fn put_field(out: &mut [u8], at: usize, text: &[u8], n: usize) -> usize
    requires { at + (length text.now + length (decimal n)) ≤ length out.old }
    ensures puts { Puts (field text.now n) at out.old out.new result }
    ensures value { result ≡ at + (length text.now + length (decimal n)) }
{
    let next = put_text(out, at, text);
    put_decimal(out, next, n)
}

// Puts a line of two texts, each before a number.
pub fn put_pair(out: &mut [u8], at: usize, first: &[u8], a: usize, second: &[u8], b: usize) -> usize
    requires { at + (length first.now + length (decimal a) + (length second.now + length (decimal b) + 1)) ≤ length out.old }
    ensures { Puts (pair_line first.now a second.now b) at out.old out.new result }
{
    let middle = put_field(out, at, first, a);
    let last = put_field(out, middle, second, b);
    put_text(out, last, b"\n")
}
