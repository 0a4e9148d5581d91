// The doors to C and Rust: the product's functions under C names. A reply crosses as a number, by casts that are proved to lose nothing.

#![tactic(auto)]

ghost use Rattle.std.specs.Prelude.{◌≡◌};
ghost use Rattle.form.specs.Refusals.{refused, number_of, place_of, reply_of};
ghost use Rattle.analyse.specs.Promise.{Promise as AnalysePromise};
ghost use Rattle.direct.specs.Promise.{Promise as DirectPromise};
ghost use Rattle.list.specs.Promise.{Promise as ListPromise};
ghost use Rattle.exports.specs.Codes.{code_of, Narrow, Through};

use form::Fault;

// A refusal's number for the caller: its own number × 2³², and its place.
#[tactic(auto, unfolding(crate::specs::Codes::code_of))]
fn refusal_code(f: Fault) -> u64
    requires { Narrow (refused (number_of f) (place_of f)) }
    ensures { result ≡ code_of (refused (number_of f) (place_of f)) }
{
    f.number() * 4294967296 + f.place() as u64
}

// A reply's number for the caller: the length where accepted.
#[tactic(auto, unfolding(crate::specs::Codes::code_of))]
fn code(reply: Result<usize, Fault>) -> u64
    requires { Narrow (reply_of reply) }
    ensures { result ≡ code_of (reply_of reply) }
{
    match reply {
        Ok(n) => n as u64,
        Err(f) => refusal_code(f),
    }
}

// Writes the result of a wiring file.
#[tactic(auto, using(crate::specs::Doors::analysed_narrow))]
#[unsafe(no_mangle)]
pub extern "C" fn jorulbani_analyse(file: &[u8], out: &mut [u8]) -> u64
    ensures { Through (AnalysePromise file.now out.old out.new) result }
{
    code(analyse::analyse(file, out))
}

// Writes the direct answer of a wiring file for one setting.
#[tactic(auto, using(crate::specs::Doors::directed_narrow))]
#[unsafe(no_mangle)]
pub extern "C" fn jorulbani_direct(file: &[u8], setting: &[u8], out: &mut [u8]) -> u64
    ensures { Through (DirectPromise file.now setting.now out.old out.new) result }
{
    code(direct::direct(file, setting, out))
}

// Puts the listing of a wiring file as text.
#[unsafe(no_mangle)]
pub extern "C" fn jorulbani_list(file: &[u8], out: &mut [u8]) -> u64
    ensures { ListPromise file.now out.old out.new result }
{
    list::list(file, out) as u64
}
