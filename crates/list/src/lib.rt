// The listing of a wiring file, as text, which is put by hand for the reason that `text` gives.

#![tactic(auto)]

ghost use Rattle.std.specs.Prelude.{◌≡◌, ◌≤◌, length};
ghost use Rattle.form.specs.Refusals.{number_of, place_of};
ghost use Rattle.analysis.specs.Room.{result_room};
ghost use Rattle.network.specs.Layout.{Within};
ghost use Rattle.network.specs.Network.{edition};
ghost use Rattle.text.specs.Puts.{Puts};
ghost use Rattle.list.specs.Analysed.{Tells};
ghost use Rattle.list.specs.Listing.{refused_line, listing, listing_room};
ghost use Rattle.list.specs.Promise.{Promise};

use entries::Accepted;
use form::Fault;

// Room for any listing.
pub const LISTING_ROOM: usize = 262144;

// Room for any result.
const RESULT_ROOM: usize = 63548;

// Puts the line of a refusal.
fn put_refused(f: Fault, out: &mut [u8]) -> usize
    requires { length (refused_line (number_of f) (place_of f)) ≤ length out.old }
    ensures { Puts (refused_line (number_of f) (place_of f)) 0 out.old out.new result }
{
    // There is no `From` for this cast; it is proved to lose nothing.
    let number = f.number() as usize;
    let place = f.place();
    text::put_pair(out, 0, b"refused ", number, b" at ", place)
}

// Analyses a file in room enough for any result.
fn analysed(file: &[u8], bytes: &mut [u8; RESULT_ROOM]) -> Result<usize, Fault>
    ensures tells { Tells file.now bytes.new result }
    ensures room { length bytes.new ≡ result_room }
{
    analyse::analyse(file, bytes)
}

// Lists an accepted file.
fn list_accepted(net: &Accepted<'_>, out: &mut [u8]) -> usize
    requires within { Within edition net.now.parts }
    requires room { listing_room ≤ length out.old }
    ensures { Puts (listing net.now.file.now) 0 out.old out.new result }
{
    let mut bytes = [0; RESULT_ROOM];
    match analysed(net.file, &mut bytes) {
        Err(f) => put_refused(f, out),
        // A result says itself, by its counts, how much of the room it takes.
        Ok(_) => lines::put_result(net.parts.switches, &bytes, out),
    }
}

// Puts the listing of a wiring file at the front of a buffer, and gives its length; where there is too little room for any, it puts nothing.
pub fn list(file: &[u8], out: &mut [u8]) -> usize
    ensures { Promise file.now out.old out.new result }
{
    if out.len() < LISTING_ROOM {
        // Not an `Option`: the promise of `list`, and C's callers, have the length 0 here.
        return 0;
    }
    match reader::check_network(file) {
        Err(f) => put_refused(f, out),
        Ok(parts) => list_accepted(&Accepted { file, parts }, out),
    }
}
