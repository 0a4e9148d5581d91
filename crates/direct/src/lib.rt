// The direct answer for one setting: which vertices a path of closed contacts joins to a live source.

#![tactic(auto)]

ghost use Rattle.std.specs.Prelude.{◌≡◌, ◌<◌, ◌≤◌, ltb, length};
ghost use Rattle.std.specs.List.{position};
ghost use Rattle.form.specs.Refusals.{accepted};
ghost use Rattle.network.specs.Layout.{Within, network_answer};
ghost use Rattle.network.specs.Network.{edition, side, network_of};
ghost use Rattle.values.specs.Values.{places, value_in};
ghost use Rattle.direct.specs.Direct.{Answered};
ghost use Rattle.direct.specs.Marks.{Contacted, Travelled, Swept};
ghost use Rattle.direct.specs.Sweep.{Spread};
ghost use Rattle.direct.specs.Solve.{Beginning, Written};
ghost use Rattle.direct.specs.Promise.{Promise};

use entries::Accepted;
use form::Fault;
use network::{SIDE, Switch};
use values::PLACES;

// An accepted file of this edition, and the values of its references under a setting. They are lent, since an array of the struct's own would be made in one place and copied to another.
#[derive(Clone, Copy)]
struct Valued<'a> {
    net: Accepted<'a>,
    values: &'a [bool; PLACES],
    ghost within: { Within edition net.parts },
}

impl Valued<'_> {
    // Marks the far end of a contact, where it is closed, its near end marked and the far one not; gives the number of new marks.
    #[tactic(auto, unfolding(values::specs::Values::value_in, crate::specs::Marks::marked, crate::specs::Marks::spreads, crate::specs::Marks::contact, crate::specs::Marks::contact_new))]
    fn contact(&self, marks: &mut [bool; SIDE], label: u16, from: u16, to: u16) -> usize
        requires { (label < places) × (from < side) × (to < side) }
        ensures { Contacted (value_in self.now.values.now) label from to marks.old marks.new result }
    {
        let to = usize::from(to);
        let new = self.values[usize::from(label)] && marks[usize::from(from)] && !marks[to];
        if new {
            marks[to] = true;
        }
        usize::from(new)
    }

    // Both directions of a switch.
    fn through(&self, marks: &mut [bool; SIDE], w: Switch) -> usize
        requires { (w.first < side) × (w.second < side) × (w.there < places) × (w.back < places) }
        ensures { Travelled (value_in self.now.values.now) w marks.old marks.new result }
    {
        let there = self.contact(marks, w.there, w.first, w.second);
        let back = self.contact(marks, w.back, w.second, w.first);
        there + back
    }

    // All switches in order; gives the number of new marks.
    fn sweep(&self, marks: &mut [bool; SIDE]) -> usize
        ensures { Swept (value_in self.now.values.now) (network_of self.now.net.file.now).switches marks.old marks.new result }
    {
        let mut new = 0;
        for k in 0..self.net.parts.switches {
            new += self.through(marks, self.net.switch(k));
        }
        new
    }

    // Sweeps until a sweep marks nothing.
    fn spread(&self, marks: &mut [bool; SIDE])
        ensures { Spread (value_in self.now.values.now) (network_of self.now.net.file.now).switches marks.old marks.new }
    {
        // How often is not known before, so no range says it; the 1 is for the sweep that is to come.
        let mut new = 1;
        while new != 0 {
            new = self.sweep(marks);
        }
    }

    // The marks of the vertices with a true start.
    fn begin(&self) -> [bool; SIDE]
        ensures { Beginning (value_in self.now.values.now) (network_of self.now.net.file.now).starts result self.now.net.parts.vertices }
    {
        let mut marks = [false; SIDE];
        for v in 0..self.net.parts.vertices {
            marks[v] = self.values[usize::from(self.net.start(v))];
        }
        marks
    }
}

// Writes a byte for each vertex.
fn write(marks: &[bool], out: &mut [u8])
    requires { length marks.now ≤ length out.old }
    ensures { Written marks.now (length marks.now) out.old out.new (length marks.now) }
{
    for (v, mark) in marks.iter().enumerate() {
        out[v] = u8::from(*mark);
    }
}

// The answer for an accepted file, a setting of its variables and room enough.
fn solve(net: &Accepted<'_>, setting: &[u8], out: &mut [u8])
    requires within { Within edition net.now.parts }
    requires setting_len { (length setting.now ≡ net.now.parts.variables) × (net.now.parts.vertices ≤ length out.old) }
    ensures { Answered (network_of net.now.file.now) setting.now out.old out.new }
{
    let values = values::values_of(net, setting);
    let valued = Valued {
        net: *net,
        values: &values,
    };
    let mut marks = valued.begin();
    valued.spread(&mut marks);
    write(&marks[..net.parts.vertices], out);
}

// The lowest index of a byte that is not 0 or 1.
fn first_bad(setting: &[u8]) -> Option<usize>
    ensures { result ≡ position (λ x. ltb 1 x) setting.now }
{
    setting.iter().position(|x| *x > 1)
}

// The direct answer for an accepted file.
fn answer(net: &Accepted<'_>, setting: &[u8], out: &mut [u8]) -> Result<usize, Fault>
    requires { accepted net.now.parts ≡ network_answer edition net.now.file.now }
    ensures { Promise net.now.file.now setting.now out.old out.new result }
{
    if setting.len() != net.parts.variables {
        return Err(Fault::SettingLength);
    }
    if let Some(bad) = first_bad(setting) {
        return Err(Fault::SettingByte(bad));
    }
    if out.len() < net.parts.vertices {
        return Err(Fault::AnswerRoom);
    }
    solve(net, setting, out);
    Ok(net.parts.vertices)
}

// Writes 1 for each vertex that a path of closed contacts joins to a live source, and else 0; gives the number of vertices.
pub fn direct(file: &[u8], setting: &[u8], out: &mut [u8]) -> Result<usize, Fault>
    ensures { Promise file.now setting.now out.old out.new result }
{
    let parts = reader::check_network(file)?;
    answer(&Accepted { file, parts }, setting, out)
}
