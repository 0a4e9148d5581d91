// An accepted file, and its entries.

#![tactic(auto)]

ghost use Rattle.std.specs.Prelude.{◌≡◌, ◌<◌};
ghost use Rattle.form.specs.Numbers.{word_at};
ghost use Rattle.network.specs.Layout.{Layout, coil_place, GivenRead, StartRead, SwitchRead};

use form::Record;
use network::{Sections, Switch};

// The bytes of an accepted file, and its sections, which lie where its counts say. No limits are part of it: its entries are read at those of any edition, and a second type, with this one's, would be one more step in every path of a clause.
#[derive(Clone, Copy)]
pub struct Accepted<'a> {
    pub file: &'a [u8],
    pub parts: Sections,
    ghost layout: { Layout file.now parts },
}

impl Accepted<'_> {
    // Coil number k.
    pub fn variable(&self, k: usize) -> u16
        requires { k < self.now.parts.variables }
        ensures { result ≡ word_at self.now.file.now (coil_place k) }
    {
        form::word(self.file, 2 + 2 * k)
    }

    // Given formula k.
    pub fn given(&self, k: usize) -> Record
        requires { k < self.now.parts.givens }
        ensures { GivenRead self.now.file.now self.now.parts k result }
    {
        network::read_record(self.file, self.parts.givens_at + 2 + 6 * k)
    }

    // The starting formula of vertex k.
    pub fn start(&self, k: usize) -> u16
        requires { k < self.now.parts.vertices }
        ensures { StartRead self.now.file.now self.now.parts k result }
    {
        form::word(self.file, self.parts.vertices_at + 2 + 2 * k)
    }

    // Switch k.
    pub fn switch(&self, k: usize) -> Switch
        requires { k < self.now.parts.switches }
        ensures { SwitchRead self.now.file.now self.now.parts k result }
    {
        network::read_switch(self.file, self.parts.switches_at + 2 + 8 * k)
    }
}
