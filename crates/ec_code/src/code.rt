//! What a code is.
ghost use Rattle.std.specs.Prelude.{◌≡◌, ◌↔◌, ◌*◌, ◌<◌, ℕ, List, length, slice_index, IsTrue, IsOk, IsErr, IfErr};
ghost use Rattle.ec_model.specs.Rows.{entry_at};
ghost use Rattle.ec_model.specs.Codes.{CodeRows, IsCode, IsEncoded};
ghost use Rattle.ec_code.specs.Profiles.{name_of};
ghost use Rattle.ec_code.specs.Refusals.{IsCodeOf, KeepsPromise, IsAccepted, IsRefusedBy};
ghost use Rattle.ec_code.specs.Shapes.{HasShape};

use crate::{Profile, ProfileFault, Shape};

/// A linear code, as an object. Before the first `init` the code of a plugin has one data chunk and no other position.
pub trait Code: Drop {
    /// Its numbers, its rows and its data positions.
    ghost meaning: { Self → CodeRows };

    /// The name of its plugin.
    ghost plugin_name: { Self → List ℕ };

    /// Whether it is the plugin of this name.
    fn named(&self, plugin: &str) -> bool
        ensures value { IsTrue result ↔ (plugin.now ≡ plugin_name self.now) }
        ensures is_code { IsCode (meaning self.now) };

    /// Makes it the code of a profile of its plugin. A profile that has a fault is refused with the first one in the order.
    fn init(&mut self, profile: &Profile) -> Result<(), ProfileFault>
        requires { name_of profile.now.plugin ≡ plugin_name self.old }
        ensures is_code { IsCode (meaning self.new) }
        ensures made { IsOk result → IsCodeOf profile.now (meaning self.new) }
        ensures promise { IsOk result → KeepsPromise profile.now.plugin (meaning self.new) }
        ensures accepted { IsOk result → IsAccepted profile.now }
        ensures refused { IfErr result (IsRefusedBy profile.now) }
        ensures unchanged { IsErr result → meaning self.new ≡ meaning self.old }
        ensures kept { plugin_name self.new ≡ plugin_name self.old };

    /// The numbers of the code.
    fn shape(&self) -> Shape
        ensures value { HasShape (meaning self.now) result.k result.n result.lead }
        ensures is_code { IsCode (meaning self.now) };

    /// The entry of the row of position `p` at data chunk `j`.
    fn entry(&self, p: u8, j: u8) -> u8
        requires p { p < (meaning self.now).n }
        requires j { j < (meaning self.now).k }
        ensures value { result ≡ entry_at (meaning self.now).rows p j }
        ensures is_code { IsCode (meaning self.now) };

    /// The position of data chunk `j`.
    fn place(&self, j: u8) -> u8
        requires { j < (meaning self.now).k }
        ensures value { result ≡ slice_index (meaning self.now).places j }
        ensures below { result < (meaning self.now).n }
        ensures is_code { IsCode (meaning self.now) };

    /// Writes the chunks of a stripe, position after position.
    fn encode_unit(&self, stripe: &[u8], unit: usize, out: &mut [u8])
        requires stripe { length stripe.now ≡ (meaning self.now).k * unit }
        requires out { length out.old ≡ (meaning self.now).n * unit }
        ensures value { IsEncoded (meaning self.now) stripe.now unit out.new }
        ensures is_code { IsCode (meaning self.now) };
}
