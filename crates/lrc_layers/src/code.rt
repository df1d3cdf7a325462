//! The code as an object.
ghost use Rattle.std.specs.Prelude.{◌≡◌, codes, slice_index};
ghost use Rattle.ec_model.specs.Rows.{entry_at};
ghost use Rattle.ec_model.specs.Codes.{IsCode};
ghost use Rattle.ec_model.specs.Lrc.{IsLrc};
ghost use Rattle.ec_code.specs.Shapes.{HasShape};
ghost use Rattle.ec_code.specs.Tables.{code_of};
ghost use Rattle.ec_code.specs.LrcFaults.{text_of_layer, layer_texts};

use crate::layout::{Layout, layout_of};
use crate::marks::{DATA, count_of, layer_of};
use crate::places::places_of;
use crate::rows::rows_of;
use ec_code::{Code, Profile, ProfileFault, Shape, encode_rows, read_rows};
use rs_van::unit_row;

/// The code of a mapping and its layers. Chunk sizes are multiples of the number of inputs of the first layer.
#[derive(Clone, Copy)]
pub struct Lrc {
    k: u8,
    n: u8,
    lead: u8,
    rows: [[u8; 16]; 16],
    places: [u8; 16],
    ghost is_code: { IsCode (code_of k n lead rows places) },
}

impl Lrc {
    /// The code before `init`: one data chunk at position 0, with the row 1, and no other position.
    pub fn new() -> Lrc
        ensures shape { HasShape (⟦<Lrc as Code>⟧.meaning result) 1 1 1 }
        ensures row { entry_at (⟦<Lrc as Code>⟧.meaning result).rows 0 0 ≡ 1 }
        ensures place { slice_index (⟦<Lrc as Code>⟧.meaning result).places 0 ≡ 0 }
    {
        let rows = [unit_row(0); 16];
        read_rows(&rows);
        Lrc {
            k: 1,
            n: 1,
            lead: 1,
            rows,
            places: [0; 16],
        }
    }

    /// The code of a layout.
    fn of(layout: &Layout) -> Lrc
        ensures { IsLrc (text_of_layer layout.now.mapping) (layer_texts layout.now.layers)
            (⟦<Lrc as Code>⟧.meaning result) }
    {
        let rows = rows_of(&layout.mapping, &layout.layers);
        read_rows(&rows);
        Lrc {
            k: count_of(&layout.mapping, DATA),
            n: layout.mapping.len as u8,
            lead: count_of(&layer_of(&layout.layers, 0), DATA),
            rows,
            places: places_of(&layout.mapping),
        }
    }
}

impl Code for Lrc {
    ghost meaning = { λ code. code_of code.k code.n code.lead code.rows code.places };

    ghost plugin_name = { λ _. codes "lrc" };

    fn named(&self, plugin: &str) -> bool {
        plugin == "lrc"
    }

    fn init(&mut self, profile: &Profile) -> Result<(), ProfileFault> {
        let layout = layout_of(profile)?;
        *self = Lrc::of(&layout);
        Ok(())
    }

    fn shape(&self) -> Shape {
        Shape {
            k: self.k,
            n: self.n,
            lead: self.lead,
        }
    }

    fn entry(&self, p: u8, j: u8) -> u8 {
        let _few = self.shape();
        self.rows[p as usize][j as usize]
    }

    fn place(&self, j: u8) -> u8 {
        let _few = self.shape();
        self.places[j as usize]
    }

    fn encode_unit(&self, stripe: &[u8], unit: usize, out: &mut [u8]) {
        encode_rows(&self.rows, self.k, self.n, stripe, unit, out);
    }
}
