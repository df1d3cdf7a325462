//! The code as an object.
ghost use Rattle.std.specs.Prelude.{◌≡◌, codes, slice_index};
ghost use Rattle.ec_model.specs.Rows.{entry_at};
ghost use Rattle.ec_model.specs.Codes.{IsCode};
ghost use Rattle.ec_code.specs.Shapes.{HasShape};
ghost use Rattle.rs_van.specs.Systematic.{systematic};

use crate::counts::counts_of;
use crate::rows::rows_of;
use ec_code::{Code, Profile, ProfileFault, Shape, encode_rows, read_rows};
use rs_van::unit_rows;

/// The code shec. Its data chunks stand first, and chunk sizes are multiples of k.
#[derive(Clone, Copy)]
pub struct Shec {
    k: u8,
    n: u8,
    rows: [[u8; 16]; 16],
    ghost is_code: { IsCode (systematic k n rows) },
}

impl Shec {
    /// The code before `init`: one data chunk at position 0, with the row 1, and no other position.
    pub fn new() -> Shec
        ensures shape { HasShape (⟦<Shec as Code>⟧.meaning result) 1 1 1 }
        ensures row { entry_at (⟦<Shec as Code>⟧.meaning result).rows 0 0 ≡ 1 }
        ensures place { slice_index (⟦<Shec as Code>⟧.meaning result).places 0 ≡ 0 }
    {
        let rows = unit_rows(1);
        read_rows(&rows);
        Shec { k: 1, n: 1, rows }
    }
}

impl Code for Shec {
    ghost meaning = { λ code. systematic code.k code.n code.rows };

    ghost plugin_name = { λ _. codes "shec" };

    fn named(&self, plugin: &str) -> bool {
        plugin == "shec"
    }

    fn init(&mut self, profile: &Profile) -> Result<(), ProfileFault> {
        let counts = counts_of(profile)?;
        let rows = rows_of(counts.k, counts.m, counts.c);
        read_rows(&rows);
        *self = Shec {
            k: counts.k,
            n: counts.k + counts.m,
            rows,
        };
        Ok(())
    }

    fn shape(&self) -> Shape {
        Shape {
            k: self.k,
            n: self.n,
            lead: self.k,
        }
    }

    fn entry(&self, p: u8, j: u8) -> u8 {
        let _few = self.shape();
        self.rows[p as usize][j as usize]
    }

    fn place(&self, j: u8) -> u8 {
        j
    }

    fn encode_unit(&self, stripe: &[u8], unit: usize, out: &mut [u8]) {
        encode_rows(&self.rows, self.k, self.n, stripe, unit, out);
    }
}
