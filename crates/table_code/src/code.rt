//! A code that is given as a table.
ghost use Rattle.std.specs.Prelude.{◌≡◌, ◌↔◌, IsSome, IfSome, codes};
ghost use Rattle.ec_model.specs.Codes.{IsCode};
ghost use Rattle.ec_code.specs.Tables.{code_of};
ghost use Rattle.table_code.specs.Held.{code_held};

use crate::table::Table;
use ec_code::{Code, Profile, ProfileFault, Shape, encode_rows};
use shec_matrix::Shec;

#[derive(Clone, Copy)]
enum Held {
    Given(Table),
    Made(Shec),
}

/// A code of given rows, until `init` makes it the code of a profile of the plugin shec.
#[derive(Clone, Copy)]
pub struct TableCode {
    held: Held,
}

impl TableCode {
    /// The code of these rows and data positions. `None` if they are no code.
    pub fn of(shape: Shape, rows: [[u8; 16]; 16], places: [u8; 16]) -> Option<TableCode>
        ensures value { IfSome result (λ t.
            ⟦<TableCode as Code>⟧.meaning t ≡ code_of shape.k shape.n shape.lead rows places) }
        ensures some { IsSome result ↔ IsCode (code_of shape.k shape.n shape.lead rows places) }
    {
        match Table::of(shape, rows, places) {
            Some(table) => Some(TableCode {
                held: Held::Given(table),
            }),
            None => None,
        }
    }
}

impl Code for TableCode {
    ghost meaning = { λ t. code_held t.held };

    ghost plugin_name = { λ _. codes "shec" };

    fn named(&self, plugin: &str) -> bool {
        plugin == "shec"
    }

    fn init(&mut self, profile: &Profile) -> Result<(), ProfileFault> {
        let mut made = Shec::new();
        made.init(profile)?;
        self.held = Held::Made(made);
        Ok(())
    }

    fn shape(&self) -> Shape {
        match &self.held {
            Held::Given(table) => Shape {
                k: table.k,
                n: table.n,
                lead: table.lead,
            },
            Held::Made(code) => code.shape(),
        }
    }

    fn entry(&self, p: u8, j: u8) -> u8 {
        match &self.held {
            Held::Given(table) => table.rows[p as usize][j as usize],
            Held::Made(code) => code.entry(p, j),
        }
    }

    fn place(&self, j: u8) -> u8 {
        match &self.held {
            Held::Given(table) => table.places[j as usize],
            Held::Made(code) => code.place(j),
        }
    }

    fn encode_unit(&self, stripe: &[u8], unit: usize, out: &mut [u8]) {
        match &self.held {
            Held::Given(table) => encode_rows(&table.rows, table.k, table.n, stripe, unit, out),
            Held::Made(code) => code.encode_unit(stripe, unit, out),
        }
    }
}
