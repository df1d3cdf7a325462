//! The profile that the command line or the input writes: what it gives, and what is said of it.
ghost use Rattle.std.specs.Prelude.{◌≡◌, ◌<◌, ◌++◌, ℕ, IfOk, OnOk, Err, length, slice_index_or, map};
ghost use Rattle.std.specs.Fmt.{decimal};
ghost use Rattle.std.specs.List.{range_with_len};
ghost use Rattle.std.specs.Option.{option_map};
ghost use Rattle.ec_model.specs.Rows.{entry_at};
ghost use Rattle.ec_code.specs.Profiles.{name_of};
ghost use Rattle.ec_code.specs.Refusals.{IsAccepted, IsCodeOf};
ghost use Rattle.pool_run.specs.Profiles.{row_line, rows_text, profile_text};

use ec_code::{Code, Profile, ProfileFault};
use ec_words::{Bytes, NoMemory};
use plugin_reg::{RegFault, pick, print_profile, read_any};
use std::alloc::Global;

/// What an accepted profile means: its canonical lines, and `row P HEX` for each position of its code.
pub fn print_code(alloc: Global, profile: &Profile, code: &dyn Code) -> Result<Bytes, NoMemory>
    requires accepted { IsAccepted profile.now }
    requires made { IsCodeOf profile.now (meaning code.now) }
    ensures { IfOk result (λ text. text ≡ profile_text profile.now (meaning code.now)) }
{
    let shape = code.shape();
    let lines = print_profile(alloc, profile, shape)?;
    let mut list = lines.into_vec();
    push_rows(alloc, &mut list, code, shape.n, shape.k)?;
    Ok(Bytes::of(list))
}

// A line for each position.
fn push_rows(
    alloc: Global,
    list: &mut Vec<u8>,
    code: &dyn Code,
    n: u8,
    k: u8,
) -> Result<(), NoMemory>
    requires n { n ≡ (meaning code.now).n }
    requires k { k ≡ (meaning code.now).k }
    ensures { OnOk result (list.new.items ≡ list.old.items ++ rows_text (meaning code.now)) }
{
    for p in 0..n {
        push_row(alloc, list, code, p, k)?;
    }
    Ok(())
}

fn push_row(
    alloc: Global,
    list: &mut Vec<u8>,
    code: &dyn Code,
    p: u8,
    k: u8,
) -> Result<(), NoMemory>
    requires p { p < (meaning code.now).n }
    requires k { k ≡ (meaning code.now).k }
    ensures { OnOk result (list.new.items ≡ list.old.items ++ row_line (meaning code.now) p) }
{
    let entries = row(alloc, code, p, k)?;
    let digits = hex::encode(alloc, &entries)?;
    let line = format!(in alloc; "row {p} {digits}\n")?;
    list.extend_from_slice(line.as_bytes())?;
    Ok(())
}

// The entries of the row of a position.
fn row(alloc: Global, code: &dyn Code, p: u8, k: u8) -> Result<Vec<u8>, NoMemory>
    requires p { p < (meaning code.now).n }
    requires k { k ≡ (meaning code.now).k }
    ensures { IfOk result (λ entries. entries.items ≡ map (entry_at (meaning code.now).rows p) (range_with_len 0 k)) }
{
    let mut entries = Vec::new(alloc);
    for j in 0..k {
        entries.push(code.entry(p, j))?;
    }
    Ok(entries)
}
