//! A profile as a text, and the box that becomes its code; the line of a text that is refused.
ghost use Rattle.std.specs.Prelude.{◌≡◌, ◌++◌, IfOk, IsErr, OnOk, Err};
ghost use Rattle.std.specs.Fmt.{decimal};
ghost use Rattle.std.specs.Option.{option_map};
ghost use Rattle.plugin_reg.specs.Boxes.{HaveEachPlugin, KeepNames, KeepCodes};
ghost use Rattle.plugin_reg.specs.Picks.{IsPicked};
ghost use Rattle.plugin_reg.specs.Opening.{GivesProfile, IsRefused, key_field, fault_line};

use crate::picks::pick;
use ec_code::{Code, Profile, ProfileFault};
use ec_words::{Bytes, NoMemory};
use profile_texts::{RegFault, read_any};
use std::alloc::Global;

/// An accepted profile, and the number of the box that is its code.
#[derive(Clone, Copy)]
pub struct Opened {
    pub index: usize,
    pub profile: Profile,
}

/// Reads a profile, as settings or in JSON, and makes the first box of its plugin its code. `codes` has a box of each plugin. A
/// text is refused by the first fault of it or of its profile. No code changes then.
pub fn open_profile(
    alloc: Global,
    text: &[u8],
    codes: &mut [Box<dyn Code>],
) -> Result<Opened, RegFault>
    requires { HaveEachPlugin (λ box. plugin_name box) codes.old }
    ensures gives { IfOk result (λ opened. GivesProfile text.now opened.profile) }
    ensures picked { IfOk result (λ opened. IsPicked (λ box. plugin_name box) (λ box. meaning box) opened.profile codes.old codes.new opened.index) }
    ensures refused { (fault : _) → result ≡ Err (RegFault.Profile fault) → IsRefused text.now fault }
    ensures unchanged { IsErr result → KeepCodes (λ box. meaning box) codes.old codes.new }
    ensures boxes { KeepNames (λ box. plugin_name box) codes.old codes.new }
{
    let profile = read_any(alloc, text)?;
    match pick(codes, &profile) {
        Ok(index) => Ok(Opened { index, profile }),
        Err(fault) => Err(RegFault::Profile(fault)),
    }
}

/// The line of a fault: `profile NUMBER NAME`, and the key if it carries one.
pub fn print_fault(alloc: Global, fault: &ProfileFault) -> Result<Bytes, NoMemory>
    ensures { IfOk result (λ text. text ≡ fault_line fault.now) }
{
    let mut list = Vec::new(alloc);
    list.extend_from_slice(b"profile ")?;
    push_number(alloc, &mut list, fault.number())?;
    list.push(b' ')?;
    list.extend_from_slice(fault.name().as_bytes())?;
    push_key(&mut list, fault.key())?;
    list.push(b'\n')?;
    Ok(Bytes::of(list))
}

fn push_number(alloc: Global, list: &mut Vec<u8>, number: u8) -> Result<(), NoMemory>
    ensures { OnOk result (list.new.items ≡ list.old.items ++ decimal number) }
{
    let digits = format!(in alloc; "{number}")?;
    list.extend_from_slice(digits.as_bytes())?;
    Ok(())
}

fn push_key(list: &mut Vec<u8>, key: Option<&[u8]>) -> Result<(), NoMemory>
    ensures { OnOk result (list.new.items ≡ list.old.items ++ key_field (option_map (λ k. k.now) key.entry)) }
{
    match key {
        Some(key) => {
            list.push(b' ')?;
            list.extend_from_slice(key)?;
        }
        None => {}
    }
    Ok(())
}
