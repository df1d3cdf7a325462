//! Reading a step of each kind.
ghost use Rattle.std.specs.Prelude.{◌≡◌, IfOk, Some, None, Err};
ghost use Rattle.shard_model.specs.StepReading.{read_write, read_replace, read_remove, read_set_attr, read_remove_attr, read_back, read_started, read_firm, read_trim, read_put, read_drop, read_reset, read_kind, read_step};
ghost use Rattle.shard_steps.specs.StepMeanings.{step_of};

use crate::fault::Unread;
use crate::reading::{Head, StepReader};
use crate::step::Step;

fn write(reader: &mut StepReader<'_>) -> Result<Step, Unread>
    ensures value { IfOk result (λ step. read_write reader.old ≡ Some (step_of step, reader.new)) }
    ensures no_step { result ≡ Err Unread.NoStep → read_write reader.old ≡ None }
{
    let Head {
        version,
        prior,
        name,
    } = reader.head()?;
    let fresh = reader.front.byte()?;
    let size = reader.front.number()?;
    let at = reader.front.number()?;
    let bytes = reader.counted()?;
    Ok(Step::Write {
        version,
        prior,
        name,
        fresh,
        size,
        at,
        bytes,
    })
}

fn replace(reader: &mut StepReader<'_>) -> Result<Step, Unread>
    ensures value { IfOk result (λ step. read_replace reader.old ≡ Some (step_of step, reader.new)) }
    ensures no_step { result ≡ Err Unread.NoStep → read_replace reader.old ≡ None }
{
    let Head {
        version,
        prior,
        name,
    } = reader.head()?;
    let size = reader.front.number()?;
    let bytes = reader.counted()?;
    Ok(Step::Replace {
        version,
        prior,
        name,
        size,
        bytes,
    })
}

fn remove(reader: &mut StepReader<'_>) -> Result<Step, Unread>
    ensures value { IfOk result (λ step. read_remove reader.old ≡ Some (step_of step, reader.new)) }
    ensures no_step { result ≡ Err Unread.NoStep → read_remove reader.old ≡ None }
{
    let Head {
        version,
        prior,
        name,
    } = reader.head()?;
    Ok(Step::Remove {
        version,
        prior,
        name,
    })
}

fn set_attr(reader: &mut StepReader<'_>) -> Result<Step, Unread>
    ensures value { IfOk result (λ step. read_set_attr reader.old ≡ Some (step_of step, reader.new)) }
    ensures no_step { result ≡ Err Unread.NoStep → read_set_attr reader.old ≡ None }
{
    let Head {
        version,
        prior,
        name,
    } = reader.head()?;
    let attr = reader.name()?;
    let value = reader.counted()?;
    Ok(Step::SetAttr {
        version,
        prior,
        name,
        attr,
        value,
    })
}

fn remove_attr(reader: &mut StepReader<'_>) -> Result<Step, Unread>
    ensures value { IfOk result (λ step. read_remove_attr reader.old ≡ Some (step_of step, reader.new)) }
    ensures no_step { result ≡ Err Unread.NoStep → read_remove_attr reader.old ≡ None }
{
    let Head {
        version,
        prior,
        name,
    } = reader.head()?;
    let attr = reader.name()?;
    Ok(Step::RemoveAttr {
        version,
        prior,
        name,
        attr,
    })
}

fn back(reader: &mut StepReader<'_>) -> Result<Step, Unread>
    ensures value { IfOk result (λ step. read_back reader.old ≡ Some (step_of step, reader.new)) }
    ensures no_step { result ≡ Err Unread.NoStep → read_back reader.old ≡ None }
{
    Ok(Step::Back(reader.front.version()?))
}

fn started(reader: &mut StepReader<'_>) -> Result<Step, Unread>
    ensures value { IfOk result (λ step. read_started reader.old ≡ Some (step_of step, reader.new)) }
    ensures no_step { result ≡ Err Unread.NoStep → read_started reader.old ≡ None }
{
    Ok(Step::Started(reader.front.number()?))
}

fn firm(reader: &mut StepReader<'_>) -> Result<Step, Unread>
    ensures value { IfOk result (λ step. read_firm reader.old ≡ Some (step_of step, reader.new)) }
    ensures no_step { result ≡ Err Unread.NoStep → read_firm reader.old ≡ None }
{
    Ok(Step::Firm(reader.front.version()?))
}

fn trim(reader: &mut StepReader<'_>) -> Result<Step, Unread>
    ensures value { IfOk result (λ step. read_trim reader.old ≡ Some (step_of step, reader.new)) }
    ensures no_step { result ≡ Err Unread.NoStep → read_trim reader.old ≡ None }
{
    Ok(Step::Trim(reader.front.version()?))
}

fn put(reader: &mut StepReader<'_>) -> Result<Step, Unread>
    ensures value { IfOk result (λ step. read_put reader.old ≡ Some (step_of step, reader.new)) }
    ensures no_step { result ≡ Err Unread.NoStep → read_put reader.old ≡ None }
{
    let name = reader.name()?;
    let size = reader.front.number()?;
    let bytes = reader.counted()?;
    let attrs = reader.attrs()?;
    Ok(Step::Put {
        name,
        size,
        bytes,
        attrs,
    })
}

fn drop_name(reader: &mut StepReader<'_>) -> Result<Step, Unread>
    ensures value { IfOk result (λ step. read_drop reader.old ≡ Some (step_of step, reader.new)) }
    ensures no_step { result ≡ Err Unread.NoStep → read_drop reader.old ≡ None }
{
    Ok(Step::Drop(reader.name()?))
}

fn reset(reader: &mut StepReader<'_>) -> Result<Step, Unread>
    ensures value { IfOk result (λ step. read_reset reader.old ≡ Some (step_of step, reader.new)) }
    ensures no_step { result ≡ Err Unread.NoStep → read_reset reader.old ≡ None }
{
    let version = reader.front.version()?;
    let epoch = reader.front.number()?;
    Ok(Step::Reset(version, epoch))
}

/// A step of this kind.
fn of_kind(reader: &mut StepReader<'_>, kind: u8) -> Result<Step, Unread>
    ensures value { IfOk result (λ step. read_kind kind reader.old ≡ Some (step_of step, reader.new)) }
    ensures no_step { result ≡ Err Unread.NoStep → read_kind kind reader.old ≡ None }
{
    match kind {
        1 => write(reader),
        2 => replace(reader),
        3 => remove(reader),
        4 => set_attr(reader),
        5 => remove_attr(reader),
        6 => back(reader),
        7 => started(reader),
        8 => firm(reader),
        9 => trim(reader),
        10 => Ok(Step::Partial),
        11 => put(reader),
        12 => drop_name(reader),
        13 => Ok(Step::Clear),
        14 => reset(reader),
        _ => Err(Unread::NoStep),
    }
}

/// The step that a text begins with.
pub(crate) fn read_step(reader: &mut StepReader<'_>) -> Result<Step, Unread>
    ensures value { IfOk result (λ step. read_step reader.old ≡ Some (step_of step, reader.new)) }
    ensures no_step { result ≡ Err Unread.NoStep → read_step reader.old ≡ None }
{
    let kind = reader.front.byte()?;
    of_kind(reader, kind)
}
