//! The numbers of a profile's code that are shown.
ghost use Rattle.std.specs.Prelude.{◌≡◌, ◌≤◌, ◌++◌, [], IfOk, OnOk};
ghost use Rattle.std.specs.List.{flat_map};
ghost use Rattle.ec_code.specs.Shapes.{HasShape};
ghost use Rattle.ec_model.specs.Codes.{CodeRows};
ghost use Rattle.ec_tool.specs.Parameters.{parameter_of, parameter_line, parameters_text, size_text};
ghost use Rattle.ec_tool.specs.Words.{texts_of, max_size};

use ec_code::{Code, Shape};
use ec_words::{Bytes, NoMemory};
use std::alloc::Global;
use stripe_map::chunk_size;

/// A line for each of these parameters, or for all three if the list is empty.
pub fn parameters_text(
    alloc: Global,
    code: &dyn Code,
    parameters: &[String],
) -> Result<Bytes, NoMemory>
    ensures { IfOk result (λ text. text ≡ parameters_text (meaning code.now) (texts_of parameters.now)) }
{
    let shape = code.shape();
    let mut list = Vec::new(alloc);
    push_shown(alloc, &mut list, parameters, shape)?;
    Ok(Bytes::of(list))
}

fn push_shown(
    alloc: Global,
    list: &mut Vec<u8>,
    parameters: &[String],
    shape: Shape,
) -> Result<(), NoMemory>
    ensures { OnOk result ((code : CodeRows) → HasShape code shape.k shape.n shape.lead
        → list.new.items ≡ list.old.items ++ parameters_text code (texts_of parameters.now)) }
{
    if parameters.is_empty() {
        push_all(alloc, list, shape)
    } else {
        push_parameters(alloc, list, parameters, shape)
    }
}

fn push_all(alloc: Global, list: &mut Vec<u8>, shape: Shape) -> Result<(), NoMemory>
    ensures { OnOk result ((code : CodeRows) → HasShape code shape.k shape.n shape.lead
        → list.new.items ≡ list.old.items ++ parameters_text code []) }
{
    push_parameter(alloc, list, "chunk_count", shape)?;
    push_parameter(alloc, list, "data_chunk_count", shape)?;
    push_parameter(alloc, list, "coding_chunk_count", shape)?;
    Ok(())
}

fn push_parameters(
    alloc: Global,
    list: &mut Vec<u8>,
    parameters: &[String],
    shape: Shape,
) -> Result<(), NoMemory>
    ensures { OnOk result ((code : CodeRows) → HasShape code shape.k shape.n shape.lead
        → list.new.items ≡ list.old.items ++ flat_map (parameter_line code) (texts_of parameters.now)) }
{
    for i in 0..parameters.len() {
        push_parameter(alloc, list, &parameters[i], shape)?;
    }
    Ok(())
}

// `PARAM: VALUE`
fn push_parameter(
    alloc: Global,
    list: &mut Vec<u8>,
    parameter: &str,
    shape: Shape,
) -> Result<(), NoMemory>
    ensures { OnOk result ((code : CodeRows) → HasShape code shape.k shape.n shape.lead
        → list.new.items ≡ list.old.items ++ parameter_line code parameter.now) }
{
    let number = parameter_of(parameter, shape);
    let line = format!(in alloc; "{parameter}: {number}\n")?;
    list.extend_from_slice(line.as_bytes())?;
    Ok(())
}

fn parameter_of(parameter: &str, shape: Shape) -> u8
    ensures { (code : CodeRows) → HasShape code shape.k shape.n shape.lead → result ≡ parameter_of code parameter.now }
{
    if parameter == "chunk_count" {
        shape.n
    } else if parameter == "data_chunk_count" {
        shape.k
    } else {
        shape.n.saturating_sub(shape.k)
    }
}

/// The bytes of each chunk of a buffer that is coded whole, on a line.
pub fn size_text(alloc: Global, code: &dyn Code, size: u64) -> Result<Bytes, NoMemory>
    requires { size ≤ max_size }
    ensures { IfOk result (λ text. text ≡ size_text (meaning code.now) size) }
{
    let lead = code.shape().lead;
    let line = format!(in alloc; "{}\n", chunk_size(lead, size))?;
    Bytes::from_slice(alloc, line.as_bytes())
}
