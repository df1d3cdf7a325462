//! Codes in general: the faults of a profile are printed.
use ec_code::{Key, ProfileFault};
use ec_words::Bytes;
use std::alloc::Global;
use std::test::Fail;

/// Whether a fault has this number, and is printed as this name.
fn is_printed(alloc: Global, fault: &ProfileFault, number: u8, name: &str) -> Result<bool, Fail> {
    let printed = fault.to_string(alloc)?;
    Ok(fault.number() == number && fault.name() == name && printed.as_str() == name)
}

// From the list of faults.
#[test]
fn a_fault_is_printed_as_its_name(rt: HostRuntime) -> Result<(), Fail> {
    let rows: [(ProfileFault, u8, &str); 16] = [
        (ProfileFault::UnknownPlugin, 1, "UnknownPlugin"),
        (ProfileFault::Missing(Key::L), 4, "Missing"),
        (ProfileFault::Technique, 5, "Technique"),
        (ProfileFault::Width, 6, "Width"),
        (ProfileFault::SmallK, 7, "SmallK"),
        (ProfileFault::SmallM, 8, "SmallM"),
        (ProfileFault::TooMany, 9, "TooMany"),
        (ProfileFault::Divides, 10, "Divides"),
        (ProfileFault::LayerLength, 11, "LayerLength"),
        (ProfileFault::LayerInput, 12, "LayerInput"),
        (ProfileFault::LayerOutput, 13, "LayerOutput"),
        (ProfileFault::Unit, 14, "Unit"),
        (ProfileFault::MinSize, 15, "MinSize"),
        (ProfileFault::Order, 16, "Order"),
        (ProfileFault::Json, 17, "Json"),
        (ProfileFault::Setting, 18, "Setting"),
    ];
    for (fault, number, name) in &rows {
        assert!(rt; is_printed(rt.alloc(), fault, *number, name)?, "at {name}");
    }
    Ok(())
}

/// Whether a fault that carries a key is printed without it.
fn keeps_key_back(alloc: Global) -> Result<bool, Fail> {
    let unknown = ProfileFault::UnknownKey(Bytes::from_slice(alloc, b"q")?);
    is_printed(alloc, &unknown, 2, "UnknownKey")
}

fn keeps_value_back(alloc: Global) -> Result<bool, Fail> {
    let bad = ProfileFault::BadValue(Bytes::from_slice(alloc, b"q")?);
    is_printed(alloc, &bad, 3, "BadValue")
}

#[test]
fn a_fault_is_printed_without_its_key(rt: HostRuntime) -> Result<(), Fail> {
    assert!(rt; keeps_key_back(rt.alloc())? && keeps_value_back(rt.alloc())?);
    Ok(())
}
