//! Why a profile is refused.
ghost use Rattle.std.specs.Prelude.{◌≡◌};
ghost use Rattle.std.specs.Option.{option_map};
ghost use Rattle.ec_code.specs.Faults.{number_of, fault_name_of, key_name_of, carried_key};

use ec_words::Bytes;
use thiserror::Error;

/// A key of a profile that a code can miss.
#[derive(Clone, Copy, Debug, PartialEq, Eq)]
pub enum Key {
    K,
    M,
    C,
    L,
    Technique,
    Mapping,
    Layers,
}

impl Key {
    /// The key as a profile writes it.
    pub fn name(self) -> &'static str
        ensures { result.now ≡ key_name_of self }
    {
        match self {
            Key::K => "k",
            Key::M => "m",
            Key::C => "c",
            Key::L => "l",
            Key::Technique => "technique",
            Key::Mapping => "mapping",
            Key::Layers => "layers",
        }
    }
}

/// Why a profile is refused. It is printed as its name, without the key that it carries.
#[derive(Debug, PartialEq, Eq, Drop, Error)]
pub enum ProfileFault {
    /// There is no such plugin.
    #[error("UnknownPlugin")]
    UnknownPlugin,
    /// The plugin has no such key.
    #[error("UnknownKey")]
    UnknownKey(Bytes),
    /// The value of this key does not have its form.
    #[error("BadValue")]
    BadValue(Bytes),
    /// A key that the plugin needs is not there.
    #[error("Missing")]
    Missing(Key),
    /// The technique is not the plugin's.
    #[error("Technique")]
    Technique,
    /// w is not 8.
    #[error("Width")]
    Width,
    /// There are too few data chunks.
    #[error("SmallK")]
    SmallK,
    /// There are too few coding chunks.
    #[error("SmallM")]
    SmallM,
    /// There are too many chunks.
    #[error("TooMany")]
    TooMany,
    /// l does not divide the numbers that it has to divide.
    #[error("Divides")]
    Divides,
    /// A layer is not as long as the mapping.
    #[error("LayerLength")]
    LayerLength,
    /// A layer has too few inputs, or an input that is not made before it.
    #[error("LayerInput")]
    LayerInput,
    /// A layer has no output, or an output that is made already; or no layer makes some position.
    #[error("LayerOutput")]
    LayerOutput,
    /// The stripe unit is not a multiple of 32 from 32 to 65,536.
    #[error("Unit")]
    Unit,
    /// min_size is out of its range.
    #[error("MinSize")]
    MinSize,
    /// It is not so that c ≤ m ≤ k.
    #[error("Order")]
    Order,
    /// The text is not JSON, or is no object.
    #[error("Json")]
    Json,
    /// A piece of the text is no setting.
    #[error("Setting")]
    Setting,
}

impl ProfileFault {
    /// The number that is printed before the name.
    pub fn number(&self) -> u8
        ensures { result ≡ number_of self.now }
    {
        match self {
            ProfileFault::UnknownPlugin => 1,
            ProfileFault::UnknownKey(_) => 2,
            ProfileFault::BadValue(_) => 3,
            ProfileFault::Missing(_) => 4,
            ProfileFault::Technique => 5,
            ProfileFault::Width => 6,
            ProfileFault::SmallK => 7,
            ProfileFault::SmallM => 8,
            ProfileFault::TooMany => 9,
            ProfileFault::Divides => 10,
            ProfileFault::LayerLength => 11,
            ProfileFault::LayerInput => 12,
            ProfileFault::LayerOutput => 13,
            ProfileFault::Unit => 14,
            ProfileFault::MinSize => 15,
            ProfileFault::Order => 16,
            ProfileFault::Json => 17,
            ProfileFault::Setting => 18,
        }
    }

    /// The name that is printed. `Display` writes it too.
    pub fn name(&self) -> &'static str
        ensures { result.now ≡ fault_name_of self.now }
    {
        match self {
            ProfileFault::UnknownPlugin => "UnknownPlugin",
            ProfileFault::UnknownKey(_) => "UnknownKey",
            ProfileFault::BadValue(_) => "BadValue",
            ProfileFault::Missing(_) => "Missing",
            ProfileFault::Technique => "Technique",
            ProfileFault::Width => "Width",
            ProfileFault::SmallK => "SmallK",
            ProfileFault::SmallM => "SmallM",
            ProfileFault::TooMany => "TooMany",
            ProfileFault::Divides => "Divides",
            ProfileFault::LayerLength => "LayerLength",
            ProfileFault::LayerInput => "LayerInput",
            ProfileFault::LayerOutput => "LayerOutput",
            ProfileFault::Unit => "Unit",
            ProfileFault::MinSize => "MinSize",
            ProfileFault::Order => "Order",
            ProfileFault::Json => "Json",
            ProfileFault::Setting => "Setting",
        }
    }
}

impl ProfileFault {
    /// The key that is printed behind the name, if the fault carries one.
    pub fn key(&self) -> Option<&[u8]>
        ensures { option_map (λ key. key.now) result ≡ carried_key self.now }
    {
        match self {
            ProfileFault::UnknownKey(key) => Some(key.as_slice()),
            ProfileFault::BadValue(key) => Some(key.as_slice()),
            ProfileFault::Missing(key) => Some(key.name().as_bytes()),
            _ => None,
        }
    }
}
