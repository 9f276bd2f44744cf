//! Items of a stream.

use std::alloc::Global;
use std::marker::Model;

/// The bytes of an object.
#[derive(Debug, Drop)]
pub struct ObjectBytes {
    bytes: Vec<u8>,
}

impl Model for ObjectBytes {
    ghost use Rattle.std.specs.Prelude.{List, ℕ};

    ghost Value = { List ℕ };

    ghost view = { λ o. o.bytes.items };
}

impl ObjectBytes {
    ghost use Rattle.std.specs.Prelude.{◌≡◌};

    /// The bytes of a vector. It takes no memory.
    pub(crate) fn from_vec(bytes: Vec<u8>) -> ObjectBytes
        ensures { result ≡ bytes.items }
    {
        ObjectBytes { bytes }
    }

    /// The bytes as a slice. It takes no memory.
    pub fn as_slice(&self) -> &[u8]
        ensures { result.now ≡ self.now }
    {
        self.bytes.as_slice()
    }

    /// The bytes as a vector. It takes no memory.
    fn into_vec(self) -> Vec<u8> {
        self.bytes
    }
}

/// What a stretch of a stream is.
#[derive(Debug, Drop)]
pub enum Item {
    /// The bytes of an object, from its opening brace to its closing one. They may still be no JSON.
    Object(ObjectBytes),
    /// Bytes outside an object; the rest of the line is passed over.
    Junk,
    /// An object that was broken off by a byte that no JSON has.
    Broken,
    /// An object of more than `MESSAGE_MAX` bytes; the rest of the line is passed over.
    TooLong,
    /// An object nested deeper than `NESTING_MAX`; the rest of the line is passed over.
    TooDeep,
}

impl Item {
    /// The memory of an item, with any bytes. It takes no memory.
    pub(crate) fn into_room(self, alloc: Global) -> Vec<u8> {
        match self {
            Item::Object(object) => object.into_vec(),
            Item::Junk | Item::Broken | Item::TooLong | Item::TooDeep => Vec::new(alloc),
        }
    }
}
