//! The values that every layer speaks of: names and texts, ids, error codes, property values and
//! their types, the type and act names of the object model, and the limits of the profile.
#![tactic(auto)]

mod births;
mod codes;
mod forms;
mod ids;
mod kinds;
pub mod laws;
mod limits;
mod names;
mod plain;
mod properties;
mod ranges;
mod type_texts;

pub use births::{
    ANONYMOUS_BIRTH, MACHINE_BIRTH, MEMORY_BUS_BIRTH, OBJECTS_BIRTH, OPENING_OBJECTS,
    PERIPHERAL_BIRTH, ROOT_BIRTH, ROOT_BUS_BIRTH, SYSTEM_CLOCK_BIRTH,
};
pub use codes::{Class, Code};
pub use forms::Form;
pub use ids::{Id, IdError};
pub use kinds::{Act, ResetKind, TypeId};
pub use limits::{
    ASK_AGAIN_AFTER, BACKEND_SIZE_AT_FIRST, BACKEND_SIZE_MAX, BUS_DEPTH_MAX, BUS_SLOTS, COUNT_MAX,
    DIMM_ALIGN, GUEST_LINE_MAX, HOLD_COUNT_MAX, ID_MAX, INPUTS_MAX, LIVE_OBJECTS_MAX, MESSAGE_MAX,
    NAME_MAX, NESTING_MAX, NOTES_KEPT, NOTES_PER_REPLY, NOTICES_MAX, RELOAD_AT_FIRST,
    RING_SIZE_MAX, SESSIONS, SYSTEM_PERIOD, TIME_MAX, UNITS_PER_NS,
};
pub use names::{Chars, Name, Text, TextList};
pub use plain::{FromJson, from_json, to_json};
pub use properties::{Misfit, PropList, PropType, PushError, Val};
pub use ranges::Range;
pub use type_texts::TypeText;
