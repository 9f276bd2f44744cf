//! The error codes of the profile: the texts and classes of error replies.

ghost use Rattle.std.specs.Prelude.{◌≡◌};
ghost use Rattle.qo_values.specs.Codes.{description_of, class_of, class_name};

/// The code of an error reply. What a reply shows is `description`; when each code comes is said
/// at the calls that give it.
#[derive(Clone, Copy, Debug, PartialEq, Eq)]
pub enum Code {
    /// Not JSON.
    E1,
    /// Input outside an object.
    E2,
    /// Object broken off.
    E3,
    /// Object too long.
    E4,
    /// Object nested too deep.
    E5,
    /// Not a command.
    E6,
    /// Number not whole in 64 bits.
    E7,
    /// Negotiation expected.
    E8,
    /// Negotiation already done.
    E9,
    /// Unknown command.
    E10,
    /// Capability not offered.
    E11,
    /// Argument missing.
    E12,
    /// Argument unexpected.
    E13,
    /// Argument of wrong type.
    E14,
    /// Path not found.
    E15,
    /// Path ambiguous.
    E16,
    /// Property not found.
    E17,
    /// Property not writable.
    E18,
    /// Value does not fit.
    E19,
    /// Type unknown.
    E20,
    /// Type abstract.
    E21,
    /// Type not creatable here.
    E22,
    /// Id malformed.
    E23,
    /// Id taken.
    E24,
    /// Bus not found.
    E25,
    /// Bus of another kind.
    E26,
    /// Bus not pluggable.
    E27,
    /// Slot out of range.
    E28,
    /// Slot taken.
    E29,
    /// Bus full.
    E30,
    /// Link target of wrong type.
    E31,
    /// Object in use.
    E32,
    /// Device not found.
    E33,
    /// Removal pending.
    E34,
    /// Device not removable.
    E35,
    /// Ring not found.
    E36,
    /// Ring claimed.
    E37,
    /// Memory backend missing.
    E38,
    /// Memory backend claimed.
    E39,
    /// Memory range taken or outside.
    E40,
    /// No memory gap.
    E41,
    /// Bridge too deep.
    E42,
    /// Too many objects.
    E43,
    /// Notices full.
    E44,
    /// Clock has a source.
    E45,
    /// Divider is 0.
    E46,
    /// Period overflow.
    E47,
    /// Reset depth.
    E48,
    /// No such hold.
    E49,
    /// Object not detached.
    E50,
    /// Ring size not a power of two.
    E51,
    /// Bytes not ASCII.
    E52,
    /// Virtual time too large.
    E53,
    /// Guest line unreadable.
    E54,
    /// Out of memory.
    E99,
}

/// The class of an error reply (QMP specification, 2.4.2 "error").
#[derive(Clone, Copy, Debug, PartialEq, Eq)]
pub enum Class {
    /// An unknown command, or one that the session's mode does not have.
    CommandNotFound,
    /// A path or a device that is not there.
    DeviceNotFound,
    /// Everything else.
    GenericError,
}

impl Code {
    /// The text of `desc` in an error reply: the code, a space and what it means.
    pub fn description(self) -> &'static str
        ensures { result.now ≡ description_of self }
    {
        match self {
            Code::E1 => "E1 not JSON",
            Code::E2 => "E2 input outside an object",
            Code::E3 => "E3 object broken off",
            Code::E4 => "E4 object too long",
            Code::E5 => "E5 object nested too deep",
            Code::E6 => "E6 not a command",
            Code::E7 => "E7 number not whole in 64 bits",
            Code::E8 => "E8 negotiation expected",
            Code::E9 => "E9 negotiation already done",
            Code::E10 => "E10 unknown command",
            Code::E11 => "E11 capability not offered",
            Code::E12 => "E12 argument missing",
            Code::E13 => "E13 argument unexpected",
            Code::E14 => "E14 argument of wrong type",
            Code::E15 => "E15 path not found",
            Code::E16 => "E16 path ambiguous",
            Code::E17 => "E17 property not found",
            Code::E18 => "E18 property not writable",
            Code::E19 => "E19 value does not fit",
            Code::E20 => "E20 type unknown",
            Code::E21 => "E21 type abstract",
            Code::E22 => "E22 type not creatable here",
            Code::E23 => "E23 id malformed",
            Code::E24 => "E24 id taken",
            Code::E25 => "E25 bus not found",
            Code::E26 => "E26 bus of another kind",
            Code::E27 => "E27 bus not pluggable",
            Code::E28 => "E28 slot out of range",
            Code::E29 => "E29 slot taken",
            Code::E30 => "E30 bus full",
            Code::E31 => "E31 link target of wrong type",
            Code::E32 => "E32 object in use",
            Code::E33 => "E33 device not found",
            Code::E34 => "E34 removal pending",
            Code::E35 => "E35 device not removable",
            Code::E36 => "E36 ring not found",
            Code::E37 => "E37 ring claimed",
            Code::E38 => "E38 memory backend missing",
            Code::E39 => "E39 memory backend claimed",
            Code::E40 => "E40 memory range taken or outside",
            Code::E41 => "E41 no memory gap",
            Code::E42 => "E42 bridge too deep",
            Code::E43 => "E43 too many objects",
            Code::E44 => "E44 notices full",
            Code::E45 => "E45 clock has a source",
            Code::E46 => "E46 divider is 0",
            Code::E47 => "E47 period overflow",
            Code::E48 => "E48 reset depth",
            Code::E49 => "E49 no such hold",
            Code::E50 => "E50 object not detached",
            Code::E51 => "E51 ring size not a power of two",
            Code::E52 => "E52 bytes not ASCII",
            Code::E53 => "E53 virtual time too large",
            Code::E54 => "E54 guest line unreadable",
            Code::E99 => "E99 out of memory",
        }
    }

    /// The class that an error reply gives with this code.
    pub fn class(self) -> Class
        ensures { result ≡ class_of self }
    {
        match self {
            Code::E8 | Code::E9 | Code::E10 => Class::CommandNotFound,
            Code::E15 | Code::E33 => Class::DeviceNotFound,
            _ => Class::GenericError,
        }
    }
}

impl Class {
    /// The class's name, as a reply spells it.
    pub fn name(self) -> &'static str
        ensures { result.now ≡ class_name self }
    {
        match self {
            Class::CommandNotFound => "CommandNotFound",
            Class::DeviceNotFound => "DeviceNotFound",
            Class::GenericError => "GenericError",
        }
    }
}
