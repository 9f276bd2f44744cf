//! What holds of the definitions alone: how lines are spelled.

ghost use Rattle.qo_guest.specs.Spellings.{AddressesAreSpelled, LinesAreSpelled, NumbersAreSpelled, ValuesAreReadBack};

/// A word is read as a number exactly where it is the number's decimal digits.
pub fn law_numbers()
    ensures { NumbersAreSpelled }
{}

/// A word is read as an address exactly where it is the address's text.
pub fn law_addresses()
    ensures { AddressesAreSpelled }
{}

/// A line is read as an act exactly where it has at most `GUEST_LINE_MAX` bytes and spells it.
pub fn law_lines()
    ensures { LinesAreSpelled }
{}

/// The digits of an answered value are those of the value.
pub fn law_values()
    ensures { ValuesAreReadBack }
{}
