//! What follows from the definitions: functions without effect, whose contracts are the laws.

ghost use Rattle.qo_save.specs.Rows.{RowsLaw};
ghost use Rattle.qo_save.specs.Texts.{DescriptionsReadBack, TextsReadBack, ValuesReadBack};

/// The worked rows. The opening board, and a board with a UART that has a ring and is linked to itself,
/// have their descriptions, which are rebuilt to boards that are like them and have the same
/// descriptions. Without its ring the second is refused, and while the UART is to go it has none.
#[tactic(auto, using(crate::proofs::RowsLemmas::rows_lem))]
pub fn law_rows()
    ensures { RowsLaw }
{}

/// A text in quotes, sent in ASCII, is read back.
#[tactic(auto, using(crate::proofs::StringLemmas::texts_lem))]
pub fn law_texts()
    ensures { TextsReadBack }
{}

/// A JSON value is read back from what is sent for it: where its texts are in UTF-8, its numbers whole
/// and of 64 bits, with a sign below 0 alone, the names of each object rise, and it is no deeper than a
/// text may be.
#[tactic(auto, using(crate::proofs::ValueLemmas::values_lem))]
pub fn law_values()
    ensures { ValuesReadBack }
{}

/// A description is read back from its text, where its numbers are of 64 bits, its texts in UTF-8, and
/// its properties stand in byte order, each with a value, and none of them is a slot.
#[tactic(auto, using(crate::proofs::DescriptionLemmas::descriptions_lem))]
pub fn law_descriptions()
    ensures { DescriptionsReadBack }
{}
