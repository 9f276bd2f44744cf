//! The shape of a board's objects: each has the slots that its type says, with values and links of
//! their rows, and registers of its type's body. And what belongs to whom: what stands in `/objects`,
//! who has a path that is kept, and which objects are containers. Functions without effect, whose
//! contracts say what keeps it so. The definitions stand in `specs/`.
#![tactic(auto)]

ghost use Rattle.qo_sound_shapes.specs.OwnersKept.{OwnersKeptLaw};
ghost use Rattle.qo_sound_shapes.specs.ShapesKept.{ShapesKeptLaw};
ghost use Rattle.qo_sound_shapes.specs.ShapeFacts.{ShapesSayLaw};

/// The objects of a board are shaped as their types say on the opening board. They are so after what
/// changes no object, after acts and holds, after a write of a clock that is not refused, and after
/// other registers of an object's own body, as a guest's write leaves them. Where the board is sound
/// as far as devices go, they are so after each command on objects, after a device that is added or
/// refused at any stage, after one that is detached, and after the reset of the whole board.
#[tactic(auto, using(crate::proofs::LawLemmas::shapes_kept_lem))]
pub fn law_shapes_kept()
    ensures { ShapesKeptLaw }
{}

/// On a board whose objects are shaped as their types say, what an object has under the name of a
/// property of its type is as the property's row says; and a device that stands in a container has
/// something there. A clock's period, mul and div are numbers, and so is the size of a memory backend.
/// No strong link of a bus is empty.
#[tactic(auto, using(crate::proofs::FactLemmas::shapes_say_lem))]
pub fn law_shapes_say()
    ensures { ShapesSayLaw }
{}

/// The owners of a board are sound on the opening board. They are so after what changes no object,
/// after acts and holds, after a write of a clock that is not refused, and after other registers of
/// an object. Where the board is sound as far as devices go, they are so after each command on
/// objects, after a device that is added or refused at any stage, after one that is detached, and
/// after the reset of the whole board.
#[tactic(auto, using(crate::proofs::OwnersLawLemmas::owners_kept_lem))]
pub fn law_owners_kept()
    ensures { OwnersKeptLaw }
{}
