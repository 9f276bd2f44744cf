//! What is kept of the view of a board (docs/devel/memory.rst, "Visibility").

ghost use Rattle.qo_commands.specs.KeptViews.{HasView};
ghost use Rattle.qo_realize.specs.Parts.{Parts};

use qo_layout::KeptView;

/// Nothing is kept so far, whatever the board is. It takes no memory.
pub fn no_view() -> KeptView
    ensures { (p : Parts) → HasView p result }
{
    KeptView::none()
}
