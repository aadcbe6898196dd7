//! How the line tables of a version are coded.
ghost use Rattle.std.specs.Prelude.{◌≡◌};
ghost use Rattle.frame_lines.specs.Forms.{form_by, form_of, is_before_3_6};

use py_fields::{Layout, Lines};

/// How a line table is coded.
#[derive(Clone, Copy, Debug, PartialEq, Eq)]
pub enum TableForm {
    /// Up to 3.5: pairs of a length of code and an unsigned step of the line behind it.
    UnsignedPairs,
    /// From 3.6 to 3.9: pairs of a length of code and a signed step of the line behind it.
    Pairs,
    /// 3.10: pairs of a length of code and a signed step of the line in front of it; -128 says that there is no line.
    Ranges,
    /// From 3.11 on: locations, of one byte and more, whose first byte says what else they have.
    Locations,
}

/// Whether a layout is of versions before 3.6.
fn is_before_3_6(layout: &Layout) -> bool
    ensures { result ≡ is_before_3_6 layout.now }
{
    layout.major < 3 || layout.major == 3 && layout.last_minor < 6
}

/// The form of a layout's line tables: pairs have unsigned steps where its versions are before 3.6.
#[tactic(auto, unfolding(crate::specs::Forms::form_of))]
pub fn form_of(layout: &Layout) -> TableForm
    ensures { result ≡ form_of layout.now }
{
    match layout.lines {
        Lines::Pairs if is_before_3_6(layout) => TableForm::UnsignedPairs,
        Lines::Pairs => TableForm::Pairs,
        Lines::Ranges => TableForm::Ranges,
        Lines::Locations => TableForm::Locations,
    }
}
