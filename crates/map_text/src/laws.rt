//! What holds of each MAP's lines.

ghost use Rattle.map_text.specs.Columns.{LinesFit};

/// No line of a MAP is longer than 100 columns.
pub fn lines_fit()
    ensures { LinesFit }
{}
