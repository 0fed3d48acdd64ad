//! Laws of annotations.

ghost use Rattle.wd_formats.specs.Annotations.{PartsStayOnTheirLine};

/// What is put into a part of a command ends no line, whatever text it comes from.
pub fn parts_stay_on_their_line()
    ensures { PartsStayOnTheirLine }
{}
