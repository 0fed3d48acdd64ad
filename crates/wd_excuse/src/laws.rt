//! Laws of remarks.

ghost use Rattle.wd_excuse.specs.Remarks.{HasOneRemark};

/// A statement's text has at most one remark.
pub fn has_one_remark()
    ensures { HasOneRemark }
{}
