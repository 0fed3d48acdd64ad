//! Frames of windows, as they are written.

#[derive(Clone, Copy, Debug, PartialEq, Eq)]
pub enum FrameMode {
    Rows,
    Range,
    Groups,
}

#[derive(Clone, Copy, Debug, PartialEq, Eq)]
pub enum Bound {
    UnboundedPreceding,
    Preceding(u64),
    CurrentRow,
    Following(u64),
    UnboundedFollowing,
}

/// A start alone, or `BETWEEN` a start `AND` an end.
#[derive(Clone, Copy, Debug, PartialEq, Eq)]
pub enum Extent {
    Start(Bound),
    Between(Bound, Bound),
}

/// The rows that `EXCLUDE` takes out of a frame.
#[derive(Clone, Copy, Debug, PartialEq, Eq)]
pub enum Exclusion {
    CurrentRow,
    Group,
    Ties,
    NoOthers,
}

#[derive(Clone, Copy, Debug, PartialEq, Eq)]
pub struct Frame {
    pub mode: FrameMode,
    pub extent: Extent,
    /// `None` where `EXCLUDE` is not written.
    pub exclusion: Option<Exclusion>,
}
