ghost use Rattle.std.specs.Prelude.{◌≡◌};
ghost use Rattle.wd_plan.specs.Frames.{is_stable, is_unbounded};
ghost use Rattle.wd_plan.specs.Settled.{is_by_peers};

use crate::function::{ByPeers, Function};
use wd_value::SortColumn;

/// Partition columns and sort keys; all calls of one class use the same ordering.
#[derive(Debug, Drop)]
pub struct Class {
    pub partition: Vec<u16>,
    pub order: Vec<SortColumn>,
}

/// What the bounds of a frame count.
#[derive(Clone, Copy, PartialEq, Eq, Debug)]
pub enum FrameMode {
    Rows,
    Range,
    Groups,
}

/// A bound of a frame, in the order in which bounds may follow one another.
#[derive(Clone, Copy, PartialEq, Eq, Debug)]
pub enum Bound {
    UnboundedPreceding,
    Preceding(u64),
    CurrentRow,
    Following(u64),
    UnboundedFollowing,
}

/// Which rows within its bounds a frame leaves out.
#[derive(Clone, Copy, PartialEq, Eq, Debug)]
pub enum Exclusion {
    NoOthers,
    CurrentRow,
    Group,
    Ties,
}

/// The frame of a window call.
#[derive(Clone, Copy, PartialEq, Eq, Debug)]
pub struct Frame {
    pub mode: FrameMode,
    pub start: Bound,
    pub end: Bound,
    pub exclusion: Exclusion,
}

/// A window call: the number of its class, its function, and its frame, which ranking functions ignore.
#[derive(Debug, Drop)]
pub struct Call {
    pub class: u16,
    pub function: Function,
    pub frame: Frame,
}

/// What a Window computes: classes, and calls that each name a class by its number.
#[derive(Debug, Drop)]
pub struct Window {
    pub classes: Vec<Class>,
    pub calls: Vec<Call>,
}

impl Frame {
    /// Whether the frame has the same rows for all rows that are peers, whatever the order of these: mode RANGE or GROUPS, or ROWS
    /// between both unbounded ends, with any exclusion.
    pub fn is_stable(self) -> bool
        ensures { result ≡ is_stable self }
    {
        match self.mode {
            FrameMode::Range | FrameMode::Groups => true,
            FrameMode::Rows => self.start.is_unbounded() && self.end.is_unbounded(),
        }
    }
}

impl Bound {
    fn is_unbounded(self) -> bool
        ensures { result ≡ is_unbounded self }
    {
        match self {
            Bound::UnboundedPreceding | Bound::UnboundedFollowing => true,
            _ => false,
        }
    }
}

impl Call {
    /// Whether the call has one value for all rows that are peers, whatever the order of these.
    pub fn is_by_peers(&self) -> bool
        ensures { result ≡ is_by_peers self.now.frame self.now.function }
    {
        match self.function.name().signature().by_peers {
            ByPeers::Never => false,
            ByPeers::Always => true,
            ByPeers::OverStableFrames => self.frame.is_stable(),
        }
    }
}
