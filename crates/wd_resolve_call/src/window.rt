//! Windows: their partition and order, their frame, and what they copy.

ghost use Rattle.std.specs.Prelude.{◌≡◌, map, option_map, IfOk};
ghost use Rattle.wd_resolve_call.specs.Rows.{row_expression_of};
ghost use Rattle.wd_resolve_operand.specs.Causes.{Gives};
ghost use Rattle.wd_resolve_call.specs.Windows.{key_of, window_of, known_of};
ghost use Rattle.wd_resolve_call.specs.Windows as spec;

use crate::row::RowReference;
use std::alloc::Global;
use std::rc::Rc;
use wd_plan::{Bound, Exclusion, Frame, FrameMode, ValueKind, are_bounds, same_kind};
use wd_resolve_operand::{BoundExpression, Cause, ResolveError, number};
use wd_syntax as written;
use wd_syntax::{Extent, Name, NullsPlace, SortDirection};
use wd_value::{OutOfMemory, SortKey, Text};

/// An expression to sort by, the kind of its values, and how they are sorted.
#[derive(Drop)]
pub struct OrderKey {
    pub expression: BoundExpression<RowReference>,
    pub kind: ValueKind,
    pub key: SortKey,
}

/// A window. Windows that copy one another share their lists.
#[derive(Drop)]
pub struct Window {
    pub partition: Rc<Vec<BoundExpression<RowReference>>>,
    pub order: Rc<Vec<OrderKey>>,
    pub frame: Frame,
    /// Whether the frame is written.
    pub framed: bool,
}

/// A window of a WINDOW clause.
#[derive(Drop)]
pub struct KnownWindow {
    pub name: Text,
    pub window: Window,
}

/// The frame of a window without a frame clause.
const DEFAULT_FRAME: Frame = Frame {
    mode: FrameMode::Range,
    start: Bound::UnboundedPreceding,
    end: Bound::CurrentRow,
    exclusion: Exclusion::NoOthers,
};

impl Window {
    /// An equal window that shares the lists.
    pub fn share(&self) -> Result<Window, OutOfMemory>
        ensures { IfOk result (λ w. window_of w ≡ window_of self.now) }
    {
        Ok(Window {
            partition: self.partition.clone()?,
            order: self.order.clone()?,
            frame: self.frame,
            framed: self.framed,
        })
    }
}

/// How the values of a sort key are sorted: NULLs come last ascending and first descending where they are not placed.
pub fn sort_key(direction: Option<SortDirection>, nulls: Option<NullsPlace>) -> SortKey
    ensures { result ≡ spec.sort_key direction nulls }
{
    let desc = match direction {
        None | Some(SortDirection::Ascending) => false,
        Some(SortDirection::Descending) => true,
    };
    let nulls_first = match nulls {
        None => desc,
        Some(NullsPlace::First) => true,
        Some(NullsPlace::Last) => false,
    };
    SortKey { desc, nulls_first }
}

fn resolve_mode(mode: written::FrameMode) -> FrameMode
    ensures { result ≡ spec.mode_meant mode }
{
    match mode {
        written::FrameMode::Rows => FrameMode::Rows,
        written::FrameMode::Range => FrameMode::Range,
        written::FrameMode::Groups => FrameMode::Groups,
    }
}

fn resolve_bound(bound: written::Bound) -> Result<Bound, ResolveError>
    ensures { Gives (λ b. b) result (spec.bound_meant bound) }
{
    match bound {
        written::Bound::UnboundedPreceding => Ok(Bound::UnboundedPreceding),
        written::Bound::Preceding(n) => Ok(Bound::Preceding(number(n)?)),
        written::Bound::CurrentRow => Ok(Bound::CurrentRow),
        written::Bound::Following(n) => Ok(Bound::Following(number(n)?)),
        written::Bound::UnboundedFollowing => Ok(Bound::UnboundedFollowing),
    }
}

/// The two bounds; an omitted end is CURRENT ROW.
fn resolve_ends(extent: Extent) -> Result<(Bound, Bound), ResolveError>
    ensures { Gives (λ ends. ends) result (spec.ends_meant extent) }
{
    match extent {
        Extent::Start(start) => Ok((resolve_bound(start)?, Bound::CurrentRow)),
        Extent::Between(start, end) => {
            let start = resolve_bound(start)?;
            Ok((start, resolve_bound(end)?))
        }
    }
}

fn resolve_exclusion(exclusion: Option<written::Exclusion>) -> Exclusion
    ensures { result ≡ spec.exclusion_meant exclusion }
{
    match exclusion {
        None | Some(written::Exclusion::NoOthers) => Exclusion::NoOthers,
        Some(written::Exclusion::CurrentRow) => Exclusion::CurrentRow,
        Some(written::Exclusion::Group) => Exclusion::Group,
        Some(written::Exclusion::Ties) => Exclusion::Ties,
    }
}

fn resolve_frame(frame: Option<written::Frame>) -> Result<Frame, ResolveError>
    ensures { Gives (λ f. f) result (spec.frame_meant frame) }
{
    let Some(frame) = frame else {
        return Ok(DEFAULT_FRAME);
    };
    let (start, end) = resolve_ends(frame.extent)?;
    Ok(Frame {
        mode: resolve_mode(frame.mode),
        start,
        end,
        exclusion: resolve_exclusion(frame.exclusion),
    })
}

/// Whether there is exactly one sort key, of whole numbers.
fn is_one_number(order: &[OrderKey]) -> bool
    ensures { result ≡ spec.is_one_number (map key_of order.now) }
{
    order.len() == 1 && same_kind(ValueKind::Number, order[0].kind)
}

/// The frame over these sort keys; 409, 410 or 411 where they don't allow it.
fn frame_over(order: &[OrderKey], frame: Frame) -> Result<Frame, ResolveError>
    ensures { Gives (λ f. f) result (spec.frame_over (map key_of order.now) frame) }
{
    if !are_bounds(frame.start, frame.end) {
        return Err(ResolveError::Refused(Cause::FrameBounds));
    }
    match frame.mode {
        FrameMode::Rows => Ok(frame),
        FrameMode::Range => {
            let has_offset = frame.start.has_offset() || frame.end.has_offset();
            if has_offset && !is_one_number(order) {
                Err(ResolveError::Refused(Cause::RangeOffset))
            } else {
                Ok(frame)
            }
        }
        FrameMode::Groups => if order.is_empty() {
            Err(ResolveError::Refused(Cause::GroupsWithoutOrder))
        } else {
            Ok(frame)
        },
    }
}

/// The order of a window that copies another: only one of the two may have an order.
fn copy_order(
    alloc: Global,
    base: &Rc<Vec<OrderKey>>,
    order: Vec<OrderKey>,
) -> Result<Rc<Vec<OrderKey>>, ResolveError>
    ensures { Gives (λ keys. map key_of keys.value.items) result (spec.order_copied (map key_of base.now.value.items) (map key_of order.items)) }
{
    if order.is_empty() {
        return Ok(base.clone()?);
    }
    if base.is_empty() {
        Ok(Rc::new(alloc, order)?)
    } else {
        Err(ResolveError::Refused(Cause::WindowCopy))
    }
}

/// The lists of a window together with those of the window that it copies.
fn copy_window(
    alloc: Global,
    base: Option<&Window>,
    partition: Vec<BoundExpression<RowReference>>,
    order: Vec<OrderKey>,
) -> Result<(Rc<Vec<BoundExpression<RowReference>>>, Rc<Vec<OrderKey>>), ResolveError>
    ensures { Gives (λ lists. (map row_expression_of lists.0.value.items, map key_of lists.1.value.items)) result (spec.copied (option_map (λ w. window_of w.now) base.entry) (map row_expression_of partition.items) (map key_of order.items)) }
{
    let Some(base) = base else {
        return Ok((Rc::new(alloc, partition)?, Rc::new(alloc, order)?));
    };
    if base.framed || !partition.is_empty() {
        return Err(ResolveError::Refused(Cause::WindowCopy));
    }
    let order = copy_order(alloc, &base.order, order)?;
    Ok((base.partition.clone()?, order))
}

/// The window from the one that it copies, its own partition and order, and its frame.
pub fn resolve_window(
    alloc: Global,
    base: Option<&Window>,
    partition: Vec<BoundExpression<RowReference>>,
    order: Vec<OrderKey>,
    frame: Option<written::Frame>,
) -> Result<Window, ResolveError>
    ensures { Gives window_of result (spec.window_meant (option_map (λ w. window_of w.now) base.entry) (map row_expression_of partition.items) (map key_of order.items) frame) }
{
    let framed = frame.is_some();
    let frame = resolve_frame(frame)?;
    let (partition, order) = copy_window(alloc, base, partition, order)?;
    let frame = frame_over(&order, frame)?;
    Ok(Window {
        partition,
        order,
        frame,
        framed,
    })
}

/// The window of that name; 407 where there is none.
pub fn find_window<'a>(windows: &'a [KnownWindow], name: &Text) -> Result<&'a Window, ResolveError>
    ensures { Gives (λ w. window_of w.now) result (spec.window_named (map known_of windows.now) name.now) }
{
    for known in windows {
        if known.name.as_str() == name.as_str() {
            return Ok(&known.window);
        }
    }
    Err(ResolveError::Refused(Cause::UnknownWindow))
}

/// The window that the name before a window's own clauses stands for.
pub fn find_base<'a>(
    windows: &'a [KnownWindow],
    base: &Option<Name>,
) -> Result<Option<&'a Window>, ResolveError>
    ensures { Gives (λ base. option_map (λ w. window_of w.now) base) result (spec.base_named (map known_of windows.now) (option_map (λ n. n.text) base.now)) }
{
    match base {
        Some(name) => Ok(Some(find_window(windows, &name.text)?)),
        None => Ok(None),
    }
}
