//! The names that a query gives in so many brackets, each with what it counts: an item's name counts what the item's operand does, the name
//! of a call what the call does; names of tables count nothing. The operand of an item is measured where it begins; its tokens are
//! counted off, and a name right after them is the item's.

ghost use Rattle.std.specs.Prelude.{◌≡◌, ◌++◌, ◌+◌, ◌≤◌, map, true, IfOk};
ghost use Rattle.wd_amounts.specs.Names as spec;
ghost use Rattle.wd_amounts.specs.Names.{current_operand, has_ended, is_at, level_uses, operand_unit, text_if, use_first, use_here, uses_of};
ghost use Rattle.wd_amounts.specs.Seen.{known_seen, use_seen};
ghost use Rattle.wd_amounts.specs.Terms.{unit_of};

use crate::known::KnownNames;
use crate::names::name_text;
use crate::operand::unit_of;
use crate::uses::NameUse;
use std::alloc::Global;
use wd_lex::{Token, TokenKind};
use wd_operands::{operand_length, primary_length};
use wd_units::{Unit, as_value, begins_bracket, begins_item, begins_query, depth_after, is_as};
use wd_value::OutOfMemory;

/// The operand of an item: how many of its tokens are to come, and what its values count.
#[derive(Clone, Copy)]
pub struct ItemOperand {
    pub tokens: usize,
    pub unit: Option<Unit>,
}

/// Where a token of a query stands.
#[derive(Clone, Copy)]
pub struct Scan {
    /// How many brackets are open.
    pub depth: usize,
    /// Whether an item begins here.
    pub begins: bool,
    /// The operand of the last item that has begun, until the tokens after it are no name.
    pub item: Option<ItemOperand>,
}

/// The operand at the start of an item, where that is no derived table.
fn item_operand(known: &KnownNames<Unit>, tokens: &[Token]) -> Option<ItemOperand>
    ensures { result ≡ spec.item_operand (unit_of (known_seen known.now)) tokens.now }
{
    let length = operand_length(tokens);
    if length == 0 || begins_query(tokens) {
        return None;
    }
    let (operand, _) = tokens.split_at(length);
    Some(ItemOperand {
        tokens: length,
        unit: as_value(unit_of(known, operand)),
    })
}

fn level_of(depth: usize) -> usize
    ensures { result ≡ spec.level_of depth }
{
    if depth < 64 { depth } else { 64 }
}

/// Whether a token stands in so many brackets.
fn is_at(level: usize, here: Scan) -> bool
    ensures { result ≡ is_at level here }
{
    level_of(here.depth) == level
}

/// The operand of the item that begins here, or of the last one.
fn current_operand(
    known: &KnownNames<Unit>,
    level: usize,
    here: Scan,
    tokens: &[Token],
) -> Option<ItemOperand>
    ensures { result ≡ current_operand (unit_of (known_seen known.now)) level here tokens.now }
{
    if is_at(level, here) && here.begins {
        item_operand(known, tokens)
    } else {
        here.item
    }
}

/// What is left of the operand after a token.
fn operand_after(kind: &TokenKind, found: Option<ItemOperand>) -> Option<ItemOperand>
    ensures { result ≡ spec.operand_after kind.now found }
{
    let ItemOperand { tokens, unit } = found?;
    if tokens > 0 {
        let tokens = tokens - 1;
        Some(ItemOperand { tokens, unit })
    } else if is_as(kind) {
        found
    } else {
        None
    }
}

/// Whether an operand has ended right before.
fn has_ended(found: Option<ItemOperand>) -> bool
    ensures { result ≡ has_ended found }
{
    match found {
        Some(found) => found.tokens == 0,
        None => false,
    }
}

fn operand_unit(found: Option<ItemOperand>) -> Option<Unit>
    ensures { result ≡ operand_unit found }
{
    match found {
        Some(found) => found.unit,
        None => None,
    }
}

/// Adds a name that counts this.
fn push_use<'t>(
    uses: &mut Vec<NameUse<'t, Unit>>,
    kind: &'t TokenKind,
    unit: Option<Unit>,
) -> Result<(), OutOfMemory>
    ensures { IfOk result (λ _. map use_seen uses.new.items ≡ map use_seen uses.old.items ++ uses_of unit (text_if true kind.now)) }
{
    if let Some(name) = name_text(kind) {
        uses.push(NameUse { name, value: unit })?;
    }
    Ok(())
}

/// What the call at the start counts.
fn call_unit(known: &KnownNames<Unit>, tokens: &[Token]) -> Option<Unit>
    ensures { result ≡ spec.call_unit (unit_of (known_seen known.now)) tokens.now }
{
    let (call, _) = tokens.split_at(primary_length(tokens));
    as_value(unit_of(known, call))
}

/// Adds the name that the first token gives.
#[tactic(auto, unfolding(crate::specs::Names::use_first))]
fn push_first<'t>(
    uses: &mut Vec<NameUse<'t, Unit>>,
    known: &KnownNames<Unit>,
    found: Option<ItemOperand>,
    tokens: &'t [Token],
) -> Result<(), OutOfMemory>
    ensures { IfOk result (λ _. map use_seen uses.new.items ≡ map use_seen uses.old.items ++ use_first (unit_of (known_seen known.now)) found tokens.now) }
{
    let [first, after @ ..] = tokens else {
        return Ok(());
    };
    if has_ended(found) {
        push_use(uses, &first.kind, operand_unit(found))
    } else if begins_bracket(after) {
        push_use(uses, &first.kind, call_unit(known, tokens))
    } else {
        Ok(())
    }
}

/// Adds the name that the first token gives, where it stands in so many brackets.
fn push_here<'t>(
    uses: &mut Vec<NameUse<'t, Unit>>,
    known: &KnownNames<Unit>,
    is_here: bool,
    found: Option<ItemOperand>,
    tokens: &'t [Token],
) -> Result<(), OutOfMemory>
    ensures { IfOk result (λ _. map use_seen uses.new.items ≡ map use_seen uses.old.items ++ use_here (unit_of (known_seen known.now)) is_here found tokens.now) }
{
    if is_here {
        push_first(uses, known, found, tokens)
    } else {
        Ok(())
    }
}

/// Where the token after this one stands.
fn scan_after(kind: &TokenKind, depth: usize, found: Option<ItemOperand>) -> Scan
    requires { depth ≤ 9223372036854775807 }
    ensures value { result ≡ spec.scan_after kind.now depth found }
    ensures within { result.depth ≤ depth + 1 }
{
    Scan {
        depth: depth_after(depth, kind),
        begins: begins_item(kind),
        item: operand_after(kind, found),
    }
}

/// The names that are given in so many brackets, where names are known to count so much.
#[tactic(auto, unfolding(crate::specs::Names::level_uses_from))]
pub(crate) fn level_uses<'t>(
    alloc: Global,
    known: &KnownNames<Unit>,
    level: usize,
    tokens: &'t [Token],
) -> Result<Vec<NameUse<'t, Unit>>, OutOfMemory>
    ensures { IfOk result (λ found. map use_seen found.items ≡ level_uses (unit_of (known_seen known.now)) level tokens.now) }
{
    let mut uses = Vec::new(alloc);
    let mut here = Scan {
        depth: 0,
        begins: false,
        item: None,
    };
    let mut rest = tokens;
    while let [first, after @ ..] = rest {
        let found = current_operand(known, level, here, rest);
        push_here(&mut uses, known, is_at(level, here), found, rest)?;
        here = scan_after(&first.kind, here.depth, found);
        rest = after;
    }
    Ok(uses)
}
