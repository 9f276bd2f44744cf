//! Layers, and how two lists of them are merged.

ghost use Rattle.std.specs.Prelude.{◌≡◌, ℕ, ◌<◌, ◌&&◌, nat_le, nat_lt, if◌then◌else◌, IfOk, OnOk, map, option_map};
ghost use Rattle.qo_memmap.specs.Merges.{IsAhead, IsRun, IsPassed, HoldsSome, IsMerged};
ghost use Rattle.qo_memmap.specs.Spans.{OffsetsFit};
ghost use Rattle.qo_memmap.specs.Windows.{AreSpans, spans_of, layers_show, layer_of, layer_seen, over_by};

use crate::span::Span;
use std::alloc::{AllocError, Global};

/// A span of what children show, with the priority of the one that shows it.
#[derive(Clone, Copy)]
pub(crate) struct Layer {
    pub priority: i32,
    pub span: Span,
}

/// Which of two layers shows where both hold an address.
#[derive(Clone, Copy)]
pub(crate) enum Order {
    /// The one of the greater priority, and the later one where their priorities are equal.
    ByPriority,
    /// The later one.
    LaterFirst,
}

/// What layers show from an address on, and up to which one.
#[derive(Clone, Copy)]
struct Run {
    shown: Option<Layer>,
    until: u64,
}

/// Layers of one priority.
pub(crate) fn layered(
    alloc: Global,
    spans: &[Span],
    priority: i32,
) -> Result<Vec<Layer>, AllocError>
    ensures { IfOk result (λ layers. layers.items ≡ map (layer_of priority) spans.now) }
{
    spans
        .iter()
        .map(|span| Layer {
            priority,
            span: *span,
        })
        .collect(alloc)
}

/// What the layers that are left show at an address, and up to where: the first of them ends behind
/// the address.
fn run_at(left: &[Layer], at: u64, end: u64) -> Run
    requires ahead { IsAhead at end left.now }
    requires fit { OffsetsFit (spans_of left.now) }
    requires some { at < end }
    ensures { IsRun left.now at end result }
{
    let Some(layer) = left.first() else {
        return Run {
            shown: None,
            until: end,
        };
    };
    if layer.span.at <= at {
        Run {
            shown: Some(*layer),
            until: layer.span.at + layer.span.size,
        }
    } else {
        Run {
            shown: None,
            until: layer.span.at,
        }
    }
}

/// The layers that are left from a later address on, up to which the first of them reaches.
fn pass(left: &[Layer], until: u64) -> &[Layer]
    ensures { IsPassed left.now until result.now }
{
    match left.first() {
        Some(layer) if layer.span.size <= until.saturating_sub(layer.span.at) => &left[1..],
        _ => left,
    }
}

/// The layer that shows, of two that hold the same addresses.
fn choose(first: Option<Layer>, later: Option<Layer>, order: Order) -> Option<Layer>
    ensures seen { (a : ℕ) → option_map (layer_seen a) result ≡ over_by order (option_map (layer_seen a) first) (option_map (layer_seen a) later) }
    ensures held { (at until : ℕ) → HoldsSome at until first → HoldsSome at until later → HoldsSome at until result }
{
    match (first, later) {
        (first, None) => first,
        (None, Some(later)) => Some(later),
        (Some(first), Some(later)) => match order {
            Order::LaterFirst => Some(later),
            Order::ByPriority if first.priority <= later.priority => Some(later),
            Order::ByPriority => Some(first),
        },
    }
}

/// Adds the part of a layer between two addresses, both of which it reaches.
fn push_part(
    merged: &mut Vec<Layer>,
    shown: Option<Layer>,
    at: u64,
    until: u64,
) -> Result<(), AllocError>
    requires are { AreSpans at (spans_of merged.old.items) }
    requires some { at < until }
    requires held { HoldsSome at until shown }
    ensures are { OnOk result (AreSpans until (spans_of merged.new.items)) }
    ensures shown { OnOk result ((a : ℕ) → layers_show merged.new.items a ≡ (if nat_le at a && nat_lt a until then option_map (layer_seen a) shown else layers_show merged.old.items a)) }
{
    let Some(mut layer) = shown else {
        return Ok(());
    };
    layer.span = Span {
        at,
        size: until - at,
        leaf: layer.span.leaf,
        offset: layer.span.offset + (at - layer.span.at),
    };
    merged.push(layer)?;
    Ok(())
}

/// Two lists of layers as one, up to an address.
fn merge_both(
    alloc: Global,
    first: &[Layer],
    later: &[Layer],
    order: Order,
    end: u64,
) -> Result<Vec<Layer>, AllocError>
    requires first { AreSpans end (spans_of first.now) }
    requires later { AreSpans end (spans_of later.now) }
    ensures { IfOk result (λ layers. IsMerged first.now later.now order end layers.items) }
{
    let mut merged = Vec::new(alloc);
    let mut first_left = first;
    let mut later_left = later;
    let mut at = 0;
    while at < end {
        let first_run = run_at(first_left, at, end);
        let later_run = run_at(later_left, at, end);
        let until = first_run.until.min(later_run.until);
        let shown = choose(first_run.shown, later_run.shown, order);
        push_part(&mut merged, shown, at, until)?;
        first_left = pass(first_left, until);
        later_left = pass(later_left, until);
        at = until;
    }
    Ok(merged)
}

/// Two lists of layers as one, up to an address.
pub(crate) fn merge(
    alloc: Global,
    first: Vec<Layer>,
    later: Vec<Layer>,
    order: Order,
    end: u64,
) -> Result<Vec<Layer>, AllocError>
    requires first { AreSpans end (spans_of first.items) }
    requires later { AreSpans end (spans_of later.items) }
    ensures { IfOk result (λ layers. IsMerged first.items later.items order end layers.items) }
{
    if later.is_empty() {
        return Ok(first);
    }
    if first.is_empty() {
        return Ok(later);
    }
    merge_both(alloc, &first, &later, order, end)
}
