//! Neighbours that could be one span are joined.

ghost use Rattle.std.specs.Prelude.{◌≡◌, ◌++◌, ◌∷◌, [], IfOk, OnOk};
ghost use Rattle.qo_memmap.specs.Joins.{IsPushed, IsJoined};
ghost use Rattle.qo_memmap.specs.Spans.{goes_on};
ghost use Rattle.qo_memmap.specs.Windows.{AreSpans, spans_of};

use crate::merge::Layer;
use crate::region::ADDRESS_LIMIT;
use crate::span::Span;
use std::alloc::{AllocError, Global};

/// Whether a span goes on where another ends, in the same leaf.
fn goes_on(first: Span, next: Span) -> bool
    requires { AreSpans ADDRESS_LIMIT (first ∷ next ∷ []) }
    ensures { result ≡ goes_on first next }
{
    next.at == first.at + first.size
        && next.leaf == first.leaf
        && next.offset == first.offset + first.size
}

/// Adds a span behind the others, or to the last of them where it goes on there.
fn push_joined(spans: &mut Vec<Span>, span: Span) -> Result<(), AllocError>
    requires { AreSpans ADDRESS_LIMIT (spans.old.items ++ span ∷ []) }
    ensures { OnOk result (IsPushed spans.old.items span spans.new.items) }
{
    let Some(last) = spans.pop() else {
        spans.push(span)?;
        return Ok(());
    };
    if goes_on(last, span) {
        spans.push_reserved(Span {
            size: last.size + span.size,
            ..last
        });
        return Ok(());
    }
    spans.push_reserved(last);
    spans.push(span)?;
    Ok(())
}

/// The spans of layers, as few as there can be.
pub(crate) fn joined(alloc: Global, layers: &[Layer]) -> Result<Vec<Span>, AllocError>
    requires { AreSpans ADDRESS_LIMIT (spans_of layers.now) }
    ensures { IfOk result (λ spans. IsJoined (spans_of layers.now) spans.items) }
{
    let mut spans = Vec::new(alloc);
    for layer in layers {
        push_joined(&mut spans, layer.span)?;
    }
    Ok(spans)
}
