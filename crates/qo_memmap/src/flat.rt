//! How a flat view is made: the views of the children are laid over each other, and over what the
//! region shows by itself.

ghost use Rattle.std.specs.Prelude.{◌≡◌, ◌+◌, ◌<◌, ◌≤◌, true, IfOk, length};
ghost use Rattle.qo_memmap.specs.Regions.{area_of, area_shows, child_shows, children_show, kind_shows, leaf_shows, kind_below, kind_in_range, names_below, is_in_range, shows_at};
ghost use Rattle.qo_memmap.specs.Windows.{AreSound, PlacesFit, WindowFits, SpansShow, LayersShow, through, areas_of};

use crate::join::joined;
use crate::merge::{Layer, Order, layered, merge};
use crate::region::{ADDRESS_LIMIT, Kind, Place, Region};
use crate::span::Span;
use crate::window::{Window, alias_window, child_window};
use std::alloc::{AllocError, Global};

/// What a region shows in a window, where `below` has the regions that it may name.
#[cycle(flat)]
pub(crate) fn region_in(
    alloc: Global,
    below: &[Region],
    region: &Region,
    window: Window,
) -> Result<Vec<Span>, AllocError>
    requires sound { AreSound (areas_of below.now) }
    requires named { names_below (length below.now) (area_of region.now) ≡ true }
    requires ranged { is_in_range (area_of region.now) ≡ true }
    requires window { WindowFits window region.now.size }
    ensures { IfOk result (λ spans. SpansShow (through window (area_shows (shows_at (areas_of below.now)) (area_of region.now))) (window.at + window.size) spans.items) }
{
    let itself = itself_in(alloc, below, region.kind, window)?;
    if region.children.is_empty() {
        return Ok(itself);
    }
    let children = children_in(alloc, below, &region.children, window)?;
    let itself = layered(alloc, &itself, 0)?;
    let merged = merge(
        alloc,
        itself,
        children,
        Order::LaterFirst,
        window.at + window.size,
    )?;
    joined(alloc, &merged)
}

/// What a region shows by itself in a window.
#[cycle(flat)]
fn itself_in(
    alloc: Global,
    below: &[Region],
    kind: Kind,
    window: Window,
) -> Result<Vec<Span>, AllocError>
    requires sound { AreSound (areas_of below.now) }
    requires named { kind_below (length below.now) kind ≡ true }
    requires ranged { kind_in_range kind ≡ true }
    requires window { WindowFits window ADDRESS_LIMIT }
    ensures { IfOk result (λ spans. SpansShow (through window (kind_shows (shows_at (areas_of below.now)) kind)) (window.at + window.size) spans.items) }
{
    match kind {
        Kind::Container => Ok(Vec::new(alloc)),
        Kind::Leaf(leaf) => leaf_in(alloc, leaf, window),
        Kind::Alias(region, offset) => alias_in(alloc, below, region as usize, offset, window),
    }
}

/// A leaf in a window.
fn leaf_in(alloc: Global, leaf: u64, window: Window) -> Result<Vec<Span>, AllocError>
    requires { WindowFits window ADDRESS_LIMIT }
    ensures { IfOk result (λ spans. SpansShow (through window (leaf_shows leaf)) (window.at + window.size) spans.items) }
{
    let mut spans = Vec::new(alloc);
    spans.push(Span {
        at: window.at,
        size: window.size,
        leaf,
        offset: window.from,
    })?;
    Ok(spans)
}

/// What an alias shows in a window.
#[cycle(flat)]
fn alias_in(
    alloc: Global,
    below: &[Region],
    region: usize,
    offset: u64,
    window: Window,
) -> Result<Vec<Span>, AllocError>
    requires sound { AreSound (areas_of below.now) }
    requires named { region < length below.now }
    requires ranged { offset ≤ ADDRESS_LIMIT }
    requires window { WindowFits window ADDRESS_LIMIT }
    ensures { IfOk result (λ spans. SpansShow (through window (λ x. shows_at (areas_of below.now) region (x + offset))) (window.at + window.size) spans.items) }
{
    let target = &below[region];
    let Some(part) = alias_window(window, offset, target.size) else {
        return Ok(Vec::new(alloc));
    };
    region_in(alloc, &below[..region], target, part)
}

/// What children show in a window, each with its priority.
#[cycle(flat)]
fn children_in(
    alloc: Global,
    below: &[Region],
    places: &[Place],
    window: Window,
) -> Result<Vec<Layer>, AllocError>
    requires sound { AreSound (areas_of below.now) }
    requires places { PlacesFit (length below.now) places.now }
    requires window { WindowFits window ADDRESS_LIMIT }
    ensures { IfOk result (λ layers. LayersShow (through window (children_show (shows_at (areas_of below.now)) places.now)) (window.at + window.size) layers.items) }
{
    if places.len() > 1 {
        let (first, later) = places.split_at(places.len() / 2);
        let first = children_in(alloc, below, first, window)?;
        let later = children_in(alloc, below, later, window)?;
        return merge(
            alloc,
            first,
            later,
            Order::ByPriority,
            window.at + window.size,
        );
    }
    match places.first() {
        Some(place) => child_in(alloc, below, *place, window),
        None => Ok(Vec::new(alloc)),
    }
}

/// What a child shows in a window on its parent, with its priority.
#[cycle(flat)]
fn child_in(
    alloc: Global,
    below: &[Region],
    place: Place,
    window: Window,
) -> Result<Vec<Layer>, AllocError>
    requires sound { AreSound (areas_of below.now) }
    requires named { place.region < length below.now }
    requires ranged { place.at ≤ ADDRESS_LIMIT }
    requires window { WindowFits window ADDRESS_LIMIT }
    ensures { IfOk result (λ layers. LayersShow (through window (child_shows (shows_at (areas_of below.now)) place)) (window.at + window.size) layers.items) }
{
    let number = place.region as usize;
    let child = &below[number];
    let Some(part) = child_window(window, place, child.size) else {
        return Ok(Vec::new(alloc));
    };
    let spans = region_in(alloc, &below[..number], child, part)?;
    layered(alloc, &spans, place.priority)
}
