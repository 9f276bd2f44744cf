//! Maps: flat views that were written by hand, the first after the example of QEMU's memory API
//! (docs/devel/memory.rst, "Overlapping regions and priority").

ghost use Rattle.std.specs.Prelude.{◌≡◌, ◌+◌, ◌<◌, IfOk, length};

use qo_memmap::{Kind, Map, MapError, Place, Region, Span, find};
use std::alloc::Global;
use std::process::Abort;
use std::test::Fail;

/// Adds a region.
fn region(map: &mut Map, size: u64, kind: Kind, children: Vec<Place>) -> Result<u32, MapError>
    ensures { IfOk result (λ number. (number ≡ length map.old) × (length map.new ≡ length map.old + 1)) }
{
    map.add(Region {
        size,
        kind,
        children,
    })
}

/// A child at an address.
fn at(region: u32, at: u64, priority: i32) -> Place {
    Place {
        region,
        at,
        priority,
    }
}

/// A span.
fn span(at: u64, size: u64, leaf: u64, offset: u64) -> Span {
    Span {
        at,
        size,
        leaf,
        offset,
    }
}

/// A flat view must be this.
fn shows(rt: &impl Abort, map: &Map, alloc: Global, root: u32, wanted: &[Span])
    requires { root < length map.now }
{
    if let Ok(spans) = map.flat(alloc, root) {
        assert!(rt; spans.as_slice() == wanted, "spans: {}", spans.len());
    } else {
        assert!(rt; false, "out of memory");
    }
}

#[test]
fn overlays_by_priority(rt: HostRuntime) -> Result<(), Fail> {
    let alloc = rt.alloc();
    let mut map = Map::new(alloc);
    let c = region(&mut map, 0x6000, Kind::Leaf(3), Vec::new(alloc))?;
    let d = region(&mut map, 0x1000, Kind::Leaf(4), Vec::new(alloc))?;
    let e = region(&mut map, 0x1000, Kind::Leaf(5), Vec::new(alloc))?;
    let inside = Vec::from_array(alloc, [at(d, 0, 0), at(e, 0x2000, 0)])?;
    let b = region(&mut map, 0x4000, Kind::Container, inside)?;
    let whole = Vec::from_array(alloc, [at(b, 0x2000, 2), at(c, 0, 1)])?;
    let a = region(&mut map, 0x8000, Kind::Container, whole)?;
    let wanted = [
        span(0, 0x2000, 3, 0),
        span(0x2000, 0x1000, 4, 0),
        span(0x3000, 0x1000, 3, 0x3000),
        span(0x4000, 0x1000, 5, 0),
        span(0x5000, 0x1000, 3, 0x5000),
    ];
    shows(&rt, &map, alloc, a, &wanted);
    Ok(())
}

#[test]
fn shows_a_board(rt: HostRuntime) -> Result<(), Fail> {
    let alloc = rt.alloc();
    let mut map = Map::new(alloc);
    let boot = region(&mut map, 65_536, Kind::Leaf(0), Vec::new(alloc))?;
    let dimm = region(&mut map, 1_048_576, Kind::Leaf(12), Vec::new(alloc))?;
    let uart = region(&mut map, 4_096, Kind::Leaf(9), Vec::new(alloc))?;
    let memory = region(
        &mut map,
        1 << 36,
        Kind::Container,
        Vec::from_array(alloc, [at(dimm, 0, 0)])?,
    )?;
    let low = region(&mut map, 1 << 31, Kind::Alias(memory, 0), Vec::new(alloc))?;
    let slots = region(
        &mut map,
        1 << 47,
        Kind::Container,
        Vec::from_array(alloc, [at(uart, 0, 0)])?,
    )?;
    let whole = [
        at(boot, 0, 0),
        at(memory, 1 << 32, 0),
        at(slots, 1 << 44, 0),
        at(low, 0, -1),
    ];
    let root = region(
        &mut map,
        1 << 48,
        Kind::Container,
        Vec::from_array(alloc, whole)?,
    )?;
    let wanted = [
        span(0, 65_536, 0, 0),
        span(65_536, 983_040, 12, 65_536),
        span(4_294_967_296, 1_048_576, 12, 0),
        span(17_592_186_044_416, 4_096, 9, 0),
    ];
    shows(&rt, &map, alloc, root, &wanted);
    Ok(())
}

#[test]
fn joins_what_goes_on_and_refuses(rt: HostRuntime) -> Result<(), Fail> {
    let alloc = rt.alloc();
    let mut map = Map::new(alloc);
    let leaf = region(&mut map, 100, Kind::Leaf(7), Vec::new(alloc))?;
    let front = region(&mut map, 40, Kind::Alias(leaf, 0), Vec::new(alloc))?;
    let back = region(&mut map, 80, Kind::Alias(leaf, 40), Vec::new(alloc))?;
    let both = Vec::from_array(alloc, [at(front, 10, -5), at(back, 50, 5)])?;
    let root = region(&mut map, 1_000, Kind::Container, both)?;
    shows(&rt, &map, alloc, root, &[span(10, 100, 7, 0)]);
    let none = region(&mut map, 0, Kind::Container, Vec::new(alloc));
    assert!(rt; matches!(none, Err(MapError::BadRange)));
    let unknown = region(&mut map, 1, Kind::Alias(5, 0), Vec::new(alloc));
    assert!(rt; matches!(unknown, Err(MapError::BadRef)));
    Ok(())
}

/// The leaf that stands at each of these addresses must be this.
fn finds(rt: &impl Abort, map: &Map, alloc: Global, root: u32, rows: &[(u64, Option<u64>)])
    requires { root < length map.now }
{
    if let Ok(spans) = map.flat(alloc, root) {
        for (address, wanted) in rows {
            let leaf = find(&spans, *address).map(|span| span.leaf);
            assert!(rt; leaf == *wanted, "address {address}");
        }
    } else {
        assert!(rt; false, "out of memory");
    }
}

#[test]
fn finds_by_address(rt: HostRuntime) -> Result<(), Fail> {
    let alloc = rt.alloc();
    let mut map = Map::new(alloc);
    let first = region(&mut map, 10, Kind::Leaf(1), Vec::new(alloc))?;
    let second = region(&mut map, 5, Kind::Leaf(2), Vec::new(alloc))?;
    let places = [at(first, 0, 0), at(second, 20, 0), at(second, 25, 0)];
    let root = region(
        &mut map,
        100,
        Kind::Container,
        Vec::from_array(alloc, places)?,
    )?;
    let rows = [
        (0, Some(1)),
        (9, Some(1)),
        (10, None),
        (19, None),
        (20, Some(2)),
        (24, Some(2)),
        (25, Some(2)),
        (30, None),
    ];
    finds(&rt, &map, alloc, root, &rows);
    Ok(())
}
