//! Spans of a flat view.

ghost use Rattle.std.specs.Prelude.{◌≡◌, ◌≤◌, nat_le, true, false, length};
ghost use Rattle.std.specs.List.Sorted.{IsPartitionPoint};
ghost use Rattle.qo_memmap.specs.Spans.{RiseFrom, span_holding};

/// Addresses in a row that show one leaf.
#[derive(Clone, Copy, Debug, PartialEq, Eq)]
pub struct Span {
    /// The first address.
    pub at: u64,
    /// How many addresses there are.
    pub size: u64,
    /// The leaf's number.
    pub leaf: u64,
    /// The offset in the leaf that the first address shows.
    pub offset: u64,
}

/// How many spans begin at an address or before it.
fn begun_by(spans: &[Span], address: u64) -> usize
    requires { RiseFrom 0 spans.now }
    ensures within { result ≤ length spans.now }
    ensures point { IsPartitionPoint (λ span. nat_le span.at address ≡ true) (λ span. nat_le span.at address ≡ false) spans.now result }
{
    spans.partition_point(|span| span.at <= address)
}

/// The span that holds an address, by halving: `None` exactly where none does. It takes no memory. The
/// spans rise and lie apart.
pub fn find(spans: &[Span], address: u64) -> Option<Span>
    requires { RiseFrom 0 spans.now }
    ensures { result ≡ span_holding spans.now address }
{
    let begun = begun_by(spans, address);
    if begun == 0 {
        return None;
    }
    let span = spans[begun - 1];
    if address - span.at < span.size {
        Some(span)
    } else {
        None
    }
}
