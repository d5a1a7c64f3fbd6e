ghost use Rattle.std.specs.Prelude.{◌≡◌};
ghost use Rattle.std.specs.List.{list_all};
ghost use Rattle.order_cases.specs.Fits.{ends_all_by, ends_by, names_below};

use item_order::{Links, Span, SpanList};

fn is_named(driver: Option<u32>, items: usize) -> bool
    ensures { result ≡ names_below items driver }
{
    match driver {
        None => true,
        Some(item) => (item as usize) < items,
    }
}

fn are_named(drivers: &[Option<u32>], items: usize) -> bool
    ensures { result ≡ list_all (names_below items) drivers.now }
{
    drivers.iter().all(|driver| is_named(*driver, items))
}

fn ends(span: &Span, bits: usize) -> bool
    ensures { result ≡ ends_by bits span.now }
{
    span.to as usize <= bits
}

/// Whether each span ends at a bit or before.
pub fn end_all(spans: &[Span], bits: usize) -> bool
    ensures { result ≡ ends_all_by bits spans.now }
{
    spans.iter().all(|span| ends(span, bits))
}

fn are_within(reads: &[SpanList], bits: usize) -> bool
    ensures { result ≡ list_all (ends_all_by bits) reads.now }
{
    reads.iter().all(|spans| end_all(spans.as_slice(), bits))
}

/// What the items read and who drives the bits, where there are at most 1,000 of each and the numbers fit.
#[tactic(auto, using(crate::proofs::FitLaws::names_are, crate::proofs::FitLaws::spans_are))]
pub fn links(reads: Vec<SpanList>, drivers: Vec<Option<u32>>) -> Option<Links> {
    let (items, bits) = (reads.len(), drivers.len());
    if items > 1000 || bits > 1000 {
        return None;
    }
    if !are_named(drivers.as_slice(), items) || !are_within(reads.as_slice(), bits) {
        return None;
    }
    Some(Links { reads, drivers })
}
