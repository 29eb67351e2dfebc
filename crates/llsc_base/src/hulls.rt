//! The hull of the spans that aren't written.
ghost use Rattle.std.specs.Prelude.{◌≡◌};
ghost use Rattle.llsc_base.specs.Hulls.{hull_of, hull_with};
ghost use Rattle.llsc_base.specs.inner.Hulls.{meets};

use crate::images::Span;

/// The addresses from the least start of the spans that aren't written up to their greatest end, the end not included. It
/// has none where each span is written.
#[derive(Drop)]
pub(crate) struct Hull {
    start: usize,
    end: usize,
}

impl Hull {
    /// The hull of these spans.
    #[tactic(auto, unfolding(crate::specs::Hulls::hull_of))]
    pub(crate) fn of(spans: &[Span]) -> Hull
        ensures { result ≡ hull_of spans.now }
    {
        let none = Hull {
            start: 1 << 32,
            end: 0,
        };
        spans.iter().fold(none, |hull, span| hull.with_span(span))
    }

    /// The hull with one more span in it, if that isn't written.
    fn with_span(self, span: &Span) -> Hull
        ensures { result ≡ hull_with self span.now }
    {
        if span.write {
            return self;
        }
        Hull {
            start: self.start.min(span.start as usize),
            end: self.end.max(span.end as usize),
        }
    }

    /// Whether the hull has an address from `from` up to `to`, which is above `from`.
    #[inline(always)]
    pub(crate) fn meets(&self, from: usize, to: usize) -> bool
        ensures { result ≡ meets self.now from to }
    {
        from < self.end && self.start < to
    }
}
