//! The time over which the datagrams of lines came.

/// When the first and the last of them came, in nanoseconds since 1970.
#[derive(Clone, Copy)]
pub(crate) struct Span {
    pub(crate) begin: u64,
    pub(crate) end: u64,
}

impl Span {
    /// The span that has this time too, if there is one.
    pub(crate) fn with(span: Option<Span>, at: Option<u64>) -> Option<Span> {
        match (span, at) {
            (Some(span), Some(at)) => Some(Span {
                begin: span.begin.min(at),
                end: span.end.max(at),
            }),
            (None, Some(at)) => Some(Span { begin: at, end: at }),
            (span, None) => span,
        }
    }
}
