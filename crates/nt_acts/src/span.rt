// Indices in order.
ghost use Rattle.std.specs.Prelude.{◌≡◌, ◌<◌, ◌^◌, if◌then◌else◌, ◌+◌, ◌-◌};
ghost use Rattle.nt_design.specs.Statements.{indices_of};
ghost use Rattle.nt_acts.specs.Spans.{IsSpan, index_of, span_indices};

// So many indices from one on, upwards or downwards.
#[derive(Clone, Copy)]
pub(crate) struct Span {
    pub(crate) from: u32,
    pub(crate) many: u64,
    pub(crate) up: bool,
}

impl Span {
    // The index of this number.
    pub(crate) fn index(self, at: u64) -> u32
        requires span { IsSpan self }
        requires within { at < self.many }
        ensures { result ≡ index_of self at }
    {
        if self.up {
            self.from + at as u32
        } else {
            self.from - at as u32
        }
    }
}

// The indices of an array with these bounds, from the left one to the right one, or those of a resolver's argument (IEEE
// 1800-2017, 7.4.2, 12.7.3).
pub(crate) fn span_of(elements: usize, bounds: Option<(u32, u32)>) -> Span
    requires { elements < 2 ^ 32 }
    ensures indices { span_indices result ≡ indices_of elements bounds }
    ensures span { IsSpan result }
{
    match bounds {
        None => Span {
            from: 0,
            many: elements as u64,
            up: true,
        },
        Some((first, last)) => {
            if first <= last {
                Span {
                    from: first,
                    many: u64::from(last - first) + 1,
                    up: true,
                }
            } else {
                Span {
                    from: first,
                    many: u64::from(first - last) + 1,
                    up: false,
                }
            }
        }
    }
}
