ghost use Rattle.std.specs.Prelude.{◌≡◌, ◌+◌, ◌^◌, ◌<◌, ◌≤◌};
ghost use Rattle.ihex.specs.Steps.{Noted};

// The lowest and the highest place that a text has a byte for.
#[derive(Clone, Copy, Debug, PartialEq)]
pub struct Span {
    pub lowest: u16,
    pub highest: u16,
}

// What an accepted text holds: its data records, the bytes that they place, and where.
#[derive(Clone, Copy, Debug, Default, PartialEq)]
pub struct Survey {
    pub records: usize,
    pub bytes: usize,
    pub span: Option<Span>,
}

impl Survey {
    // With a record of `count` bytes more, which lie at `place` and above.
    pub(crate) fn with(self, place: u16, count: usize) -> Survey
        requires records { self.records + 1 < 2 ^ 64 }
        requires bytes { self.bytes + count < 2 ^ 64 }
        requires place { place + count ≤ 65536 }
        ensures { Noted self place count result }
    {
        let records = self.records + 1;
        if count == 0 {
            return Survey { records, ..self };
        }
        let lowest = self.span.map_or(place, |span| span.lowest);
        // A cast that the prover shows to lose nothing; `try_from` would have an error that never comes.
        let highest = (usize::from(place) + count - 1) as u16;
        Survey {
            records,
            bytes: self.bytes + count,
            span: Some(Span { lowest, highest }),
        }
    }
}
