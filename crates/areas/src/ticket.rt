// What every ticket has behind its tag: a hierarchy and a digest. One reader serves the four tickets.
ghost use Rattle.format.specs.Kinds.{ticket_body};
ghost use Rattle.areas.specs.Parts.{ticket_body_parts};

use codes::TpmRh;
use format::limits;
use wire::read::{Read, buffer};
use wire::span::Span;
use wire::unmarshal::TpmUnmarshal;
use wire::width::Width;

#[derive(Clone, Copy)]
pub struct TicketBody {
    pub hierarchy: TpmRh,
    pub digest: Span,
}

impl TpmUnmarshal for TicketBody {
    ghost layout = { ticket_body };

    ghost parts = { ticket_body_parts };

    fn unmarshal(s: &[u8], at: usize) -> Read<Self> {
        let (hierarchy, end) = TpmRh::unmarshal(s, at)?;
        let (digest, end) = buffer(s, end, Width::Two, limits::MAX_DIGEST_SIZE)?;
        Ok((Self { hierarchy, digest }, end))
    }
}
