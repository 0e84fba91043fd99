// Kinds 16 to 20: the public part of an NV area, and the tickets. Each has the calls that a kind has (ciphers, tpmt.rt).
ghost use Rattle.std.specs.Prelude.{[], refl};
ghost use Rattle.format.specs.Kinds.{tpmt_nv_public2, tpmt_tk_creation, tpmt_tk_verified, tpmt_tk_hashcheck, tpmt_tk_auth};
ghost use Rattle.areas.specs.Parts.{tpmt_nv_public2_parts, tpmt_tk_creation_parts, tpmt_tk_verified_parts, tpmt_tk_hashcheck_parts, tpmt_tk_auth_parts};

use crate::ticket::TicketBody;
use crate::tpmu::TpmuNvPublic2;
use codes::{Ticket, TpmHt, TpmRh, TpmSt};
use format::limits;
use steps::marshal::{Listless, TpmMarshal};
use steps::tagged::TpmTagged;
use steps::walk::Walk;
use wire::read::Read;
use wire::span::Span;
use wire::unmarshal::TpmUnmarshal;

#[derive(Clone, Copy)]
pub struct TpmtNvPublic2 {
    pub handle_type: TpmHt,
    pub public_area: TpmuNvPublic2,
}

#[derive(Clone, Copy)]
pub struct TpmtTkCreation {
    pub tag: TpmSt,
    pub hierarchy: TpmRh,
    pub digest: Span,
}

#[derive(Clone, Copy)]
pub struct TpmtTkVerified {
    pub tag: TpmSt,
    pub hierarchy: TpmRh,
    pub digest: Span,
}

#[derive(Clone, Copy)]
pub struct TpmtTkHashcheck {
    pub tag: TpmSt,
    pub hierarchy: TpmRh,
    pub digest: Span,
}

#[derive(Clone, Copy)]
pub struct TpmtTkAuth {
    pub tag: TpmSt,
    pub hierarchy: TpmRh,
    pub digest: Span,
}

impl TpmUnmarshal for TpmtNvPublic2 {
    ghost layout = { tpmt_nv_public2 };

    ghost parts = { tpmt_nv_public2_parts };

    // Kind 16, TPMT_NV_PUBLIC_2, read.
    fn unmarshal(s: &[u8], at: usize) -> Read<Self> {
        let (handle_type, end) = TpmHt::unmarshal(s, at)?;
        let (public_area, end) = TpmuNvPublic2::unmarshal_tagged(handle_type, s, end)?;
        Ok((
            Self {
                handle_type,
                public_area,
            },
            end,
        ))
    }
}

impl TpmMarshal for TpmtNvPublic2 {
    ghost lists = { λ _. [] };

    ghost one_list = { λ _. refl };

    ghost steps = { 7 };

    ghost few = { refl };

    fn walk(self, w: Walk, src: &[u8], out: &mut [u8]) -> Walk {
        let v = w.code(self.handle_type, out);
        self.public_area.walk_tagged(self.handle_type, v, src, out)
    }
}

impl Listless for TpmtNvPublic2 {}

impl TpmUnmarshal for TpmtTkCreation {
    ghost layout = { tpmt_tk_creation };

    ghost parts = { tpmt_tk_creation_parts };

    // Kind 17, TPMT_TK_CREATION, read.
    fn unmarshal(s: &[u8], at: usize) -> Read<Self> {
        let (tag, end) = TpmSt::unmarshal_tag(Ticket::Creation, s, at)?;
        let (body, end) = TicketBody::unmarshal(s, end)?;
        let ticket = Self {
            tag,
            hierarchy: body.hierarchy,
            digest: body.digest,
        };
        Ok((ticket, end))
    }
}

impl TpmMarshal for TpmtTkCreation {
    ghost lists = { λ _. [] };

    ghost one_list = { λ _. refl };

    ghost steps = { 3 };

    ghost few = { refl };

    fn walk(self, w: Walk, src: &[u8], out: &mut [u8]) -> Walk {
        w.ticket_tag(Ticket::Creation, self.tag, out)
            .code(self.hierarchy, out)
            .buffer(limits::MAX_DIGEST_SIZE, self.digest, src, out)
    }
}

impl Listless for TpmtTkCreation {}

impl TpmUnmarshal for TpmtTkVerified {
    ghost layout = { tpmt_tk_verified };

    ghost parts = { tpmt_tk_verified_parts };

    // Kind 18, TPMT_TK_VERIFIED, read.
    fn unmarshal(s: &[u8], at: usize) -> Read<Self> {
        let (tag, end) = TpmSt::unmarshal_tag(Ticket::Verified, s, at)?;
        let (body, end) = TicketBody::unmarshal(s, end)?;
        let ticket = Self {
            tag,
            hierarchy: body.hierarchy,
            digest: body.digest,
        };
        Ok((ticket, end))
    }
}

impl TpmMarshal for TpmtTkVerified {
    ghost lists = { λ _. [] };

    ghost one_list = { λ _. refl };

    ghost steps = { 3 };

    ghost few = { refl };

    fn walk(self, w: Walk, src: &[u8], out: &mut [u8]) -> Walk {
        w.ticket_tag(Ticket::Verified, self.tag, out)
            .code(self.hierarchy, out)
            .buffer(limits::MAX_DIGEST_SIZE, self.digest, src, out)
    }
}

impl Listless for TpmtTkVerified {}

impl TpmUnmarshal for TpmtTkHashcheck {
    ghost layout = { tpmt_tk_hashcheck };

    ghost parts = { tpmt_tk_hashcheck_parts };

    // Kind 19, TPMT_TK_HASHCHECK, read.
    fn unmarshal(s: &[u8], at: usize) -> Read<Self> {
        let (tag, end) = TpmSt::unmarshal_tag(Ticket::Hashcheck, s, at)?;
        let (body, end) = TicketBody::unmarshal(s, end)?;
        let ticket = Self {
            tag,
            hierarchy: body.hierarchy,
            digest: body.digest,
        };
        Ok((ticket, end))
    }
}

impl TpmMarshal for TpmtTkHashcheck {
    ghost lists = { λ _. [] };

    ghost one_list = { λ _. refl };

    ghost steps = { 3 };

    ghost few = { refl };

    fn walk(self, w: Walk, src: &[u8], out: &mut [u8]) -> Walk {
        w.ticket_tag(Ticket::Hashcheck, self.tag, out)
            .code(self.hierarchy, out)
            .buffer(limits::MAX_DIGEST_SIZE, self.digest, src, out)
    }
}

impl Listless for TpmtTkHashcheck {}

impl TpmUnmarshal for TpmtTkAuth {
    ghost layout = { tpmt_tk_auth };

    ghost parts = { tpmt_tk_auth_parts };

    // Kind 20, TPMT_TK_AUTH, read.
    fn unmarshal(s: &[u8], at: usize) -> Read<Self> {
        let (tag, end) = TpmSt::unmarshal_tag(Ticket::Auth, s, at)?;
        let (body, end) = TicketBody::unmarshal(s, end)?;
        let ticket = Self {
            tag,
            hierarchy: body.hierarchy,
            digest: body.digest,
        };
        Ok((ticket, end))
    }
}

impl TpmMarshal for TpmtTkAuth {
    ghost lists = { λ _. [] };

    ghost one_list = { λ _. refl };

    ghost steps = { 3 };

    ghost few = { refl };

    fn walk(self, w: Walk, src: &[u8], out: &mut [u8]) -> Walk {
        w.ticket_tag(Ticket::Auth, self.tag, out)
            .code(self.hierarchy, out)
            .buffer(limits::MAX_DIGEST_SIZE, self.digest, src, out)
    }
}

impl Listless for TpmtTkAuth {}
