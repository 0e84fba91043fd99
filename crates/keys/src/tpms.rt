// A point on a curve.
ghost use Rattle.std.specs.Prelude.{[], refl};
ghost use Rattle.format.specs.Kinds.{tpms_ecc_point};
ghost use Rattle.keys.specs.Parts.{tpms_ecc_point_parts};

use format::limits;
use steps::marshal::TpmMarshal;
use steps::walk::Walk;
use wire::read::{Read, buffer};
use wire::span::Span;
use wire::unmarshal::TpmUnmarshal;
use wire::width::Width;

#[derive(Clone, Copy)]
pub struct TpmsEccPoint {
    pub x: Span,
    pub y: Span,
}

impl TpmUnmarshal for TpmsEccPoint {
    ghost layout = { tpms_ecc_point };

    ghost parts = { tpms_ecc_point_parts };

    // TPMS_ECC_POINT, read.
    fn unmarshal(s: &[u8], at: usize) -> Read<Self> {
        let (x, end) = buffer(s, at, Width::Two, limits::MAX_ECC_KEY_BYTES)?;
        let (y, end) = buffer(s, end, Width::Two, limits::MAX_ECC_KEY_BYTES)?;
        Ok((Self { x, y }, end))
    }
}

impl TpmMarshal for TpmsEccPoint {
    ghost lists = { λ _. [] };

    ghost one_list = { λ _. refl };

    ghost steps = { 2 };

    ghost few = { refl };

    fn walk(self, w: Walk, src: &[u8], out: &mut [u8]) -> Walk {
        w.buffer(limits::MAX_ECC_KEY_BYTES, self.x, src, out)
            .buffer(limits::MAX_ECC_KEY_BYTES, self.y, src, out)
    }
}
