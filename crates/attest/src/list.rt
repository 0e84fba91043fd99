// Kind 14, the PCR selection list: a count, and so many items. A record keeps the whole list as one span. It has the calls that a kind
// has (ciphers, tpmt.rt).
ghost use Rattle.std.specs.Prelude.{refl};
ghost use Rattle.format.specs.declared.list.ListOf.TheVariants.{PcrSelection};
ghost use Rattle.format.specs.Kinds.{tpml_pcr_selection};
ghost use Rattle.attest.specs.Parts.{tpml_pcr_selection_parts};

use format::list::ListOf;
use lists::list::{list, read_list};
use lists::listed::Listed;
use steps::marshal::TpmMarshal;
use steps::walk::Walk;
use wire::read::Read;
use wire::span::Span;
use wire::unmarshal::TpmUnmarshal;

#[derive(Clone, Copy)]
pub struct TpmlPcrSelection {
    pub items: Span,
}

impl TpmUnmarshal for TpmlPcrSelection {
    ghost layout = { tpml_pcr_selection };

    ghost parts = { tpml_pcr_selection_parts };

    // Kind 14, TPML_PCR_SELECTION, read.
    fn unmarshal(s: &[u8], at: usize) -> Read<Self> {
        let (items, end) = read_list(ListOf::PcrSelection, s, at)?;
        Ok((Self { items }, end))
    }
}

impl TpmMarshal for TpmlPcrSelection {
    ghost lists = { tpml_pcr_selection_parts };

    ghost one_list = { λ _. refl };

    ghost steps = { 1 };

    ghost few = { refl };

    fn walk(self, w: Walk, src: &[u8], out: &mut [u8]) -> Walk {
        list(w, ListOf::PcrSelection, self.items, src, out)
    }
}

impl Listed for TpmlPcrSelection {
    ghost which = { λ _. PcrSelection };

    fn which(self) -> ListOf {
        ListOf::PcrSelection
    }
}
