// Cases of kind 13: an attestation that holds a quote.
use crate::tried::try_writing;
use attest::attestation::TpmsAttest;
use attest::list::TpmlPcrSelection;
use attest::tpms::{TpmsClockInfo, TpmsQuoteInfo};
use attest::tpmu::TpmuAttest;
use codes::TpmSt;
use wire::span::Span;

// What differs from case to case.
#[derive(Clone, Copy)]
struct Changes {
    magic: u32,
    attest_type: TpmSt,
    signer: Span,
    safe: u8,
    select: Span,
    digest: Span,
}

fn quote(case: u64, q: Changes, src: &[u8]) {
    let x = TpmsAttest {
        magic: q.magic,
        attest_type: q.attest_type,
        qualified_signer: q.signer,
        extra_data: Span::new(0, 0),
        clock_info: TpmsClockInfo {
            clock: 1,
            reset_count: 2,
            restart_count: 3,
            safe: q.safe,
        },
        firmware_version: 4,
        attested: TpmuAttest::Quote(TpmsQuoteInfo {
            pcr_select: TpmlPcrSelection { items: q.select },
            pcr_digest: q.digest,
        }),
    };
    try_writing(case, x, src);
}

// One that is legal, over a source of four bytes or more that begins with an empty list.
fn legal() -> Changes {
    Changes {
        magic: 0xff544347,
        attest_type: TpmSt::AttestQuote,
        signer: Span::new(0, 0),
        safe: 1,
        select: Span::new(0, 4),
        digest: Span::new(0, 0),
    }
}

pub fn codes_and_values() {
    let empty = [0, 0, 0, 0];
    let magic = 0xff544348;
    let signer = Span::new(0, 67);
    let unlisted = Changes {
        attest_type: TpmSt(0x8013),
        ..legal()
    };
    let another = Changes {
        attest_type: TpmSt::AttestCertify,
        select: Span::new(9, 9),
        ..legal()
    };
    quote(19, legal(), &empty);
    quote(20, Changes { magic, ..legal() }, &empty);
    quote(21, unlisted, &empty);
    quote(22, Changes { safe: 2, ..legal() }, &empty);
    quote(23, another, &empty);
    quote(24, Changes { magic, ..unlisted }, &empty);
    quote(25, Changes { signer, ..unlisted }, &empty);
}

pub fn spans() {
    let signer = Span::new(0, 67);
    quote(26, Changes { signer, ..legal() }, &[0; 67]);
    quote(27, Changes { signer, ..legal() }, &[0; 66]);
    let digest = Span::new(1, 4);
    quote(28, Changes { digest, ..legal() }, &[0, 0, 0, 0]);
    let list = [0, 0, 0, 1, 0, 0x0b, 5];
    let select = Span::new(0, 7);
    quote(29, Changes { select, ..legal() }, &list);
    let select = Span::new(0, 6);
    quote(30, Changes { select, ..legal() }, &list);
}
