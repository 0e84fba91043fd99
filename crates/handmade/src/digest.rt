// Cases of kind 1: an algorithm and a digest.
use crate::tried::try_writing;
use ciphers::tpmt::TpmtHa;
use ciphers::tpmu::TpmuHa;
use codes::TpmAlgId;
use wire::span::Span;

fn ha(case: u64, hash_alg: TpmAlgId, digest: TpmuHa, src: &[u8]) {
    try_writing(case, TpmtHa { hash_alg, digest }, src);
}

pub fn digests() {
    let all = TpmuHa::Digest(Span::new(2, 20));
    let short = TpmuHa::Digest(Span::new(0, 19));
    let behind = TpmuHa::Digest(Span::new(9, 19));
    let far = TpmuHa::Digest(Span::new(usize::MAX, 20));
    ha(1, TpmAlgId::Sha1, all, b"0123456789abcdefghijkl");
    ha(2, TpmAlgId::Sha1, all, b"0123456789abcdefghijk");
    ha(3, TpmAlgId::Sha1, short, b"0123456789abcdefghijkl");
    ha(4, TpmAlgId::Null, TpmuHa::Null, b"");
    ha(5, TpmAlgId::Rsa, TpmuHa::Null, b"");
    ha(6, TpmAlgId::Sha1, TpmuHa::Null, b"");
    ha(7, TpmAlgId::Sha1, behind, b"0123456789abcdefghijkl");
    ha(8, TpmAlgId::Sha1, far, b"0123456789abcdefghijkl");
}
