// Cases of kind 2: a cipher, its key bits and its mode. It has no byte field, so there is no source.
use crate::tried::try_writing;
use ciphers::tpmt::TpmtSymDef;
use ciphers::tpmu::{TpmuSymKeyBits, TpmuSymMode};
use codes::TpmAlgId;

fn cipher(case: u64, algorithm: TpmAlgId, key_bits: TpmuSymKeyBits, mode: TpmuSymMode) {
    let x = TpmtSymDef {
        algorithm,
        key_bits,
        mode,
    };
    try_writing(case, x, b"");
}

pub fn ciphers() {
    let bits = TpmuSymKeyBits::Aes(128);
    let cfb = TpmuSymMode::Aes(TpmAlgId(0x0043));
    let hash = TpmuSymKeyBits::Xor(TpmAlgId::Sha256);
    let unlisted = TpmAlgId(0x0002);
    cipher(9, TpmAlgId::Aes, bits, cfb);
    cipher(10, unlisted, TpmuSymKeyBits::Null, TpmuSymMode::Null);
    cipher(11, TpmAlgId::Null, bits, TpmuSymMode::Null);
    cipher(12, TpmAlgId::Null, TpmuSymKeyBits::Null, cfb);
    cipher(13, TpmAlgId::Aes, bits, TpmuSymMode::Null);
    cipher(14, TpmAlgId::Aes, bits, TpmuSymMode::Aes(unlisted));
    cipher(
        15,
        TpmAlgId::Sha256,
        TpmuSymKeyBits::Null,
        TpmuSymMode::Null,
    );
    cipher(16, TpmAlgId::Xor, hash, TpmuSymMode::Null);
    cipher(17, TpmAlgId::Xor, hash, cfb);
    cipher(18, TpmAlgId::Null, hash, TpmuSymMode::Null);
}
