// The limits of the buffers, in bytes, by the Rust crate's names where its text has one (it has none for the RSA private key and the name); the numbers are the
// format's own.
pub const MAX_DIGEST_SIZE: u16 = 64;

pub const MAX_RSA_KEY_BYTES: u16 = 512;

pub const MAX_PRIVATE_KEY_RSA: u16 = 256;

pub const MAX_SENSITIVE_DATA: u16 = 256;

pub const MAX_ECC_KEY_BYTES: u16 = 66;

pub const MAX_SYM_KEY_BYTES: u16 = 32;

pub const MAX_NAME_SIZE: u16 = 66;

pub const MAX_DATA_SIZE: u16 = 66;

pub const MAX_NV_BUFFER_SIZE: u16 = 2048;
