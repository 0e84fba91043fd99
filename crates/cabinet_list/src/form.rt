// The forms in which a record is handed over, and what is listed of each.
ghost use Rattle.std.specs.Prelude.{◌≡◌, ◌≤◌, drop};
ghost use Rattle.listing.specs.Listing.{is_found, Lists};
ghost use Rattle.cabinet_list.specs.Forms.{size_in, sizes_agree, most_of, text_of, answer_of};

use faults::Refusal;
use listing::deposit::{RECORD_MOST, is_deposit_read, is_record_read, list_deposit, list_record};
use wire::unmarshal::TpmUnmarshal;

// Two bytes of size, and one byte more than they can say.
pub const SIZED_MOST: usize = 65538;

// A deposit: a kind byte, and then the record. A record of a kind that is known. Such a record behind its size in two bytes: a TPM2B.
#[derive(Clone, Copy)]
pub enum Form {
    Deposit,
    Record(u8),
    Sized(u8),
}

// The size that stands in front, if its two bytes are there.
pub fn size_in(bytes: &[u8]) -> Option<usize>
    ensures { result ≡ size_in bytes.now }
{
    match u16::unmarshal(bytes, 0) {
        Ok((size, _)) => Some(usize::from(size)),
        Err(_) => None,
    }
}

// What stands behind the size.
pub fn behind_size(bytes: &[u8]) -> &[u8]
    ensures { result.now ≡ drop 2 bytes.now }
{
    match bytes {
        [_, _, rest @ ..] => rest,
        _ => &[],
    }
}

// Whether the size in front is that of what follows it, where one stands there.
pub fn sizes_agree(form: Form, bytes: &[u8]) -> bool
    ensures { result ≡ sizes_agree form bytes.now }
{
    match form {
        Form::Deposit | Form::Record(_) => true,
        Form::Sized(_) => size_in(bytes) == Some(behind_size(bytes).len()),
    }
}

// How many bytes of it are read: with so many its answer is known.
pub fn most(form: Form) -> usize
    ensures { (result ≡ most_of form) × (result ≤ 65538) }
{
    match form {
        Form::Deposit => RECORD_MOST + 2,
        Form::Record(_) => RECORD_MOST + 1,
        Form::Sized(_) => SIZED_MOST,
    }
}

// The listing of it, at the start of out.
pub fn list(form: Form, bytes: &[u8], out: &mut [u8]) -> Result<usize, Refusal>
    ensures { Lists (text_of form bytes.now) out.old result out.new }
{
    match form {
        Form::Deposit => list_deposit(bytes, out),
        Form::Record(kind) => list_record(kind, bytes, out),
        Form::Sized(kind) => list_record(kind, behind_size(bytes), out),
    }
}

// Whether that is the listing of a record which was read, and not of a refusal.
pub fn is_read(form: Form, bytes: &[u8]) -> bool
    ensures { result ≡ is_found (answer_of form bytes.now) }
{
    match form {
        Form::Deposit => is_deposit_read(bytes),
        Form::Record(kind) => is_record_read(kind, bytes),
        Form::Sized(kind) => is_record_read(kind, behind_size(bytes)),
    }
}
