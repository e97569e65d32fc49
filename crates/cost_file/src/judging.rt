//! What is wrong with the bytes of one record.

ghost use Rattle.std.specs.Prelude.{◌≡◌};
ghost use Rattle.std.specs.Result.{result_err};
ghost use Rattle.cost_file.specs.Records.{kind_of, record_fault};

use crate::faults::{Fault, Layer};
use crate::records::Kind;
use plans::Refusal;
use polynomial::check;

/// Judges a record whose kind and number are due: first its check, then its head.
pub(crate) fn judge(bytes: &[u8], due: Kind, number: u16) -> Result<(), Fault>
    ensures value { result_err result ≡ record_fault (kind_of due) number bytes.now }
{
    let record = u32::from(number);
    let [kind, zero, high, low, rest @ ..] = bytes else {
        return Err(Fault::new(Refusal::RecordCheck, record, Layer::File));
    };
    // The check is as long as the head, so head and body together are as long as `rest`.
    let end = rest.len();
    let sum = check(&bytes[..end]).to_be_bytes();
    if bytes[end..] != sum[..] {
        return Err(Fault::new(Refusal::RecordCheck, record, Layer::File));
    }
    if [*kind, *zero, *high, *low] != due.head(number) {
        return Err(Fault::new(Refusal::RecordHead, record, Layer::File));
    }
    Ok(())
}
