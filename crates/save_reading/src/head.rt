// The head of a save.
ghost use Rattle.std.specs.Prelude.{◌≡◌, ◌≤◌, drop, true, false, IfNone, IfSome};
ghost use Rattle.save_model.specs.Fields.{all_good, numbers};
ghost use Rattle.save_model.specs.Parts.{head_fields, head_of, head_widths};
ghost use Rattle.save_model.specs.Save.{cpus_in, head_good};

use crate::reader::Reader;
use crate::values::is_size;
use save_model::parts::SaveHead;
use save_model::refusal::SaveRefusal;

fn is_head(head: &SaveHead) -> bool
    ensures { result ≡ all_good (head_fields head.now) }
{
    1 <= head.cpus
        && head.cpus <= 8
        && head.spares <= 8
        && head.threshold <= 15
        && head.zero == 0
        && is_size(head.pages)
}

#[tactic(auto, unfolding(save_model::specs::Save::head_good))]
/// The head, exactly where the first 16 bytes are there and hold one.
pub fn read_head(bytes: &[u8]) -> Option<SaveHead>
    ensures none { IfNone result (head_good bytes.now ≡ false) }
    ensures good { IfSome result (λ h. head_good bytes.now ≡ true) }
    ensures some { IfSome result (λ h. h ≡ head_of (numbers head_widths (drop 8 bytes.now))) }
    ensures cpus { IfSome result (λ h. h.cpus ≤ 8) }
    ensures pages { IfSome result (λ h. h.pages ≤ 4096) }
{
    if bytes.len() < 16 {
        return None;
    }
    if bytes[..8] != [b'G', b'5', b'S', b'A', b'V', b'E', b'1', b'\n'] {
        return None;
    }
    let mut reader = Reader { rest: &bytes[8..] };
    let head = reader.head();
    if is_head(&head) { Some(head) } else { None }
}

#[tactic(auto, unfolding(save_model::specs::Save::cpus_in))]
/// How many CPUs the save has.
///
/// # Errors
///
/// `BadHead`.
pub fn cpus_in(bytes: &[u8]) -> Result<u8, SaveRefusal>
    ensures { result ≡ cpus_in bytes.now }
{
    match read_head(bytes) {
        None => Err(SaveRefusal::BadHead),
        Some(head) => Ok(head.cpus),
    }
}
