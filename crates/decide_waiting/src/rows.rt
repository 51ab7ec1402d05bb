//! Rows of the waiting list.

ghost use Rattle.std.specs.Prelude.{◌≡◌, Some};
ghost use Rattle.decide_waiting.specs.Changed.{changed_entry};

use model_commands::WaitingPatch;
use model_rows::Waiting;

/// The entry with this voucher.
pub fn with_voucher(entry: Waiting, voucher: u64) -> Waiting
    ensures { result ≡ record entry { voucher = Some voucher } }
{
    Waiting {
        voucher: Some(voucher),
        ..entry
    }
}

/// The entry as it is after a change.
pub fn patched(entry: Waiting, patch: WaitingPatch) -> Waiting
    ensures { result ≡ changed_entry patch entry }
{
    let priority = patch.priority.unwrap_or(entry.priority);
    Waiting { priority, ..entry }
}
