//! The numbers of rows, as they were read.

ghost use Rattle.std.specs.Prelude.{ℕ, ◌≤◌, map, IfSome, IfNone};
ghost use Rattle.file_meaning.specs.Free.{AreBelow};
ghost use Rattle.file_scan.specs.Numbers.{Rise};

use file_rows::Numbered;

/// The number that follows on the last one, the least above all, where the numbers rise. None where they don't, or where the last one is 2^64 - 1.
pub fn next_number<T: Numbered>(rows: &[T]) -> Option<u64>
    ensures next { IfSome result (λ next. AreBelow next (map T.number_of rows.now)) }
    ensures least { IfSome result (λ next. (number : ℕ)
        → AreBelow number (map T.number_of rows.now) → next ≤ number) }
    ensures none { IfNone result (¬ Rise (map T.number_of rows.now)) }
{
    let mut from: u64 = 0;
    for row in rows {
        let number = row.number();
        if number < from || number == u64::MAX {
            return None;
        }
        from = number + 1;
    }
    Some(from)
}
