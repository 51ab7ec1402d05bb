//! Laws of voucher files and of the export.

ghost use Rattle.std.specs.Prelude.{◌≡◌, ℕ, List, Result};
ghost use Rattle.model_commands.specs.declared.vouchers.NewVoucher.{NewVoucher};
ghost use Rattle.model_rows.specs.Lists.{State};
ghost use Rattle.model_invariant.specs.Sound.{IsSound};
ghost use Rattle.app_csv.specs.ByNumber.{HasLinesBy, by_number};
ghost use Rattle.app_csv.specs.PositionLines.{positions_text};
ghost use Rattle.app_csv.specs.VoucherFile.{IsFile};
ghost use Rattle.app_csv.specs.declared.voucher_file.FileFault.{FileFault};

/// A voucher file reads in one way: its bytes ask for these vouchers and no others, or have this fault and no other.
pub fn a_file_reads_in_one_way()
    ensures { (text : List ℕ) (one other : Result (List NewVoucher) FileFault)
        → IsFile text one → IsFile text other → one ≡ other }
{}

/// The export is by number: in a sound box office its lines rise by the number of their order, and those of one order by
/// their own number there.
pub fn the_export_is_by_number()
    ensures { (state : State) → IsSound state → HasLinesBy by_number (positions_text state.lists) }
{}
