// The journal for a C host, as a static library: what the crate `journal` has, under the names that include/journal.h declares.
#![tactic(auto)]

ghost use Rattle.std.specs.Prelude.{◌≡◌};
ghost use Rattle.base.specs.Below.{bit};
ghost use Rattle.converter.specs.Convert.{verdict, new_medium};
ghost use Rattle.journal.specs.Exported.{is_place, lock_place, replied};

use journal::exported;

// 1 if the bytes are valid as the place of this number, else 0.
#[unsafe(no_mangle)]
pub extern "C" fn journal_place_check(bytes: &[u8], number: u64) -> u64
    ensures { result ≡ bit (is_place bytes.now number) }
{
    exported::journal_place_check(bytes, number)
}

// Place j, from 0 to 2, of lock k; 1,024 for any other j.
#[unsafe(no_mangle)]
pub extern "C" fn journal_lock_place(k: u64, j: u64) -> u64
    ensures { result ≡ lock_place k j }
{
    exported::journal_lock_place(k, j)
}

// The medium `before`, whose places have 64 bytes, into `after`, whose places have 72: 0, or 27 with `after` as it was.
#[unsafe(no_mangle)]
pub extern "C" fn journal_convert(before: &[u8], after: &mut [u8]) -> u64
    ensures { (result ≡ replied (verdict before.now after.old)) × (after.new ≡ new_medium before.now after.old) }
{
    exported::journal_convert(before, after)
}
