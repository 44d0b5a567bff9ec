// Tables of units that are not yet updated: the converter, exported (R13.9). Its answer crosses as those of lib.rt do (specs/Old.antt).
ghost use Rattle.std.specs.Prelude.{◌≡◌, ◌≤◌, length};
ghost use Rattle.old_table.specs.Old.{old_size};
ghost use Rattle.convert.specs.Converts.{convert_reply};
ghost use Rattle.zenfrosta.specs.Crossing.{Spoken};
ghost use Rattle.zenfrosta.specs.Old.{convert_code, convert_values, CrossesConverting};

use crate::{one, refuse, speak};
use rules::Refusal;

// Tells how converting went.
fn tell_converted(out: &mut [u8], x: Result<(), Refusal>) -> u64
    requires { 32 ≤ length out.old }
    ensures { (result ≡ convert_code (convert_reply x)) × Spoken out.old (convert_values (convert_reply x)) out.new }
{
    match x {
        Ok(()) => {
            speak(out, one(0));
            0
        }
        Err(f) => refuse(out, f),
    }
}

// The fixed size of a table of 16 places in a lane, in bytes.
#[unsafe(no_mangle)]
pub extern "C" fn zf_old_table_size() -> u64
    ensures { result ≡ old_size }
{
    convert::OLD_SIZE as u64
}

// Takes over a table of 16 places in a lane into other bytes, as one of 64.
#[unsafe(no_mangle)]
pub extern "C" fn zf_convert(old: &[u8], table: &mut [u8], out: &mut [u8]) -> u64
    ensures { CrossesConverting old.now table.old table.new out.old result out.new }
{
    if out.len() < 32 {
        return 255;
    }
    tell_converted(out, convert::convert(old, table))
}
