// The setting block, written; and that reading and writing undo each other.

ghost use Rattle.std.specs.Prelude.{◌≡◌, ◌+◌, ◌≤◌, length};
ghost use Rattle.setting_block.specs.Layout.{Laid, end_bytes, block_of};
ghost use Rattle.setting_block.specs.Calls.{Writes};
ghost use Rattle.setting_block.specs.RoundTrip.{ReadThenWrite, WriteThenRead};

use refusal::Refusal;
use setting::{End, Setting, judging};

// Puts some bytes at a place of a block.
fn put(b: &mut [u8; 512], at: usize, piece: &[u8])
    requires { at + length piece.now ≤ 512 }
    ensures { Laid b.old at piece.now b.new }
{
    b[at..at + piece.len()].copy_from_slice(piece);
}

// Puts an end at a place.
fn put_end(b: &mut [u8; 512], at: usize, e: End)
    requires { at ≤ 500 }
    ensures { Laid b.old at (end_bytes e) b.new }
{
    put(b, at, &block::bytes_32(e.voltage));
    put(b, at + 4, &block::bytes_32(e.current));
    put(b, at + 8, &[e.group, e.filter, 0, 0]);
}

// The block of setting values.
fn block_of(v: Setting) -> [u8; 512]
    ensures { result ≡ block_of v }
{
    let mut b = [0; 512];
    put(&mut b, 0, b"TDP1");
    put(&mut b, 4, &[v.ends, v.flags, v.confirm, 0]);
    put(&mut b, 8, &block::bytes_32(v.power));
    put_end(&mut b, 12, v.e0);
    put_end(&mut b, 24, v.e1);
    put_end(&mut b, 36, v.e2);
    put_end(&mut b, 48, v.e3);
    put(&mut b, 60, &block::bytes_16(v.thresholds.basic));
    put(&mut b, 62, &block::bytes_16(v.thresholds.high));
    put(&mut b, 64, &block::bytes_16(v.thresholds.slope1));
    put(&mut b, 66, &block::bytes_16(v.thresholds.slope2));
    put(&mut b, 68, &block::bytes_16(v.thresholds.knee));
    put(&mut b, 70, &block::bytes_16(v.thresholds.second));
    put(&mut b, 72, &block::bytes_16(v.thresholds.fifth));
    put(&mut b, 74, &block::bytes_16(v.overcurrent.pickup));
    put(&mut b, 76, &[v.overcurrent.curve]);
    block::seal(b)
}

// Writes setting values as a block to the first 512 bytes of a buffer: 4 to 7, then 13.
pub fn write_setting(v: Setting, buffer: &mut [u8]) -> Result<(), Refusal>
    ensures { Writes v buffer.old result buffer.new }
{
    judging::verdict(v)?;
    if buffer.len() < 512 {
        return Err(Refusal::Room);
    }
    block::place(buffer, block_of(v));
    Ok(())
}

// Reading and writing undo each other: no code, the two statements and their proofs.
pub fn round_trip()
    ensures { ReadThenWrite × WriteThenRead }
{}
