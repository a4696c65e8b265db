// A datagram's head: the shortest datagram is no more.
ghost use Rattle.std.specs.Prelude.{◌≡◌, length};
ghost use Rattle.base.specs.Refusals.{answer};
ghost use Rattle.frame_write.specs.Head.{write_head_of, head_written_of};

use base::Refusal;

const HEAD_ID: u8 = 0x84;

// Writes 84 and the number at the start of the output.
pub fn write_head(out: &mut [u8], number: u32) -> Result<(), Refusal>
    ensures answer { answer result ≡ write_head_of (length out.old) number }
    ensures output { out.new ≡ head_written_of out.old number }
{
    if base::NUMBERS_24 <= number {
        return Err(Refusal::TooLarge);
    }
    if out.len() < base::MIN_DATAGRAM {
        return Err(Refusal::NoRoom);
    }
    let p = base::put(out, 0, HEAD_ID);
    base::put24(out, p, number);
    Ok(())
}
