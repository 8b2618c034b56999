// Mending for C.
ghost use Rattle.std.specs.Prelude.{◌≡◌};
ghost use Rattle.numbers.specs.Number.{number};
ghost use Rattle.icode.specs.Mending.{reply, mend_reply};

use numbers::Refusal;

#[unsafe(no_mangle)]
pub extern "C" fn icode_mend(
    bytes: &[u8],
    out: &mut [u8],
    places: &mut [u32],
    counts: &mut [u32],
) -> u32
    ensures { reply result out.new places.new counts.new
        ≡ mend_reply bytes.now out.old places.old counts.old }
{
    numbers::number(mend_into(bytes, out, places, counts))
}

// Mends where there is room for the two counts.
fn mend_into(
    bytes: &[u8],
    out: &mut [u8],
    places: &mut [u32],
    counts: &mut [u32],
) -> Result<(), Refusal>
    ensures { reply (number result) out.new places.new counts.new
        ≡ mend_reply bytes.now out.old places.old counts.old }
{
    record::sized(bytes)?;
    if counts.len() < 2 {
        return Err(Refusal::Room);
    }
    let mended = mend::mend(bytes, out, places)?;
    counts[0] = mended.bytes as u32;
    counts[1] = mended.dropped as u32;
    Ok(())
}
